//! What the lines ask.

use crate::calls::{
    Called, Device, Faults, Given, Refused, call, call_meeting, call_noted, call_refused,
};
use anyhow::{Context, Result, bail};
use case_answers::{Answer, print_journal, print_told};
use case_files::CaseFiles;
use std::alloc::Global;
use std::thread::Threads;
use std::time::Clock;

/// The files and the journal that the lines have described, and what the last case has besides: its name, and the bytes that the output
/// takes in one write.
#[derive(Drop)]
pub struct Cases {
    alloc: Global,
    files: CaseFiles,
    name: String,
    most: usize,
}

impl Cases {
    pub fn new(alloc: Global) -> Cases {
        Cases {
            alloc,
            files: CaseFiles::new(alloc),
            name: String::new(alloc),
            most: 1_000_000,
        }
    }

    /// Reads a line, and prints the answer where it asks for a call.
    pub fn read<R: Print + Threads + Clock + Sync>(
        &mut self,
        rt: &R,
        word: &str,
        rest: &str,
    ) -> Result<()> {
        match word {
            "case" => self.begin(rest)?,
            "most" => self.most = rest.parse::<usize>()?,
            "call" => self.call_once(rt, rest)?,
            "count" => self.call_counted(rt, rest)?,
            "meets" => self.call_meeting(rt, rest)?,
            "told" => self.call_noted(rt, rest)?,
            "show" => print_journal(rt, self.alloc, &self.name, self.files.journal())?,
            "keep" => self.files.keep_journal(rest)?,
            "reads" => self.call_with_each_failing(rt, Device::Shelf, rest)?,
            "writes" => self.call_with_each_failing(rt, Device::Output, rest)?,
            "disk" => self.call_with_disk_failing(rt, rest)?,
            "stops" => self.call_stopped(rt, rest)?,
            "runs" => self.call_as_plain(rt, rest)?,
            "left" => self.call_with_journals_left(rt, rest)?,
            "stop" => self.call_with_one_failing(rt, Device::Output, rest)?,
            "fail" => self.call_with_one_failing(rt, Device::Disk, rest)?,
            "broken" => self.call_on_broken_shelf(rt, rest)?,
            "refused" => self.call_with_one_refused(rt, rest)?,
            "cuts" => self.call_over_fronts(rt, rest)?,
            _ => self.files.read(word, rest)?,
        }
        Ok(())
    }

    // Another case, which has only the files of all cases, and a journal of no bytes.
    fn begin(&mut self, name: &str) -> Result<()> {
        self.name = String::from_str(self.alloc, name)?;
        self.files.begin();
        self.most = 1_000_000;
        Ok(())
    }

    // The call with these words over a journal, with these calls of the devices failing.
    fn called_on<R: Print + Threads + Sync>(
        &self,
        rt: &R,
        line: &str,
        journal: &[u8],
        faults: Faults,
    ) -> Result<Called> {
        let words = words_of(self.alloc, line)?;
        let given = Given {
            words: &words,
            files: self.files.all()?,
            journal,
        };
        call(rt, self.alloc, given, faults)
    }

    // The answer over the case's journal, which stays as it is.
    fn answer<R: Print + Threads + Sync>(
        &self,
        rt: &R,
        line: &str,
        faults: Faults,
    ) -> Result<Answer> {
        Ok(
            self.called_on(rt, line, self.files.journal(), faults)?
                .answer,
        )
    }

    // The answer over a journal where no call fails.
    fn answer_over<R: Print + Threads + Sync>(
        &self,
        rt: &R,
        line: &str,
        journal: &[u8],
    ) -> Result<Answer> {
        let none = Faults::none(self.alloc, self.most);
        Ok(self.called_on(rt, line, journal, none)?.answer)
    }

    // The answer where no call fails, over the case's journal, which stays as it is.
    fn whole<R: Print + Threads + Sync>(&self, rt: &R, line: &str) -> Result<Answer> {
        self.answer_over(rt, line, self.files.journal())
    }

    // The call over the case's journal, which is what it leaves from then on.
    fn called<R: Print + Threads + Sync>(&mut self, rt: &R, line: &str) -> Result<Called> {
        let faults = Faults::none(self.alloc, self.most);
        let called = self.called_on(rt, line, self.files.journal(), faults)?;
        self.files
            .set_journal(called.disk.bytes().to_vec(self.alloc)?);
        Ok(called)
    }

    fn call_once<R: Print + Threads + Sync>(&mut self, rt: &R, line: &str) -> Result<()> {
        print!(rt; "{}:", self.name)?;
        self.called(rt, line)?.answer.print(rt, self.alloc)
    }

    // A call, and before its answer how many pieces were worked on.
    fn call_counted<R: Print + Threads + Sync>(&mut self, rt: &R, line: &str) -> Result<()> {
        let called = self.called(rt, line)?;
        print!(rt; "{}, {} pieces:", self.name, called.pieces)?;
        called.answer.print(rt, self.alloc)
    }

    // A call with a read past a byte, whose number stands before the words, and the first piece waiting for one another, and before
    // its answer whether they met.
    fn call_meeting<R: Print + Threads + Sync>(&self, rt: &R, rest: &str) -> Result<()> {
        let (from, line) = rest.split_once(' ').context("a number and words")?;
        let from = from.parse::<u64>()?;
        let words = words_of(self.alloc, line)?;
        let (answer, met) = call_meeting(rt, self.alloc, &words, self.files.all()?, from)?;
        print!(rt; "{}, met {met}:", self.name)?;
        answer.print(rt, self.alloc)
    }

    // A call over a journal of its own, with a gate that holds as many pieces as the number before the words, and before its answer
    // what the gate was told.
    fn call_noted<R: Print + Threads + Clock + Sync>(&self, rt: &R, rest: &str) -> Result<()> {
        let (together, line) = rest.split_once(' ').context("a number and words")?;
        let together = together.parse::<u64>()?;
        let words = words_of(self.alloc, line)?;
        let (answer, told) = call_noted(rt, self.alloc, &words, self.files.all()?, together)?;
        print!(rt; "{}, told", self.name)?;
        print_told(rt, self.alloc, &told)?;
        print!(rt; ":")?;
        answer.print(rt, self.alloc)
    }

    // A call with one call of a device failing, whose number stands before the words.
    fn call_with_one_failing<R: Print + Threads + Sync>(
        &self,
        rt: &R,
        device: Device,
        rest: &str,
    ) -> Result<()> {
        let (number, line) = rest.split_once(' ').context("a number and words")?;
        let faults = Faults::one(self.alloc, self.most, device, number.parse::<u64>()?)?;
        print!(rt; "{}, {} {number} failing:", self.name, device.call_name())?;
        self.answer(rt, line, faults)?.print(rt, self.alloc)
    }

    // A call with all calls of the shelf failing from that on whose number stands before the words, up to the thousandth.
    fn call_on_broken_shelf<R: Print + Threads + Sync>(&self, rt: &R, rest: &str) -> Result<()> {
        let (number, line) = rest.split_once(' ').context("a number and words")?;
        let mut faults = Faults::none(self.alloc, self.most);
        for number in number.parse::<u64>()?..1000 {
            faults.reads.push(number)?;
        }
        print!(rt; "{}, reads from {number} on failing:", self.name)?;
        self.answer(rt, line, faults)?.print(rt, self.alloc)
    }

    // A call behind so many allocations, in a program one of which is refused: where that came, and where not before or behind the
    // call the second one over what it left.
    fn call_with_one_refused<R: Print + Threads + Sync>(&self, rt: &R, rest: &str) -> Result<()> {
        let (times, rest) = rest.split_once(' ').context("a number and words")?;
        let (first, then) = rest.split_once(" => ").unwrap_or((rest, ""));
        match self.refused(rt, first, times.parse::<u64>()?)? {
            Refused::Before(times) => println!(rt; "{}, before {times}", self.name)?,
            Refused::Behind(times, answer) => {
                print!(rt; "{}, behind {times}:", self.name)?;
                answer.print(rt, self.alloc)?;
            }
            Refused::Elsewhere {
                answer,
                journal,
                output,
                disk,
            } => {
                print!(rt; "{}, journal {journal}, output {output}:", self.name)?;
                answer.print(rt, self.alloc)?;
                if !then.is_empty() {
                    self.call_then(rt, then, disk.bytes())?;
                }
            }
        }
        Ok(())
    }

    // A call behind so many allocations, in a program one of which is refused.
    fn refused<R: Print + Threads + Sync>(
        &self,
        rt: &R,
        line: &str,
        times: u64,
    ) -> Result<Refused> {
        let words = words_of(self.alloc, line)?;
        let given = Given {
            words: &words,
            files: self.files.all()?,
            journal: self.files.journal(),
        };
        call_refused(rt, self.alloc, given, times)
    }

    // The call over what another left of the journal.
    fn call_then<R: Print + Threads + Sync>(&self, rt: &R, line: &str, left: &[u8]) -> Result<()> {
        let answer = self.answer_over(rt, line, left)?;
        print!(rt; "{}, and then:", self.name)?;
        answer.print(rt, self.alloc)
    }

    // The call again and again, with one call of a device failing after the other, until the answer is that without.
    fn call_with_each_failing<R: Print + Threads + Sync>(
        &self,
        rt: &R,
        device: Device,
        line: &str,
    ) -> Result<()> {
        let whole = self.whole(rt, line)?;
        for number in 0..MOST_CALLS {
            let faults = Faults::one(self.alloc, self.most, device, number)?;
            let answer = self.answer(rt, line, faults)?;
            if answer == whole {
                return self.print_end(rt, device.call_name(), number, &whole);
            }
            if !is_fault_of(device, line, &answer, &whole) {
                print!(rt; "{}, {} {number} failing:", self.name, device.call_name())?;
                answer.print(rt, self.alloc)?;
            }
        }
        bail!("too many calls of a device")
    }

    // The same for the journal's disk; behind each fault the call is made once more, over what it left.
    fn call_with_disk_failing<R: Print + Threads + Sync>(&self, rt: &R, line: &str) -> Result<()> {
        let whole = self.whole(rt, line)?;
        for number in 0..MOST_CALLS {
            let faults = Faults::one(self.alloc, self.most, Device::Disk, number)?;
            let called = self.called_on(rt, line, self.files.journal(), faults)?;
            if called.answer == whole {
                return self.print_end(rt, "disk call", number, &whole);
            }
            self.print_unlike(rt, line, Device::Disk, number, &called, &whole)?;
        }
        bail!("too many calls of the disk")
    }

    // The first call with one call of a device failing after the other until it is done, and behind each fault the second call over
    // the journal that is left, and then the first one. What the second ones answer is printed, each answer once.
    fn call_with_journals_left<R: Print + Threads + Sync>(&self, rt: &R, rest: &str) -> Result<()> {
        let (device, rest) = rest.split_once(' ').context("a device and calls")?;
        let (line, second) = rest.split_once(" => ").context("two calls")?;
        let device = Device::named(device)?;
        let whole = self.whole(rt, line)?;
        let mut seen = Vec::new(self.alloc);
        for number in 0..MOST_CALLS {
            let faults = Faults::one(self.alloc, self.most, device, number)?;
            let called = self.called_on(rt, line, self.files.journal(), faults)?;
            if called.answer == whole {
                return self.print_end(rt, device.call_name(), number, &whole);
            }
            self.print_left(rt, second, device, called.disk.bytes(), &mut seen)?;
            self.print_unlike(rt, line, device, number, &called, &whole)?;
        }
        bail!("too many calls of a device")
    }

    // What the call answers over the journal that a device's fault has left, unless it was seen.
    fn print_left<R: Print + Threads + Sync>(
        &self,
        rt: &R,
        line: &str,
        device: Device,
        left: &[u8],
        seen: &mut Vec<Answer>,
    ) -> Result<()> {
        let answer = self.answer_over(rt, line, left)?;
        if !seen.contains(&answer) {
            print!(rt; "{}, left by a {} failing:", self.name, device.call_name())?;
            answer.print(rt, self.alloc)?;
            seen.push(answer)?;
        }
        Ok(())
    }

    // What the call answers with a call of a device failing, and then over what that left, unless they are a fault of the device and
    // the whole answer.
    fn print_unlike<R: Print + Threads + Sync>(
        &self,
        rt: &R,
        line: &str,
        device: Device,
        number: u64,
        called: &Called,
        whole: &Answer,
    ) -> Result<()> {
        let again = self.answer_over(rt, line, called.disk.bytes())?;
        if !is_fault_of(device, line, &called.answer, whole) || again != *whole {
            print!(rt; "{}, {} {number} failing:", self.name, device.call_name())?;
            self.print_both(rt, &called.answer, &again)?;
        }
        Ok(())
    }

    // The first call with the disk stopped after each number of its calls until it is done, and for each what a crash may leave:
    // the first command's epochs kept, and the second call over it.
    fn call_stopped<R: Print + Threads + Sync>(&self, rt: &R, rest: &str) -> Result<()> {
        let (first, then) = rest.split_once(" => ").context("two calls")?;
        let whole = self.whole(rt, first)?;
        for stop in 0..MOST_CALLS {
            if self.stopped_at(rt, first, then, stop, &whole)? {
                print!(rt; "{}, each stop: done again, then", self.name)?;
                return whole.print(rt, self.alloc);
            }
        }
        bail!("too many stops")
    }

    // The first call with the disk stopped, and whether it was done.
    fn stopped_at<R: Print + Threads + Sync>(
        &self,
        rt: &R,
        first: &str,
        then: &str,
        stop: u64,
        whole: &Answer,
    ) -> Result<bool> {
        for fill in [0, 1, 7] {
            for long in [false, true] {
                let mut faults = Faults::none(self.alloc, self.most);
                faults.stop = Some(stop);
                let called = self.called_on(rt, first, self.files.journal(), faults)?;
                if called.answer == *whole {
                    return Ok(true);
                }
                let image = called.disk.crash(self.alloc, fill, long)?;
                let again = self.answer_over(rt, then, image.bytes())?;
                if !called.answer.is_journal_fault(&whole.output) || again != *whole {
                    print!(rt; "{}, stopped after {stop} calls, fill {fill}:", self.name)?;
                    self.print_both(rt, &called.answer, &again)?;
                }
            }
        }
        Ok(false)
    }

    // The answer to a call, and what is answered then.
    fn print_both(&self, rt: &impl Print, first: &Answer, then: &Answer) -> Result<()> {
        first.print(rt, self.alloc)?;
        print!(rt; "{}, and then:", self.name)?;
        then.print(rt, self.alloc)
    }

    // The call over each front of a file of the case, whose name stands before the words, and over the whole file. Where a merge does not
    // say of a front that it is no journal of a part at its end, the answer is printed.
    fn call_over_fronts<R: Print + Threads + Sync>(&self, rt: &R, rest: &str) -> Result<()> {
        let (file, line) = rest.split_once(' ').context("a file and words")?;
        let image = self.files.file(file).context("no such file")?;
        for length in 0..image.len() {
            let front = image.get(..length).context("a front")?;
            self.print_front(rt, line, file, front)?;
        }
        print!(rt;
            "{}, other fronts of {file}: NotShard at their ends, then",
            self.name
        )?;
        self.whole(rt, line)?.print(rt, self.alloc)
    }

    // The same over one front.
    fn print_front<R: Print + Threads + Sync>(
        &self,
        rt: &R,
        line: &str,
        file: &str,
        front: &[u8],
    ) -> Result<()> {
        let answer = self.answer_with(rt, line, file, front)?;
        let length = front.len();
        let note = format!(in self.alloc; "vlbi: merge: NotShard {file} at byte {length}\n")?;
        if !answer.is_fault(14, note.as_str().as_bytes(), &[]) {
            print!(rt; "{}, {length} bytes of {file}:", self.name)?;
            answer.print(rt, self.alloc)?;
        }
        Ok(())
    }

    // The answer where a file of this name has these bytes.
    fn answer_with<R: Print + Threads + Sync>(
        &self,
        rt: &R,
        line: &str,
        file: &str,
        bytes: &[u8],
    ) -> Result<Answer> {
        let words = words_of(self.alloc, line)?;
        let given = Given {
            words: &words,
            files: self.files.all_behind(file, bytes)?,
            journal: self.files.journal(),
        };
        let none = Faults::none(self.alloc, self.most);
        Ok(call(rt, self.alloc, given, none)?.answer)
    }

    // The calls of `run` with these options, by 1, 3 and 64 workers and pieces of 64, 65, 127 and 4,194,304 samples, each over a
    // journal of its own: where all answer as `plain` does that is said, and the answer.
    fn call_as_plain<R: Print + Threads + Sync>(&self, rt: &R, options: &str) -> Result<()> {
        let line = self.joined("|plain", options, "")?;
        let whole = self.whole(rt, &line)?;
        for workers in [1u32, 3, 64] {
            for piece in [64u32, 65, 127, 4_194_304] {
                let mut last = String::from_str(self.alloc, "|--workers|")?;
                last.push_str(&format!(in self.alloc; "{workers}|--piece|{piece}")?)?;
                let line = self.joined("|run", options, &last)?;
                let answer = self.answer_over(rt, &line, &[])?;
                if answer != whole {
                    print!(rt; "{}, {line}:", self.name)?;
                    answer.print(rt, self.alloc)?;
                }
            }
        }
        print!(rt; "{}, by each run:", self.name)?;
        whole.print(rt, self.alloc)
    }

    // Three texts as one.
    fn joined(&self, first: &str, second: &str, third: &str) -> Result<String> {
        let mut text = String::from_str(self.alloc, first)?;
        text.push_str(second)?;
        text.push_str(third)?;
        Ok(text)
    }

    // What came where the last call failed that there is, and the answer behind it.
    fn print_end(&self, rt: &impl Print, what: &str, number: u64, whole: &Answer) -> Result<()> {
        let faults = if number == 0 { "none" } else { "faults" };
        print!(rt; "{}, each {what} failing: {faults}, then", self.name)?;
        whole.print(rt, self.alloc)
    }
}

// More calls of a device than a case makes.
const MOST_CALLS: u64 = 100_000;

// Whether a call with these words is answered as a fault of this device. Where `run` fails to read, nothing is appended.
fn is_fault_of(device: Device, line: &str, answer: &Answer, whole: &Answer) -> bool {
    let is_run = line.starts_with("|run");
    match device {
        Device::Shelf if is_run => answer.is_fault(7, b"vlbi: read fault\n", &[]),
        Device::Shelf => answer.is_fault(7, b"vlbi: read fault\n", &whole.output),
        Device::Disk => answer.is_journal_fault(&whole.output),
        Device::Output => answer.is_fault(9, b"vlbi: write fault\n", &whole.output),
    }
}

// The words of a call, each behind a bar.
fn words_of(alloc: Global, line: &str) -> Result<Vec<String>> {
    let mut words = Vec::new(alloc);
    for word in line.split('|').skip(1) {
        words.push(String::from_str(alloc, word)?)?;
    }
    Ok(words)
}
