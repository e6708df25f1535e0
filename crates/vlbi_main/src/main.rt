//! The program `vlbi`: the devices of the operating system, and one call of `run` over them. Its first
//! word is the path of the journal; the other words are the command's. Standard output gets the
//! records, standard error a refusal's line, and the exit status is the call's. Where one of the
//! standard streams is closed, no file of the program's gets its number. Neither the journal nor what
//! standard output goes to is read as anything else.
#![tactic(auto)]

use mem_devices::OpenGate;
use real_devices::{FileDisk, FileId, FileShelf, HeldStreams, StdSink, SystemFiles};
use run_notes::{Refusal, status, write_note};
use run_words::WordsFault;
use std::env;
use std::io::ErrorKind;
use std::process::ExitCode;
use vlbi_core::run;

/// What the journal's file of a job has behind its head gate, and before its version.
const JOB_MARK: [u8; 7] = *b"VLBIJRN";

/// The same of a part of a job.
const PART_MARK: [u8; 7] = *b"VLBISHD";

fn main(rt: HostRuntime) -> ExitCode {
    let _held = HeldStreams::new(&rt);
    let mut notes = StdSink::new(rt.stderr());
    match words(&rt) {
        Ok((path, words)) => {
            let output = FileId::of_output(&rt);
            let written = [FileId::at(&rt, path.as_str()), output];
            let mut shelf = FileShelf::new(SystemFiles::new(&rt, written));
            let mut journal = FileDisk::new(&rt, path, mark_of(&words), output);
            let mut out = StdSink::new(rt.stdout());
            ExitCode::from(run(
                &rt,
                rt.alloc(),
                &words,
                &mut shelf,
                &mut journal,
                &mut out,
                &mut notes,
                &OpenGate::new(),
            ))
        }
        Err(refusal) => {
            let _ = write_note(&refusal, &mut notes);
            ExitCode::from(status(&refusal))
        }
    }
}

// The journal's path and the words behind it; the program's name stands before them. A word that is no text is no option.
fn words(rt: &HostRuntime) -> Result<(String, Vec<String>), Refusal> {
    match env::args(rt) {
        Ok(mut all) => {
            let _ = all.next();
            let path = match all.next() {
                Some(path) => path,
                None => String::new(rt.alloc()),
            };
            Ok((path, all.collect(rt.alloc())?))
        }
        Err(error) if error.kind() == ErrorKind::OutOfMemory => Err(Refusal::Memory),
        Err(_) => Err(Refusal::Words(WordsFault::Option)),
    }
}

// The mark of the journal that the words of a command write to.
fn mark_of(words: &[String]) -> [u8; 7] {
    match words.first() {
        Some(command) if command.as_str() == "shard" => PART_MARK,
        _ => JOB_MARK,
    }
}
