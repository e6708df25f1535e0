ghost use Rattle.std.specs.Prelude.{◌≡◌, ◌<◌, ◌≤◌, ◌^◌, Some, IfOk, IfSome, IsOk, IsSome, IsTrue, length, option_map};
ghost use Rattle.dev_traits.specs.{Fault.{HasRisen, Counts}, Files.{size_of, ReadsAt}, Told.{WhereTold}};
ghost use Rattle.real_devices.specs.Opened.{IsFound};

use crate::named_files::{Kind, NamedFiles};
use crate::path_name::PathName;
use crate::placed_file::{PlacedFile, read_full};
use dev_traits::{Failed, Shelf};
use std::io;
use std::marker::Model;

/// Files by name, of which the one that was looked up last stays open. `size` looks its name up anew,
/// and the reads of that name go on with what it found. A read of another name looks that up first.
///
/// A name under which there is no regular file is a fault, and so is a file whose size cannot be told;
/// a file that cannot be opened is not there. A read of a name that is not there is a fault, except
/// where `size` has just said so.
#[derive(Drop)]
pub struct FileShelf<S: NamedFiles + Drop> {
    files: S,
    last: Option<Last<S::File>>,
    faults: u64,
}

// The name that was looked up last, and its file where it is there.
#[derive(Drop)]
struct Last<F> {
    name: PathName,
    found: Option<Found<F>>,
}

// An open file, and its length when it was opened.
#[derive(Drop)]
struct Found<F> {
    file: F,
    size: u64,
}

impl<S: NamedFiles + Drop> Model for FileShelf<S> {
    ghost use Rattle.std.specs.Prelude.{IfSome, option_map};
    ghost use Rattle.dev_traits.specs.Told.{WhereTold};
    ghost use Rattle.real_devices.specs.{FileShelfState.{FileShelfState}, Opened.{IsFound}};

    ghost Value = { FileShelfState S };

    ghost view = { λ shelf. record { files = shelf.files; faults = shelf.faults } };

    ghost invariant = { λ shelf. IfSome shelf.last (λ last.
        WhereTold (S.told shelf.files) (λ files.
        IsFound S.File.told S.File.never_fails (S.never_fails shelf.files) (files last.name)
        (option_map (λ found. (found.file, found.size)) last.found))) };
}

impl<S: NamedFiles + Drop> FileShelf<S> {
    /// A shelf of these files.
    pub fn new(files: S) -> FileShelf<S>
        ensures { result ≡ record { files = files; faults = 0 } }
    {
        FileShelf {
            files,
            last: None,
            faults: 0,
        }
    }

    // Counts a fault.
    fn failed(&mut self) -> Failed
        ensures files { self.new.files ≡ self.old.files }
        ensures risen { HasRisen self.old.faults self.new.faults }
        ensures no_fall { self.old.faults ≤ self.new.faults }
    {
        self.faults = self.faults.saturating_add(1);
        Failed
    }

    // Opens the file of that name; `None` where it is not there.
    fn look_up(&mut self, name: &str) -> Result<Option<Found<S::File>>, Failed>
        ensures same { S.told self.new.files ≡ S.told self.old.files }
        ensures steady { S.never_fails self.new.files ≡ S.never_fails self.old.files }
        ensures counts { Counts self.old.faults self.new.faults result }
        ensures bound { IfOk result (λ found. IfSome found (λ it. it.size < 2 ^ 63)) }
        ensures found { IfOk result (λ found. WhereTold (S.told self.old.files) (λ files.
            IsFound S.File.told S.File.never_fails (S.never_fails self.old.files) (files name.now)
            (option_map (λ it. (it.file, it.size)) found))) }
        ensures answers { IsTrue (S.never_fails self.old.files) →
            WhereTold (S.told self.old.files) (λ files. IsSome (files name.now) → IsOk result) }
    {
        match self.files.kind(name) {
            Kind::Missing => return Ok(None),
            Kind::Other => return Err(self.failed()),
            Kind::Regular => {}
        }
        let Some(mut file) = self.files.open(name) else {
            return Ok(None);
        };
        let Ok(size) = file.size() else {
            return Err(self.failed());
        };
        Ok(Some(Found { file, size }))
    }

    // Takes what was found under that name, where it was looked up last, and else looks it up.
    fn found(&mut self, name: &str) -> Result<Option<Found<S::File>>, Failed>
        ensures same { S.told self.new.files ≡ S.told self.old.files }
        ensures steady { S.never_fails self.new.files ≡ S.never_fails self.old.files }
        ensures counts { Counts self.old.faults self.new.faults result }
        ensures found { IfOk result (λ found. WhereTold (S.told self.old.files) (λ files.
            IsFound S.File.told S.File.never_fails (S.never_fails self.old.files) (files name.now)
            (option_map (λ it. (it.file, it.size)) found))) }
        ensures answers { IsTrue (S.never_fails self.old.files) →
            WhereTold (S.told self.old.files) (λ files. IsSome (files name.now) → IsOk result) }
    {
        if let Some(last) = self.last.take() {
            if last.name.is(name) {
                return Ok(last.found);
            }
        }
        match self.look_up(name)? {
            Some(found) => Ok(Some(found)),
            None => Err(self.failed()),
        }
    }
}

impl<F: Drop> Last<F> {
    fn new(name: &str, found: Option<Found<F>>) -> Option<Last<F>>
        ensures name { IfSome result (λ last. last.name ≡ name.now) }
        ensures found { IfSome result (λ last. last.found ≡ found) }
    {
        let name = PathName::new(name)?;
        Some(Last { name, found })
    }
}

impl<F: PlacedFile> Found<F> {
    // Reads the file as far as it went when it was opened.
    fn read(&mut self, at: u64, buf: &mut [u8]) -> io::Result<usize>
        ensures size { self.new.size ≡ self.old.size }
        ensures same { F.told self.new.file ≡ F.told self.old.file }
        ensures steady { F.never_fails self.new.file ≡ F.never_fails self.old.file }
        ensures within { IfOk result (λ n. n ≤ length buf.old) }
        ensures read { IfOk result (λ n. WhereTold (F.told self.old.file)
            (λ bytes. self.old.size ≡ length bytes → ReadsAt (Some bytes) at buf.old n buf.new)) }
        ensures answers { IsTrue (F.never_fails self.old.file) → IsOk result }
    {
        if at >= self.size {
            return Ok(0);
        }
        let want = buf.len().min((self.size - at) as usize);
        read_full(&mut self.file, at, &mut buf[..want])
    }
}

impl<S: NamedFiles + Drop> Shelf for FileShelf<S> {
    ghost told = { λ shelf. S.told shelf.files };

    ghost faults = { λ shelf. shelf.faults };

    fn size(&mut self, name: &str) -> Result<Option<u64>, Failed>
        ensures same { S.told self.new.files ≡ S.told self.old.files }
        ensures bound { IfOk result (λ size. IfSome size (λ n. n < 2 ^ 63)) }
        ensures size { IfOk result (λ size.
            WhereTold (S.told self.old.files) (λ files. size ≡ size_of (files name.now))) }
        ensures counts { Counts self.old.faults self.new.faults result }

        // Where no call of a file fails, the size of a file that is there is told.
        ensures answers { IsTrue (S.never_fails self.old.files) →
            WhereTold (S.told self.old.files) (λ files. IsSome (files name.now) → IsOk result) }
    {
        self.last = None;
        let found = self.look_up(name)?;
        let size = match &found {
            Some(found) => Some(found.size),
            None => None,
        };
        self.last = Last::new(name, found);
        Ok(size)
    }

    fn read_at(&mut self, name: &str, at: u64, buf: &mut [u8]) -> Result<usize, Failed>
        ensures same { S.told self.new.files ≡ S.told self.old.files }
        ensures within { IfOk result (λ n. n ≤ length buf.old) }
        ensures read { IfOk result (λ n. WhereTold (S.told self.old.files)
            (λ files. ReadsAt (files name.now) at buf.old n buf.new)) }
        ensures counts { Counts self.old.faults self.new.faults result }

        // Where no call of a file fails, a file that is there is read.
        ensures answers { IsTrue (S.never_fails self.old.files) →
            WhereTold (S.told self.old.files) (λ files. IsSome (files name.now) → IsOk result) }
    {
        let mut found = self.found(name)?;
        let read = match &mut found {
            Some(found) => found.read(at, buf),
            None => Ok(0),
        };
        self.last = Last::new(name, found);
        match read {
            Ok(n) => Ok(n),
            Err(_) => Err(self.failed()),
        }
    }
}
