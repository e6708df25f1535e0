//! A file of a shelf.
ghost use Rattle.std.specs.Prelude.{◌≡◌, ◌+◌, Some};

use dev_traits::{Disk, Failed, Shelf};

/// A file of a shelf, by its name and its length in bytes. A call that would change it fails, and counts as a fault of the file alone.
#[derive(Drop)]
pub struct ShelfFile<'a, F> {
    shelf: &'a mut F,
    name: &'a str,
    size: u64,
    changes: u64,
}

impl<'a, F: Shelf> ShelfFile<'a, F> {
    /// The file of that name, which has this length where the shelf tells its content.
    pub fn new(shelf: &'a mut F, name: &'a str, size: u64) -> ShelfFile<'a, F>
        ensures same_reference { result.shelf.ghost_name ≡ shelf.entry.ghost_name }
        ensures shelf { result.shelf.now ≡ shelf.old }
        ensures name { result.name.now ≡ name.now }
        ensures size { result.size ≡ size }
        ensures none { result.changes ≡ 0 }
    {
        ShelfFile {
            shelf,
            name,
            size,
            changes: 0,
        }
    }
}

impl<'a, F: Shelf> Disk for ShelfFile<'a, F> {
    ghost use Rattle.shelf_file.specs.{Seen.{seen_of, Stays}, Laws.{seen_is_image, image_is_told, image_is_short, Stays-goes_on}};

    ghost seen = { λ file. seen_of F.told file };

    ghost moment = { λ _. 0 };

    ghost may_leave = { λ file _ image. seen_of F.told file ≡ Some image };

    ghost faults = { λ file. F.faults file.shelf.now + file.changes };

    ghost stays = { λ old new. Stays F.told old new };

    ghost stays_on = { Stays-goes_on F.told };

    ghost seen_is_image = { λ file. seen_is_image (seen_of F.told file) };

    ghost images_are_told = { λ file _ image. image_is_told (seen_of F.told file) image };

    ghost images_are_short = { λ file _ image _. image_is_short (F.told file.shelf.now) file.name.now file.size image };

    fn len(&mut self) -> Result<u64, Failed> {
        Ok(self.size.min(i64::MAX as u64))
    }

    fn read_at(&mut self, at: u64, buf: &mut [u8]) -> Result<usize, Failed> {
        self.shelf.read_at(self.name, at, buf)
    }

    fn write_at(&mut self, _at: u64, _bytes: &[u8]) -> Result<(), Failed> {
        self.changes = self.changes.saturating_add(1);
        Err(Failed)
    }

    fn cut(&mut self, _len: u64) -> Result<(), Failed> {
        self.changes = self.changes.saturating_add(1);
        Err(Failed)
    }

    fn sync(&mut self) -> Result<(), Failed> {
        Ok(())
    }
}
