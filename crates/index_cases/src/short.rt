//! A shelf that gives less than it says, or little at a time.
ghost use Rattle.std.specs.Prelude.{None};

use dev_traits::{Failed, Shelf};

/// Files in memory. Of the file under `cut` reads give the first `gives` bytes, though its size is that of the whole, and
/// no read gives more than `most` bytes. It tells nothing.
#[derive(Drop)]
pub struct ShortShelf {
    pub files: Vec<(String, Vec<u8>)>,
    pub cut: String,
    pub gives: usize,
    pub most: usize,
}

impl ShortShelf {
    // The bytes of the first file of a name.
    fn bytes(&self, name: &str) -> &[u8] {
        for (key, bytes) in &self.files {
            if key.as_str() == name {
                return bytes.as_slice();
            }
        }
        &[]
    }

    // How many bytes of a file of this length reads give.
    fn given(&self, name: &str, len: usize) -> usize {
        if name == self.cut.as_str() {
            len.min(self.gives)
        } else {
            len
        }
    }
}

impl Shelf for ShortShelf {
    ghost told = { λ _. None };

    ghost faults = { λ _. 0 };

    fn size(&mut self, name: &str) -> Result<Option<u64>, Failed> {
        Ok(Some(self.bytes(name).len() as u64))
    }

    fn read_at(&mut self, name: &str, at: u64, buf: &mut [u8]) -> Result<usize, Failed> {
        let bytes = self.bytes(name);
        let given = bytes.get(..self.given(name, bytes.len())).unwrap_or(bytes);
        let left = given.get(at as usize..).unwrap_or(&[]);
        let n = left.len().min(buf.len()).min(self.most);
        buf[..n].copy_from_slice(&left[..n]);
        Ok(n)
    }
}
