// Which file of the system it is.
use std::fs;
use std::fs::Metadata;
use std::os::unix::fs::MetadataExt;
use std::rt::Files;

/// A file of the operating system, whatever name or link leads to it: its device and its number there.
#[derive(Clone, Copy, Debug, PartialEq, Eq)]
pub struct FileId {
    device: u64,
    inode: u64,
}

impl FileId {
    /// The file that is described so.
    pub fn new(metadata: &Metadata) -> FileId {
        FileId {
            device: metadata.dev(),
            inode: metadata.ino(),
        }
    }

    /// The file under that path; `None` where there is none.
    pub fn at<R: Files>(rt: &R, path: &str) -> Option<FileId> {
        match fs::metadata(rt, path) {
            Ok(metadata) => Some(FileId::new(&metadata)),
            Err(_) => None,
        }
    }

    /// The file that standard output is written to; `None` where the system has no `/proc`.
    pub fn of_output<R: Files>(rt: &R) -> Option<FileId> {
        FileId::at(rt, "/proc/self/fd/1")
    }
}
