//! The files of a case, with their sizes, and their index.
ghost use Rattle.std.specs.Prelude.{◌≡◌, IfOk};
ghost use Rattle.dev_traits.specs.Told.{WhereTold};
ghost use Rattle.frame_index.specs.Recording.{IsOnShelf, AreOnShelf};

use anyhow::{Result, bail};
use dev_traits::Shelf;
use frame_index::{FileRef, Index, IndexFault};
use num_time::Name;
use std::alloc::Global;
use vdif_frame::Shape;

/// The index of the files of these names, or why there is none.
pub fn index_of<F: Shelf>(
    alloc: Global,
    shelf: &mut F,
    names: &[String],
    shape: &Shape,
) -> Result<Result<Index, IndexFault>> {
    let files = with_sizes(alloc, shelf, names)?;
    if files.len() >= 100 {
        bail!("too many files");
    }
    Ok(Index::build(alloc, shelf, &files, shape))
}

// The files of these names, each with its size on the shelf.
fn with_sizes<F: Shelf>(alloc: Global, shelf: &mut F, names: &[String]) -> Result<Vec<FileRef>>
    ensures same { F.told shelf.new ≡ F.told shelf.old }
    ensures sizes { IfOk result (λ files. WhereTold (F.told shelf.old) (AreOnShelf files.items)) }
{
    let mut files = Vec::new(alloc);
    for name in names {
        let file = with_size(alloc, shelf, name.as_str())?;
        files.push(file)?;
    }
    Ok(files)
}

// The file of a name.
fn with_size<F: Shelf>(alloc: Global, shelf: &mut F, name: &str) -> Result<FileRef>
    ensures same { F.told shelf.new ≡ F.told shelf.old }
    ensures size { IfOk result (λ file. WhereTold (F.told shelf.old) (λ told. IsOnShelf told file)) }
{
    match shelf.size(name) {
        Ok(Some(size)) => Ok(FileRef {
            name: Name::new(alloc, name.as_bytes())?,
            size,
        }),
        Ok(None) => bail!("no file {name}"),
        Err(_) => bail!("no size of {name}"),
    }
}
