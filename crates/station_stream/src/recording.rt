//! A station's recording.
use frame_index::{FileRef, Index};
use item_list::ItemList;

/// The files of a station, in their order, and the index of their frames.
#[derive(Drop)]
pub struct Recording {
    pub files: ItemList<FileRef>,
    pub index: Index,
}
