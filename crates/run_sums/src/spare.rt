//! Room of epochs that are over.

use crate::values::EpochValues;
use std::alloc::Global;

/// Room that epochs which are over have left: lists of bytes, of frames and of the codes of planes.
#[derive(Drop)]
pub struct Spare {
    pub(crate) codes: Vec<Vec<u8>>,
}

impl Spare {
    /// No room.
    pub fn none(alloc: Global) -> Spare {
        Spare {
            codes: Vec::new(alloc),
        }
    }

    /// Keeps the room of the planes of an epoch that is over, where there are such.
    pub fn keep(&mut self, values: Option<EpochValues>) {
        if let Some(values) = values {
            values.planes.leave(&mut self.codes);
        }
    }
}
