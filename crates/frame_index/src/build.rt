//! The index of a station's files.
ghost use Rattle.std.specs.Prelude.{◌≡◌, ◌≤◌, ◌<◌, ◌+◌, ◌^◌, ◌↔◌, None, List, ℕ, map, length, IfOk, IfErr, OnOk};
ghost use Rattle.dev_traits.specs.Told.{WhereTold};
ghost use Rattle.corr_model.specs.Slots.{Slot, placed_from, slots_of};
ghost use Rattle.frame_index.specs.{Faults.{CountsReads, IsReadOrMemory, IsFieldOf}, Foreign.{foreign_field}, Indexed.{IsIndexOf}, Layouts.{IsLayoutOf}, Building.{Extends}};
ghost use Rattle.frame_index.specs.Recording.{AreOnShelf, slots_on, bytes_on, slot_total};

use crate::builder::Builder;
use crate::fault::IndexFault;
use crate::heads::meet_file;
use crate::index::Index;
use crate::recording::{FileRef, Layout, PIECE, count_slots};
use dev_traits::Shelf;
use std::alloc::Global;
use vdif_frame::Shape;

// The slots that an index may have.
const MOST_SLOTS: u64 = 1 << 26;

// Reads and meets the slots of all files.
fn meet_files<F: Shelf>(
    shelf: &mut F,
    builder: &mut Builder,
    shape: &Shape,
    layout: &Layout,
    files: &[FileRef],
    buf: &mut [u8],
) -> Result<(), IndexFault>
    requires layout { IsLayoutOf shape.now layout.now }
    requires few { length files.now < 2 ^ 32 }
    requires room { builder.old.counts.slots + slot_total shape.now files.now ≤ 2 ^ 26 }
    requires long { length buf.old ≡ PIECE }
    ensures same { F.told shelf.new ≡ F.told shelf.old }
    ensures extends { OnOk result (WhereTold (F.told shelf.old) (λ told. AreOnShelf files.now told
        → Extends shape.now builder.old builder.new (slots_on told shape.now files.now))) }
    ensures slots { OnOk result (builder.new.counts.slots ≡ builder.old.counts.slots + slot_total shape.now files.now) }
    ensures counts { CountsReads (F.faults shelf.old) (F.faults shelf.new) result }
    ensures stage { IfErr result IsReadOrMemory }
{
    for (i, file) in files.iter().enumerate() {
        let count = file.size / layout.size as u64;
        meet_file(
            shelf,
            builder,
            shape,
            layout,
            i as u32,
            file.name.bytes(),
            count,
            buf,
        )?;
    }
    Ok(())
}

impl Index {
    /// The index of a station's files, in this order, for frames of a shape. No read is made where the files'
    /// sizes say that there are more than 2^26 slots. A shelf that gives fewer bytes than a file's size says is
    /// taken to have zeros in their place.
    pub fn build<F: Shelf>(
        alloc: Global,
        shelf: &mut F,
        files: &[FileRef],
        shape: &Shape,
    ) -> Result<Index, IndexFault>
        requires few { length files.now < 2 ^ 32 }
        requires sizes { WhereTold (F.told shelf.old) (AreOnShelf files.now) }

        ensures same { F.told shelf.new ≡ F.told shelf.old }
        ensures index { IfOk result (λ index. WhereTold (F.told shelf.old)
            (λ told. IsIndexOf shape.now (slots_on told shape.now files.now) index)) }
        ensures slots { IfOk result (λ index. index.counts.slots ≡ slot_total shape.now files.now) }

        ensures some_agrees { IfOk result (λ _. WhereTold (F.told shelf.old)
            (λ told. foreign_field shape.now (slots_of shape.now.frame_bytes (bytes_on told files.now)) ≡ None)) }
        ensures none_agrees { IfErr result (λ fault. WhereTold (F.told shelf.old)
            (λ told. IsFieldOf (foreign_field shape.now (slots_of shape.now.frame_bytes (bytes_on told files.now))) fault)) }
        ensures too_many { (result ≡ Err IndexFault.TooManySlots) ↔ (2 ^ 26 < slot_total shape.now files.now) }
        ensures unread { result ≡ Err IndexFault.TooManySlots → shelf.new ≡ shelf.old }
        ensures counts { CountsReads (F.faults shelf.old) (F.faults shelf.new) result }
    {
        let layout = Layout::of(shape);
        let Some(slots) = count_slots(files, layout.size as u64, MOST_SLOTS) else {
            return Err(IndexFault::TooManySlots);
        };
        let mut builder = Builder::new(alloc, slots)?;
        let mut buf = vec![in alloc; 0u8; PIECE]?;
        match meet_files(shelf, &mut builder, shape, &layout, files, &mut buf) {
            Ok(()) => Index::finish(builder),
            Err(fault) => Err(fault),
        }
    }
}
