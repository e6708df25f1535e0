//! The headers of a file's slots, read in pieces.
ghost use Rattle.std.specs.Prelude.{◌≡◌, ◌≤◌, ◌<◌, ◌+◌, ◌-◌, ◌*◌, ◌/◌, ◌^◌, ◌∷◌, [], List, ℕ, length, take, drop, IfOk, OnOk, IfErr, min};
ghost use Rattle.std.specs.Str.{IsUtf8};
ghost use Rattle.dev_traits.specs.{Files.{bytes_of}, Told.{WhereTold}};
ghost use Rattle.corr_model.specs.Slots.{slot_at, placed_slot, placed_in};
ghost use Rattle.frame_index.specs.{Layouts.{IsLayoutOf}, Faults.{CountsReads, IsReadOrMemory}, Building.{Extends}, Pieces.{placed_run, IsPieceOf}};

use crate::builder::Builder;
use crate::fault::IndexFault;
use crate::frame::SlotAt;
use crate::recording::{Layout, PIECE};
use dev_traits::Shelf;
use shelf_stretch::read_stretch;
use std::alloc::AllocError;
use vdif_frame::Shape;

// Meets slot `k` of a file, of which `head` has the first bytes, 32 or all.
fn meet_head(
    builder: &mut Builder,
    shape: &Shape,
    layout: &Layout,
    file: u32,
    k: u64,
    head: &[u8],
) -> Result<(), AllocError>
    requires layout { IsLayoutOf shape.now layout.now }
    requires room { builder.old.counts.slots < 2 ^ 26 }
    requires long { length head.now ≡ layout.now.head }
    requires fits { k * layout.now.size < 2 ^ 64 }
    ensures extends { OnOk result ((bytes : List ℕ) → k < length bytes / shape.now.frame_bytes
        → take 32 (slot_at shape.now.frame_bytes bytes k) ≡ head.now
        → Extends shape.now builder.old builder.new (placed_slot shape.now.frame_bytes file bytes k ∷ [])) }
    ensures slots { OnOk result (builder.new.counts.slots ≡ builder.old.counts.slots + 1) }
{
    let at = k * layout.size as u64;
    builder.meet(shape, SlotAt { file, at }, head)
}

// Meets `n` slots of a file from slot `k` on, of which `heads` has the bytes from the first one's begin to the
// end of the last one's header.
fn meet_heads(
    builder: &mut Builder,
    shape: &Shape,
    layout: &Layout,
    file: u32,
    k: u64,
    n: u64,
    heads: &[u8],
) -> Result<(), AllocError>
    requires layout { IsLayoutOf shape.now layout.now }
    requires room { builder.old.counts.slots + n ≤ 2 ^ 26 }
    requires some { 1 ≤ n }
    requires long { length heads.now ≡ (n - 1) * layout.now.size + layout.now.head }
    requires fits { (k + n) * layout.now.size < 2 ^ 64 }
    ensures extends { OnOk result ((bytes : List ℕ) → IsPieceOf shape.now.frame_bytes bytes k n heads.now
        → Extends shape.now builder.old builder.new (placed_run shape.now.frame_bytes file bytes k n)) }
    ensures slots { OnOk result (builder.new.counts.slots ≡ builder.old.counts.slots + n) }
{
    for j in 0..n {
        let from = j as usize * layout.size;
        let head = &heads[from..from + layout.head];
        meet_head(builder, shape, layout, file, k + j, head)?;
    }
    Ok(())
}

// Reads and meets `n` slots of a file from slot `k` on.
fn meet_piece<F: Shelf>(
    shelf: &mut F,
    builder: &mut Builder,
    shape: &Shape,
    layout: &Layout,
    file: u32,
    name: &[u8],
    k: u64,
    n: u64,
    buf: &mut [u8],
) -> Result<(), IndexFault>
    requires layout { IsLayoutOf shape.now layout.now }
    requires room { builder.old.counts.slots + n ≤ 2 ^ 26 }
    requires some { 1 ≤ n }
    requires most { n ≤ layout.now.most }
    requires long { length buf.old ≡ PIECE }
    requires fits { (k + n) * layout.now.size < 2 ^ 64 }
    ensures same { F.told shelf.new ≡ F.told shelf.old }
    ensures extends { OnOk result (IsUtf8 name.now → WhereTold (F.told shelf.old)
        (λ files. k + n ≤ length (bytes_of (files name.now)) / shape.now.frame_bytes
        → Extends shape.now builder.old builder.new (placed_run shape.now.frame_bytes file (bytes_of (files name.now)) k n))) }
    ensures slots { OnOk result (builder.new.counts.slots ≡ builder.old.counts.slots + n) }
    ensures counts { CountsReads (F.faults shelf.old) (F.faults shelf.new) result }
    ensures stage { IfErr result IsReadOrMemory }
{
    let len = layout.heads_len(n);
    let heads = &mut buf[..len];
    read_stretch(shelf, name, k * layout.size as u64, heads)?;
    meet_heads(builder, shape, layout, file, k, n, heads)?;
    Ok(())
}

/// Reads and meets the first `count` slots of a file.
pub fn meet_file<F: Shelf>(
    shelf: &mut F,
    builder: &mut Builder,
    shape: &Shape,
    layout: &Layout,
    file: u32,
    name: &[u8],
    count: u64,
    buf: &mut [u8],
) -> Result<(), IndexFault>
    requires layout { IsLayoutOf shape.now layout.now }
    requires room { builder.old.counts.slots + count ≤ 2 ^ 26 }
    requires long { length buf.old ≡ PIECE }
    requires fits { count * layout.now.size < 2 ^ 64 }
    ensures same { F.told shelf.new ≡ F.told shelf.old }
    ensures extends { OnOk result (IsUtf8 name.now → WhereTold (F.told shelf.old)
        (λ files. count ≡ length (bytes_of (files name.now)) / shape.now.frame_bytes
        → Extends shape.now builder.old builder.new (placed_in shape.now.frame_bytes file (bytes_of (files name.now))))) }
    ensures slots { OnOk result (builder.new.counts.slots ≡ builder.old.counts.slots + count) }
    ensures counts { CountsReads (F.faults shelf.old) (F.faults shelf.new) result }
    ensures stage { IfErr result IsReadOrMemory }
{
    let mut k = 0;
    while k < count {
        let n = layout.most.min(count - k);
        meet_piece(shelf, builder, shape, layout, file, name, k, n, buf)?;
        k += n;
    }
    Ok(())
}
