//! The sums of an epoch, made by a board.
ghost use Rattle.std.specs.Prelude.{◌≡◌, ◌*◌, ◌%◌, ◌^◌, ◌<◌, ◌≤◌, ◌↔◌, All, IfOk, OnOk, IsTrue, true, length};
ghost use Rattle.piece_claim.specs.Moves.{CanDraw};
ghost use Rattle.journal_cases.specs.Group.{IsGroup};

use anyhow::{Result, bail};
use atomic_sums::{BoardSeat, EpochSums, SumBoard, Sums};
use piece_claim::laws;
use std::alloc::{AllocError, Global};

// The greatest amount of a piece, below 2^60.
const MOST: u64 = 1_152_921_504_606_846_975;

/// The sums of one piece with these amounts, 3 to 3,000 and three for each cell. Of each three `bias` is taken off the first two.
pub fn sums_of(alloc: Global, amounts: &[u64], bias: u64) -> Result<EpochSums>
    requires some { 0 < length amounts.now }
    requires few { length amounts.now ≤ 3000 }
    requires thirds { length amounts.now % 3 ≡ 0 }
    requires bias { bias < 2 ^ 62 }
    ensures { IfOk result (λ sums. 3 * length sums.cells ≡ length amounts.now) }
{
    let width = amounts.len() as u64;
    let (board, mut seat) = SumBoard::new(alloc, 1, 1, width, MOST, 1)?;
    post_piece(&board, &mut seat, amounts)?;
    end(&board, &mut seat)?;
    let sums = closed(alloc, board, seat)?;
    Ok(sums.unbias(bias))
}

// The totals of the board, by the one seat in which the piece is finished.
fn closed(alloc: Global, board: SumBoard, seat: BoardSeat) -> Result<Sums, AllocError>
    requires sizes { IsGroup board.sizes }
    requires of { seat.board ≡ board }
    requires over { seat.state.done ≡ true }
    requires shares { seat.state.shares ≡ board.sizes.shares }
    ensures { IfOk result (λ sums. (length sums.totals ≡ board.sizes.width) × All (λ t. t < 2 ^ 62) sums.totals) }
{
    laws();
    board.close(alloc, seat)
}

// The seat draws the piece, and posts these amounts.
fn post_piece(board: &SumBoard, seat: &mut BoardSeat, amounts: &[u64]) -> Result<()>
    requires of { seat.old.board ≡ board.now }
    requires idle { CanDraw seat.old.state }
    requires width { length amounts.now ≡ board.now.sizes.width }
    requires bound { board.now.sizes.bound ≡ 1152921504606846975 }
    ensures of { OnOk result (seat.new.board ≡ board.now) }
    ensures idle { OnOk result (CanDraw seat.new.state) }
    ensures shares { OnOk result (seat.new.state.shares ≡ seat.old.state.shares) }
{
    if !are_small(amounts) {
        bail!("too great a number");
    }
    if board.draw(seat).is_none() {
        bail!("no piece");
    }
    board.post(seat, amounts);
    Ok(())
}

// The seat finds that no piece is left.
fn end(board: &SumBoard, seat: &mut BoardSeat) -> Result<()>
    requires of { seat.old.board ≡ board.now }
    requires idle { CanDraw seat.old.state }
    ensures of { OnOk result (seat.new.board ≡ board.now) }
    ensures over { OnOk result (seat.new.state.done ≡ true) }
    ensures shares { OnOk result (seat.new.state.shares ≡ seat.old.state.shares) }
{
    if board.draw(seat).is_some() {
        bail!("more than one piece");
    }
    Ok(())
}

// Whether no amount is too great.
fn are_small(amounts: &[u64]) -> bool
    ensures { IsTrue result ↔ All (λ a. a ≤ 1152921504606846975) amounts.now }
{
    amounts.iter().all(|&a| a <= MOST)
}
