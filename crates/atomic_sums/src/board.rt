//! The board and its seats.
ghost use Rattle.std.specs.Prelude.{◌≡◌, ℕ, ◌+◌, ◌*◌, ◌/◌, ◌<◌, ◌≤◌, ◌^◌, [], true, false, None, Some, All, IfOk, IsSome, MatchOption, length, replicate, slice_index, slice_get, map, drop};
ghost use Rattle.std.specs.{List.{sum_by}, Slots.{slots_len, slots_items, IsFull}};
ghost use Rattle.piece_claim.specs.{State.{new_seat, piece, pieces, sums}, Invariant.{IsSizes}, Moves.{CanDraw, CanSplit, joined, one_less}};
ghost use Rattle.atomic_sums.specs.{Views.{seen_by, times_in}, Seats.{Drew, EachOnce, LastState, finished_with, seat_of}, Sums.{totals_of}};

use crate::Sums;
use crate::steps::{Both, Draw, Learn, OneShare, Order, Post, View};
use atomic_table::{Closed, Seat, Shared, Table};
use piece_claim::Sizes;
use std::alloc::{AllocError, Global};
use std::marker::Model;

/// A board that threads share: each works through a seat of its own.
#[derive(Drop)]
pub struct SumBoard {
    table: Table<(), View, Sizes, Order, Global>,
    sizes: Sizes,
}

impl Model for SumBoard {
    ghost use Rattle.atomic_sums.specs.Seats.{BoardId};

    ghost Value = { BoardId };

    ghost use Rattle.atomic_sums.specs.Fields.{board_id, IsTable};

    ghost view = { board_id };

    ghost invariant = { IsTable };
}

/// A part in a board: shares of it, the pieces finished in it with their amounts, the piece in hand,
/// and whether it has found that no piece is left.
#[derive(Drop)]
pub struct BoardSeat {
    seat: Seat<(), View>,
    // The number of the piece in hand.
    number: u64,
}

impl Model for BoardSeat {
    ghost use Rattle.atomic_sums.specs.Seats.{SeatOf};

    ghost Value = { SeatOf };

    ghost use Rattle.atomic_sums.specs.Fields.{seat_in, IsSeat};

    ghost view = { seat_in };

    ghost invariant = { IsSeat };
}

impl SumBoard {
    /// A board of `groups` groups with `per_group` pieces each, `width` sums per group and amounts of
    /// at most `bound`, and its first seat, which has all `shares`.
    pub fn new(
        alloc: Global,
        groups: u64,
        per_group: u64,
        width: u64,
        bound: u64,
        shares: u64,
    ) -> Result<(SumBoard, BoardSeat), AllocError>
        requires some { (0 < groups) × (0 < per_group) × (0 < width) × (0 < bound) × (0 < shares) }
        requires fits { per_group * bound < 2 ^ 64 }
        requires room { groups * per_group + shares < 2 ^ 64 }
        requires words { groups * width < 2 ^ 32 }
        requires few { shares ≤ 64 }
        ensures sizes { IfOk result (λ made. made.0.sizes
            ≡ record { groups = groups; per_group = per_group; width = width; bound = bound; shares = shares }) }
        ensures seat { IfOk result (λ made. made.1 ≡ seat_of made.0 (new_seat shares) None) }
    {
        let sizes = Sizes {
            groups,
            per_group,
            width,
            bound,
            shares,
        };
        let words = zeros(alloc, 1 + (groups * width) as usize)?;
        let (table, seat) = Table::of_words(alloc, &words, &sizes)?;
        Ok((SumBoard { table, sizes }, BoardSeat { seat, number: 0 }))
    }

    /// Makes a new seat, the second, of one of the seat's shares; the first keeps the others.
    pub fn split(&self, seat: BoardSeat) -> (BoardSeat, BoardSeat)
        requires of { seat.board ≡ self.now }
        requires fresh { CanSplit seat.state }
        ensures first { result.0 ≡ seat_of self.now (one_less seat.state) seat.last }
        ensures second { result.1 ≡ seat_of self.now (new_seat 1) None }
    {
        let BoardSeat { mut seat, number } = seat;
        let second = self.table.shared.split_seat::<OneShare>(&mut seat);
        (
            BoardSeat { seat, number },
            BoardSeat {
                seat: second,
                number: 0,
            },
        )
    }

    /// Draws the next number. `Some` of a piece's number, which is then in hand; `None` only where the
    /// number drawn had reached the number of pieces, and the seat is done.
    pub fn draw(&self, seat: &mut BoardSeat) -> Option<u64>
        requires of { seat.old.board ≡ self.now }
        requires idle { CanDraw seat.old.state }
        ensures drawn { Drew seat.old result seat.new }
    {
        let n = self.table.shared.fetch_add::<Draw>(&mut seat.seat, 0, 1);
        if n < self.sizes.groups * self.sizes.per_group {
            seat.number = n;
            Some(n)
        } else {
            None
        }
    }

    /// Adds the amounts of the piece in hand, one for each sum of its group, each by one atomic step;
    /// the piece is then finished.
    pub fn post(&self, seat: &mut BoardSeat, amounts: &[u64])
        requires of { seat.old.board ≡ self.now }
        requires has { IsSome seat.old.state.hand }
        requires width { length amounts.now ≡ self.now.sizes.width }
        requires within { All (λ a. a ≤ self.now.sizes.bound) amounts.now }
        ensures finished { seat.new
            ≡ seat_of self.now (finished_with seat.old.state.hand seat.old.state amounts.now) seat.old.last }
    {
        let n = seat.number;
        let base = 1 + n / self.sizes.per_group * self.sizes.width;
        post_all(
            &self.table.shared,
            &mut seat.seat,
            n,
            base as usize,
            amounts,
        );
    }

    /// One seat with the shares and finished pieces of both. No piece stands in it twice.
    pub fn join(&self, a: BoardSeat, b: BoardSeat) -> BoardSeat
        requires of { a.board ≡ self.now }
        requires other { b.board ≡ self.now }
        requires over { (a.state.done ≡ true) × (b.state.done ≡ true) }
        ensures joined { result ≡ seat_of self.now (joined a.state b.state) a.last }
        ensures once { (n : ℕ) → times_in n result.state.finished ≤ 1 }
    {
        let BoardSeat { mut seat, number } = a;
        let BoardSeat {
            seat: other,
            number: _,
        } = b;
        self.table.shared.join_seat::<Both>(&mut seat, other);
        self.table.shared.load::<Learn>(&mut seat, 0);
        BoardSeat { seat, number }
    }

    /// The totals of all amounts that were posted. Every piece was finished, once. Board and seat are
    /// spent, also where there is no memory for the totals.
    pub fn close(self, alloc: Global, seat: BoardSeat) -> Result<Sums, AllocError>
        requires of { seat.board ≡ self }
        requires over { seat.state.done ≡ true }
        requires shares { seat.state.shares ≡ self.sizes.shares }
        ensures each_once { EachOnce (pieces self.sizes) seat.state.finished }
        ensures sums { IfOk result (λ sums. sums ≡ totals_of self.sizes seat.state.finished) }
        ensures last { LastState self.sizes seat.state
            (λ words. IfOk result (λ sums. sums.totals ≡ words)) }
    {
        let BoardSeat { seat, number: _ } = seat;
        let SumBoard { table, sizes } = self;
        let closed = table.close_with(seat);
        let totals = sum_words(alloc, &closed, (sizes.groups * sizes.width) as usize);
        closed.free();
        Ok(Sums::of(totals?, sizes.groups * sizes.per_group))
    }
}

// One step for each amount of piece `_n`, to the words from `base` on.
fn post_all(
    shared: &Shared<(), View, Sizes, Order>,
    seat: &mut Seat<(), View>,
    _n: u64,
    base: usize,
    amounts: &[u64],
)
    requires of { (seat.old.table_id ≡ shared.now.table_id)
        × (shared.now.table_id.words ≡ 1 + sums shared.now.key) }
    requires sizes { IsSizes shared.now.key × (seat.old.me.0.sizes ≡ shared.now.key) }
    requires has { (seat.old.me.0.seat.ended ≡ false)
        × (seat.old.me.0.seat.hand ≡ Some (piece _n [])) × (_n < pieces shared.now.key) }
    requires place { base ≡ 1 + _n / shared.now.key.per_group * shared.now.key.width }
    requires amounts { (length amounts.now ≡ shared.now.key.width)
        × All (λ a. a ≤ shared.now.key.bound) amounts.now }
    ensures table { seat.new.table_id ≡ seat.old.table_id }
    ensures posted { seat.new.me
        ≡ (
          seen_by seat.old.me.0.sizes (finished_with (Some (piece _n [])) seat.old.me.0.seat amounts.now)
              seat.old.me.0.last,
          seat.old.me.1,
        ) }
{
    for i in 0..amounts.len() {
        shared.fetch_add::<Post>(seat, base + i, amounts[i]);
    }
}

// The words behind word 0.
fn sum_words(
    alloc: Global,
    closed: &Closed<(), Global>,
    count: usize,
) -> Result<Vec<u64>, AllocError>
    requires { (slots_len closed.now.words ≡ 1 + count) × IsFull closed.now.words × (count < 2 ^ 32) }
    ensures { IfOk result (λ v. v.items ≡ drop 1 (slots_items closed.now.words)) }
{
    let mut words = Vec::new(alloc);
    for i in 0..count {
        words.push(closed.word(1 + i))?;
    }
    Ok(words)
}

fn zeros(alloc: Global, count: usize) -> Result<Vec<u64>, AllocError>
    ensures { IfOk result (λ v. v.items ≡ replicate count 0) }
{
    vec![in alloc; 0; count]
}
