ghost use Rattle.std.specs.Prelude.{◌≡◌, ℕ, ◌+◌, ◌*◌, ◌<◌, ◌≤◌, true, false, None, All, IfOk, IsSome, length, vec_len};
ghost use Rattle.piece_claim.specs.{State.{new_seat, pieces}, Moves.{CanDraw}};
ghost use Rattle.atomic_sums.specs.Seats.{seat_of};

use super::*;
use piece_claim::laws;
use std::alloc::{AllocError, Global};
use std::process::Abort;
use std::test::Fail;
use std::thread;
use std::thread::Threads;

// The seat draws the piece of this number.
fn draws(rt: &impl Abort, board: &SumBoard, seat: &mut BoardSeat, n: u64)
    requires of { seat.old.board ≡ board.now }
    requires idle { CanDraw seat.old.state }
    ensures of { seat.new.board ≡ board.now }
    ensures shares { seat.new.state.shares ≡ seat.old.state.shares }
    ensures hand { IsSome seat.new.state.hand }
    ensures busy { (seat.new.state.done ≡ false) × (seat.new.state.ended ≡ false) }
{
    let Some(number) = board.draw(seat) else {
        panic!(rt; "there is no piece {n}")
    };
    assert_eq!(rt; number, n);
}

// The seat posts the amount of its piece.
fn posts(board: &SumBoard, seat: &mut BoardSeat, amount: u64)
    requires of { seat.old.board ≡ board.now }
    requires hand { IsSome seat.old.state.hand }
    requires busy { (seat.old.state.done ≡ false) × (seat.old.state.ended ≡ false) }
    requires amount { (board.now.sizes.width ≡ 1) × (amount ≤ board.now.sizes.bound) }
    ensures of { seat.new.board ≡ board.now }
    ensures shares { seat.new.state.shares ≡ seat.old.state.shares }
    ensures idle { CanDraw seat.new.state }
{
    board.post(seat, &[amount]);
}

// The seat finds no further piece.
fn ends(rt: &impl Abort, board: &SumBoard, seat: &mut BoardSeat)
    requires of { seat.old.board ≡ board.now }
    requires idle { CanDraw seat.old.state }
    ensures of { seat.new.board ≡ board.now }
    ensures shares { seat.new.state.shares ≡ seat.old.state.shares }
    ensures over { seat.new.state.done ≡ true }
{
    if let Some(number) = board.draw(seat) {
        panic!(rt; "there is a piece {number}")
    }
}

// Two groups of two pieces with one sum each; the amount of piece n is 5 + n.
#[test]
fn four_pieces_by_two_seats(rt: HostRuntime) -> Result<(), Fail> {
    let alloc = rt.alloc();
    let (board, seat) = SumBoard::new(alloc, 2, 2, 1, 9, 2)?;
    let (mut a, mut b) = board.split(seat);
    draws(&rt, &board, &mut a, 0);
    draws(&rt, &board, &mut b, 1);
    posts(&board, &mut b, 6);
    draws(&rt, &board, &mut b, 2);
    posts(&board, &mut a, 5);
    draws(&rt, &board, &mut a, 3);
    posts(&board, &mut a, 8);
    ends(&rt, &board, &mut a);
    posts(&board, &mut b, 7);
    ends(&rt, &board, &mut b);
    let whole = board.join(a, b);
    let sums = board.close(alloc, whole)?;
    assert_eq!(rt; sums.totals(), [11, 15].as_slice());
    Ok(())
}

// One group of three pieces with one sum. Each amount is the greatest that there may be, and the total the greatest number of 64 bits.
#[test]
fn the_greatest_amounts(rt: HostRuntime) -> Result<(), Fail> {
    let alloc = rt.alloc();
    let most = 6_148_914_691_236_517_205;
    let (board, mut seat) = SumBoard::new(alloc, 1, 3, 1, most, 1)?;
    draws(&rt, &board, &mut seat, 0);
    posts(&board, &mut seat, most);
    draws(&rt, &board, &mut seat, 1);
    posts(&board, &mut seat, most);
    draws(&rt, &board, &mut seat, 2);
    posts(&board, &mut seat, most);
    ends(&rt, &board, &mut seat);
    let sums = board.close(alloc, seat)?;
    assert_eq!(rt; sums.totals(), [u64::MAX].as_slice());
    Ok(())
}

// A seat for each share of a board, from its first seat.
fn seats_of(
    alloc: Global,
    board: &SumBoard,
    first: BoardSeat,
    shares: u64,
) -> Result<Vec<BoardSeat>, AllocError>
    requires shares { (0 < shares) × (shares ≤ 64) }
    requires first { first ≡ seat_of board.now (new_seat shares) None }
    ensures count { IfOk result (λ seats. vec_len seats ≡ shares) }
    ensures fresh { IfOk result (λ seats. All (λ s. (s.board ≡ board.now) × (s.state ≡ new_seat 1)) seats.items) }
{
    let mut seat = first;
    let mut seats = Vec::new(alloc);
    for _ in 1..shares {
        let (rest, one) = board.split(seat);
        seats.push(one)?;
        seat = rest;
    }
    seats.push(seat)?;
    Ok(seats)
}

// A board of one group with 1,000 pieces and three sums, and a seat for each share.
fn opened(alloc: Global, shares: u64) -> Result<(SumBoard, Vec<BoardSeat>), AllocError>
    requires { (0 < shares) × (shares ≤ 64) }
    ensures sizes { IfOk result (λ made. made.0.sizes
        ≡ record { groups = 1; per_group = 1000; width = 3; bound = 1998; shares = vec_len made.1 }) }
    ensures count { IfOk result (λ made. vec_len made.1 ≡ shares) }
    ensures fresh { IfOk result
        (λ made. All (λ s. (s.board ≡ made.0) × (s.state ≡ new_seat 1)) made.1.items) }
{
    let (board, seat) = SumBoard::new(alloc, 1, 1000, 3, 1998, shares)?;
    let seats = seats_of(alloc, &board, seat, shares)?;
    Ok((board, seats))
}

// Works through a seat until no piece is left. The amounts of piece n are n, 2n and 1.
fn work(rt: &impl Abort, board: &SumBoard, seat: &mut BoardSeat)
    requires of { seat.old.board ≡ board.now }
    requires sizes { (pieces board.now.sizes ≡ 1000) × (board.now.sizes.width ≡ 3)
        × (board.now.sizes.bound ≡ 1998) }
    requires fresh { seat.old.state ≡ new_seat 1 }
    ensures of { seat.new.board ≡ board.now }
    ensures over { seat.new.state.done ≡ true }
    ensures share { seat.new.state.shares ≡ 1 }
{
    for _ in 0..1001 {
        match board.draw(seat) {
            None => return,
            Some(n) => board.post(seat, &[n, 2 * n, 1]),
        }
    }
    panic!(rt; "more than 1,000 pieces")
}

// All seats joined, and the board closed.
fn closed(alloc: Global, board: SumBoard, mut seats: Vec<BoardSeat>) -> Result<Sums, AllocError>
    requires sizes { board.sizes
        ≡ record { groups = 1; per_group = 1000; width = 3; bound = 1998; shares = vec_len seats } }
    requires shares { (0 < vec_len seats) × (vec_len seats ≤ 64) }
    requires over { All (λ s. (s.board ≡ board) × (s.state.done ≡ true) × (s.state.shares ≡ 1)) seats.items }
    ensures { IfOk result (λ sums. (length sums.totals ≡ 3) × All (λ t. t ≤ 1998000) sums.totals) }
{
    laws();
    let mut whole = seats.pop().unwrap();
    while let Some(seat) = seats.pop() {
        whole = board.join(whole, seat);
    }
    board.close(alloc, whole)
}

// The totals and the cell of 1,000 pieces, by so many seats in so many threads at most.
fn by_threads<R: Threads + Abort + Sync>(
    rt: &R,
    alloc: Global,
    shares: u64,
    threads: usize,
) -> Result<(), Fail>
    requires shares { (0 < shares) × (shares ≤ 64) }
    requires threads { 0 < threads }
{
    let (board, mut seats) = opened(alloc, shares)?;
    thread::for_each_mut(rt, &mut seats, threads, &|_, seat| work(rt, &board, seat));
    let sums = closed(alloc, board, seats)?;
    assert_eq!(rt; sums.totals(), [499500, 999000, 1000].as_slice());
    let cells = sums.unbias(500);
    let cell = cells.cell(0);
    assert_eq!(rt; (cell.re, cell.im, cell.count), (499000, 998500, 1000));
    assert_eq!(rt; cells.pieces(), 1000);
    Ok(())
}

#[test]
fn thousand_pieces_by_two_threads(rt: HostRuntime) -> Result<(), Fail> {
    let alloc = rt.alloc();
    by_threads(&rt, alloc, 2, 2)
}

#[test]
fn thousand_pieces_by_eight_threads(rt: HostRuntime) -> Result<(), Fail> {
    let alloc = rt.alloc();
    by_threads(&rt, alloc, 64, 8)
}
