//! The team of an epoch: its workers, each with a seat of the board and room of its own.
ghost use Rattle.std.specs.Prelude.{◌≡◌, ◌+◌, ◌*◌, ◌<◌, ◌≤◌, None, true, IfOk, length, vec_len};
ghost use Rattle.std.specs.{List.{All}, Thread.{IsSync}};
ghost use Rattle.piece_claim.specs.State.{new_seat};
ghost use Rattle.atomic_sums.specs.Seats.{seat_of};
ghost use Rattle.epoch_run.specs.{Binned.{stretch_of}, Amounts.{IsBoardOf, HaveAmounts, cells_of}, Team.{IsReady, IsOver}};

use crate::work::{Work, work_pieces};
use atomic_sums::{BoardSeat, SumBoard};
use corr_model::Cell;
use dev_traits::Gate;
use std::alloc::{AllocError, Global};
use std::thread::{Threads, join_mut};

/// A seat of the board, and room for the cells and the amounts of a piece and for the cells of a run of one bin.
#[derive(Drop)]
pub(crate) struct Worker {
    seat: BoardSeat,
    stretch: Vec<Cell>,
    cells: Vec<Cell>,
    amounts: Vec<u64>,
}

/// A worker for each share of the board, from its first seat.
pub(crate) fn make_team(
    alloc: Global,
    board: &SumBoard,
    first: BoardSeat,
    shares: u64,
    work: &Work<'_>,
) -> Result<Vec<Worker>, AllocError>
    requires shares { (0 < shares) × (shares ≤ 64) }
    requires first { first ≡ seat_of board.now (new_seat shares) None }
    ensures count { IfOk result (λ team. vec_len team ≡ shares) }
    ensures ready { IfOk result (λ team. All (IsReady work.now board.now) team.items) }
{
    let mut seat = first;
    let mut team = Vec::new(alloc);
    for _ in 1..shares {
        let (rest, one) = board.split(seat);
        seat = rest;
        team.push(worker_at(alloc, one, work)?)?;
    }
    team.push(worker_at(alloc, seat, work)?)?;
    Ok(team)
}

// A worker at a seat.
fn worker_at(alloc: Global, seat: BoardSeat, work: &Work<'_>) -> Result<Worker, AllocError>
    ensures seat { IfOk result (λ w. w.seat ≡ seat) }
    ensures stretch { IfOk result (λ w. length w.stretch.items ≡ stretch_of work.now.phase work.now.epoch.lags) }
    ensures cells { IfOk result (λ w. length w.cells.items ≡ cells_of work.now) }
    ensures amounts { IfOk result (λ w. length w.amounts.items ≡ 3 * cells_of work.now) }
{
    let stretch = vec![in alloc; Cell::ZERO; work.stretch()]?;
    let cells = vec![in alloc; Cell::ZERO; work.cells()]?;
    let amounts = vec![in alloc; 0; 3 * work.cells()]?;
    Ok(Worker {
        seat,
        stretch,
        cells,
        amounts,
    })
}

/// Each worker works in a thread of its own until no piece is left.
pub(crate) fn run_team<R: Threads + Sync, G: Gate + Sync>(
    rt: &R,
    work: &Work<'_>,
    board: &SumBoard,
    team: &mut [Worker],
    gate: &G,
)
    requires board { IsBoardOf work.now board.now.sizes }
    requires few { length team.old ≤ 64 }
    requires ready { All (IsReady work.now board.now) team.old }
    ensures over { All (IsOver work.now board.now) team.new }
{
    run_from(rt, work, board, team, 0, gate);
}

// Each worker works, the first one being worker `number`: all threads are begun by this one, which is the last worker's.
#[cycle(team)]
fn run_from<R: Threads + Sync, G: Gate + Sync>(
    rt: &R,
    work: &Work<'_>,
    board: &SumBoard,
    team: &mut [Worker],
    number: u32,
    gate: &G,
)
    requires board { IsBoardOf work.now board.now.sizes }
    requires few { number + length team.old ≤ 64 }
    requires ready { All (IsReady work.now board.now) team.old }
    ensures over { All (IsOver work.now board.now) team.new }
{
    let Some((one, rest)) = team.split_first_mut() else {
        return;
    };
    if rest.is_empty() {
        run_one(work, board, one, number, gate);
        return;
    }
    join_mut(
        rt,
        &mut ||
            requires board { IsBoardOf work.now board.now.sizes }
            requires ready { IsReady work.now board.now one.now }
            ensures { IsOver work.entry.now board.entry.now one.exit.now }
        { run_one(work, board, one, number, gate) },
        &mut ||
            requires sync { IsSync R.row × IsSync G.row }
            requires board { IsBoardOf work.now board.now.sizes }
            requires few { number + 1 + length rest.now ≤ 64 }
            requires ready { All (IsReady work.now board.now) rest.now }
            ensures { All (IsOver work.entry.now board.entry.now) rest.exit.now }
        { run_from(rt, work, board, rest, number + 1, gate) },
    );
}

// A worker works.
fn run_one<G: Gate>(work: &Work<'_>, board: &SumBoard, worker: &mut Worker, number: u32, gate: &G)
    requires board { IsBoardOf work.now board.now.sizes }
    requires ready { IsReady work.now board.now worker.old }
    ensures over { IsOver work.now board.now worker.new }
{
    work_pieces(
        work,
        board,
        &mut worker.seat,
        number,
        &mut worker.stretch,
        &mut worker.cells,
        &mut worker.amounts,
        gate,
    );
}

/// The seats of all workers as one.
pub(crate) fn join_team(board: &SumBoard, mut team: Vec<Worker>, _work: &Work<'_>) -> BoardSeat
    requires some { 0 < vec_len team }
    requires few { vec_len team ≤ 64 }
    requires over { All (IsOver _work.now board.now) team.items }
    ensures of { result.board ≡ board.now }
    ensures over { result.state.done ≡ true }
    ensures shares { result.state.shares ≡ vec_len team }
    ensures amounts { HaveAmounts _work.now result.state.finished }
{
    let Some(first) = team.pop() else {
        unreachable!()
    };
    let mut seat = first.seat;
    while let Some(worker) = team.pop() {
        seat = board.join(seat, worker.seat);
    }
    seat
}
