//! The machine.
ghost use Rattle.std.specs.Prelude.{◌≡◌, ◌≢◌, ◌↔◌, ℕ, ◌+◌, ◌*◌, ◌<◌, ◌≤◌, ◌^◌, length, replicate, slice_index, slice_index_or, IsTrue, OnOk, OnErr, IfOk, IfErr};
ghost use Rattle.piece_claim.specs.{State.{opening, pieces, seat_at, sums, ended_seat, widest}, Moves.{CanDraw, CanPost, CanSplit, CanJoin, after_draw, after_post, after_split, after_join}};
ghost use Rattle.piece_claim.specs.{Invariant.{IsSound}, Events.{IsAllowed, Refuses, Runs, StopsWith, after}};
ghost use Rattle.piece_claim.specs.Laws.{CounterIsBounded, DistinctFitGroup, EventsKeepInvariant, SumChangesByParts, WordsAreBounded};

use crate::seat::SeatRecord;
use crate::{Event, Sizes, StepFault};
use std::alloc::{AllocError, Global};
use std::marker::Model;
use std::mem;

/// A board without threads: the number that is drawn next, the sums, and the seats.
#[derive(Drop)]
pub struct Board {
    alloc: Global,
    sizes: Sizes,
    next: u64,
    words: Vec<u64>,
    seats: Vec<SeatRecord>,
}

impl Model for Board {
    ghost use Rattle.piece_claim.specs.State.{BoardState};

    ghost Value = { BoardState };

    ghost use Rattle.piece_claim.specs.Shown.{state_of, IsBoard};

    ghost view = { state_of };

    ghost invariant = { λ b. IsBoard (state_of b) };
}

impl Board {
    /// A board of `groups` groups with `per_group` pieces each, `width` sums per group, and one seat
    /// that has all `shares`. Amounts are bounded by the greatest number that lets no sum pass 64 bits.
    pub fn new(
        alloc: Global,
        groups: u64,
        per_group: u64,
        width: u64,
        shares: u64,
    ) -> Result<Board, AllocError>
        requires some { (0 < groups) × (0 < per_group) × (0 < width) × (0 < shares) }
        requires room { groups * per_group + shares < 2 ^ 64 }
        requires words { groups * width < 2 ^ 32 }
        requires few { shares ≤ 64 }
        ensures opening { IfOk result (λ b. b ≡ opening (widest groups per_group width shares)) }
        ensures sound { IfOk result IsSound }
    {
        let sizes = Sizes {
            groups,
            per_group,
            width,
            bound: u64::MAX / per_group,
            shares,
        };
        let words = vec![in alloc; 0; (groups * width) as usize]?;
        let mut seats = Vec::new(alloc);
        seats.push(SeatRecord::new(alloc, shares))?;
        Ok(Board {
            alloc,
            sizes,
            next: 0,
            words,
            seats,
        })
    }

    /// The number that is drawn next, which is how many were drawn.
    pub fn drawn(&self) -> u64
        ensures next { result ≡ self.now.next }
        ensures bounded { result ≤ pieces self.now.sizes + self.now.sizes.shares }
    {
        self.next
    }

    /// Sum word `w`; group `g` has the words from `g * width` on.
    pub fn word(&self, w: u64) -> u64
        requires { w < sums self.now.sizes }
        ensures word { result ≡ slice_index self.now.words w }
        ensures bounded { result ≤ self.now.sizes.per_group * self.now.sizes.bound }
    {
        self.words[w as usize]
    }

    /// Does one event. `NotAllowed` comes exactly where the event is not allowed in this state.
    pub fn step(&mut self, e: &Event) -> Result<(), StepFault>
        ensures moved { OnOk result (IsAllowed self.old e.now × (self.new ≡ after self.old e.now)) }
        ensures refused { IfErr result (λ fault. Refuses fault (IsAllowed self.old e.now)) }
        ensures same { OnErr result (self.new ≡ self.old) }
        ensures fixed { self.new.sizes ≡ self.old.sizes }
        ensures sound { IsSound self.new }
    {
        match *e {
            Event::Draw { seat } => self.draw(seat as usize),
            Event::Post { seat, amount } => self.post(seat as usize, amount),
            Event::Split { seat } => self.split(seat as usize),
            Event::Join { seat, other } => self.join(seat as usize, other as usize),
        }
    }

    /// Does the events in their order, up to the first that is refused; the board is then as the events
    /// before it left it.
    pub fn run_events(&mut self, list: &[Event]) -> Result<(), StepFault>
        ensures moved { OnOk result (Runs self.old list.now self.new) }
        ensures refused { IfErr result (λ fault. StopsWith fault self.old list.now self.new) }
        ensures fixed { self.new.sizes ≡ self.old.sizes }
        ensures sound { IsSound self.new }
    {
        // The board has the invariant before the first event, too.
        let _ = &self.sizes;
        for e in list {
            self.step(e)?;
        }
        Ok(())
    }

    fn draw(&mut self, seat: usize) -> Result<(), StepFault>
        ensures moved { OnOk result (CanDraw (seat_at self.old seat) × (self.new ≡ after_draw self.old seat)) }
        ensures refused { IfErr result (λ fault. Refuses fault (CanDraw (seat_at self.old seat))) }
        ensures same { OnErr result (self.new ≡ self.old) }
        ensures fixed { self.new.sizes ≡ self.old.sizes }
        ensures sound { IsSound self.new }
    {
        if !can_draw(&self.seats, seat) {
            return Err(StepFault::NotAllowed);
        }
        let count = self.sizes.groups * self.sizes.per_group;
        self.seats[seat].draw(self.alloc, count, self.next);
        self.next += 1;
        Ok(())
    }

    fn post(&mut self, seat: usize, amount: u64) -> Result<(), StepFault>
        ensures moved { OnOk result (CanPost self.old.sizes (seat_at self.old seat) amount
            × (self.new ≡ after_post self.old seat amount)) }
        ensures refused { IfErr result
            (λ fault. Refuses fault (CanPost self.old.sizes (seat_at self.old seat) amount)) }
        ensures same { OnErr result (self.new ≡ self.old) }
        ensures fixed { self.new.sizes ≡ self.old.sizes }
        ensures sound { IsSound self.new }
    {
        if !can_post(&self.seats, seat, &self.sizes, amount) {
            return Err(StepFault::NotAllowed);
        }
        let word = self.seats[seat].next_word(&self.sizes);
        if self.seats[seat].post(self.sizes.width, amount).is_err() {
            return Err(StepFault::Memory);
        }
        self.words[word] += amount;
        Ok(())
    }

    fn split(&mut self, seat: usize) -> Result<(), StepFault>
        ensures moved { OnOk result (CanSplit (seat_at self.old seat) × (self.new ≡ after_split self.old seat)) }
        ensures refused { IfErr result (λ fault. Refuses fault (CanSplit (seat_at self.old seat))) }
        ensures same { OnErr result (self.new ≡ self.old) }
        ensures fixed { self.new.sizes ≡ self.old.sizes }
        ensures sound { IsSound self.new }
    {
        if !can_split(&self.seats, seat) {
            return Err(StepFault::NotAllowed);
        }
        if self.seats.push(SeatRecord::new(self.alloc, 1)).is_err() {
            return Err(StepFault::Memory);
        }
        self.seats[seat].give_share();
        Ok(())
    }

    fn join(&mut self, seat: usize, other: usize) -> Result<(), StepFault>
        ensures moved { OnOk result ((seat ≢ other) × CanJoin (seat_at self.old seat) (seat_at self.old other)
            × (self.new ≡ after_join self.old seat other)) }
        ensures refused { IfErr result
            (λ fault. Refuses fault ((seat ≢ other) × CanJoin (seat_at self.old seat) (seat_at self.old other))) }
        ensures same { OnErr result (self.new ≡ self.old) }
        ensures fixed { self.new.sizes ≡ self.old.sizes }
        ensures sound { IsSound self.new }
    {
        if seat == other || !can_join(&self.seats, seat, other) {
            return Err(StepFault::NotAllowed);
        }
        let mut ended = mem::replace(&mut self.seats[other], SeatRecord::ended(self.alloc));
        if self.seats[seat].absorb(&mut ended).is_err() {
            self.seats[other] = ended;
            return Err(StepFault::Memory);
        }
        Ok(())
    }
}

fn can_draw(seats: &[SeatRecord], seat: usize) -> bool
    ensures { IsTrue result ↔ CanDraw (slice_index_or seats.now seat ended_seat) }
{
    match seats.get(seat) {
        None => false,
        Some(v) => v.can_draw(),
    }
}

fn can_post(seats: &[SeatRecord], seat: usize, sizes: &Sizes, amount: u64) -> bool
    ensures { IsTrue result ↔ CanPost sizes.now (slice_index_or seats.now seat ended_seat) amount }
{
    match seats.get(seat) {
        None => false,
        Some(v) => v.can_post(sizes, amount),
    }
}

fn can_split(seats: &[SeatRecord], seat: usize) -> bool
    ensures { IsTrue result ↔ CanSplit (slice_index_or seats.now seat ended_seat) }
{
    match seats.get(seat) {
        None => false,
        Some(v) => v.can_split(),
    }
}

fn can_join(seats: &[SeatRecord], seat: usize, other: usize) -> bool
    ensures { IsTrue result ↔ CanJoin (slice_index_or seats.now seat ended_seat) (slice_index_or seats.now other ended_seat) }
{
    match (seats.get(seat), seats.get(other)) {
        (Some(v), Some(w)) => v.can_join(w),
        _ => false,
    }
}

/// What is true of every board, whatever happens on it: each event keeps the invariant from every state
/// that has it, no sum passes the pieces of a group times the bound, and the counter does not pass the
/// number of pieces and the shares. The last two are the laws of lists on which this rests.
pub fn laws()
    ensures events { EventsKeepInvariant }
    ensures words { WordsAreBounded }
    ensures counter { CounterIsBounded }
    ensures parts { SumChangesByParts }
    ensures group { DistinctFitGroup }
{}
