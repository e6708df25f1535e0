//! A seat of the machine, with memory of its own.
ghost use Rattle.std.specs.Prelude.{◌≡◌, ◌+◌, ◌*◌, ◌<◌, ◌≤◌, ◌^◌, ◌↔◌, [], ◌∷◌, ◌++◌, false, length, IsTrue, OnOk, OnErr};
ghost use Rattle.piece_claim.specs.{State.{piece, new_seat, ended_seat}, Moves.{CanDraw, CanPost, CanSplit, CanJoin, LacksAmounts, drawn, grown, joined, one_less, posted, word_of}};

use crate::Sizes;
use std::alloc::{AllocError, Global};
use std::marker::Model;

// A piece and the amounts posted for it.
#[derive(Drop)]
pub(crate) struct PieceRecord {
    number: u64,
    amounts: Vec<u64>,
}

impl Model for PieceRecord {
    ghost use Rattle.piece_claim.specs.State.{Piece, piece};

    ghost Value = { Piece };

    ghost view = { λ p. piece p.number p.amounts.items };
}

impl PieceRecord {
    fn new(alloc: Global, number: u64) -> Self
        ensures { result ≡ piece number [] }
    {
        PieceRecord {
            number,
            amounts: Vec::new(alloc),
        }
    }

    fn number(&self) -> u64
        ensures { result ≡ self.now.number }
    {
        self.number
    }

    fn len(&self) -> usize
        ensures { result ≡ length self.now.amounts }
    {
        self.amounts.len()
    }

    fn push(&mut self, amount: u64) -> Result<(), AllocError>
        ensures grown { OnOk result (self.new ≡ grown self.old amount) }
        ensures same { OnErr result (self.new ≡ self.old) }
    {
        self.amounts.push(amount)?;
        Ok(())
    }
}

// A seat: its shares, its pieces, whether it has drawn a number past the last piece, and whether it
// was joined to another.
#[derive(Drop)]
pub(crate) struct SeatRecord {
    shares: u64,
    finished: Vec<PieceRecord>,
    hand: Option<PieceRecord>,
    done: bool,
    ended: bool,
}

impl Model for SeatRecord {
    ghost use Rattle.piece_claim.specs.State.{Seat, seat};

    ghost Value = { Seat };

    ghost view = { λ v. seat v.shares v.finished.items v.hand v.done v.ended };
}

impl SeatRecord {
    // A seat that has drawn nothing yet.
    pub(crate) fn new(alloc: Global, shares: u64) -> Self
        ensures { result ≡ new_seat shares }
    {
        SeatRecord {
            shares,
            finished: Vec::new(alloc),
            hand: None,
            done: false,
            ended: false,
        }
    }

    // What is left of a seat that was joined to another.
    pub(crate) fn ended(alloc: Global) -> Self
        ensures { result ≡ ended_seat }
    {
        SeatRecord {
            shares: 0,
            finished: Vec::new(alloc),
            hand: None,
            done: false,
            ended: true,
        }
    }

    pub(crate) fn can_draw(&self) -> bool
        ensures { IsTrue result ↔ CanDraw self.now }
    {
        !self.ended && self.hand.is_none() && !self.done
    }

    // Takes the number in hand where there is a piece of it, and else is done.
    pub(crate) fn draw(&mut self, alloc: Global, count: u64, number: u64)
        ensures { self.new ≡ drawn count self.old number }
    {
        if number < count {
            self.hand = Some(PieceRecord::new(alloc, number));
        } else {
            self.done = true;
        }
    }

    fn lacks_amounts(&self, width: u64) -> bool
        ensures { IsTrue result ↔ LacksAmounts width self.now.hand }
    {
        match &self.hand {
            None => false,
            Some(held) => (held.len() as u64) < width,
        }
    }

    pub(crate) fn can_post(&self, sizes: &Sizes, amount: u64) -> bool
        ensures { IsTrue result ↔ CanPost sizes.now self.now amount }
    {
        !self.ended && self.lacks_amounts(sizes.width) && amount <= sizes.bound
    }

    // The number of the sum to which the piece in hand adds its next amount.
    pub(crate) fn next_word(&self, sizes: &Sizes) -> usize
        requires some { 0 < sizes.now.per_group }
        requires fits { word_of sizes.now self.now.hand < 2 ^ 32 }
        ensures { result ≡ word_of sizes.now self.now.hand }
    {
        match &self.hand {
            None => 0,
            Some(held) => { (held.number() / sizes.per_group * sizes.width) as usize + held.len() }
        }
    }

    // The piece in hand has one amount more, and is finished where that was its last.
    pub(crate) fn post(&mut self, width: u64, amount: u64) -> Result<(), AllocError>
        requires { LacksAmounts width self.old.hand }
        ensures posted { OnOk result (self.new ≡ posted width self.old amount) }
        ensures same { OnErr result (self.new ≡ self.old) }
    {
        self.finished.reserve(1)?;
        let Some(mut held) = self.hand.take() else {
            unreachable!()
        };
        let pushed = held.push(amount);
        if pushed.is_ok() && held.len() as u64 == width {
            let Ok(()) = self.finished.push(held) else {
                unreachable!()
            };
        } else {
            self.hand = Some(held);
        }
        pushed
    }

    pub(crate) fn can_split(&self) -> bool
        ensures { IsTrue result ↔ CanSplit self.now }
    {
        !self.ended
            && self.shares > 1
            && self.hand.is_none()
            && !self.done
            && self.finished.is_empty()
    }

    pub(crate) fn give_share(&mut self)
        requires { 0 < self.old.shares }
        ensures { self.new ≡ one_less self.old }
    {
        self.shares -= 1;
    }

    pub(crate) fn can_join(&self, other: &SeatRecord) -> bool
        ensures { IsTrue result ↔ CanJoin self.now other.now }
    {
        !self.ended && !other.ended && self.done && other.done
    }

    // Takes the other's shares and finished pieces.
    pub(crate) fn absorb(&mut self, other: &mut SeatRecord) -> Result<(), AllocError>
        requires { self.old.shares + other.old.shares < 2 ^ 64 }
        ensures joined { OnOk result (self.new ≡ joined self.old other.old) }
        ensures same { OnErr result (self.new ≡ self.old) }
        ensures other { OnErr result (other.new ≡ other.old) }
    {
        self.finished.append(&mut other.finished)?;
        self.shares += other.shares;
        Ok(())
    }
}
