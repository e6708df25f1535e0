//! Stretches of one direction on a line of delays.
use crate::fringe::Fringe;
use crate::reach::{above, below, fallen, first_past, first_reaching, rise, risen};
use delay_line::Line;

// A direction, and up to which sample behind the first knot it stays the same.
#[derive(Clone, Copy)]
pub(crate) struct LineTurn {
    pub(crate) direction: u8,
    pub(crate) end: u32,
}

impl Fringe {
    ghost use Rattle.std.specs.Prelude.{◌≡◌, ◌<◌, ◌≤◌, ◌<ℤ◌};
    ghost use Rattle.fringe_turns.specs.Lines.{IsLineTurn};

    // The stretch from sample `from` on, and at most up to `to`, of a line that rises.
    fn rising_turn(&self, line: &Line, from: u32, to: u32) -> LineTurn
        requires rises { line.now.first <ℤ line.now.next }
        requires order { from < to }
        requires within { to ≤ line.now.knot }
        ensures { IsLineTurn self.now line.now from to result }
    {
        let rise = rise(line.first, line.next);
        let risen = risen(rise, from, line.knot);
        let delay = above(line.first, risen);
        let facing = self.facing(delay);
        let room = self.room(delay, facing, true);
        LineTurn {
            direction: facing.direction,
            end: first_reaching(rise, risen + room + 1, line.knot, to),
        }
    }

    // The stretch from sample `from` on, and at most up to `to`, of a line that falls.
    fn falling_turn(&self, line: &Line, from: u32, to: u32) -> LineTurn
        requires falls { line.now.next <ℤ line.now.first }
        requires order { from < to }
        requires within { to ≤ line.now.knot }
        ensures { IsLineTurn self.now line.now from to result }
    {
        let fall = rise(line.next, line.first);
        let fallen = fallen(fall, from, line.knot);
        let delay = below(line.first, fallen);
        let facing = self.facing(delay);
        let room = self.room(delay, facing, false);
        LineTurn {
            direction: facing.direction,
            end: first_past(fall, fallen + room, line.knot, to),
        }
    }

    // A level line keeps its direction.
    fn level_turn(&self, line: &Line, from: u32, to: u32) -> LineTurn
        requires level { line.now.first ≡ line.now.next }
        requires order { from < to }
        requires within { to ≤ line.now.knot }
        ensures { IsLineTurn self.now line.now from to result }
    {
        LineTurn {
            direction: self.facing(line.first).direction,
            end: to,
        }
    }

    // The stretch of one direction from sample `from` on, and at most up to `to`, samples behind the first knot of a line.
    pub(crate) fn line_turn(&self, line: &Line, from: u32, to: u32) -> LineTurn
        requires order { from < to }
        requires within { to ≤ line.now.knot }
        ensures { IsLineTurn self.now line.now from to result }
    {
        if line.first < line.next {
            self.rising_turn(line, from, to)
        } else if line.next < line.first {
            self.falling_turn(line, from, to)
        } else {
            self.level_turn(line, from, to)
        }
    }
}
