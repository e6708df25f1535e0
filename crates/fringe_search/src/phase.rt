//! How far a rate has turned, integration by integration.
ghost use Rattle.std.specs.Prelude.{◌≡◌, ◌<◌, ◌≤◌, ◌*◌, ◌+◌, ◌%◌, pos, unsigned_abs};
ghost use Rattle.std.specs.Int.{int_rem_euclid};
ghost use Rattle.fringe_search.specs.Phases.{IsPhase, rest_of};

// What is left of whole turns: whole sixteenths, and parts of one, of which `divide` make a sixteenth.
#[derive(Clone, Copy, Debug)]
pub(crate) struct Phase {
    pub sector: u32,
    pub part: u32,
}

// What a rate turns by in an integration.
pub(crate) fn step_of(rate: i32, divide: u32) -> Phase
    requires rate { unsigned_abs rate ≤ 4096 }
    requires some { 0 < divide }
    requires few { divide ≤ 65536 }
    ensures value { pos (rest_of divide result) ≡ int_rem_euclid rate (pos (16 * divide)) }
    ensures within { IsPhase divide result }
{
    phase_of(parts_of(rate, 16 * divide), divide)
}

// The same in parts, of which `turn` make a whole turn.
fn parts_of(rate: i32, turn: u32) -> u32
    requires rate { unsigned_abs rate ≤ 4096 }
    requires some { 0 < turn }
    requires turn { turn ≤ 1048576 }
    ensures value { pos result ≡ int_rem_euclid rate (pos turn) }
    ensures within { result < turn }
{
    rate.rem_euclid(turn as i32) as u32
}

// A number of parts as a phase.
fn phase_of(parts: u32, divide: u32) -> Phase
    requires some { 0 < divide }
    requires within { parts < 16 * divide }
    ensures value { rest_of divide result ≡ parts }
    ensures within { IsPhase divide result }
{
    Phase {
        sector: parts / divide,
        part: parts % divide,
    }
}

// The phase after one more step.
pub(crate) fn next(now: Phase, step: Phase, divide: u32) -> Phase
    requires now { IsPhase divide now }
    requires step { IsPhase divide step }
    requires few { divide ≤ 65536 }
    ensures value { rest_of divide result ≡ (rest_of divide now + rest_of divide step) % (16 * divide) }
    ensures within { IsPhase divide result }
{
    let sum = carried(now.sector + step.sector, now.part + step.part, divide);
    Phase {
        sector: wrapped(sum.sector),
        part: sum.part,
    }
}

// A sector and parts, less a whole sector in parts where there is one.
fn carried(sector: u32, part: u32, divide: u32) -> Phase
    requires sector { sector < 31 }
    requires part { part < 2 * divide }
    requires few { divide ≤ 65536 }
    ensures value { rest_of divide result ≡ sector * divide + part }
    ensures part { result.part < divide }
    ensures sector { result.sector < 32 }
{
    if part < divide {
        Phase { sector, part }
    } else {
        Phase {
            sector: sector + 1,
            part: part - divide,
        }
    }
}

// A sector, less a whole turn where there is one.
fn wrapped(sector: u32) -> u32
    requires { sector < 32 }
    ensures value { result ≡ sector % 16 }
    ensures within { result < 16 }
{
    if sector < 16 { sector } else { sector - 16 }
}
