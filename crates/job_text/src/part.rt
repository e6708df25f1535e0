//! The parts of a station that lines behind its own state.

/// What a line states of a station that an earlier line names: a file, a channel, an entry of its clock or a
/// polynomial.
#[derive(Clone, Copy)]
pub(crate) enum Part {
    File,
    Chan,
    Clock,
    Poly,
}
