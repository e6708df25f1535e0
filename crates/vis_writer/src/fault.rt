//! Why a record file is not whole.
/// The source of the cells has failed, or the sink that the records go to.
#[derive(Clone, Copy, Debug, PartialEq, Eq)]
pub enum WriteFault<F> {
    Source(F),
    Sink,
}
