//! Which record one is.
/// Which record one is: the numbers of its scan, integration, product and baseline.
#[derive(Clone, Copy, Debug, PartialEq, Eq)]
pub struct RecordAt {
    pub scan: u32,
    pub m: u64,
    pub product: u32,
    pub baseline: u32,
}
