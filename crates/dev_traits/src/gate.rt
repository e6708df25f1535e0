/// Where the workers of a correlation pass: each tells it the piece that it is about to work on. It stands for a place to
/// count or to hold them, changes no answer, and is in no contract.
pub trait Gate {
    /// Worker `worker`, counted from 0, is about to work on piece `n` of its epoch.
    fn piece(&self, worker: u32, n: u64);
}
