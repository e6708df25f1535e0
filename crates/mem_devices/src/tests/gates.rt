//! Gates that one worker passes.
use crate::{CountingGate, HoldGate, OpenGate};
use dev_traits::Gate;
use std::test::Fail;
use std::thread::join;

// each passes one gate as the worker of this number
fn pass<G: Gate>(gate: &G, worker: u32) {
    gate.piece(worker, u64::from(worker));
}

#[test]
fn a_count_of_pieces(rt: HostRuntime) -> Result<(), Fail> {
    let gate = CountingGate::new();
    assert_eq!(rt; gate.calls(), 0);
    pass(&OpenGate::new(), 0);
    pass(&gate, 0);
    pass(&gate, 1);
    assert_eq!(rt; gate.calls(), 2);
    Ok(())
}

#[test]
fn a_second_worker(rt: HostRuntime) -> Result<(), Fail> {
    let gate = HoldGate::new();
    assert!(rt; !gate.saw_second());
    join(&rt, || pass(&gate, 0), || pass(&gate, 1));
    assert!(rt; gate.saw_second());
    Ok(())
}
