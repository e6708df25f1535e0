//! What a gate was told.

use anyhow::Result;
use meet_devices::Told;
use std::alloc::Global;

/// Prints the workers of the pieces, each once and in order, and whether each number below that of the pieces was told once. Of one
/// worker alone it prints too whether even the least time from a piece of an even number to the next piece is longer than the least
/// from any other: where the even pieces are the long ones, each is then worked on behind its own call of the gate.
pub fn print_told(rt: &impl Print, alloc: Global, told: &[Told]) -> Result<()> {
    print!(rt; " by workers")?;
    let workers = workers_of(alloc, told)?;
    for worker in &workers {
        print!(rt; " {worker}")?;
    }
    print!(rt; ", {} pieces", told.len())?;
    if are_told_once(told) {
        print!(rt; ", each once")?;
    }
    if workers.len() == 1 && are_told_before(told) {
        print!(rt; ", before it is worked on")?;
    }
    Ok(())
}

// The workers of the pieces, each once and in order.
fn workers_of(alloc: Global, told: &[Told]) -> Result<Vec<u64>> {
    let mut workers = Vec::new(alloc);
    for worker in 0..64 {
        if told.iter().any(|one| one.worker == worker) {
            workers.push(worker)?;
        }
    }
    Ok(workers)
}

// Whether each number below that of the pieces is that of one piece.
fn are_told_once(told: &[Told]) -> bool {
    for number in 0..told.len() as u64 {
        if told.iter().filter(|one| one.piece == number).count() != 1 {
            return false;
        }
    }
    true
}

// Whether the least time from an even piece to the next one is longer than the least from an odd one.
fn are_told_before(told: &[Told]) -> bool {
    least_from(told, 0) > least_from(told, 1)
}

// The least time from a piece to the next one, of those whose number is even or odd.
fn least_from(told: &[Told], parity: u64) -> u64 {
    let mut least = u64::MAX;
    for pair in told.windows(2) {
        if let [one, next] = pair
            && one.piece % 2 == parity
        {
            least = least.min(next.time.saturating_sub(one.time));
        }
    }
    least
}
