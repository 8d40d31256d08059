// Prints the journal of document 01's example: a target, two Suns, tolerance 10, one roll. A call that is refused prints its
// number instead.
#![tactic(auto)]

use buffers::Refusal;
use journal::{begin, work};
use solar_roll::Plan;
use std::io;

// The header, then the line of the only chunk.
fn write_journal(journal: &mut [u8]) -> Result<u64, Refusal> {
    let plan = Plan {
        targets: &[1.0, 0.0, 0.0],
        suns: &[0.0, 1.0, 0.0, 0.0, 0.0, 1.0],
        observers: &[0.0; 6],
        tolerances: &[10.0],
        configured: None,
        panels: &[0.0, 1.0, 0.0],
    };
    let used = begin(&plan, 1, journal, 0)?;
    work(&plan, 1, 0, journal, used)
}

fn main(rt: HostRuntime) -> io::Result<()> {
    let mut journal = [0u8; 140];
    match write_journal(&mut journal) {
        Ok(used) => rt.write_all(journal.get(..used as usize).unwrap_or_default()),
        Err(refusal) => println!(rt; "{}", refusal.number()),
    }
}
