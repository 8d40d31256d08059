// Cuts every write of small journals at every byte, recovers, resumes, and compares with a plain model; prints how many cuts it
// made and how many journals differ. Then prints what each call says to journals at the edges of being right.
#![tactic(auto)]

mod cut;
mod edges;
mod plan;

use std::io;

fn main(rt: HostRuntime) -> io::Result<()> {
    cut::cut_plans(&rt)?;
    edges::show_edges(&rt)
}
