//! The bench program: commands from standard input, lines to standard output.
#![tactic(auto)]

use anyhow::anyhow;
use bench::{FORMAT, bench};
use console::fill;
use engine::records::{Candidate, Neighbor};
use index::pivot_index::PivotIndex;
use queue::rank::Upper;
use search_console::run;

const SLOTS: u16 = 64;

fn serve(rt: &HostRuntime) -> anyhow::Result<()> {
    let mut input = [0u8; 32768];
    let len = fill(&mut rt.stdin(), &mut input)?;
    let mut store = [0u8; 5088];
    let Ok(mut index) = PivotIndex::new(bench(), SLOTS, &mut store) else {
        return Err(anyhow!("the store does not fit the bench's channels"));
    };
    let mut hits = [Neighbor::BLANK; 64];
    let mut candidates = [Candidate::BLANK; 64];
    let mut uppers = [Upper(0); 64];
    let mut lines = String::new(rt.alloc());
    if run(
        &mut index,
        &mut store,
        FORMAT,
        &input[0..len],
        &mut hits,
        &mut candidates,
        &mut uppers,
        &mut lines,
    )
    .is_err()
    {
        return Err(anyhow!("no memory for the lines"));
    }
    rt.print(lines.as_str())?;
    Ok(())
}

fn main(rt: HostRuntime) -> anyhow::Result<()> {
    serve(&rt)
}
