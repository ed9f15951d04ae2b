//! Two patches are measured against a query on the bench's four channels, and the program says how they compare.
#![tactic(auto)]

ghost use Rattle.std.specs.Prelude.{◌≡◌, IfOk, replicate};
ghost use Rattle.aggregate.specs.Aggregates.{total, greatest, smallest};
ghost use Rattle.bench.specs.Bench.{channels};
ghost use Rattle.patch.specs.Patches.{distance_in, all_weighted};

use aggregate::{Max, Min, Sum, Weighted};
use anyhow::anyhow;
use bench::bench;
use patch::{aggregated_distance, channel_distance};
use refusal::Refusal;

/// A patch: its accession number, and its rows in bands, ink, grain and depth.
#[derive(Clone, Copy, PartialEq, Eq, Debug)]
pub struct Patch(pub u16, pub [u8; 12]);

// What is measured between the query and a patch.
#[derive(Clone, Copy)]
struct Comparison {
    number: u16,
    bands: u16,
    ink: u16,
    grain: u16,
    depth: u16,
    sum: Weighted,
    greatest: Weighted,
    least: Weighted,
}

// What is measured, all weights being 1.
fn compare(query: &[u8], patch: &Patch) -> Result<Comparison, Refusal>
    ensures number { IfOk result (λ c. c.number ≡ patch.now.0) }
    ensures bands { IfOk result (λ c. c.bands ≡ distance_in channels query.now patch.now.1 0) }
    ensures ink { IfOk result (λ c. c.ink ≡ distance_in channels query.now patch.now.1 1) }
    ensures grain { IfOk result (λ c. c.grain ≡ distance_in channels query.now patch.now.1 2) }
    ensures depth { IfOk result (λ c. c.depth ≡ distance_in channels query.now patch.now.1 3) }
    ensures sum { IfOk result (λ c. c.sum ≡ total (all_weighted channels (replicate 4 1) query.now patch.now.1)) }
    ensures greatest { IfOk result (λ c. c.greatest ≡ greatest (all_weighted channels (replicate 4 1) query.now patch.now.1)) }
    ensures least { IfOk result (λ c. c.least ≡ smallest (all_weighted channels (replicate 4 1) query.now patch.now.1)) }
{
    let mut set = bench();
    let Patch(number, rows) = patch;
    let weights = [1u8; 4];
    Ok(Comparison {
        number: *number,
        bands: channel_distance(&mut set, 0, query, rows)?,
        ink: channel_distance(&mut set, 1, query, rows)?,
        grain: channel_distance(&mut set, 2, query, rows)?,
        depth: channel_distance(&mut set, 3, query, rows)?,
        sum: aggregated_distance(&mut set, &Sum, &weights, query, rows)?,
        greatest: aggregated_distance(&mut set, &Max, &weights, query, rows)?,
        least: aggregated_distance(&mut set, &Min, &weights, query, rows)?,
    })
}

fn tell(rt: &HostRuntime, c: Comparison) -> anyhow::Result<()> {
    let Comparison {
        number,
        bands,
        ink,
        grain,
        depth,
        sum,
        greatest,
        least,
    } = c;
    println!(rt;
        "Patch {number} differs from the query by {bands} in bands, {ink} in ink, {grain} in grain and {depth} in depth."
    )?;
    println!(rt;
        "  All weights being 1, the sum is {sum}, the greatest {greatest} and the least {least}."
    )?;
    Ok(())
}

// Names the nearer of two patches; equally near ones go by their number.
fn judge(
    rt: &HostRuntime,
    by: &str,
    (first, near): (u16, Weighted),
    (second, far): (u16, Weighted),
) -> anyhow::Result<()> {
    if near < far {
        println!(rt; "By the {by}, patch {first} is nearer: {near} against {far}.")?;
    } else if far < near {
        println!(rt; "By the {by}, patch {second} is nearer: {far} against {near}.")?;
    } else {
        println!(rt;
            "By the {by}, both are at {near}, so the lower number, {first}, comes first."
        )?;
    }
    Ok(())
}

/// Measures two patches against a query, and says which is nearer by each aggregate.
pub fn compare_two(
    rt: &HostRuntime,
    query: &[u8],
    first: &Patch,
    second: &Patch,
) -> anyhow::Result<()> {
    println!(rt; "Two patches are measured against a query, channel by channel.")?;
    let (Ok(a), Ok(b)) = (compare(query, first), compare(query, second)) else {
        return Err(anyhow!("a patch does not fit the bench's channels"));
    };
    tell(rt, a)?;
    tell(rt, b)?;
    judge(rt, "sum", (a.number, a.sum), (b.number, b.sum))?;
    judge(
        rt,
        "greatest",
        (a.number, a.greatest),
        (b.number, b.greatest),
    )?;
    judge(rt, "least", (a.number, a.least), (b.number, b.least))
}
