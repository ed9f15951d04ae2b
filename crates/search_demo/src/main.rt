//! A visitor's first program: two patches are measured against a query, then two suppliers are asked which patches are nearest to it.
#![tactic(auto)]

use anyhow::anyhow;
use comparison::compare_two;
use questions::{QUESTIONS, Question};
use refusal::Refusal;
use supplier::{PATCHES, QUERY, Reply, Supplier};

mod questions;
mod supplier;

// None, a few, some, and as many as a full scan measures.
const BUDGETS: [u32; 4] = [0, 6, 10, FULL_SCAN];

// Every patch in each of the four channels.
const FULL_SCAN: u32 = PATCHES.len() as u32 * 4;

// A supplier's pivots: channels and patches.
const FIRST_PIVOTS: [(u8, u16); 2] = [(3, 9), (2, 11)];

const SECOND_PIVOTS: [(u8, u16); 5] = [(0, 12), (0, 3), (1, 1), (2, 8), (3, 4)];

fn served<T>(outcome: Result<T, Refusal>) -> anyhow::Result<T> {
    match outcome {
        Ok(x) => Ok(x),
        Err(_) => Err(anyhow!("a supplier refuses what it should serve")),
    }
}

fn distances(n: u32) -> &'static str {
    if n == 1 { "distance" } else { "distances" }
}

fn tell_hits(rt: &HostRuntime, reply: &Reply) -> anyhow::Result<()> {
    let mut before = "";
    for hit in reply.named() {
        let number = hit.accession;
        let distance = hit.distance;
        print!(rt; "{before}patch {number} at {distance}")?;
        before = ", then ";
    }
    Ok(())
}

fn tell_reply(rt: &HostRuntime, name: &str, reply: &Reply) -> anyhow::Result<()> {
    let measured = reply.answer.measured;
    let unit = distances(measured);
    let end = if reply.answer.complete {
        "finishes"
    } else {
        "stops"
    };
    print!(rt; "  The {name} supplier measures {measured} {unit}, {end}, and names ")?;
    if reply.answer.named == 0 {
        print!(rt; "no patch")?;
    }
    tell_hits(rt, reply)?;
    println!(rt; ".")?;
    Ok(())
}

// Whether one list begins the other.
fn lists_agree(a: &Reply, b: &Reply) -> bool {
    a.named().iter().zip(b.named()).all(|(x, y)| x == y)
}

fn verdict(a: &Reply, b: &Reply) -> &'static str {
    let finished = a.answer.complete && b.answer.complete;
    if !lists_agree(a, b) || finished && a.answer.named != b.answer.named {
        "  WARNING: their lists do not agree, so one of the two indexes cannot be trusted."
    } else if finished {
        "  Both lists are finished, and they are the same."
    } else {
        "  As far as both have come, their lists agree."
    }
}

// Asks both suppliers under one budget; how much each measured.
fn ask_both(
    rt: &HostRuntime,
    first: &mut Supplier,
    second: &mut Supplier,
    question: &Question,
    budget: u32,
) -> anyhow::Result<(u32, u32)> {
    let unit = distances(budget);
    println!(rt; "With a budget of {budget} {unit}:")?;
    let a = served(first.ask(question, budget))?;
    let b = served(second.ask(question, budget))?;
    tell_reply(rt, "first", &a)?;
    tell_reply(rt, "second", &b)?;
    println!(rt; "{}", verdict(&a, &b))?;
    Ok((a.answer.measured, b.answer.measured))
}

// Asks both suppliers a question, under one budget after another.
fn discuss(
    rt: &HostRuntime,
    first: &mut Supplier,
    second: &mut Supplier,
    question: &Question,
) -> anyhow::Result<()> {
    let words = question.words;
    println!(rt; "\n{words}")?;
    let mut measured = (0, 0);
    for budget in &BUDGETS {
        measured = ask_both(rt, first, second, question, *budget)?;
    }
    let (a, b) = measured;
    println!(rt;
        "A full scan would have measured {FULL_SCAN} distances; the first supplier needed {a}, and the second {b}."
    )?;
    Ok(())
}

fn introduce(rt: &HostRuntime) -> anyhow::Result<()> {
    let patches = PATCHES.len();
    let few = FIRST_PIVOTS.len();
    let many = SECOND_PIVOTS.len();
    println!(rt; "\nTwo suppliers hold the same {patches} patches of a fragment.")?;
    println!(rt;
        "The first took them in by number and has {few} pivots; the second took them in backwards and has {many}."
    )?;
    println!(rt; "Both are shown the query. A budget says how many distances they may measure.")?;
    Ok(())
}

fn run(rt: &HostRuntime) -> anyhow::Result<()> {
    compare_two(rt, &QUERY, &PATCHES[4], &PATCHES[8])?;
    introduce(rt)?;
    let mut first = served(Supplier::new())?;
    served(first.take_in_order())?;
    served(first.add_pivots(&FIRST_PIVOTS))?;
    let mut second = served(Supplier::new())?;
    served(second.take_backwards())?;
    served(second.add_pivots(&SECOND_PIVOTS))?;
    for question in &QUESTIONS {
        discuss(rt, &mut first, &mut second, question)?;
    }
    Ok(())
}

fn main(rt: HostRuntime) -> anyhow::Result<()> {
    run(&rt)
}
