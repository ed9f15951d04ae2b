//! Drawn cases: two suppliers hold the same patches in another order and with other pivots, and both are compared with a full scan.
use crate::ask::{Told, ask};
use crate::chance::{Chance, Drawn};
use crate::scan::{Channel, Patch, first_of, full_scan, width_of};
use crate::sets::{EIGHT, FOUR, ONE, TWO, eight, four, one, two};
use crate::supplier::Supplier;
use aggregate::Choice;
use metric::channels::ChannelSet;
use search::Query;
use std::alloc::Global;
use std::process::Abort;
use std::test::*;

const ROUNDS: u32 = 48;

const QUESTIONS: u32 = 8;

// The list is a beginning of the scan's, and all of it where the search is complete.
fn check_begins(rt: &impl Abort, told: &Told, scan: &[(u32, u16)]) -> Result<(), Fail> {
    let named = usize::from(told.answer.named);
    assert!(rt; named <= scan.len());
    assert!(rt; !told.answer.complete || named == scan.len());
    for (hit, expected) in told.hits.iter().zip(scan).take(named) {
        assert_eq!(rt; (hit.distance, hit.accession), *expected);
    }
    Ok(())
}

// One list begins the other.
fn check_agree(rt: &impl Abort, a: &Told, b: &Told) -> Result<(), Fail> {
    let both = usize::from(a.answer.named.min(b.answer.named));
    for (x, y) in a.hits.iter().zip(&b.hits).take(both) {
        assert_eq!(rt; x, y);
    }
    Ok(())
}

// A supplier's list under a budget. Without one, the list is complete; with one, the same is measured as far as it goes.
fn told_by<S: ChannelSet>(
    rt: &impl Abort,
    supplier: &mut Supplier<S>,
    query: &Query<Choice>,
    budget: u32,
    scan: &[(u32, u16)],
) -> Result<Told, Fail> {
    let whole = ask(rt, &mut supplier.index, &supplier.store, query, u32::MAX)?;
    assert!(rt; whole.answer.complete);
    check_begins(rt, &whole, scan)?;
    let told = ask(rt, &mut supplier.index, &supplier.store, query, budget)?;
    check_begins(rt, &told, scan)?;
    assert_eq!(rt; told.answer.measured, budget.min(whole.answer.measured));
    assert_eq!(rt; told.answer.complete, whole.answer.measured <= budget);
    Ok(told)
}

// Two suppliers, and what both hold.
#[derive(Drop)]
struct Case<'a, S: ChannelSet> {
    channels: &'a [Channel],
    held: Vec<Patch>,
    first: Supplier<S>,
    second: Supplier<S>,
}

impl<S: ChannelSet> Case<'_, S> {
    fn examine(
        &mut self,
        rt: &impl Abort,
        heap: Global,
        drawn: &Drawn,
        chance: &mut Chance,
    ) -> Result<(), Fail> {
        let query = Query {
            rows: first_of(&drawn.rows, self.first.width),
            weights: first_of(&drawn.weights, self.channels.len()),
            aggregate: drawn.aggregate,
            k: drawn.k,
            radius: drawn.radius,
        };
        let scan = full_scan(heap, self.channels, self.held.as_slice(), &query)?;
        let one = told_by(
            rt,
            &mut self.first,
            &query,
            chance.budget(),
            scan.as_slice(),
        )?;
        let other = told_by(
            rt,
            &mut self.second,
            &query,
            chance.budget(),
            scan.as_slice(),
        )?;
        check_agree(rt, &one, &other)
    }
}

fn drawn_case<'a, S: ChannelSet + Copy>(
    rt: &impl Abort,
    heap: Global,
    set: S,
    channels: &'a [Channel],
    chance: &mut Chance,
) -> Result<Case<'a, S>, Fail> {
    let width = width_of(channels);
    let mut held = Vec::new(heap);
    let mut first = Supplier::new(set, width)?;
    let mut second = Supplier::new(set, width)?;
    let calls = chance.below(200);
    chance.regrain();
    first.change_often(rt, &mut held, chance, calls)?;
    second.insert_backwards(held.as_slice())?;
    second.repivot_often(chance, calls / 4);
    Ok(Case {
        channels,
        held,
        first,
        second,
    })
}

fn ask_often<S: ChannelSet>(
    rt: &impl Abort,
    heap: Global,
    case: &mut Case<S>,
    chance: &mut Chance,
) -> Result<(), Fail> {
    for _ in 0..QUESTIONS {
        let drawn = chance.question();
        case.examine(rt, heap, &drawn, chance)?;
    }
    Ok(())
}

fn family<S: ChannelSet + Copy>(
    rt: &impl Abort,
    heap: Global,
    set: S,
    channels: &[Channel],
    seed: u16,
) -> Result<(), Fail> {
    let mut chance = Chance::new(seed);
    for _ in 0..ROUNDS {
        let mut case = drawn_case(rt, heap, set, channels, &mut chance)?;
        ask_often(rt, heap, &mut case, &mut chance)?;
    }
    Ok(())
}

#[test]
fn one_channel(rt: HostRuntime) -> Result<(), Fail> {
    family(&rt, rt.alloc(), one(), &ONE, 1)
}

#[test]
fn two_channels(rt: HostRuntime) -> Result<(), Fail> {
    family(&rt, rt.alloc(), two(0), &TWO, 2)
}

#[test]
fn four_channels(rt: HostRuntime) -> Result<(), Fail> {
    family(&rt, rt.alloc(), four(3, 1), &FOUR, 3)
}

#[test]
fn eight_channels(rt: HostRuntime) -> Result<(), Fail> {
    family(&rt, rt.alloc(), eight(), &EIGHT, 4)
}
