//! The examples of the rules, worked by hand.
use crate::ask::{Told, ask};
use crate::sets::{Two, two};
use aggregate::Choice;
use index::pivot_index::PivotIndex;
use refusal::Refusal;
use search::Query;
use std::process::Abort;
use std::test::*;

// Three slots of 2 + 2 + 32 bytes, and 16 bytes of pivot rows.
const STORE: usize = 124;

// A question about (12, hex 01) to an index of the patches 5, 9 and 12, and what it comes to.
#[derive(Clone, Copy)]
struct Example {
    // patch 12 is a pivot of channel 0
    pivot: bool,
    // patch 12 is removed before the search
    removed: bool,
    aggregate: Choice,
    k: u16,
    radius: u32,
    budget: u32,
    complete: bool,
    // accession numbers and distances; those named are counted
    hits: [(u16, u32); 2],
    named: u16,
    measured: u32,
    admitted: u16,
}

const PLAIN: Example = Example {
    pivot: false,
    removed: false,
    aggregate: Choice::Sum,
    k: 1,
    radius: 1000,
    budget: 9,
    complete: true,
    hits: [(5, 3), (9, 11)],
    named: 1,
    measured: 4,
    admitted: 3,
};

const EXAMPLES: [Example; 11] = [
    PLAIN,
    Example {
        pivot: true,
        measured: 2,
        ..PLAIN
    },
    Example {
        pivot: true,
        removed: true,
        measured: 2,
        admitted: 2,
        ..PLAIN
    },
    Example {
        budget: 3,
        complete: false,
        named: 0,
        measured: 3,
        ..PLAIN
    },
    Example {
        pivot: true,
        k: 2,
        budget: 3,
        complete: false,
        measured: 3,
        ..PLAIN
    },
    Example {
        pivot: true,
        k: 2,
        budget: 4,
        named: 2,
        ..PLAIN
    },
    Example {
        pivot: true,
        k: 3,
        radius: 20,
        named: 2,
        admitted: 2,
        ..PLAIN
    },
    Example {
        pivot: true,
        k: 3,
        radius: 10,
        admitted: 2,
        ..PLAIN
    },
    Example {
        pivot: true,
        k: 3,
        radius: 2,
        named: 0,
        measured: 2,
        admitted: 1,
        ..PLAIN
    },
    Example {
        aggregate: Choice::Max,
        hits: [(5, 2), (0, 0)],
        ..PLAIN
    },
    Example {
        aggregate: Choice::Min,
        k: 2,
        hits: [(5, 1), (12, 1)],
        named: 2,
        measured: 6,
        ..PLAIN
    },
];

fn fill(index: &mut PivotIndex<Two>, store: &mut [u8], example: &Example) -> Result<(), Refusal> {
    index.insert(store, 5, &[10, 0x00])?;
    index.insert(store, 9, &[20, 0x0f])?;
    index.insert(store, 12, &[40, 0x00])?;
    if example.pivot {
        index.add_pivot(store, 0, 12)?;
    }
    if example.removed {
        index.remove(store, 12)?;
    }
    Ok(())
}

fn check_hits(
    rt: &impl Abort,
    told: &Told,
    expected: &[(u16, u32)],
    named: u16,
) -> Result<(), Fail> {
    assert_eq!(rt; told.answer.named, named);
    for (hit, expected) in told.hits.iter().zip(expected).take(named as usize) {
        assert_eq!(rt; (hit.accession, hit.distance), *expected);
    }
    Ok(())
}

fn work(rt: &impl Abort, example: &Example) -> Result<(), Fail> {
    let mut store = [255u8; STORE];
    let mut index = PivotIndex::new(two(0), 3, &mut store)?;
    fill(&mut index, &mut store, example)?;
    let query = Query {
        rows: &[12, 0x01],
        weights: &[1, 1],
        aggregate: example.aggregate,
        k: example.k,
        radius: example.radius,
    };
    let told = ask(rt, &mut index, &store, &query, example.budget)?;
    check_hits(rt, &told, &example.hits, example.named)?;
    assert_eq!(rt; told.answer.complete, example.complete);
    assert_eq!(rt; told.answer.measured, example.measured);
    assert_eq!(rt; told.answer.admitted, example.admitted);
    Ok(())
}

#[test]
fn worked_examples(rt: HostRuntime) -> Result<(), Fail> {
    for example in &EXAMPLES {
        work(&rt, example)?;
    }
    Ok(())
}

const NEAREST: Query<'static, Choice> = Query {
    rows: &[12, 0x01],
    weights: &[1, 1],
    aggregate: Choice::Sum,
    k: 1,
    radius: 1000,
};

#[test]
fn equal_patches_go_by_their_number(rt: HostRuntime) -> Result<(), Fail> {
    let mut store = [255u8; STORE];
    let mut index = PivotIndex::new(two(0), 3, &mut store)?;
    index.insert(&mut store, 7, &[12, 0x01])?;
    index.insert(&mut store, 3, &[12, 0x01])?;
    let told = ask(&rt, &mut index, &store, &NEAREST, 9)?;
    assert!(rt; told.answer.complete);
    assert_eq!(rt; told.answer.measured, 2);
    check_hits(&rt, &told, &[(3, 0)], 1)
}

#[test]
fn an_empty_index_has_nothing_to_measure(rt: HostRuntime) -> Result<(), Fail> {
    let mut store = [255u8; STORE];
    let mut index = PivotIndex::new(two(0), 3, &mut store)?;
    let told = ask(&rt, &mut index, &store, &NEAREST, 0)?;
    assert!(rt; told.answer.complete);
    assert_eq!(rt;
        (
            told.answer.named,
            told.answer.measured,
            told.answer.admitted,
        ),
        (0, 0, 0)
    );
    Ok(())
}
