//! Calls with several faults at once: the first one in the order of the checks is answered, and nothing changes.
use crate::ask::{UNTOUCHED, USED, check_scratch, check_untouched};
use crate::scan::first_of;
use crate::sets::{Two, two};
use aggregate::Choice;
use engine::records::{Candidate, Neighbor};
use index::pivot_index::PivotIndex;
use queue::rank::Upper;
use refusal::Refusal;
use search::{Query, nearest};
use std::process::Abort;
use std::test::*;

// The lengths of what is handed to a search of three patches in two channels of a byte each, k, and why it is refused.
#[derive(Clone, Copy)]
struct Call {
    store: usize,
    rows: usize,
    weights: usize,
    k: u16,
    hits: usize,
    candidates: usize,
    uppers: usize,
    refusal: Refusal,
}

// Everything is wrong that can be.
const WORST: Call = Call {
    store: 123,
    rows: 3,
    weights: 1,
    k: 0,
    hits: 0,
    candidates: 2,
    uppers: 2,
    refusal: Refusal::BadStore,
};

const CALLS: [Call; 12] = [
    WORST,
    Call { store: 0, ..WORST },
    Call {
        store: 124,
        refusal: Refusal::WrongRowsLength,
        ..WORST
    },
    Call {
        store: 124,
        rows: 1,
        refusal: Refusal::WrongRowsLength,
        ..WORST
    },
    Call {
        store: 124,
        rows: 2,
        refusal: Refusal::WrongWeightsLength,
        ..WORST
    },
    Call {
        store: 124,
        rows: 2,
        weights: 3,
        refusal: Refusal::WrongWeightsLength,
        ..WORST
    },
    Call {
        store: 124,
        rows: 2,
        weights: 2,
        refusal: Refusal::NothingWanted,
        ..WORST
    },
    Call {
        store: 124,
        rows: 2,
        weights: 2,
        k: 2,
        hits: 1,
        refusal: Refusal::HitsTooShort,
        ..WORST
    },
    Call {
        store: 124,
        rows: 2,
        weights: 2,
        k: 9,
        hits: 2,
        refusal: Refusal::HitsTooShort,
        ..WORST
    },
    Call {
        store: 124,
        rows: 2,
        weights: 2,
        k: 2,
        hits: 2,
        refusal: Refusal::ScratchTooShort,
        ..WORST
    },
    Call {
        store: 124,
        rows: 2,
        weights: 2,
        k: 9,
        hits: 3,
        candidates: 3,
        refusal: Refusal::ScratchTooShort,
        ..WORST
    },
    Call {
        store: 124,
        rows: 2,
        weights: 2,
        k: 9,
        hits: 3,
        uppers: 3,
        refusal: Refusal::ScratchTooShort,
        ..WORST
    },
];

// Why a search with the first parts of these lists is refused.
fn refusal_of(
    index: &mut PivotIndex<Two>,
    store: &[u8],
    call: &Call,
    hits: &mut [Neighbor],
    candidates: &mut [Candidate],
    uppers: &mut [Upper],
) -> Option<Refusal> {
    let query = Query {
        rows: first_of(&[1; 4], call.rows),
        weights: first_of(&[1; 4], call.weights),
        aggregate: Choice::Sum,
        k: call.k,
        radius: 1000,
    };
    let hits_end = call.hits.min(hits.len());
    let candidates_end = call.candidates.min(candidates.len());
    let uppers_end = call.uppers.min(uppers.len());
    nearest(
        index,
        first_of(store, call.store),
        &query,
        9,
        &mut hits[0..hits_end],
        &mut candidates[0..candidates_end],
        &mut uppers[0..uppers_end],
    )
    .err()
}

fn check_refused(
    rt: &impl Abort,
    index: &mut PivotIndex<Two>,
    store: &[u8],
    call: &Call,
) -> Result<(), Fail> {
    let mut hits = [UNTOUCHED; 4];
    let mut candidates = [USED; 4];
    let mut uppers = [Upper(7); 4];
    assert_eq!(rt;
        refusal_of(index, store, call, &mut hits, &mut candidates, &mut uppers),
        Some(call.refusal)
    );
    assert_eq!(rt; index.counts.held, 3);
    check_untouched(rt, &hits, 0)?;
    check_scratch(rt, &candidates, &uppers, &USED, 7)
}

#[test]
fn the_first_fault_is_answered(rt: HostRuntime) -> Result<(), Fail> {
    let mut store = [0u8; 124];
    let mut index = PivotIndex::new(two(0), 3, &mut store)?;
    index.insert(&mut store, 5, &[10, 0x00])?;
    index.insert(&mut store, 9, &[20, 0x0f])?;
    index.insert(&mut store, 12, &[40, 0x00])?;
    for call in &CALLS {
        check_refused(&rt, &mut index, &store, call)?;
    }
    Ok(())
}
