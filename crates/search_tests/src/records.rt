//! What a search asks a metric, as the metric recorded it.
use crate::ask::ask;
use aggregate::Choice;
use index::pivot_index::PivotIndex;
use metric::channels::{Pair, Single};
use refusal::Refusal;
use search::Query;
use std::process::Abort;
use std::test::*;
use suppliers::recorder::Recorder;

type Recorders = Pair<Single<Recorder>, Single<Recorder>>;

// Sixteen slots of 2 + 2 + 32 bytes, and 16 bytes of pivot rows.
const STORE: usize = 592;

// The query's byte, the patches' and the pivots'; no two patches and no pivot have the same.
const QUERY: u8 = 12;

const PATCHES: [u8; 12] = [10, 11, 12, 13, 40, 41, 42, 90, 91, 92, 200, 255];

const PIVOTS: [u8; 4] = [14, 43, 93, 0];

fn recorders() -> Recorders {
    Pair {
        first: Single {
            metric: Recorder::new(),
        },
        second: Single {
            metric: Recorder::new(),
        },
    }
}

fn insert_patches(index: &mut PivotIndex<Recorders>, store: &mut [u8]) -> Result<(), Refusal> {
    for x in &PATCHES {
        index.insert(store, u16::from(*x), &[*x, 255 - *x])?;
    }
    Ok(())
}

// Each pivot's patch is removed, so that only the pivot has its row; channel 1 has every pivot, and channel 0 one.
fn add_pivots(index: &mut PivotIndex<Recorders>, store: &mut [u8]) -> Result<(), Refusal> {
    for x in &PIVOTS {
        let accession = u16::from(*x);
        index.insert(store, accession, &[*x, 255 - *x])?;
        index.add_pivot(store, 1, accession)?;
        if *x == 14 {
            index.add_pivot(store, 0, accession)?;
        }
        index.remove(store, accession)?;
    }
    Ok(())
}

// What channel 0 and channel 1 hold of the lists above: a byte, or what is left of it to 255.
#[derive(Clone, Copy)]
struct Rows {
    flipped: bool,
}

impl Rows {
    fn row(self, x: u8) -> u8 {
        if self.flipped { 255 - x } else { x }
    }

    fn holds(self, list: &[u8], row: u8) -> bool {
        list.iter().any(|x| self.row(*x) == row)
    }

    // A pair that is recorded is the query's row with a pivot's, or with a patch's: whether it is with a patch's.
    fn is_measured(self, rt: &impl Abort, pivots: &[u8], x: u8, y: u8) -> Result<bool, Fail> {
        let query = self.row(QUERY);
        assert!(rt; x == query || y == query);
        let other = if x == query { y } else { x };
        if self.holds(pivots, other) {
            return Ok(false);
        }
        assert!(rt; self.holds(&PATCHES, other));
        Ok(true)
    }

    // How many pairs with x first are of the query and a patch.
    fn measured_from(
        self,
        rt: &impl Abort,
        recorder: &Recorder,
        pivots: &[u8],
        x: u8,
    ) -> Result<u32, Fail> {
        let mut n: u32 = 0;
        for y in 0..=255 {
            if recorder.was_asked(x, y) && self.is_measured(rt, pivots, x, y)? {
                n = n.wrapping_add(1);
            }
        }
        Ok(n)
    }

    // How many pairs are of the query and a patch.
    fn measured(self, rt: &impl Abort, recorder: &Recorder, pivots: &[u8]) -> Result<u32, Fail> {
        let mut n: u32 = 0;
        for x in 0..=255 {
            n = n.wrapping_add(self.measured_from(rt, recorder, pivots, x)?);
        }
        Ok(n)
    }
}

// A search with fresh recorders measures as much as is said, and its records have as many pairs of the query and a patch.
fn check_records(
    rt: &impl Abort,
    index: &mut PivotIndex<Recorders>,
    store: &[u8],
    aggregate: Choice,
    budget: u32,
) -> Result<(), Fail> {
    index.set = recorders();
    let query = Query {
        rows: &[QUERY, 255 - QUERY],
        weights: &[1, 2],
        aggregate,
        k: 3,
        radius: 1000,
    };
    let told = ask(rt, index, store, &query, budget)?;
    let first = Rows { flipped: false }.measured(rt, &index.set.first.metric, &PIVOTS[0..1])?;
    let second = Rows { flipped: true }.measured(rt, &index.set.second.metric, &PIVOTS)?;
    assert_eq!(rt; first.wrapping_add(second), told.answer.measured);
    Ok(())
}

#[test]
fn only_the_query_is_measured(rt: HostRuntime) -> Result<(), Fail> {
    let mut store = [0u8; STORE];
    let mut index = PivotIndex::new(recorders(), 16, &mut store)?;
    insert_patches(&mut index, &mut store)?;
    add_pivots(&mut index, &mut store)?;
    for budget in [0, 1, 7, 100] {
        check_records(&rt, &mut index, &store, Choice::Sum, budget)?;
        check_records(&rt, &mut index, &store, Choice::Max, budget)?;
        check_records(&rt, &mut index, &store, Choice::Min, budget)?;
    }
    Ok(())
}
