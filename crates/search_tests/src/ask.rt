//! A question asked with lists of its own, and what holds of every answer, whatever the store.
use aggregate::Choice;
use engine::records::{Answer, Candidate, Neighbor};
use index::pivot_index::PivotIndex;
use metric::channels::ChannelSet;
use queue::rank::Upper;
use search::{Query, nearest};
use std::process::Abort;
use std::test::*;

/// The most patches that an index of these tests holds.
pub const MOST: usize = 64;

/// Hits begin as this, so that a write beyond those named is seen.
pub const UNTOUCHED: Neighbor = Neighbor {
    accession: 0xaaaa,
    distance: 0xaaaaaaaa,
};

/// Scratch begins as anything.
pub const USED: Candidate = Candidate {
    bound: 7,
    accession: 7,
    slot: 7,
    measured: 7,
    order: [7; 8],
    entries: [7; 8],
};

/// An answer with its hits.
#[derive(Clone, Copy)]
pub struct Told {
    pub answer: Answer,
    pub hits: [Neighbor; MOST],
}

/// Hits beyond those named are as they began.
pub fn check_untouched(rt: &impl Abort, hits: &[Neighbor], named: u16) -> Result<(), Fail> {
    for hit in hits.iter().skip(usize::from(named)) {
        assert_eq!(rt; *hit, UNTOUCHED);
    }
    Ok(())
}

/// All scratch is as said.
pub fn check_scratch(
    rt: &impl Abort,
    candidates: &[Candidate],
    uppers: &[Upper],
    candidate: &Candidate,
    upper: u32,
) -> Result<(), Fail> {
    for (x, y) in candidates.iter().zip(uppers) {
        assert_eq!(rt; x, candidate);
        assert_eq!(rt; y.0, upper);
    }
    Ok(())
}

/// Asks an index, and checks what every answer keeps: at most k named, at most the budget measured, hits beyond those named untouched,
/// scratch at zeros.
pub fn ask<S: ChannelSet>(
    rt: &impl Abort,
    index: &mut PivotIndex<S>,
    store: &[u8],
    query: &Query<Choice>,
    budget: u32,
) -> Result<Told, Fail> {
    let mut hits = [UNTOUCHED; MOST];
    let mut candidates = [USED; MOST];
    let mut uppers = [Upper(7); MOST];
    let answer = nearest(
        index,
        store,
        query,
        budget,
        &mut hits,
        &mut candidates,
        &mut uppers,
    )?;
    assert!(rt; answer.named <= query.k);
    assert!(rt; answer.measured <= budget);
    check_untouched(rt, &hits, answer.named)?;
    check_scratch(rt, &candidates, &uppers, &Candidate::BLANK, 0)?;
    Ok(Told { answer, hits })
}
