//! A supplier of patches: an index over the bench's channels, with its store.
use crate::questions::Question;
use bench::{Bench, bench};
use comparison::Patch;
use engine::records::{Answer, Candidate, Neighbor};
use index::pivot_index::PivotIndex;
use queue::rank::Upper;
use refusal::Refusal;
use search::{Query, nearest};

/// The fragment's patches.
pub const PATCHES: [Patch; 12] = [
    Patch(1, [60, 58, 61, 60, 255, 0, 0, 0, 64, 60, 20, 22]),
    Patch(2, [14, 11, 9, 10, 0, 0, 0, 3, 2, 1, 16, 18]),
    Patch(3, [62, 60, 60, 59, 255, 15, 0, 0, 66, 61, 21, 22]),
    Patch(4, [90, 92, 91, 90, 0, 255, 255, 0, 128, 130, 40, 41]),
    Patch(5, [10, 10, 10, 10, 0, 0, 0, 0, 0, 0, 16, 16]),
    Patch(6, [88, 90, 92, 91, 0, 255, 240, 0, 126, 131, 40, 43]),
    Patch(7, [16, 12, 12, 10, 0, 0, 1, 1, 8, 3, 17, 17]),
    Patch(8, [61, 59, 58, 60, 240, 0, 0, 1, 63, 62, 19, 22]),
    Patch(9, [20, 10, 10, 10, 0, 0, 0, 15, 248, 0, 16, 18]),
    Patch(
        10,
        [120, 118, 121, 119, 255, 255, 255, 255, 200, 198, 60, 62],
    ),
    Patch(11, [35, 34, 36, 33, 0, 3, 0, 1, 30, 33, 18, 20]),
    Patch(
        12,
        [119, 121, 120, 120, 255, 255, 255, 127, 202, 197, 61, 60],
    ),
];

/// What is shown to the suppliers.
pub const QUERY: [u8; 12] = [12, 10, 10, 10, 0, 0, 0, 1, 4, 0, 16, 17];

const SLOTS: usize = 12;

// Twelve slots of 2 + 12 + 64 bytes, and 96 bytes of pivot rows.
const STORE: usize = 1032;

/// A supplier's index and store.
#[derive(Drop)]
pub struct Supplier {
    index: PivotIndex<Bench>,
    store: [u8; STORE],
}

/// An answer with its hits.
#[derive(Clone, Copy)]
pub struct Reply {
    pub answer: Answer,
    hits: [Neighbor; SLOTS],
}

impl Reply {
    /// The hits named.
    pub fn named(&self) -> &[Neighbor] {
        self.hits.get(0..self.answer.named as usize).unwrap_or(&[])
    }
}

impl Supplier {
    /// Holds nothing yet.
    pub fn new() -> Result<Supplier, Refusal> {
        let mut store = [0u8; STORE];
        let index = PivotIndex::new(bench(), SLOTS as u16, &mut store)?;
        Ok(Supplier { index, store })
    }

    fn take(&mut self, patch: &Patch) -> Result<(), Refusal> {
        self.index.insert(&mut self.store, patch.0, &patch.1)
    }

    /// Inserts the fragment's patches by their numbers.
    pub fn take_in_order(&mut self) -> Result<(), Refusal> {
        for patch in &PATCHES {
            self.take(patch)?;
        }
        Ok(())
    }

    /// Inserts the fragment's patches, the last first.
    pub fn take_backwards(&mut self) -> Result<(), Refusal> {
        for patch in PATCHES.iter().rev() {
            self.take(patch)?;
        }
        Ok(())
    }

    /// Makes pivots of patches, each in a channel.
    pub fn add_pivots(&mut self, pivots: &[(u8, u16)]) -> Result<(), Refusal> {
        for (channel, patch) in pivots {
            self.index.add_pivot(&mut self.store, *channel, *patch)?;
        }
        Ok(())
    }

    /// Asks for the patches nearest to the query.
    pub fn ask(&mut self, question: &Question, budget: u32) -> Result<Reply, Refusal> {
        let query = Query {
            rows: &QUERY,
            weights: &question.weights,
            aggregate: question.aggregate,
            k: question.k,
            radius: question.radius,
        };
        let mut hits = [Neighbor::BLANK; SLOTS];
        let mut candidates = [Candidate::BLANK; SLOTS];
        let mut uppers = [Upper(0); SLOTS];
        let answer = nearest(
            &mut self.index,
            &self.store,
            &query,
            budget,
            &mut hits,
            &mut candidates,
            &mut uppers,
        )?;
        Ok(Reply { answer, hits })
    }
}
