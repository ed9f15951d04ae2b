//! What the suppliers are asked.
use aggregate::Choice;

/// A question about the query, and how it is put in words.
#[derive(Clone, Copy)]
pub struct Question {
    pub words: &'static str,
    pub weights: [u8; 4],
    pub aggregate: Choice,
    pub k: u16,
    pub radius: u32,
}

/// What both suppliers are asked.
pub const QUESTIONS: [Question; 3] = [
    Question {
        words: "Which 3 patches are nearest by the sum, all channels weighing the same?",
        weights: [1, 1, 1, 1],
        aggregate: Choice::Sum,
        k: 3,
        radius: 1000,
    },
    Question {
        words: "Which 2 are nearest by the greatest difference, bands weighing double?",
        weights: [2, 1, 1, 1],
        aggregate: Choice::Max,
        k: 2,
        radius: 1000,
    },
    Question {
        words: "Which differ by at most 3 in ink, whatever the other channels say?",
        weights: [0, 1, 0, 0],
        aggregate: Choice::Sum,
        k: 12,
        radius: 3,
    },
];
