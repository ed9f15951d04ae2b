//! Hamming distance on bits.
use crate::bytes::DifferingBits;
use crate::gathered::{Gathered, Sum};

/// The number of bits that differ; at most 8 times the width.
pub type Hamming = Gathered<Sum, DifferingBits>;
