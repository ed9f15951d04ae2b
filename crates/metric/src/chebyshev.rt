//! Chebyshev distance.
use crate::bytes::Difference;
use crate::gathered::{Gathered, Largest};

/// The largest single byte difference; at most 255.
pub type Chebyshev = Gathered<Largest, Difference>;
