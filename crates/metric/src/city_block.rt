//! City block distance.
use crate::bytes::Difference;
use crate::gathered::{Gathered, Sum};

/// The sum of the byte differences; at most 255 times the width.
pub type CityBlock = Gathered<Sum, Difference>;
