//! Circular distance.
use crate::bytes::ShorterWay;
use crate::gathered::{Gathered, Sum};

/// Each byte is a direction, 256 to the circle: the shorter ways round, summed; at most 128 times the width.
pub type Circular = Gathered<Sum, ShorterWay>;
