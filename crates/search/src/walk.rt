//! The bounds of a distance, from the distances to pivots.
ghost use Rattle.std.specs.Prelude.{◌≡◌, ◌+◌, ◌*◌, ◌≤◌, min, length};
ghost use Rattle.metric.specs.Distances.{difference};
ghost use Rattle.refine.specs.Bounds.{lower_of, upper_of};
ghost use Rattle.search.specs.Walks.{firsts, stored};

use big_endian::get_u16;

// What one pivot says: by how much the two distances differ, and their sum, as far as 16 bits go.
fn sides(near: u16, far: u16) -> (u16, u16)
    ensures lower { result.0 ≡ difference near far }
    ensures upper { result.1 ≡ min (near + far) 65535 }
{
    (near.abs_diff(far), near.saturating_add(far))
}

// The lower and the upper bound of a distance, in one walk over a channel's pivots: `near` are the distances from the query to them,
// `far` the stored distances to the patch, `top` what no distance exceeds.
fn walk_pivots(top: u16, near: &[u16], far: &[u8], pivots: usize) -> (u16, u16)
    requires near { pivots ≤ length near.now }
    requires far { 2 * pivots ≤ length far.now }
    ensures lower { result.0 ≡ lower_of (firsts pivots near.now) (stored pivots far.now) }
    ensures upper { result.1 ≡ upper_of top (firsts pivots near.now) (stored pivots far.now) }
{
    let mut lower: u16 = 0;
    let mut upper = top;
    // By index: a place is one number in `near` and two bytes in `far`.
    for p in 0..pivots {
        let (least, most) = sides(near[p], get_u16(far, 2 * p));
        lower = lower.max(least);
        upper = upper.min(most);
    }
    (lower, upper)
}

// The same. Eight pivots are named as such, so that the compiler takes them all at once.
pub(crate) fn bounds(top: u16, near: &[u16], far: &[u8], pivots: usize) -> (u16, u16)
    requires near { pivots ≤ length near.now }
    requires far { 2 * pivots ≤ length far.now }
    ensures lower { result.0 ≡ lower_of (firsts pivots near.now) (stored pivots far.now) }
    ensures upper { result.1 ≡ upper_of top (firsts pivots near.now) (stored pivots far.now) }
{
    if pivots == 8 {
        walk_pivots(top, near, far, 8)
    } else {
        walk_pivots(top, near, far, pivots)
    }
}
