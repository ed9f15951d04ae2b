//! The built metrics, one distance at a time: a function for each name that C calls, over one generic function.
ghost use Rattle.std.specs.Prelude.{◌≡◌, ℕ, ◌+◌, ◌-◌, ◌≤◌, IfSome, length};
ghost use Rattle.metric.specs.Distances.{summed, largest, difference, differing_bits, shorter_way};

use metric::Metric;
use metric::chebyshev::Chebyshev;
use metric::circular::Circular;
use metric::city_block::CityBlock;
use metric::hamming::Hamming;

// The distance of two rows of one width, by the metric made from it less 1; none where the widths differ or no metric can have it.
fn distance<M: Metric + Drop, F: Fn(u8) -> M>(make: F, a: &[u8], b: &[u8]) -> Option<u16>
    requires callable { F.IsAlwaysCallable make }
    requires wide { (last : ℕ) (m : M) → F.post make last m → (M.model m).width ≡ last + 1 }
    ensures some { 1 ≤ length a.now → length a.now ≤ 256 → length b.now ≡ length a.now → (m : M) × F.post make (length a.now - 1) m × (result ≡ Some ((M.model m).dist a.now b.now)) }
    ensures only { IfSome result (λ _. (1 ≤ length a.now) × (length a.now ≤ 256) × (length b.now ≡ length a.now)) }
{
    if a.len() != b.len() {
        return None;
    }
    let last = u8::try_from(a.len().checked_sub(1)?).ok()?;
    let mut metric = make(last);
    Some(metric.distance(a, b))
}

// As the C interface has it: 2^32 - 1 for none.
fn number(distance: Option<u16>) -> u32
    ensures { (d : ℕ) → distance ≡ Some d → result ≡ d }
{
    distance.map_or(u32::MAX, u32::from)
}

/// The city block distance of two rows of 1 to 256 bytes; 2^32 - 1 where they are no such rows of one width.
#[unsafe(no_mangle)]
pub extern "C" fn embedding_city_block(a: &[u8], b: &[u8]) -> u32
    ensures { 1 ≤ length a.now → length a.now ≤ 256 → length b.now ≡ length a.now → result ≡ summed difference a.now b.now }
{
    number(distance(CityBlock::new, a, b))
}

/// The Hamming distance, likewise.
#[unsafe(no_mangle)]
pub extern "C" fn embedding_hamming(a: &[u8], b: &[u8]) -> u32
    ensures { 1 ≤ length a.now → length a.now ≤ 256 → length b.now ≡ length a.now → result ≡ summed differing_bits a.now b.now }
{
    number(distance(Hamming::new, a, b))
}

/// The circular distance, likewise.
#[unsafe(no_mangle)]
pub extern "C" fn embedding_circular(a: &[u8], b: &[u8]) -> u32
    ensures { 1 ≤ length a.now → length a.now ≤ 256 → length b.now ≡ length a.now → result ≡ summed shorter_way a.now b.now }
{
    number(distance(Circular::new, a, b))
}

/// The Chebyshev distance, likewise.
#[unsafe(no_mangle)]
pub extern "C" fn embedding_chebyshev(a: &[u8], b: &[u8]) -> u32
    ensures { 1 ≤ length a.now → length a.now ≤ 256 → length b.now ≡ length a.now → result ≡ largest difference a.now b.now }
{
    number(distance(Chebyshev::new, a, b))
}
