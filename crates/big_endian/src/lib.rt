//! Numbers as bytes, the most significant first.
#![tactic(auto)]

ghost use Rattle.std.specs.Prelude.{◌≡◌, ℕ, ◌+◌, ◌*◌, ◌≤◌, List, [], ◌∷◌, length, slice_index, refl};
ghost use Rattle.big_endian.specs.Numbers.{be16, be32, Front};

/// A number that is written as so many bytes, the most significant first.
///
/// `written` is what its bytes are, `size` how many they are.
pub trait BigEndian {
    ghost written: { Self → List ℕ };

    ghost size: { ℕ };

    /// The number at the front of the bytes, and what follows it; none where there are too few.
    fn split_front(bytes: &[u8]) -> Option<(Self, &[u8])>
        ensures { Front written size bytes.now result };

    ghost sized: { (n : Self) → length (written n) ≡ size };
}

impl BigEndian for u8 {
    ghost written = { λ n. n ∷ [] };

    ghost size = { 1 };

    ghost sized = { λ _. refl };

    fn split_front(bytes: &[u8]) -> Option<(Self, &[u8])> {
        let (n, rest) = bytes.split_first()?;
        Some((*n, rest))
    }
}

impl BigEndian for u16 {
    ghost written = { be16 };

    ghost size = { 2 };

    ghost sized = { λ _. refl };

    fn split_front(bytes: &[u8]) -> Option<(Self, &[u8])> {
        let (high, rest) = u8::split_front(bytes)?;
        let (low, rest) = u8::split_front(rest)?;
        Some((u16::from_be_bytes([high, low]), rest))
    }
}

impl BigEndian for u32 {
    ghost written = { be32 };

    ghost size = { 4 };

    ghost sized = { λ _. refl };

    fn split_front(bytes: &[u8]) -> Option<(Self, &[u8])> {
        let (high, rest) = u16::split_front(bytes)?;
        let (low, rest) = u16::split_front(rest)?;
        Some((u32::from(high) * 65536 + u32::from(low), rest))
    }
}

/// The number of the two bytes from `at` on.
pub fn get_u16(bytes: &[u8], at: usize) -> u16
    requires { at + 2 ≤ length bytes.now }
    ensures { result ≡ slice_index bytes.now at * 256 + slice_index bytes.now (at + 1) }
{
    u16::from_be_bytes([bytes[at], bytes[at + 1]])
}
