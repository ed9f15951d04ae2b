//! The width of a row, 1 to 256 bytes.
ghost use Rattle.std.specs.Prelude.{◌≡◌, ◌+◌, ◌≤◌};

/// A width by its last index, so that no width can be wrong.
#[derive(Clone, Copy, Debug, PartialEq, Eq)]
pub struct Width {
    last: u8,
    ghost byte: { last ≤ 255 },
}

impl Width {
    /// Made from the width less 1.
    pub fn new(last: u8) -> Self
        ensures { result.last ≡ last }
    {
        Width { last }
    }

    /// How many bytes.
    pub fn bytes(self) -> u16
        ensures { result ≡ self.last + 1 }
    {
        u16::from(self.last) + 1
    }
}
