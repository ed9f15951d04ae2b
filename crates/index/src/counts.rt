//! What an index counts.
ghost use Rattle.std.specs.Prelude.{◌≡◌};
ghost use Rattle.index.specs.Limits.{pivots_in};

/// One channel's record: how many pivots it has.
#[derive(Clone, Copy, PartialEq, Eq, Debug)]
pub struct ChannelRecord {
    pub pivots: u8,
}

/// How many slots there are, how many patches are held, and each channel's record.
#[derive(Clone, Copy, PartialEq, Eq, Debug)]
pub struct Counts {
    pub capacity: u16,
    pub held: u16,
    pub channels: [ChannelRecord; 8],
}

impl Counts {
    /// How many pivots channel c has; none where there is no such channel.
    pub fn pivots_in(&self, c: usize) -> usize
        ensures { result ≡ pivots_in self.now c }
    {
        self.channels
            .get(c)
            .map_or(0, |record| usize::from(record.pivots))
    }
}
