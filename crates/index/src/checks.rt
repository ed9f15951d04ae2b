//! What is checked before pivots are added or removed.
ghost use Rattle.std.specs.Prelude.{◌≡◌, if◌then◌else◌, Some, None, nat_lt};
ghost use Rattle.refusal.specs.Refusals.{answered};
ghost use Rattle.refusal.specs.declared.Refusal.TheVariants.{NoSuchChannel, PivotsFull, NoSuchPivot};
ghost use Rattle.index.specs.Limits.{pivots_in};

use crate::inventory::Inventory;
use refusal::Refusal;

impl Inventory {
    // Whether there is such a channel.
    pub(crate) fn check_channel(&self, c: usize) -> Result<(), Refusal>
        ensures { result ≡ answered (if nat_lt c self.now.layout.channels then None else Some NoSuchChannel) tt }
    {
        if c >= self.layout.channels {
            return Err(Refusal::NoSuchChannel);
        }
        Ok(())
    }

    // Whether a channel can take one more pivot.
    pub(crate) fn check_room(&self, c: usize) -> Result<(), Refusal>
        ensures { result ≡ answered (if nat_lt (pivots_in self.now.counts c) 8 then None else Some PivotsFull) tt }
    {
        if self.counts.pivots_in(c) >= 8 {
            return Err(Refusal::PivotsFull);
        }
        Ok(())
    }

    // Whether a channel has such a pivot.
    pub(crate) fn check_pivot(&self, c: usize, p: usize) -> Result<(), Refusal>
        ensures { result ≡ answered (if nat_lt p (pivots_in self.now.counts c) then None else Some NoSuchPivot) tt }
    {
        if p >= self.counts.pivots_in(c) {
            return Err(Refusal::NoSuchPivot);
        }
        Ok(())
    }
}
