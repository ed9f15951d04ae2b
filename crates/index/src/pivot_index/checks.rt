//! What every call on a store checks first.
ghost use Rattle.patch.specs.Patches.{few};
ghost use Rattle.index.specs.Inventories.{Taken};
ghost use Rattle.index.specs.Works.{Opened};

use super::PivotIndex;
use crate::inventory::Inventory;
use crate::layout::{Layout, layout_of};
use metric::channels::ChannelSet;
use refusal::Refusal;

impl<S: ChannelSet> PivotIndex<S> {
    /// The layout of the store, which has to be long enough for it. Refused: 12.
    pub fn layout_in(&self, store: &[u8]) -> Result<Layout, Refusal>
        ensures { Opened (few (S.models self.now.set)) self.now.counts store.now result }
    {
        let l = layout_of(&self.set, self.counts.capacity);
        if store.len() < l.size {
            return Err(Refusal::BadStore);
        }
        Ok(l)
    }

    /// What is held and where it lies in the store, which has to be long enough for it. Refused: 12.
    pub fn inventory_in(&self, store: &[u8]) -> Result<Inventory, Refusal>
        ensures { Taken (few (S.models self.now.set)) self.now.counts store.now result }
    {
        let layout = self.layout_in(store)?;
        Ok(Inventory {
            layout,
            counts: self.counts,
        })
    }
}
