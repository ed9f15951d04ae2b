//! A supplier: an index with its store, changed by drawn calls.
use crate::ask::MOST;
use crate::chance::Chance;
use crate::scan::{Patch, first_of};
use index::pivot_index::PivotIndex;
use metric::channels::ChannelSet;
use refusal::Refusal;
use std::alloc::AllocError;
use std::process::Abort;
use std::test::*;

/// Enough for 64 patches of 8 channels and 32 bytes.
pub const STORE: usize = 10624;

/// An index, its store, and how many bytes a patch has.
#[derive(Drop)]
pub struct Supplier<S: ChannelSet> {
    pub index: PivotIndex<S>,
    pub store: [u8; STORE],
    pub width: usize,
}

fn keep(held: &mut Vec<Patch>, patch: Patch) -> Result<(), AllocError> {
    held.push(patch)?;
    Ok(())
}

fn forget(held: &mut Vec<Patch>, accession: u16) {
    held.retain(|patch| patch.accession != accession);
}

impl<S: ChannelSet + Drop> Supplier<S> {
    /// Holds nothing yet.
    pub fn new(set: S, width: usize) -> Result<Self, Refusal> {
        let mut store = [0u8; STORE];
        let index = PivotIndex::new(set, MOST as u16, &mut store)?;
        Ok(Supplier {
            index,
            store,
            width,
        })
    }

    /// Inserts a patch.
    pub fn insert(&mut self, patch: &Patch) -> Result<(), Refusal> {
        self.index.insert(
            &mut self.store,
            patch.accession,
            first_of(&patch.rows, self.width),
        )
    }

    // Tries to add or to remove a pivot.
    fn repivot(&mut self, chance: &mut Chance) {
        let channel = chance.below(8) as u8;
        let accession = chance.below(96) as u16;
        if chance.below(4) > 0 {
            let _ = self.index.add_pivot(&mut self.store, channel, accession);
        } else {
            let _ = self
                .index
                .remove_pivot(&mut self.store, channel, chance.below(3) as u8);
        }
    }

    /// Tries to change a pivot as often as is said.
    pub fn repivot_often(&mut self, chance: &mut Chance, times: u32) {
        for _ in 0..times {
            self.repivot(chance);
        }
    }

    // One drawn call, with a list of what should then be held.
    fn change(&mut self, held: &mut Vec<Patch>, chance: &mut Chance) -> Result<(), AllocError> {
        let patch = chance.patch();
        match chance.below(8) {
            0 => {
                if self.index.remove(&mut self.store, patch.accession).is_ok() {
                    forget(held, patch.accession);
                }
            }
            1 | 2 => self.repivot(chance),
            _ => {
                if self.insert(&patch).is_ok() {
                    keep(held, patch)?;
                }
            }
        }
        Ok(())
    }

    /// Drawn calls, with a list of what is then held.
    pub fn change_often(
        &mut self,
        rt: &impl Abort,
        held: &mut Vec<Patch>,
        chance: &mut Chance,
        times: u32,
    ) -> Result<(), Fail> {
        for _ in 0..times {
            self.change(held, chance)?;
        }
        assert_eq!(rt; self.index.counts.held as usize, held.len());
        Ok(())
    }

    /// Inserts patches, the last first.
    pub fn insert_backwards(&mut self, held: &[Patch]) -> Result<(), Refusal> {
        for patch in held.iter().rev() {
            self.insert(patch)?;
        }
        Ok(())
    }

    /// Writes anything over the store.
    pub fn scramble(&mut self, chance: &mut Chance) {
        for x in self.store.iter_mut() {
            *x = chance.byte();
        }
    }
}
