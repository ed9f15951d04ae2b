//! The k-th least of a list of numbers, by a queue of k records with the greatest first.
ghost use Rattle.std.specs.Prelude.{◌≡◌, ◌<◌, ◌≤◌, ◌⊎◌, length, MatchOption};
ghost use Rattle.queue.specs.Heaps.{Outside};
ghost use Rattle.queue.specs.Selection.{Offered, Threshold, Selected};

use crate::heap;
use crate::heap::Heap;
use crate::rank::Upper;

/// The k least of the numbers offered so far, in k lent slots, as a heap with the greatest first.
pub type KLeast<'a> = Heap<'a, Upper>;

impl<'a> Heap<'a, Upper> {
    /// Takes one number more into the k least, where k is how many slots there are.
    pub fn offer(&mut self, x: u32)
        ensures same_reference { self.new.slots.ghost_name ≡ self.old.slots.ghost_name }
        ensures slots { length self.new.slots.now ≡ length self.old.slots.now }
        ensures offered { Offered (length self.old.slots.now) self.old.len x self.old.slots.now self.new.len self.new.slots.now }
    {
        if self.len() < self.slots().len() {
            let _pushed = self.push(Upper(x));
            return;
        }
        if let Some(top) = self.peek() {
            if x < top.0 {
                self.replace_top(Upper(x));
            }
        }
    }

    /// The k-th least of the numbers offered so far; none where there are fewer than k, or k is 0.
    pub fn threshold(&self) -> Option<u32>
        ensures { MatchOption result ((self.now.len < length self.now.slots.now) ⊎ (self.now.len ≡ 0)) (λ v. Threshold (length self.now.slots.now) self.now.len v self.now.slots.now) }
    {
        let k = self.slots().len();
        if self.len() < k {
            return None;
        }
        let top = self.peek()?;
        Some(top.0)
    }
}

// Takes one number more into the k least, which are in the first `len` of k slots, and says how many there are then.
fn take_in(slots: &mut [Upper], len: usize, x: u32) -> Option<usize>
    ensures { MatchOption result ((length slots.old < len) × (slots.new ≡ slots.old)) (λ m. Offered (length slots.old) len x slots.old m slots.new) }
{
    let mut least = KLeast::new(slots);
    least.adopt(len).ok()?;
    least.offer(x);
    Some(least.len())
}

// The two functions below are for a lender who keeps the number of records beside the slots: what they promised, they promise still.

/// Takes one number more into the k least of those offered so far, which are in the first `len` slots, and says how many there are then;
/// none, and no change, where the scratch has fewer than `k` slots, or `len` is past `k`.
pub fn offer(scratch: &mut [Upper], len: usize, k: usize, x: u32) -> Option<usize>
    ensures { MatchOption result (((k < len) ⊎ (length scratch.old < k)) × (scratch.new ≡ scratch.old)) (λ m. Offered k len x scratch.old m scratch.new) }
{
    if scratch.len() < k {
        return None;
    }
    take_in(&mut scratch[0..k], len, x)
}

/// The k-th least of the numbers offered so far, of which the k least are in the first `len` slots; none where there are fewer than k.
pub fn threshold(scratch: &[Upper], len: usize, k: usize) -> Option<u32>
    ensures { MatchOption result ((len < k) ⊎ Outside len scratch.now) (λ v. Threshold k len v scratch.now) }
{
    if len < k {
        return None;
    }
    let top = heap::peek(scratch, len)?;
    Some(top.0)
}

// The k-th least of the numbers, by k slots.
fn select(values: &[u32], slots: &mut [Upper]) -> Option<u32>
    requires { length slots.old ≤ length values.now }
    ensures { MatchOption result (length slots.old ≡ 0) (λ v. Selected (length slots.old) v values.now slots.old slots.new) }
{
    let mut least = KLeast::new(slots);
    for v in values {
        least.offer(*v);
    }
    least.threshold()
}

/// The k-th least of the numbers, by the first k slots of the scratch; none, and no change, where there are not k numbers or slots, or k is 0.
pub fn kth_least(values: &[u32], k: usize, scratch: &mut [Upper]) -> Option<u32>
    ensures { MatchOption result (((k ≡ 0) ⊎ ((length values.now < k) ⊎ (length scratch.old < k))) × (scratch.new ≡ scratch.old)) (λ v. Selected k v values.now scratch.old scratch.new) }
{
    if k == 0 || values.len() < k || scratch.len() < k {
        return None;
    }
    select(values, &mut scratch[0..k])
}
