//! What a caller can prove from the queue's contracts.
ghost use Rattle.std.specs.Prelude.{◌≡◌, ◌<◌, ◌≤◌, ◌⊎◌, List, length, take, MatchOption, MatchResult};
ghost use Rattle.queue.specs.Heaps.{Heaped, Pushed, Popped, Replaced};
ghost use Rattle.queue.specs.Selection.{KthLeast};
ghost use Rattle.queue_tests.specs.Entries.{ByBound, rebound};

use crate::entry::Entry;
use queue::heap::{Heap, NoSlot};
use queue::rank::Upper;
use queue::select::KLeast;

// Gives the least entry another bound.
pub(crate) fn raise(heap: &mut Heap<'_, Entry>, bound: u32) -> Option<Entry>
    ensures same_reference { heap.new.slots.ghost_name ≡ heap.old.slots.ghost_name }
    ensures raised { MatchOption result ((heap.old.len ≡ 0) × (heap.new.slots.now ≡ heap.old.slots.now)) (λ y. Replaced ByBound heap.old.len (rebound bound y) y heap.old.slots.now heap.new.slots.now) }
{
    let top = heap.peek()?;
    let next = Entry { bound, ..top };
    heap.replace_top(next)
}

// The lesser of two entries, and what the slots hold then.
pub(crate) fn lesser(slots: &mut [Entry], x: Entry, y: Entry) -> Result<Option<Entry>, NoSlot>
    ensures { MatchResult result (λ o. (a : List Entry) × (b : List Entry) × Pushed ByBound 0 x slots.old a × Pushed ByBound 1 y a b × MatchOption o ⊥ (λ z. Popped ByBound 2 z b slots.new)) (λ _. length slots.old < 2) }
{
    let mut heap = Heap::new(slots);
    heap.push(x)?;
    heap.push(y)?;
    Ok(heap.pop())
}

// The k-th least of the numbers, offered one at a time to k slots.
pub(crate) fn kth_offered(values: &[u32], slots: &mut [Upper]) -> Option<u32>
    ensures { MatchOption result ((length slots.old ≡ 0) ⊎ (length values.now < length slots.old)) (λ v. KthLeast (length slots.old) v values.now) }
{
    let mut least = KLeast::new(slots);
    for v in values {
        least.offer(*v);
    }
    least.threshold()
}
