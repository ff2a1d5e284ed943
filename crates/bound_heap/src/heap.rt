//! The heap of the squares that wait.

ghost use Rattle.std.specs.Prelude.{◌≡◌, ◌+◌, ◌<◌, ◌≤ℤ◌, ◌↔◌, [], ◌∷◌, length, All};
ghost use Rattle.std.specs.Prelude.{IfNone, IfOk, IfSome, IsPermutation, IsSome};
ghost use Rattle.bound_heap.specs.declared.entry.Entry as entries;

use crate::entry::Entry;
use crate::ranked::Ranked;
use std::alloc::Global;
use std::collections::BinaryHeap;
use std::marker::Model;

/// Memory ran out for the room of a heap.
#[derive(Clone, Copy, Debug, PartialEq, Eq)]
pub struct NoMemory;

/// Entries, with room for a number of them that is fixed at the start. Contracts see the entries in
/// an order that is free, and for how many more there is room.
#[derive(Drop)]
pub struct Heap {
    heap: BinaryHeap<Ranked>,
    room: usize,
}

impl Model for Heap {
    ghost use Rattle.std.specs.Prelude.{◌-◌, ◌≤◌, map};
    ghost use Rattle.std.specs.BinaryHeap.{IsHeap, heap_capacity, heap_items, heap_len};
    ghost use Rattle.bound_heap.specs.HeapView.{HeapView};
    ghost use Rattle.bound_heap.specs.Ranks.{by_bound};

    ghost Value = { HeapView };

    ghost view = { λ a. record {
      entries = map (λ r. r.entry) (heap_items a.heap);
      spare = a.room - heap_len a.heap;
    } };

    ghost invariant = { λ a. IsHeap by_bound (heap_items a.heap) × (heap_len a.heap ≤ a.room)
        × (a.room ≤ heap_capacity a.heap) };
}

impl Heap {
    /// An empty heap with room for `room` entries, whose memory is taken at once. `NoMemory` where
    /// memory ran out.
    pub fn with_room(alloc: Global, room: usize) -> Result<Heap, NoMemory>
        ensures { IfOk result (λ heap. heap ≡ record { entries = []; spare = room }) }
    {
        match BinaryHeap::with_capacity(alloc, room) {
            Ok(heap) => Ok(Heap { heap, room }),
            Err(_) => Err(NoMemory),
        }
    }

    /// How many entries there are, 0 to the room.
    pub fn len(&self) -> usize
        ensures { result ≡ length self.now.entries }
    {
        self.heap.len()
    }

    /// For how many more entries there is room, the room less `len`.
    pub fn spare(&self) -> usize
        ensures { result ≡ self.now.spare }
    {
        self.room - self.heap.len()
    }

    /// Adds an entry, which takes one entry's room: there has to be some. It can't fail.
    pub fn push(&mut self, entry: Entry)
        requires { 0 < self.old.spare }
        ensures entries { IsPermutation (entry ∷ self.old.entries) self.new.entries }
        ensures spare { self.new.spare + 1 ≡ self.old.spare }
    {
        match self.heap.push(Ranked { entry }) {
            Ok(()) => {}
            Err(_) => unreachable!(),
        }
    }

    /// Takes out an entry of least bound, in cost units; of several, any one. Its room is free
    /// again. None exactly where there is no entry.
    pub fn pop(&mut self) -> Option<Entry>
        ensures some { IsSome result ↔ (0 < length self.old.entries) }
        ensures entries { IfSome result
            (λ entry. IsPermutation self.old.entries (entry ∷ self.new.entries)) }
        ensures least { IfSome result
            (λ entry. All (λ (other : entries.Entry). entry.bound ≤ℤ other.bound)
            self.old.entries) }
        ensures spare { IfSome result (λ entry. self.new.spare ≡ self.old.spare + 1) }
        ensures none { IfNone result (self.new ≡ self.old) }
    {
        let top = self.heap.pop()?;
        Some(top.entry)
    }
}
