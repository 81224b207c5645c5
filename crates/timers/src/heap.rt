// Timers as an indexed binary heap.
ghost use Rattle.std.specs.Prelude.{◌≡◌, ℕ, None};
ghost use Rattle.std.proofs.Common.{rules};
ghost use Rattle.timers.specs.Heaps.{Ordered};
ghost use Rattle.timers.specs.HeapViews.{rank_in, deadlines_in};

mod entries;
mod links;
mod ranking;
mod sift;

use crate::key::Key;
use crate::meaning::{Due, NoSuchKey, Timers};
use links::Links;
use ranking::Heap;

// A binary heap of keys by deadline and key, with each key's place in it.
// The type keeps it in order, and a method that breaks the order restores it.
#[derive(Clone, Copy)]
pub struct HeapTimers {
    heap: Heap,
    ghost order: { Ordered (rank_in heap) heap.count },
}

impl HeapTimers {
    pub fn new() -> HeapTimers
        ensures { (k : ℕ) → deadlines_in result.heap k ≡ None }
    {
        HeapTimers {
            heap: Heap {
                links: Links::new(),
                deadlines: [0; 64],
                count: 0,
            },
        }
    }
}

impl Timers for HeapTimers {
    ghost deadlines = { λ s. deadlines_in s.heap };

    ghost range = { Prim.search rules };

    fn set(&mut self, key: u8, deadline: u64) -> Result<(), NoSuchKey> {
        let key = Key::try_from(key)?;
        if self.heap.runs(key) {
            self.change(key, deadline);
        } else {
            self.insert(key, deadline);
        }
        Ok(())
    }

    fn stop(&mut self, key: u8) -> Result<(), NoSuchKey> {
        let key = Key::try_from(key)?;
        if self.heap.runs(key) {
            self.remove(key);
        }
        Ok(())
    }

    fn first(&self) -> Option<Due> {
        if self.heap.count == 0 {
            return None;
        }
        Some(self.heap.due_in(0))
    }
}
