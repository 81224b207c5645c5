// Keys on their way up and down the heap.
ghost use Rattle.std.specs.Prelude.{◌≡◌, ℕ, ◌+◌, ◌-◌, ◌*◌, ◌/◌, ◌<◌, ◌≤◌};
ghost use Rattle.timers.specs.Heaps.{Rising, Sinking, Loose};
ghost use Rattle.timers.specs.HeapViews.{rank_in, Settled};

use super::ranking::{Heap, precedes};

impl Heap {
    // Moves a key up until its parent comes no later. No iterator: the way goes on only from where the last exchange led.
    fn sift_up(&mut self, from: usize)
        requires from { from < self.old.count }
        requires rising { Rising (rank_in self.old) self.old.count from }
        ensures { Settled self.old self.new }
    {
        let rising = self.due_in(from);
        let mut at = from;
        while at > 0 {
            let up = (at - 1) / 2;
            if !precedes(rising, self.due_in(up)) {
                return;
            }
            self.links.exchange(rising.key, at, up);
            at = up;
        }
    }

    // The child of a place that comes first.
    fn least_child(&self, at: usize) -> usize
        requires { 2 * at + 1 < self.now.count }
        ensures child { (at ≡ (result - 1) / 2) × (0 < result) × (result < self.now.count) }
        ensures least { (j : ℕ) → 0 < j → j < self.now.count → (j - 1) / 2 ≡ at → rank_in self.now result ≤ rank_in self.now j }
    {
        let left = 2 * at + 1;
        let right = left + 1;
        if right == self.count {
            return left;
        }
        // not by an `if`, which would be a branch, and one of chance
        left + usize::from(self.earlier(right, left))
    }

    // Moves a key down until its children come no earlier. No iterator here either.
    fn sift_down(&mut self, from: usize)
        requires from { from < self.old.count }
        requires sinking { Sinking (rank_in self.old) self.old.count from }
        ensures { Settled self.old self.new }
    {
        let sinking = self.due_in(from);
        let mut at = from;
        while 2 * at + 1 < self.count {
            let child = self.least_child(at);
            if !precedes(self.due_in(child), sinking) {
                return;
            }
            self.links.exchange(sinking.key, at, child);
            at = child;
        }
    }

    // Moves a key up or down to where it belongs.
    pub fn settle(&mut self, from: usize)
        requires from { from < self.old.count }
        requires loose { Loose (rank_in self.old) self.old.count from }
        ensures { Settled self.old self.new }
    {
        if from > 0 && self.earlier(from, (from - 1) / 2) {
            self.sift_up(from);
        } else {
            self.sift_down(from);
        }
    }
}
