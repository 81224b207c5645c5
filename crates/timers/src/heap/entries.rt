// A heap with one entry more, one changed and one less.
ghost use Rattle.std.specs.Prelude.{◌≡◌, ◌<◌, ◌≤◌, Some, None, nat_eq};
ghost use Rattle.std.specs.Map.{update};
ghost use Rattle.timers.specs.HeapViews.{place_in, deadlines_in};

use super::HeapTimers;
use crate::key::Key;

impl HeapTimers {
    // Enters a key that does not run.
    pub(super) fn insert(&mut self, key: Key, deadline: u64)
        requires stopped { self.old.heap.count ≤ place_in self.old.heap key.index }
        ensures meant { deadlines_in self.new.heap ≡ update nat_eq (deadlines_in self.old.heap) key.index (Some deadline) }
    {
        let from = self.heap.links.place_of(key);
        let end = self.heap.count;
        self.heap.links.swap(from, end);
        self.heap.write(key, deadline);
        self.heap.count += 1;
        self.heap.settle(end);
    }

    // Gives a running key another deadline.
    pub(super) fn change(&mut self, key: Key, deadline: u64)
        requires running { place_in self.old.heap key.index < self.old.heap.count }
        ensures meant { deadlines_in self.new.heap ≡ update nat_eq (deadlines_in self.old.heap) key.index (Some deadline) }
    {
        let place = self.heap.links.place_of(key);
        self.heap.write(key, deadline);
        self.heap.settle(place);
    }

    // Takes a running key out; the last one takes its place, and then goes to where it belongs.
    pub(super) fn remove(&mut self, key: Key)
        requires running { place_in self.old.heap key.index < self.old.heap.count }
        ensures meant { deadlines_in self.new.heap ≡ update nat_eq (deadlines_in self.old.heap) key.index None }
    {
        let place = self.heap.links.place_of(key);
        let last = self.heap.count - 1;
        self.heap.links.swap(place, last);
        self.heap.count = last;
        if place < last {
            self.heap.settle(place);
        }
    }
}
