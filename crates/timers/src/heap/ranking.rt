// The keys of a heap with their deadlines, whether they stand in order or not.
ghost use Rattle.std.specs.Prelude.{◌≡◌, ℕ, ◌+◌, ◌*◌, ◌<◌, ◌≤◌, length, nat_lt};

use super::links::Links;
use crate::key::Key;
use crate::meaning::Due;

// The running keys stand in the places below `count`, and the others in those from there on.
// The deadlines stand by key, apart from the links, since a key moves with no write to its deadline.
#[derive(Clone, Copy)]
pub struct Heap {
    pub links: Links,
    pub deadlines: [u64; 64],
    pub count: usize,
    ghost sized: { length deadlines ≡ 64 },
    ghost most: { count ≤ 64 },
}

impl Heap {
    ghost use Rattle.std.specs.Prelude.{slice_index, slice_set};
    ghost use Rattle.timers.specs.Heaps.{rank};
    ghost use Rattle.timers.specs.HeapViews.{place_in, rank_in};

    // The deadline that a key has, or had last.
    pub fn deadline_of(&self, key: Key) -> u64
        ensures { result ≡ slice_index self.now.deadlines key.index }
    {
        self.deadlines[key.index]
    }

    // Gives a key a deadline and leaves it in its place.
    // A method, since a write into the table from `HeapTimers` has to keep the order at once.
    pub fn write(&mut self, key: Key, deadline: u64)
        ensures links { self.new.links ≡ self.old.links }
        ensures deadlines { self.new.deadlines ≡ slice_set self.old.deadlines key.index deadline }
        ensures count { self.new.count ≡ self.old.count }
    {
        self.deadlines[key.index] = deadline;
    }

    // Whether a key runs.
    pub fn runs(&self, key: Key) -> bool
        ensures { result ≡ nat_lt (place_in self.now key.index) self.now.count }
    {
        self.links.place_of(key) < self.count
    }

    // The key in place i with its deadline.
    pub fn due_in(&self, i: usize) -> Due
        requires { i < 64 }
        ensures key { result.key ≡ slice_index self.now.links.keys i }
        ensures deadline { result.deadline ≡ slice_index self.now.deadlines result.key }
        ensures rank { result.deadline * 64 + result.key ≡ rank_in self.now i }
        ensures below { result.key < 64 }
    {
        let key = self.links.key_at(i);
        Due {
            key: key.index as u8,
            deadline: self.deadline_of(key),
        }
    }

    // Whether the key in place i comes before the one in place j.
    pub fn earlier(&self, i: usize, j: usize) -> bool
        requires i { i < 64 }
        requires j { j < 64 }
        ensures { result ≡ nat_lt (rank_in self.now i) (rank_in self.now j) }
    {
        precedes(self.due_in(i), self.due_in(j))
    }
}

// Whether a runs out before b: by deadline, then key.
pub fn precedes(a: Due, b: Due) -> bool
    requires a { a.key < 64 }
    requires b { b.key < 64 }
    ensures { result ≡ nat_lt (a.deadline * 64 + a.key) (b.deadline * 64 + b.key) }
{
    a < b
}
