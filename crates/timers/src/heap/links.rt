// Which key stands in which of the 64 places.
ghost use Rattle.std.specs.Prelude.{◌≡◌, ℕ, ◌<◌, slice_index};
ghost use Rattle.timers.specs.Heaps.{Linked, exch};

use crate::key::Key;
use std::array;

// Each key stands in one place and knows it: `exchange` alone writes the two arrays, which are each other's inverse.
// A place is a plain index: a type of places would be taken apart at each step, where a place is halved or doubled.
#[derive(Clone, Copy)]
pub struct Links {
    keys: [u8; 64],
    places: [u8; 64],
    ghost linked: { Linked keys places },
}

impl Links {
    // Each key in the place of its own number.
    pub fn new() -> Links {
        let numbers: [u8; 64] = array::from_fn(|i| i as u8);
        Links {
            keys: numbers,
            places: numbers,
        }
    }

    pub fn key_at(&self, place: usize) -> Key
        requires { place < 64 }
        ensures { result.index ≡ slice_index self.now.keys place }
    {
        Key {
            index: self.keys[place] as usize,
        }
    }

    pub fn place_of(&self, key: Key) -> usize
        ensures place { result ≡ slice_index self.now.places key.index }
        ensures below { result < 64 }
    {
        self.places[key.index] as usize
    }

    // Exchanges the keys of two places.
    pub fn swap(&mut self, i: usize, j: usize)
        requires i { i < 64 }
        requires j { j < 64 }
        ensures moved { (x : ℕ) → slice_index self.new.keys x ≡ slice_index self.old.keys (exch i j x) }
        ensures placed { (k : ℕ) → k < 64 → slice_index self.new.places k ≡ exch i j (slice_index self.old.places k) }
    {
        let key = self.keys[i];
        self.exchange(key, i, j);
    }

    // The same, where it is known which key stands in the first: it need not be read where it was written a turn ago.
    pub fn exchange(&mut self, key: u8, i: usize, j: usize)
        requires i { i < 64 }
        requires j { j < 64 }
        requires key { key ≡ slice_index self.old.keys i }
        ensures moved { (x : ℕ) → slice_index self.new.keys x ≡ slice_index self.old.keys (exch i j x) }
        ensures placed { (k : ℕ) → k < 64 → slice_index self.new.places k ≡ exch i j (slice_index self.old.places k) }
    {
        let other = self.keys[j];
        // not by `swap`: that of the library tests which index is the larger, which is a matter of chance here
        self.keys[i] = other;
        self.keys[j] = key;
        self.places[key as usize] = j as u8;
        self.places[other as usize] = i as u8;
    }
}
