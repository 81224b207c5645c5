// The running keys of a word, one after another.
ghost use Rattle.std.specs.Prelude.{◌≡◌, count_ones};
ghost use Rattle.std.specs.Iterator.{at_most};
ghost use Rattle.timers.specs.Bitmaps.{TakesLowest};

use crate::key::Key;

// The keys whose digits are 1 in `rest`, in rising order: each is the number of trailing zeros of what is left.
#[derive(Drop)]
pub struct RunningKeys {
    pub rest: u64,
}

impl Iterator for RunningKeys {
    type Item = Key;

    ghost next_gives = { λ s r t. TakesLowest s.rest r t.rest };

    ghost remaining = { λ s. at_most (count_ones s.rest) };

    fn next(&mut self) -> Option<Key> {
        if self.rest == 0 {
            return None;
        }
        let index = self.rest.trailing_zeros() as usize;
        self.rest &= self.rest - 1;
        Some(Key { index })
    }
}
