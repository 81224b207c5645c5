// Timers as a word of running keys beside their deadlines.
ghost use Rattle.std.specs.Prelude.{◌≡◌, ℕ, length, None, count_ones};
ghost use Rattle.std.proofs.Common.{rules};
ghost use Rattle.timers.specs.Bitmaps.{bitmap_meant};
ghost use Rattle.timers.specs.Timers.{IsFirstDue};

mod running;

use crate::key::Key;
use crate::meaning::{Due, NoSuchKey, Timers};
use running::RunningKeys;

// One bit for each key in a word, and one deadline for each.
// The word beside the table is this set's subject: its ones alone say which keys run, and `first` goes from one to the next.
#[derive(Clone, Copy)]
pub struct BitmapTimers {
    running: u64,
    deadlines: [u64; 64],
    ghost sized: { length deadlines ≡ 64 },
}

impl BitmapTimers {
    pub fn new() -> BitmapTimers
        ensures { (k : ℕ) → bitmap_meant result.running result.deadlines k ≡ None }
    {
        BitmapTimers {
            running: 0,
            deadlines: [0; 64],
        }
    }

    fn running_keys(&self) -> RunningKeys
        ensures { result.rest ≡ self.now.running }
    {
        RunningKeys { rest: self.running }
    }

    // The first running key, and how many keys were looked at: as many as the word has ones.
    pub fn first_counted(&self) -> (Option<Due>, u32)
        ensures first { IsFirstDue (bitmap_meant self.now.running self.now.deadlines) result.0 }
        ensures turns { result.1 ≡ count_ones self.now.running }
    {
        let mut keys = self.running_keys();
        // The first so far in two parts: an Option would carry its case from turn to turn.
        let Some(mut key) = keys.next() else {
            return (None, 0);
        };
        let mut deadline = self.deadlines[key.index];
        let mut turns = 1;
        for next in keys {
            turns += 1;
            let due = self.deadlines[next.index];
            // keys rise, so that a later one wins only by a smaller deadline
            if due < deadline {
                key = next;
                deadline = due;
            }
        }
        let key = key.index as u8;
        (Some(Due { deadline, key }), turns)
    }
}

impl Timers for BitmapTimers {
    ghost deadlines = { λ s. bitmap_meant s.running s.deadlines };

    ghost range = { Prim.search rules };

    fn set(&mut self, key: u8, deadline: u64) -> Result<(), NoSuchKey> {
        let key = Key::try_from(key)?;
        self.running |= 1u64 << key.index;
        self.deadlines[key.index] = deadline;
        Ok(())
    }

    fn stop(&mut self, key: u8) -> Result<(), NoSuchKey> {
        let key = Key::try_from(key)?;
        self.running &= !(1u64 << key.index);
        Ok(())
    }

    fn first(&self) -> Option<Due> {
        self.first_counted().0
    }
}
