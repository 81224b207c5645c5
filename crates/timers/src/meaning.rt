// What a set of timers means.
ghost use Rattle.std.specs.Prelude.{◌≡◌, ℕ, ◌≤◌, Some, None, Option, codes};
ghost use Rattle.timers.specs.Timers.{Gives, IsFirstDue};

use std::error::Error;
use std::fmt;

// A key above 63.
#[derive(Clone, Copy, PartialEq, Eq, Debug)]
pub struct NoSuchKey;

impl fmt::Display for NoSuchKey {
    ghost output = { λ _. Some (codes "a key is 0 to 63") };

    fn fmt<W: fmt::Write>(&self, f: &mut fmt::Formatter<W>) -> fmt::Result {
        f.write_str("a key is 0 to 63")
    }
}

impl Error for NoSuchKey {}

// A running key with its deadline. The order of the fields is the order in which timers run out.
#[derive(Clone, Copy, PartialEq, Eq, PartialOrd, Ord)]
pub struct Due {
    pub deadline: u64,
    pub key: u8,
}

// The key stands first in what is printed.
impl fmt::Debug for Due {
    fn fmt<W: fmt::Write>(&self, f: &mut fmt::Formatter<W>) -> fmt::Result {
        f.debug_struct("Due")
            .field("key", &self.key)
            .field("deadline", &self.deadline)
            .finish()
    }
}

// For each of the keys 0 to 63 no deadline or one.
pub trait Timers {
    ghost deadlines: { Self → ℕ → Option ℕ };

    // Gives the key this deadline, in the place of the one that it had.
    fn set(&mut self, key: u8, deadline: u64) -> Result<(), NoSuchKey>
        ensures { Gives deadlines key (Some deadline) self.old self.new result };

    // Takes the key's deadline away; a key that does not run stays so.
    fn stop(&mut self, key: u8) -> Result<(), NoSuchKey>
        ensures { Gives deadlines key None self.old self.new result };

    // The running key with the smallest deadline, the smaller key among equals, or none exactly when none runs.
    fn first(&self) -> Option<Due>
        ensures { IsFirstDue (deadlines self.now) result };

    ghost range: { (s : Self) (k : ℕ) → 64 ≤ k → deadlines s k ≡ None };
}
