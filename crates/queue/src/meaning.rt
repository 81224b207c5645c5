// What a queue means.
ghost use Rattle.std.specs.Prelude.{◌≡◌, ℕ, ◌-◌, min, List, length, Some, codes, nat_lt};
ghost use Rattle.message.specs.declared.record.Message.{Message};
ghost use Rattle.queue.specs.Bounds.{Bounds};
ghost use Rattle.queue.specs.Queues.{Puts, Takes};

use message::Message;
use std::error::Error;
use std::fmt;

// As many messages wait as the queue has capacity.
#[derive(Clone, Copy, PartialEq, Eq, Debug)]
pub struct Full;

impl fmt::Display for Full {
    ghost output = { λ _. Some (codes "the queue is full") };

    fn fmt<W: fmt::Write>(&self, f: &mut fmt::Formatter<W>) -> fmt::Result {
        f.write_str("the queue is full")
    }
}

impl Error for Full {}

// A list of waiting messages, and a capacity of at least 2 that never changes and that the list never passes.
pub trait Queue {
    ghost waiting: { Self → List Message };

    ghost capacity: { Self → ℕ };

    // Adds at the end. It is refused, without change, exactly when as many wait as the capacity.
    fn put(&mut self, message: Message) -> Result<(), Full>
        ensures kept { capacity self.new ≡ capacity self.old }
        ensures cases { Puts waiting capacity message self.old self.new result };

    // Removes and gives the first, or none exactly when none waits.
    fn take(&mut self) -> Option<Message>
        ensures kept { capacity self.new ≡ capacity self.old }
        ensures cases { Takes waiting self.old self.new result };

    // Whether a message waits.
    fn has_waiting(&self) -> bool
        ensures { result ≡ nat_lt 0 (length (waiting self.now)) };

    // How many places are free, 2 for two or more.
    fn free(&self) -> usize
        ensures { result ≡ min 2 (capacity self.now - length (waiting self.now)) };

    // What holds of every queue, whatever was done to it.
    ghost bounds: { (s : Self) → Bounds (waiting s) (capacity s) };
}
