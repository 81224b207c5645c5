// Eight places more, over any queue.
ghost use Rattle.std.specs.Prelude.{◌≡◌, ◌≤◌, length, MatchBool};
ghost use Rattle.queue.specs.Spills.{Settled, Moved};

use crate::meaning::{Full, Queue};
use arrayvec::ArrayVec;
use message::Message;

// They lie in the queue itself: nothing is allocated.
type Places = ArrayVec<Message, 8>;

// Keeps up to eight messages that the queue below has no place for. Its list is the list below, then its own.
// It asks nothing of Q, so that a type may name it over any: what is kept of the queue below is a clause of each method.
#[derive(Debug, Drop)]
pub struct OverflowQueue<Q> {
    below: Q,
    own: Places,
    ghost room: { length own.items ≤ 8 },
}

impl<Q: Queue> OverflowQueue<Q> {
    ghost use Rattle.std.specs.Prelude.{[]};
    ghost use Rattle.queue.specs.Overflows.{SettledIn};

    pub fn new(below: Q) -> OverflowQueue<Q>
        ensures below { result.below ≡ below }
        ensures empty { result.own.items ≡ [] }
        ensures settled { SettledIn Q.Queue result }
    {
        OverflowQueue {
            below,
            own: Places::new(),
        }
    }
}

impl<Q: Queue> Queue for OverflowQueue<Q> {
    ghost use Rattle.std.proofs.Common.{rules};
    ghost use Rattle.std.proofs.lemmas.List.{length-append};
    ghost use Rattle.queue.specs.Queues.{Puts, Takes};
    ghost use Rattle.queue.specs.Overflows.{SettledIn, all_waiting, all_capacity};

    ghost waiting = { all_waiting Q.Queue };

    ghost capacity = { all_capacity Q.Queue };

    ghost bounds = { Prim.search (rules, length-append) };

    // Below while nothing is held here, else behind what is held.
    fn put(&mut self, message: Message) -> Result<(), Full>
        ensures kept { all_capacity Q.Queue self.new ≡ all_capacity Q.Queue self.old }
        ensures cases { Puts (all_waiting Q.Queue) (all_capacity Q.Queue) message self.old self.new result }
        ensures settled { SettledIn Q.Queue self.old → SettledIn Q.Queue self.new }
    {
        if self.own.is_empty() {
            if self.below.put(message).is_err() {
                self.own.push(message);
            }
            return Ok(());
        }
        // Where the own places are in use the queue below is full, unless someone else emptied it: then its place goes first.
        refill(&mut self.below, &mut self.own);
        if self.own.is_full() {
            return Err(Full);
        }
        self.own.push(message);
        Ok(())
    }

    // From below; the first of the own then moves into the place that came free.
    fn take(&mut self) -> Option<Message>
        ensures kept { all_capacity Q.Queue self.new ≡ all_capacity Q.Queue self.old }
        ensures cases { Takes (all_waiting Q.Queue) self.old self.new result }
        ensures settled { SettledIn Q.Queue self.old → SettledIn Q.Queue self.new }
    {
        let Some(message) = self.below.take() else {
            return self.own.pop_at(0);
        };
        refill(&mut self.below, &mut self.own);
        Some(message)
    }

    fn has_waiting(&self) -> bool {
        self.below.has_waiting() || !self.own.is_empty()
    }

    fn free(&self) -> usize {
        (self.below.free() + self.own.remaining_capacity()).min(2)
    }
}

// Moves the first of the own down, if there is one and the queue below has a place for it; says whether it did, for its contract.
fn refill<Q: Queue>(below: &mut Q, own: &mut Places) -> bool
    ensures kept { Q.capacity below.new ≡ Q.capacity below.old }
    ensures cases { MatchBool result
        (Moved (Q.capacity below.old) (Q.waiting below.old) own.old.items
        (Q.waiting below.new) own.new.items)
        ((below.new ≡ below.old) × (own.new ≡ own.old)
        × Settled (Q.waiting below.old) (Q.capacity below.old) own.old.items) }
{
    let Some(&first) = own.first() else {
        return false;
    };
    match below.put(first) {
        Ok(()) => {
            own.remove(0);
            true
        }
        Err(_) => false,
    }
}
