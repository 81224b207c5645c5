// A struct that has any queue by value, with an invariant of its own, and lends it to no one.
ghost use Rattle.std.specs.Prelude.{◌≡◌, ◌+◌, ◌^◌, ◌≤◌, min, [], ◌∷◌, ◌++◌, true, MatchOption, MatchResult};
ghost use Rattle.queue.specs.Bounds.{Bounds};

use message::Message;
use queue::{Full, Queue};

#[derive(Drop)]
pub struct Holder<Q> {
    queue: Q,
    sent: u64,
    ghost few: { sent ≤ 2 ^ 40 },
}

impl<Q: Queue> Holder<Q> {
    pub fn new(queue: Q) -> Holder<Q>
        ensures { (result.queue ≡ queue) × (result.sent ≡ 0) }
    {
        Holder { queue, sent: 0 }
    }

    // One message more to the queue, and one more counted, up to the most. A refusal leaves both.
    pub fn send(&mut self, message: Message) -> Result<(), Full>
        ensures { MatchResult result
            (λ _. (Q.waiting self.new.queue ≡ Q.waiting self.old.queue ++ message ∷ [])
            × (self.new.sent ≡ min (self.old.sent + 1) (2 ^ 40)))
            (λ _. (self.new.queue ≡ self.old.queue) × (self.new.sent ≡ self.old.sent)) }
    {
        self.queue.put(message)?;
        self.sent = (self.sent + 1).min(1 << 40);
        Ok(())
    }

    // The first message, or none exactly when none waits. The count stays.
    pub fn next(&mut self) -> Option<Message>
        ensures { MatchOption result
            ((Q.waiting self.old.queue ≡ []) × (self.new.queue ≡ self.old.queue)
            × (self.new.sent ≡ self.old.sent))
            (λ first. (Q.waiting self.old.queue ≡ first ∷ Q.waiting self.new.queue)
            × (self.new.sent ≡ self.old.sent)) }
    {
        self.queue.take()
    }

    // Whether another message finds a place. Every queue has room for two, so an empty one says yes.
    pub fn takes_more(&self) -> bool
        ensures bounds { Bounds (Q.waiting self.now.queue) (Q.capacity self.now.queue) }
        ensures empty { Q.waiting self.now.queue ≡ [] → result ≡ true }
    {
        self.queue.free() > 0
    }
}
