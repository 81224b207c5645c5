// A queue on records that the host lends, read in a ring.
ghost use Rattle.std.specs.Prelude.{◌≡◌, ◌<◌, ◌≤◌, [], length, Some, MatchResult, codes};

use crate::meaning::{Full, Queue};
use message::Message;
use std::error::Error;
use std::fmt;

// The host's memory has fewer than 2 records or more than 4,096.
#[derive(Clone, Copy, PartialEq, Eq, Debug)]
pub struct WrongSize;

const REFUSAL: u8 = 2;

// The number of this refusal.
impl From<WrongSize> for u8 {
    ghost from_gives = { λ _ n. n ≡ 2 };

    fn from(_refusal: WrongSize) -> u8 {
        REFUSAL
    }
}

impl fmt::Display for WrongSize {
    ghost output = { λ _. Some (codes "a ring stands on 2 to 4,096 records") };

    fn fmt<W: fmt::Write>(&self, f: &mut fmt::Formatter<W>) -> fmt::Result {
        f.write_str("a ring stands on 2 to 4,096 records")
    }
}

impl Error for WrongSize {}

const LARGEST: usize = 4096;

// The host's records, where the ring begins in them, and how many wait.
// No `VecDeque`, since the host lends the records and a queue takes no memory of its own.
#[derive(Debug, Drop)]
pub struct RingQueue<'a> {
    records: &'a mut [Message],
    head: usize,
    count: usize,
    ghost enough: { 2 ≤ length records.now },
    ghost head_within: { head < length records.now },
    ghost count_within: { count ≤ length records.now },
}

impl<'a> RingQueue<'a> {
    ghost use Rattle.std.specs.Prelude.{slice_index_or, slice_set};
    ghost use Rattle.queue.specs.Rings.{FitsRing, Next, records_of, ring_waiting, ring_capacity};

    // Whether these records can be lent to a ring. It only looks at their number.
    pub fn fits(records: &[Message]) -> Result<(), WrongSize>
        ensures { MatchResult result (λ _. FitsRing (length records.now)) (λ _. ¬ FitsRing (length records.now)) }
    {
        if !(2..=LARGEST).contains(&records.len()) {
            return Err(WrongSize);
        }
        Ok(())
    }

    // An empty queue on these records. Not `TryFrom`: what is made is a queue, of which they are the place.
    pub fn new(records: &'a mut [Message]) -> Result<RingQueue<'a>, WrongSize>
        ensures { MatchResult result
            (λ q. (records_of q ≡ records.old) × (ring_waiting q ≡ []) × FitsRing (length records.old))
            (λ _. ¬ FitsRing (length records.old)) }
    {
        Self::fits(records)?;
        Ok(RingQueue {
            records,
            head: 0,
            count: 0,
        })
    }

    // How many wait.
    #[tactic(auto, using(crate::proofs::Turning::length_ringed))]
    fn len(&self) -> usize
        ensures { result ≡ length (ring_waiting self.now) }
    {
        self.count
    }

    fn record(&self, at: usize) -> Message
        requires { at < ring_capacity self.now }
        ensures { result ≡ slice_index_or (records_of self.now) at result }
    {
        self.records[at]
    }

    fn store(&mut self, place: usize, message: Message)
        requires { place < ring_capacity self.old }
        ensures all { records_of self.new ≡ slice_set (records_of self.old) place message }
        ensures head { self.new.head ≡ self.old.head }
        ensures count { self.new.count ≡ self.old.count }
    {
        self.records[place] = message;
    }

    // The place that lies these steps after the head, round the end of the records.
    fn place(&self, steps: usize) -> usize
        requires { steps < ring_capacity self.now }
        ensures { Next self.now.head steps (ring_capacity self.now) result }
    {
        let left = self.records.len() - self.head;
        if steps < left {
            self.head + steps
        } else {
            steps - left
        }
    }
}

impl Queue for RingQueue<'_> {
    ghost use Rattle.std.proofs.Common.{rules};
    ghost use Rattle.std.proofs.lemmas.List.{length-append, length-take, length-drop};
    ghost use Rattle.queue.specs.Queues.{Puts, Takes};
    ghost use Rattle.queue.specs.Rings.{OneWritten, records_of, ring_waiting, ring_capacity};

    ghost waiting = { ring_waiting };

    ghost capacity = { ring_capacity };

    ghost bounds = { Prim.search (rules, length-append, length-take, length-drop) };

    // Writes one of the host's records, or none where it is refused.
    fn put(&mut self, message: Message) -> Result<(), Full>
        ensures kept { ring_capacity self.new ≡ ring_capacity self.old }
        ensures cases { Puts ring_waiting ring_capacity message self.old self.new result }
        ensures records { MatchResult result
            (λ _. OneWritten (records_of self.old) message (records_of self.new))
            (λ _. records_of self.new ≡ records_of self.old) }
    {
        let count = self.count;
        if count == self.records.len() {
            return Err(Full);
        }
        let place = self.place(count);
        self.store(place, message);
        self.count += 1;
        Ok(())
    }

    // Writes none of the host's records.
    fn take(&mut self) -> Option<Message>
        ensures kept { ring_capacity self.new ≡ ring_capacity self.old }
        ensures cases { Takes ring_waiting self.old self.new result }
        ensures records { records_of self.new ≡ records_of self.old }
    {
        if self.count == 0 {
            return None;
        }
        let head = self.head;
        let message = self.record(head);
        self.head = self.place(1);
        self.count -= 1;
        Some(message)
    }

    fn has_waiting(&self) -> bool {
        self.len() > 0
    }

    fn free(&self) -> usize {
        (self.records.len() - self.len()).min(2)
    }
}
