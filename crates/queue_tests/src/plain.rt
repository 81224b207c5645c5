// Any queue beside a plain list.
use message::{Carrier, Kind, Message, Operation};
use queue::{Full, Queue};
use std::alloc::Global;
use std::collections::VecDeque;
use std::process::Abort;
use std::test::Fail;

pub fn numbered(number: u16) -> Message {
    Message {
        carrier: Carrier::Facility,
        kind: Kind::Invoke,
        operation: Some(Operation::RemoteHold),
        leg: 1,
        number,
        identity: 0,
        address: 0,
        error: None,
    }
}

// A queue and the numbers that should wait in it.
#[derive(Drop)]
pub struct Beside<Q> {
    queue: Q,
    plain: VecDeque<u16>,
    capacity: usize,
}

impl<Q: Queue> Beside<Q> {
    // An empty queue of this capacity.
    pub fn new(queue: Q, capacity: usize, heap: Global) -> Beside<Q> {
        Beside {
            queue,
            plain: VecDeque::new(heap),
            capacity,
        }
    }

    // What the two questions answer.
    fn asked(&self, rt: &impl Abort) {
        let left = self.capacity.saturating_sub(self.plain.len());
        assert_eq!(rt; self.queue.has_waiting(), !self.plain.is_empty());
        assert_eq!(rt; self.queue.free(), left.min(2));
    }

    // One put on both.
    fn put(&mut self, rt: &impl Abort, number: u16) -> Result<(), Fail> {
        if self.plain.len() < self.capacity {
            assert_eq!(rt; self.queue.put(numbered(number)), Ok(()));
            self.plain.push_back(number)?;
        } else {
            assert_eq!(rt; self.queue.put(numbered(number)), Err(Full));
        }
        self.asked(rt);
        Ok(())
    }

    // One take from both.
    fn take(&mut self, rt: &impl Abort) {
        assert_eq!(rt; self.queue.take(), self.plain.pop_front().map(numbered));
        self.asked(rt);
    }

    // Fills and empties the queue `rounds` times, each time with `most` puts and then as many takes.
    pub fn fill_and_empty(&mut self, rt: &impl Abort, most: u16, rounds: u16) -> Result<(), Fail> {
        for round in 0..rounds {
            for i in 0..most {
                self.put(rt, round.wrapping_add(i))?;
            }
            for _ in 0..most {
                self.take(rt);
            }
            assert!(rt; self.plain.is_empty());
        }
        Ok(())
    }

    // Puts and takes in an order that looks random, many times round.
    pub fn mixed(&mut self, rt: &impl Abort, turns: u32) -> Result<(), Fail> {
        let mut state: u32 = 12345;
        for _ in 0..turns {
            state = state.wrapping_mul(1664525).wrapping_add(1013904223);
            let number = (state >> 16) as u16;
            if (state >> 8) & 7 < 4 + (state >> 30) % 2 {
                self.put(rt, number)?;
            } else {
                self.take(rt);
            }
        }
        Ok(())
    }
}
