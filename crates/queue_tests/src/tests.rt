use crate::holder::Holder;
use crate::plain::{Beside, numbered};
use message::Message;
use queue::{Full, OverflowQueue, Queue, RingQueue, WrongSize};
use std::test::Fail;

#[test]
fn smallest_ring(rt: HostRuntime) -> Result<(), Fail> {
    let mut records = [numbered(0); 2];
    let mut ring = Beside::new(RingQueue::new(&mut records)?, 2, rt.alloc());
    ring.fill_and_empty(&rt, 3, 50)?;
    ring.mixed(&rt, 2000)
}

#[test]
fn odd_ring(rt: HostRuntime) -> Result<(), Fail> {
    let mut records = [numbered(0); 7];
    let mut ring = Beside::new(RingQueue::new(&mut records)?, 7, rt.alloc());
    ring.fill_and_empty(&rt, 5, 50)?;
    ring.mixed(&rt, 5000)
}

// The largest ring, filled past its end and emptied, the second time from the middle of its records.
#[test]
fn largest_ring(rt: HostRuntime) -> Result<(), Fail> {
    let mut records = [numbered(0); 4096];
    let mut ring = Beside::new(RingQueue::new(&mut records)?, 4096, rt.alloc());
    ring.fill_and_empty(&rt, 4100, 2)?;
    ring.fill_and_empty(&rt, 2000, 3)?;
    ring.fill_and_empty(&rt, 4100, 1)
}

#[test]
fn wrong_sizes(rt: HostRuntime) {
    let records = [numbered(0); 4097];
    assert_eq!(rt; RingQueue::fits(&records), Err(WrongSize));
    assert_eq!(rt; RingQueue::fits(&records[0..4096]), Ok(()));
    assert_eq!(rt; RingQueue::fits(&records[0..2]), Ok(()));
    assert_eq!(rt; RingQueue::fits(&records[0..1]), Err(WrongSize));
    assert_eq!(rt; RingQueue::fits(&records[0..0]), Err(WrongSize));
    assert_eq!(rt; u8::from(WrongSize), 2);
}

#[test]
fn refusals_print(rt: HostRuntime) -> Result<(), Fail> {
    let full = Full.to_string(rt.alloc())?;
    assert_eq!(rt; full.as_str(), "the queue is full");
    let size = WrongSize.to_string(rt.alloc())?;
    assert_eq!(rt; size.as_str(), "a ring stands on 2 to 4,096 records");
    Ok(())
}

#[test]
fn wrong_sizes_refused(rt: HostRuntime) {
    let mut none: [Message; 0] = [];
    assert!(rt; RingQueue::new(&mut none).is_err());
    let mut one = [numbered(0); 1];
    assert!(rt; RingQueue::new(&mut one).is_err());
    let mut many = [numbered(0); 4097];
    assert!(rt; RingQueue::new(&mut many).is_err());
}

#[test]
fn overflow_of_a_ring(rt: HostRuntime) -> Result<(), Fail> {
    let mut records = [numbered(0); 2];
    let ring = RingQueue::new(&mut records)?;
    let mut queue = Beside::new(OverflowQueue::new(ring), 10, rt.alloc());
    queue.fill_and_empty(&rt, 12, 20)?;
    queue.mixed(&rt, 5000)
}

#[test]
fn overflow_of_an_overflow(rt: HostRuntime) -> Result<(), Fail> {
    let mut records = [numbered(0); 3];
    let small = OverflowQueue::new(RingQueue::new(&mut records)?);
    let mut queue = Beside::new(OverflowQueue::new(small), 19, rt.alloc());
    queue.fill_and_empty(&rt, 21, 20)?;
    queue.mixed(&rt, 5000)
}

// A holder has any of them by value.
#[test]
fn held_by_value(rt: HostRuntime) -> Result<(), Fail> {
    let mut records = [numbered(0); 2];
    let mut small = Holder::new(RingQueue::new(&mut records)?);
    assert!(rt; small.takes_more());
    assert_eq!(rt; small.send(numbered(1)), Ok(()));
    assert_eq!(rt; small.send(numbered(2)), Ok(()));
    assert!(rt; !small.takes_more());
    assert_eq!(rt; small.send(numbered(3)), Err(Full));
    assert_eq!(rt; small.next(), Some(numbered(1)));
    let mut others = [numbered(0); 2];
    let mut large = Holder::new(OverflowQueue::new(OverflowQueue::new(RingQueue::new(
        &mut others,
    )?)));
    for number in 0..18u16 {
        assert_eq!(rt; large.send(numbered(number)), Ok(()));
    }
    assert_eq!(rt; large.send(numbered(18)), Err(Full));
    assert_eq!(rt; large.next(), Some(numbered(0)));
    Ok(())
}

// A type may name an overflow over any Q, and ask for a queue only where it uses one.
#[derive(Drop)]
struct Station<Q> {
    waiting: OverflowQueue<Q>,
}

impl<Q: Queue> Station<Q> {
    fn send(&mut self, number: u16) -> Result<(), Full> {
        self.waiting.put(numbered(number))
    }
}

#[test]
fn named_over_any(rt: HostRuntime) -> Result<(), Fail> {
    let mut records = [numbered(0); 2];
    let waiting = OverflowQueue::new(RingQueue::new(&mut records)?);
    let mut station = Station { waiting };
    for number in 0..10u16 {
        assert_eq!(rt; station.send(number), Ok(()));
    }
    assert_eq!(rt; station.send(10), Err(Full));
    assert_eq!(rt; station.waiting.take(), Some(numbered(0)));
    Ok(())
}
