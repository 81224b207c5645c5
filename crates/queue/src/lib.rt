// Queues of waiting messages: what a queue means, a ring on the host's records, and an overflow over any queue.
#![tactic(auto)]

pub mod meaning;
pub mod overflow;
pub mod ring;

pub use meaning::{Full, Queue};
pub use overflow::OverflowQueue;
pub use ring::{RingQueue, WrongSize};
