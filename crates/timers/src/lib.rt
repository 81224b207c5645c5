// Deadlines for the keys 0 to 63: what a set of timers means, one by a bitmap and one by a heap.
#![tactic(auto)]

pub mod bitmap;
pub mod heap;
mod key;
pub mod meaning;

pub use bitmap::BitmapTimers;
pub use heap::HeapTimers;
pub use meaning::{Due, NoSuchKey, Timers};
