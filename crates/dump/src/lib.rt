// What the program msgdump prints, line by line.
#![tactic(auto)]

mod hex;
pub mod laws;
pub mod lines;
pub mod tally;

pub use lines::{Described, Form, describe};
pub use tally::Tally;
