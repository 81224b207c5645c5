// Signalling messages in sixteen bytes: what they are, how they are read and how they are written.
#![tactic(auto)]

pub mod codes;
pub mod laws;
mod ranges;
pub mod record;
mod rows;
mod table;
mod words;

pub use codes::{Carrier, ErrorCode, Kind, Operation, UnknownNumber};
pub use record::{Message, MessageFault};
