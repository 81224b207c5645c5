// The record of one leg, and the shape of what it does at one event.
#![tactic(auto)]

pub mod codes;
pub mod place;
mod places;
pub mod reaction;
mod reactions;
pub mod record;
mod slots;
mod step;
pub mod value;
pub mod values;
mod views;

pub use codes::{Cause, Ended, Note, Refusal};
pub use place::Place;
pub use reaction::{Named, Reaction, Slot, Tell, Timer, TimerChange, UpToTwo, Word};
pub use record::{Bond, HoldKind, Holder, Leg, Owed, Phase, Request, Transfer};
pub use value::TimerValue;
pub use values::TimerValues;
pub use views::FREE;
