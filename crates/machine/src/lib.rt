// The machine of one leg: what it does at one event, and at a word of another leg.
#![tactic(auto)]

mod calls;
pub mod event;
mod events;
mod heard;
mod holds;
mod invokes;
mod messages;
mod reactions;
mod replies;
mod timeouts;
pub mod view;
mod words;

pub use event::Event;
pub use view::View;
