// What a board answers.
use leg::codes::{Ended, Note, Refusal};
use leg::reaction::UpToTwo;
use leg::record::Leg;
use message::Message;

// What an accepted call did: what there is to say, what was sent, and which requests ended.
#[derive(Clone, Copy, PartialEq, Eq, Debug)]
pub struct Done {
    pub note: Note,
    pub sent: UpToTwo<Message>,
    pub ends: UpToTwo<Ended>,
}

// What was done; or the message that was taken; or the record that was looked at.
#[derive(Clone, Copy, PartialEq, Eq, Debug)]
pub enum Outcome {
    Done(Done),
    Taken(Message),
    Shown(Leg),
}

// A refusal comes with nothing else.
pub type Answer = Result<Outcome, Refusal>;
