// What a call is to do, before anything is changed.
use leg::place::Place;
use leg::reaction::Reaction;

// A leg that is told something, and its reaction.
#[derive(Clone, Copy, PartialEq, Eq, Debug)]
pub struct Told {
    pub to: Place,
    pub reaction: Reaction,
}

// The reaction of the leg that the call, the message or the timer names, and that of the leg it tells, if it tells one.
#[derive(Clone, Copy, PartialEq, Eq, Debug)]
pub struct Plan {
    pub place: Place,
    pub own: Reaction,
    pub other: Option<Told>,
}
