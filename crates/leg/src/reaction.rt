// What a leg does at one event.
use crate::codes::{Cause, Ended, Note};
use crate::place::Place;
use crate::record::Leg;
use message::Message;

// The six timers, two of a leg at most running at a time.
#[derive(Clone, Copy, PartialEq, Eq, Debug)]
pub enum Timer {
    CtT1,
    CtT2,
    CtT3,
    CtT4,
    HoldT1,
    HoldT2,
}

// The two timer keys of a leg.
#[derive(Clone, Copy, PartialEq, Eq, Debug)]
pub enum Slot {
    Transfer,
    Hold,
}

// What becomes of a running or a stopped timer. Three things, each with a name: an Option of two would call the first none.
#[derive(Clone, Copy, PartialEq, Eq, Debug)]
pub enum TimerChange {
    Kept,
    Stopped,
    Set(Timer),
}

// At most two of a kind, in their order. No `ArrayVec`, since this is copied as its parts are.
#[derive(Clone, Copy, PartialEq, Eq, Debug)]
pub enum UpToTwo<T> {
    Zero,
    One(T),
    Two(T, T),
}

// What one leg has another leg do.
#[derive(Clone, Copy, PartialEq, Eq, Debug)]
pub enum Word {
    // be the primary of a consultation on the secondary
    Consult { secondary: Place },
    // be the primary on behalf of which the placed leg calls
    Place { placed: Place },
    // ask the far end to call the address, where this identity is known
    Initiate { identity: u16, address: u16 },
    // part, and say nothing
    Part,
    // part, and tell the far end that no set-up is to be awaited
    Abandon,
    // answer that the transfer is done, and end
    Complete,
    // the set-up that was awaited came on another leg: end
    Met,
    // the partner has ended
    Lost,
}

// Another leg, and what it is told.
#[derive(Clone, Copy, PartialEq, Eq, Debug)]
pub struct Tell {
    pub to: Place,
    pub word: Word,
}

// The open request that a step ends by a cause of its own, of a leg that ends with it. Not a slot beside a cause, so that a call reads as what ends.
#[derive(Clone, Copy, PartialEq, Eq, Debug)]
pub enum Named {
    Transfer(Cause),
    Hold(Cause),
}

// The new record, what is sent on this leg, which requests end, what becomes of the two timers, what another leg is told, and what the host is told.
#[derive(Clone, Copy, PartialEq, Eq, Debug)]
pub struct Reaction {
    pub leg: Leg,
    pub sent: Option<Message>,
    pub ends: UpToTwo<Ended>,
    pub transfer_timer: TimerChange,
    pub hold_timer: TimerChange,
    pub tell: Option<Tell>,
    pub note: Note,
}
