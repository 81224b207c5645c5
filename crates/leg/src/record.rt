// The record of a leg: one of the board's 32 calls, and what it waits for.
use crate::place::Place;
use message::Operation;

// A confirmed invoke that was sent and has not ended.
#[derive(Clone, Copy, PartialEq, Eq, Debug)]
pub struct Request {
    pub operation: Operation,
    pub number: u16,
}

// A confirmed invoke that was heard and is not answered yet.
#[derive(Clone, Copy, PartialEq, Eq, Debug)]
pub struct Owed {
    pub number: u16,
    pub identity: u16,
    pub address: u16,
}

// How far the call of a leg has come. `Free` is a case, and no record none: the host may look at every leg.
#[derive(Clone, Copy, PartialEq, Eq, Debug)]
pub enum Phase {
    Free,
    // called by this end for a transfer, not answered yet
    Calling,
    // calls this end for a transfer, which owes the answer to its set-up
    Ringing(Owed),
    // called by this end, rings at the far end
    Alerting,
    Active,
}

// Why a leg is bound to its partner, which waits for a reply.
#[derive(Clone, Copy, PartialEq, Eq, Debug)]
pub enum Bond {
    // the far end of the secondary is asked for its identity
    Consulting { secondary: Place },
    // the far end of the primary is asked to call the far end of this leg
    Consulted { primary: Place },
    // the placed leg calls the address that the far end of this leg asked for, which is owed the answer
    Placing { placed: Place, owed: Owed },
}

// What a leg's transfer waits for. An open request has its number, a partner its place.
#[derive(Clone, Copy, PartialEq, Eq, Debug)]
pub enum Transfer {
    Idle,
    // asked which identity it has
    AwaitIdentify {
        number: u16,
        primary: Place,
    },
    // asked to call someone else; the secondary is the leg that was consulted, if one was and is still there
    AwaitInitiate {
        number: u16,
        secondary: Option<Place>,
    },
    // set up on behalf of the primary
    AwaitSetupResponse {
        number: u16,
        primary: Place,
    },
    // gave its identity, and waits for the set-up that names it
    AwaitSetup,
    // is asked to call someone else, and the host has not decided yet
    Asked(Owed),
    Bound(Bond),
}

// This end as the one that holds.
#[derive(Clone, Copy, PartialEq, Eq, Debug)]
pub enum Holder {
    Idle,
    NearHolding,
    RemoteRequested { number: u16 },
    RemoteHolding,
    RetrieveRequested { number: u16 },
}

// Where a call is held: at this end, or at the far end.
#[derive(Clone, Copy, PartialEq, Eq, Debug)]
pub enum HoldKind {
    Near,
    Remote,
}

// A peer that does not apply is 0: the host looks at this record, and no far end has that number.
// `held` is set while the far end has put this end on hold.
#[derive(Clone, Copy, PartialEq, Eq, Debug)]
pub struct Leg {
    pub phase: Phase,
    pub peer: u16,
    pub transfer: Transfer,
    pub holder: Holder,
    pub held: Option<HoldKind>,
}
