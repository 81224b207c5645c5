// What can happen to a leg.
use leg::{HoldKind, Owed, Place, Slot};
use message::Message;

#[derive(Clone, Copy, PartialEq, Eq, Debug)]
pub enum Event {
    // a call with this peer begins
    Open {
        peer: u16,
    },
    Clear,
    // without consultation
    Transfer {
        address: u16,
    },
    // as the secondary of a consultation
    Identify {
        primary: Place,
    },
    // as the new leg of a call that was asked for on the primary
    SetUp {
        primary: Place,
        asked: Owed,
    },
    Accept,
    Decline,
    Hold {
        kind: HoldKind,
    },
    Retrieve,
    // any message but SETUP
    Hear {
        message: Message,
    },
    // SETUP, and the leg that awaits it
    Meet {
        message: Message,
        met: Option<Place>,
    },
    // one of its timers
    RunOut {
        slot: Slot,
    },
}
