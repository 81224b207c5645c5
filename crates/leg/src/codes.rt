// Refusals, notes and causes, and the number and value that stand for each case in an answer.
ghost use Rattle.std.specs.Prelude.{◌≡◌};
ghost use Rattle.leg.specs.Codes.{refusal_number, refusal_value, note_number, note_value, cause_number};

use message::MessageFault;

// Why a call was turned down. A call that is refused changes nothing.
#[derive(Clone, Copy, PartialEq, Eq, Debug)]
pub enum Refusal {
    // an own number outside 1 to 65,535, or a timer value outside 1 to 3,600
    BadSettings,
    // memory for a queue that is too small or too large
    BadQueueSize,
    // a leg above 31
    NoSuchLeg,
    // a peer or an address outside 1 to 65,535
    BadAddress,
    // a time before the board's, or above 2^40
    BadTime,
    // bytes that are no message
    BadMessage(MessageFault),
    // a leg in use where a free one is wanted
    LegInUse,
    // a free leg where one in use is wanted
    LegFree,
    // a leg that is not active
    NotActive,
    // one leg where two are wanted
    SameLeg,
    // a leg with a transfer under way
    NotIdle,
    // another state than the one that the call is for
    WrongState,
    // a leg that holds or is held
    HoldNotIdle,
    // the last request number was used
    NoNumberLeft,
    // the queue has fewer free places than there are messages to send
    QueueFull,
}

// What an accepted call has to say beside the messages that it sent.
#[derive(Clone, Copy, PartialEq, Eq, Debug)]
pub enum Note {
    Done,
    // the message fits nothing that the board waits for; nothing changed
    Stray,
    // no timer had run out
    NoneDue,
    // no message waits
    QueueEmpty,
    // the far end asks this end to call the address
    Asked { address: u16 },
    // the far end put this end on hold
    Held,
    // the far end took this end back
    Retrieved,
    // a transferred call comes in
    Ringing,
    // the set-up that was announced did not come in time
    SetupLapsed,
}

// How an open request came to its end.
#[derive(Clone, Copy, PartialEq, Eq, Debug)]
pub enum Cause {
    Result,
    // an error or a reject
    Fault,
    Timeout,
    Cleared,
}

// The end of the request with this number.
#[derive(Clone, Copy, PartialEq, Eq, Debug)]
pub struct Ended {
    pub number: u16,
    pub cause: Cause,
}

impl From<Refusal> for u8 {
    ghost from_gives = { λ refusal number. number ≡ refusal_number refusal };

    fn from(refusal: Refusal) -> u8 {
        match refusal {
            Refusal::BadSettings => 1,
            Refusal::BadQueueSize => 2,
            Refusal::NoSuchLeg => 3,
            Refusal::BadAddress => 4,
            Refusal::BadTime => 5,
            Refusal::BadMessage(_) => 6,
            Refusal::LegInUse => 7,
            Refusal::LegFree => 8,
            Refusal::NotActive => 9,
            Refusal::SameLeg => 10,
            Refusal::NotIdle => 11,
            Refusal::WrongState => 12,
            Refusal::HoldNotIdle => 13,
            Refusal::NoNumberLeft => 14,
            Refusal::QueueFull => 15,
        }
    }
}

impl Refusal {
    // The wrong byte of a message, 0 for any other refusal: a host that knows only numbers reads it beside the refusal's.
    pub fn value(self) -> u16
        ensures { result ≡ refusal_value self }
    {
        match self {
            Refusal::BadMessage(fault) => u16::from(fault.byte),
            _ => 0,
        }
    }
}

impl From<Note> for u8 {
    ghost from_gives = { λ note number. number ≡ note_number note };

    fn from(note: Note) -> u8 {
        match note {
            Note::Done => 0,
            Note::Stray => 1,
            Note::NoneDue => 2,
            Note::QueueEmpty => 3,
            Note::Asked { .. } => 4,
            Note::Held => 5,
            Note::Retrieved => 6,
            Note::Ringing => 7,
            Note::SetupLapsed => 8,
        }
    }
}

impl Note {
    // The address that is asked for, 0 for any other note: a number beside the note's, as above.
    pub fn value(self) -> u16
        ensures { result ≡ note_value self }
    {
        match self {
            Note::Asked { address } => address,
            _ => 0,
        }
    }
}

impl From<Cause> for u8 {
    ghost from_gives = { λ cause number. number ≡ cause_number cause };

    fn from(cause: Cause) -> u8 {
        match cause {
            Cause::Result => 1,
            Cause::Fault => 2,
            Cause::Timeout => 3,
            Cause::Cleared => 4,
        }
    }
}
