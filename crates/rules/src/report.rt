// An answer by its numbers and its lists, as a host that knows only numbers reads it.
ghost use Rattle.std.specs.Prelude.{◌≡◌};
ghost use Rattle.rules.specs.Reports.{report_of};

use crate::answer::{Answer, Outcome};
use leg::{Ended, UpToTwo};
use message::Message;

#[derive(Clone, Copy, PartialEq, Eq, Debug)]
pub struct Report {
    // 0 where the call was not refused
    pub refusal: u8,
    pub note: u8,
    // the wrong byte of a message that was refused, or the address that is asked for
    pub value: u16,
    // what was put into the queue
    pub sent: UpToTwo<Message>,
    // which requests ended
    pub ends: UpToTwo<Ended>,
}

const NOTHING: Report = Report {
    refusal: 0,
    note: 0,
    value: 0,
    sent: UpToTwo::Zero,
    ends: UpToTwo::Zero,
};

impl From<Answer> for Report {
    ghost from_gives = { λ answer report. report ≡ report_of answer };

    fn from(answer: Answer) -> Report {
        match answer {
            Err(refusal) => Report {
                refusal: u8::from(refusal),
                value: refusal.value(),
                ..NOTHING
            },
            Ok(Outcome::Done(done)) => Report {
                note: u8::from(done.note),
                value: done.note.value(),
                sent: done.sent,
                ends: done.ends,
                ..NOTHING
            },
            Ok(Outcome::Taken(_) | Outcome::Shown(_)) => NOTHING,
        }
    }
}
