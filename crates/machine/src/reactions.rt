// The shapes of a leg's reaction.
ghost use Rattle.std.specs.Prelude.{◌≡◌};
ghost use Rattle.leg.specs.Tells.{tell_leg};
ghost use Rattle.leg.specs.Views.{with_transfer};
ghost use Rattle.machine.specs.Reactions.{acting, with_timer, sending, ending, strayed, unawaited, request_end, last_ends, leaving, tell_to, tell_lost};

use crate::view::View;
use leg::{
    Cause, Ended, Leg, Named, Note, Place, Reaction, Request, Slot, Tell, Timer, TimerChange,
    Transfer, UpToTwo, Word,
};
use message::Message;

// The end of a request, where one is open.
fn request_end(request: Option<Request>, cause: Cause) -> Option<Ended>
    ensures { result ≡ request_end request cause }
{
    request.map(|open| Ended {
        number: open.number,
        cause,
    })
}

// This leg is told this word.
pub(crate) fn tell(to: Place, word: Word) -> Option<Tell>
    ensures { result ≡ tell_leg to word }
{
    Some(Tell { to, word })
}

// The leg, if there is one, is told this word.
pub(crate) fn tell_to(to: Option<Place>, word: Word) -> Option<Tell>
    ensures { result ≡ tell_to to word }
{
    to.map(|to| Tell { to, word })
}

// A new record, perhaps a message, a note, and nothing else.
pub(crate) fn act(leg: Leg, sent: Option<Message>, note: Note) -> Reaction
    ensures { result ≡ acting leg sent note }
{
    Reaction {
        leg,
        sent,
        ends: UpToTwo::Zero,
        transfer_timer: TimerChange::Kept,
        hold_timer: TimerChange::Kept,
        tell: None,
        note,
    }
}

// The same reaction, but that the timer in this slot is stopped or set.
pub(crate) fn with_timer(slot: Slot, change: TimerChange, reaction: Reaction) -> Reaction
    ensures { result ≡ with_timer slot change reaction }
{
    match slot {
        Slot::Transfer => Reaction {
            transfer_timer: change,
            ..reaction
        },
        Slot::Hold => Reaction {
            hold_timer: change,
            ..reaction
        },
    }
}

// A request goes out, and its timer runs.
pub(crate) fn send_request(leg: Leg, request: Message, timer: Timer, tell: Option<Tell>) -> Reaction
    ensures { result ≡ sending leg request timer tell }
{
    let sent = Reaction {
        tell,
        ..act(leg, Some(request), Note::Done)
    };
    with_timer(timer.slot(), TimerChange::Set(timer), sent)
}

// The request on the timer in this slot ends, and the timer stops.
pub(crate) fn settle(
    leg: Leg,
    slot: Slot,
    ended: Ended,
    sent: Option<Message>,
    tell: Option<Tell>,
) -> Reaction
    ensures { result ≡ ending leg slot ended sent tell }
{
    let settled = Reaction {
        ends: UpToTwo::One(ended),
        tell,
        ..act(leg, sent, Note::Done)
    };
    with_timer(slot, TimerChange::Stopped, settled)
}

impl View {
    // What fits nothing changes nothing.
    pub(crate) fn stray(self) -> Reaction
        ensures { result ≡ strayed self.leg }
    {
        act(self.leg, None, Note::Stray)
    }

    // The record with no transfer under way.
    pub(crate) fn idle(self) -> Leg
        ensures { result ≡ with_transfer self.leg Transfer.Idle }
    {
        Leg {
            transfer: Transfer::Idle,
            ..self.leg
        }
    }

    // The set-up is awaited no longer, and its timer stops.
    pub(crate) fn stop_awaiting(self, note: Note) -> Reaction
        ensures { result ≡ unawaited self.leg note }
    {
        let idle = act(self.idle(), None, note);
        with_timer(Slot::Transfer, TimerChange::Stopped, idle)
    }

    // The requests that end with the leg: the named one first, then what is left, transfer before hold.
    fn last_ends(self, named: Option<Named>) -> UpToTwo<Ended>
        ensures { result ≡ last_ends self.leg named }
    {
        let (transfer, hold) = (self.leg.transfer_request(), self.leg.hold_request());
        let (first, cause, second) = match named {
            None => (transfer, Cause::Cleared, hold),
            Some(Named::Transfer(cause)) => (transfer, cause, hold),
            Some(Named::Hold(cause)) => (hold, cause, transfer),
        };
        let ended = request_end(first, cause);
        let left = request_end(second, Cause::Cleared);
        UpToTwo::of(ended, left)
    }

    // The leg ends: both timers stop, its requests end, and what it owes is dropped.
    pub(crate) fn leave(
        self,
        sent: Option<Message>,
        named: Option<Named>,
        tell: Option<Tell>,
    ) -> Reaction
        ensures { result ≡ leaving self.leg sent named tell }
    {
        Reaction {
            leg: Leg::free(),
            sent,
            ends: self.last_ends(named),
            transfer_timer: TimerChange::Stopped,
            hold_timer: TimerChange::Stopped,
            tell,
            note: Note::Done,
        }
    }

    // The partner, if there is one, is told that this leg ended.
    pub(crate) fn tell_lost(self) -> Option<Tell>
        ensures { result ≡ tell_lost self.leg }
    {
        tell_to(self.leg.partner(), Word::Lost)
    }
}
