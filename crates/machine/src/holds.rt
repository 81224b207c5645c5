// What a leg does at the calls hold and retrieve.
ghost use Rattle.std.specs.Prelude.{◌≡◌, Some, None};
ghost use Rattle.leg.specs.Views.{with_holder};
ghost use Rattle.machine.specs.Messages.{notice_on, request_on};
ghost use Rattle.machine.specs.Reactions.{acting, sending};
ghost use Rattle.machine.specs.Calls.{holding_by, holding, retrieving};

use crate::reactions::{act, send_request};
use crate::view::View;
use leg::{HoldKind, Holder, Leg, Note, Reaction, Refusal, Timer};
use message::{Carrier, Operation};

impl View {
    // A hold that is asked for, or taken back, at the far end: the request goes out, and its timer runs.
    fn ask_hold(self, number: u16, holder: Holder, operation: Operation, timer: Timer) -> Reaction
        ensures { result ≡ sending (with_holder self.leg holder) (request_on self.at Carrier.Facility operation number 0 0) timer None }
    {
        send_request(
            Leg { holder, ..self.leg },
            self.request(Carrier::Facility, operation, number, 0, 0),
            timer,
            None,
        )
    }

    // A hold at this end, or its end: the far end is only told.
    fn notify_hold(self, holder: Holder, operation: Operation) -> Reaction
        ensures { result ≡ acting (with_holder self.leg holder) (Some (notice_on self.at operation)) Note.Done }
    {
        act(
            Leg { holder, ..self.leg },
            Some(self.notice(operation)),
            Note::Done,
        )
    }

    // Of a hold at this end the far end is only told; for a hold at the far end it is asked.
    fn hold_by(self, kind: HoldKind) -> Result<Reaction, Refusal>
        ensures { result ≡ holding_by self.leg self.at kind self.next }
    {
        match kind {
            HoldKind::Near => Ok(self.notify_hold(Holder::NearHolding, Operation::HoldNotific)),
            HoldKind::Remote => {
                let number = self.number()?;
                let holder = Holder::RemoteRequested { number };
                Ok(self.ask_hold(number, holder, Operation::RemoteHold, Timer::HoldT1))
            }
        }
    }

    // Only one end holds at a time.
    pub(crate) fn hold(self, kind: HoldKind) -> Result<Reaction, Refusal>
        ensures { result ≡ holding self.leg self.at kind self.next }
    {
        if !self.leg.in_use() {
            return Err(Refusal::LegFree);
        }
        if !self.leg.is_active() {
            return Err(Refusal::NotActive);
        }
        if !self.leg.is_unheld() {
            return Err(Refusal::HoldNotIdle);
        }
        self.hold_by(kind)
    }

    // The call is fetched back by the way in which it was held.
    pub(crate) fn retrieve(self) -> Result<Reaction, Refusal>
        ensures { result ≡ retrieving self.leg self.at self.next }
    {
        if !self.leg.in_use() {
            return Err(Refusal::LegFree);
        }
        match self.leg.holder {
            Holder::NearHolding => Ok(self.notify_hold(Holder::Idle, Operation::RetrieveNotific)),
            Holder::RemoteHolding => {
                let number = self.number()?;
                let holder = Holder::RetrieveRequested { number };
                Ok(self.ask_hold(number, holder, Operation::RemoteRetrieve, Timer::HoldT2))
            }
            _ => Err(Refusal::WrongState),
        }
    }
}
