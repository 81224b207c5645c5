// What a leg does with any message that it hears but SETUP, by its carrier.
ghost use Rattle.std.specs.Prelude.{◌≡◌};
ghost use Rattle.machine.specs.Replies.{connected_leg, setup_result, alerted, connected, lost, released_by_result, released_by_fault, released, heard_on};

use crate::reactions::{act, settle, tell, tell_to};
use crate::view::View;
use leg::{Cause, Ended, Leg, Named, Note, Phase, Reaction, Slot, Transfer, Word};
use message::{Carrier, Kind, Message, Operation};

impl View {
    // A placed leg whose far end was reached.
    fn reached(self, phase: Phase) -> Leg
        ensures { result ≡ connected_leg self.leg phase }
    {
        Leg {
            phase,
            transfer: Transfer::Idle,
            ..self.leg
        }
    }

    // With a matching result of the set-up the leg goes on in this phase, and its primary answers that the transfer is done.
    fn heard_setup_result(self, heard: Message, phase: Phase, other: Reaction) -> Reaction
        ensures { result ≡ setup_result self.leg heard phase other }
    {
        match (heard.kind, heard.operation, self.leg.transfer) {
            (
                Kind::Result,
                Some(Operation::CallTransferSetup),
                Transfer::AwaitSetupResponse { number, primary },
            ) if number == heard.number => settle(
                self.reached(phase),
                Slot::Transfer,
                Ended {
                    number,
                    cause: Cause::Result,
                },
                None,
                tell(primary, Word::Complete),
            ),
            _ => other,
        }
    }

    fn heard_alerting(self, heard: Message) -> Reaction
        ensures { result ≡ alerted self.leg heard }
    {
        self.heard_setup_result(heard, Phase::Alerting, self.stray())
    }

    // Any CONNECT makes an alerting leg active.
    fn heard_connect(self, heard: Message) -> Reaction
        ensures { result ≡ connected self.leg heard }
    {
        let other = if matches!(self.leg.phase, Phase::Alerting) {
            let active = Leg {
                phase: Phase::Active,
                ..self.leg
            };
            act(active, None, Note::Done)
        } else {
            self.stray()
        };
        self.heard_setup_result(heard, Phase::Active, other)
    }

    // The far end ended the call.
    fn lose(self) -> Reaction
        ensures { result ≡ lost self.leg }
    {
        self.leave(None, None, self.tell_lost())
    }

    // With a matching result of an initiate the transfer is done: the secondary only parts.
    fn released_by_result(self, heard: Message) -> Reaction
        ensures { result ≡ released_by_result self.leg heard }
    {
        match self.leg.transfer {
            Transfer::AwaitInitiate { number, secondary } if number == heard.number => self.leave(
                None,
                Some(Named::Transfer(Cause::Result)),
                tell_to(secondary, Word::Part),
            ),
            _ => self.lose(),
        }
    }

    // A matching fault of a set-up is what the request ends by.
    fn released_by_fault(self, heard: Message) -> Reaction
        ensures { result ≡ released_by_fault self.leg heard }
    {
        match self.leg.transfer {
            Transfer::AwaitSetupResponse { number, primary } if number == heard.number => {
                self.leave(
                    None,
                    Some(Named::Transfer(Cause::Fault)),
                    tell(primary, Word::Lost),
                )
            }
            _ => self.lose(),
        }
    }

    // RELEASE COMPLETE ends the leg whatever it brings.
    fn heard_release(self, heard: Message) -> Reaction
        ensures { result ≡ released self.leg heard }
    {
        match (heard.kind, heard.operation) {
            (Kind::Result, Some(Operation::CallTransferInitiate)) => {
                self.released_by_result(heard)
            }
            (Kind::Error | Kind::Reject, Some(Operation::CallTransferSetup)) => {
                self.released_by_fault(heard)
            }
            _ => self.lose(),
        }
    }

    // A SETUP is stray here: `heard_setup` takes it, since it may bring a leg into use. On a free leg all is stray.
    pub(crate) fn hear(self, heard: Message) -> Reaction
        ensures { result ≡ heard_on self.leg self.at self.own heard }
    {
        if !self.leg.in_use() {
            return self.stray();
        }
        match (heard.carrier, heard.operation) {
            (Carrier::Alerting, _) => self.heard_alerting(heard),
            (Carrier::Connect, _) => self.heard_connect(heard),
            (Carrier::Facility, Some(operation)) => self.heard_facility(heard, operation),
            (Carrier::ReleaseComplete, _) => self.heard_release(heard),
            (Carrier::Setup, _) | (Carrier::Facility, None) => self.stray(),
        }
    }
}
