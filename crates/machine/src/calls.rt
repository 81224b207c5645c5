// What a leg does at a call of the host but hold and retrieve.
ghost use Rattle.std.specs.Prelude.{◌≡◌};
ghost use Rattle.std.specs.Option.{ok_or};
ghost use Rattle.machine.specs.Calls.{opening, clearing, initiating, transferring, identifying, placing, accepting, declining};

use crate::reactions::{act, send_request, tell};
use crate::view::View;
use leg::{Leg, Note, Owed, Phase, Place, Reaction, Refusal, Timer, Transfer, Word};
use message::{Carrier, ErrorCode, Operation};

impl View {
    // A free leg becomes active.
    pub(crate) fn open(self, peer: u16) -> Result<Reaction, Refusal>
        ensures { result ≡ opening self.leg peer }
    {
        if self.leg.in_use() {
            return Err(Refusal::LegInUse);
        }
        Ok(act(Leg::active(peer), None, Note::Done))
    }

    // The leg ends, and both the far end and the partner are told.
    pub(crate) fn clear(self) -> Result<Reaction, Refusal>
        ensures { result ≡ clearing self.leg self.at }
    {
        if !self.leg.in_use() {
            return Err(Refusal::LegFree);
        }
        Ok(self.leave(Some(self.release()), None, self.tell_lost()))
    }

    // The number that a request takes.
    pub(crate) fn number(self) -> Result<u16, Refusal>
        ensures { result ≡ ok_or self.next Refusal.NoNumberLeft }
    {
        self.next.ok_or(Refusal::NoNumberLeft)
    }

    // The far end is asked to call the address, where the identity is known.
    pub(crate) fn initiate(
        self,
        secondary: Option<Place>,
        identity: u16,
        address: u16,
    ) -> Result<Reaction, Refusal>
        ensures { result ≡ initiating self.leg self.at secondary identity address self.next }
    {
        let number = self.number()?;
        let operation = Operation::CallTransferInitiate;
        Ok(send_request(
            Leg {
                transfer: Transfer::AwaitInitiate { number, secondary },
                ..self.leg
            },
            self.request(Carrier::Facility, operation, number, identity, address),
            Timer::CtT3,
            None,
        ))
    }

    // A transfer without consultation, so with no secondary and no identity.
    pub(crate) fn transfer_to(self, address: u16) -> Result<Reaction, Refusal>
        ensures { result ≡ transferring self.leg self.at address self.next }
    {
        if !self.leg.in_use() {
            return Err(Refusal::LegFree);
        }
        if !self.leg.is_active() {
            return Err(Refusal::NotActive);
        }
        if !self.leg.is_idle() {
            return Err(Refusal::NotIdle);
        }
        self.initiate(None, 0, address)
    }

    // A consultation, on the secondary: its far end is asked for an identity, and the primary is bound to it.
    pub(crate) fn identify(self, primary: Place) -> Result<Reaction, Refusal>
        ensures { result ≡ identifying self.leg self.at primary self.next }
    {
        let number = self.number()?;
        let operation = Operation::CallTransferIdentify;
        Ok(send_request(
            Leg {
                transfer: Transfer::AwaitIdentify { number, primary },
                ..self.leg
            },
            self.request(Carrier::Facility, operation, number, 0, 0),
            Timer::CtT1,
            tell(primary, Word::Consult { secondary: self.at }),
        ))
    }

    // A new leg calls whom the far end of the primary asked for, and the primary is bound to it.
    pub(crate) fn set_up(self, primary: Place, owed: Owed) -> Result<Reaction, Refusal>
        ensures { result ≡ placing self.at primary owed self.own self.next }
    {
        let number = self.number()?;
        let operation = Operation::CallTransferSetup;
        Ok(send_request(
            Leg::calling(owed.address, number, primary),
            self.request(Carrier::Setup, operation, number, owed.identity, self.own),
            Timer::CtT4,
            tell(primary, Word::Place { placed: self.at }),
        ))
    }

    // The transferred call that rings is taken.
    pub(crate) fn accept(self) -> Result<Reaction, Refusal>
        ensures { result ≡ accepting self.leg self.at }
    {
        match self.leg.phase {
            Phase::Free => Err(Refusal::LegFree),
            Phase::Ringing(owed) => {
                let operation = Operation::CallTransferSetup;
                Ok(act(
                    Leg {
                        phase: Phase::Active,
                        ..self.leg
                    },
                    Some(self.result(Carrier::Connect, operation, owed.number)),
                    Note::Done,
                ))
            }
            _ => Err(Refusal::WrongState),
        }
    }

    // A call that rings is turned down, and the leg ends; or a transfer that is asked for, and the leg stays.
    pub(crate) fn decline(self) -> Result<Reaction, Refusal>
        ensures { result ≡ declining self.leg self.at }
    {
        let unspecified = ErrorCode::Unspecified;
        match (self.leg.phase, self.leg.transfer) {
            (Phase::Free, _) => Err(Refusal::LegFree),
            (Phase::Ringing(owed), _) => Ok(self.leave(
                Some(self.error(
                    Carrier::ReleaseComplete,
                    Operation::CallTransferSetup,
                    owed.number,
                    unspecified,
                )),
                None,
                self.tell_lost(),
            )),
            (_, Transfer::Asked(owed)) => Ok(act(
                self.idle(),
                Some(self.error(
                    Carrier::Facility,
                    Operation::CallTransferInitiate,
                    owed.number,
                    unspecified,
                )),
                Note::Done,
            )),
            _ => Err(Refusal::WrongState),
        }
    }
}
