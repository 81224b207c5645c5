// What a leg does at a word of another leg.
ghost use Rattle.std.specs.Prelude.{◌≡◌};
ghost use Rattle.leg.specs.Views.{with_transfer};
ghost use Rattle.machine.specs.Told.{unmoved, parting, bond_initiates, bond_completes, bond_sends, partner_lost, told_word};

use crate::reactions::{act, settle};
use crate::view::View;
use leg::{Bond, Cause, Ended, Leg, Note, Reaction, Refusal, Slot, Transfer, Word};
use message::{Carrier, ErrorCode, Message, Operation};

impl View {
    // The consulted far end gave its identity and address: the far end of the primary is asked to call there.
    fn initiate_bound(self, bond: Bond, identity: u16, address: u16) -> Result<Reaction, Refusal>
        ensures { result ≡ bond_initiates self.leg self.at identity address self.next bond }
    {
        match bond {
            Bond::Consulting { secondary } => self.initiate(Some(secondary), identity, address),
            Bond::Consulted { .. } | Bond::Placing { .. } => Ok(self.stay()),
        }
    }

    // The call that was asked for has come about: that is answered, and the leg ends.
    fn complete(self, bond: Bond) -> Reaction
        ensures { result ≡ bond_completes self.leg self.at bond }
    {
        match bond {
            Bond::Placing { owed, .. } => {
                let operation = Operation::CallTransferInitiate;
                let done = self.result(Carrier::ReleaseComplete, operation, owed.number);
                self.leave(Some(done), None, None)
            }
            Bond::Consulting { .. } | Bond::Consulted { .. } => self.stay(),
        }
    }

    // What a bound leg sends when its partner has ended.
    fn farewell(self, bond: Bond) -> Option<Message>
        ensures { result ≡ bond_sends self.at bond }
    {
        match bond {
            Bond::Consulting { .. } => None,
            Bond::Consulted { .. } => Some(self.notice(Operation::CallTransferAbandon)),
            Bond::Placing { owed, .. } => Some(self.error(
                Carrier::Facility,
                Operation::CallTransferInitiate,
                owed.number,
                ErrorCode::EstablishmentFailure,
            )),
        }
    }

    fn stay(self) -> Reaction
        ensures { result ≡ unmoved self.leg }
    {
        act(self.leg, None, Note::Done)
    }

    // The transfer goes on in another state, and nothing is said.
    fn go_on(self, transfer: Transfer) -> Reaction
        ensures { result ≡ unmoved (with_transfer self.leg transfer) }
    {
        act(
            Leg {
                transfer,
                ..self.leg
            },
            None,
            Note::Done,
        )
    }

    // Back to idle, perhaps with a message.
    fn part(self, sent: Option<Message>) -> Reaction
        ensures { result ≡ parting self.leg sent }
    {
        Reaction {
            sent,
            ..self.go_on(Transfer::Idle)
        }
    }

    // The partner has ended. A consulted leg is abandoned; an initiate goes on alone; a call on behalf of the partner is given up.
    fn partner_lost(self) -> Reaction
        ensures { result ≡ partner_lost self.leg self.at }
    {
        match self.leg.transfer {
            Transfer::AwaitIdentify { number, .. } => settle(
                self.idle(),
                Slot::Transfer,
                Ended {
                    number,
                    cause: Cause::Cleared,
                },
                Some(self.notice(Operation::CallTransferAbandon)),
                None,
            ),
            Transfer::AwaitInitiate { number, .. } => self.go_on(Transfer::AwaitInitiate {
                number,
                secondary: None,
            }),
            Transfer::AwaitSetupResponse { .. } => { self.leave(Some(self.release()), None, None) }
            Transfer::Bound(bond) => self.part(self.farewell(bond)),
            Transfer::Idle | Transfer::AwaitSetup | Transfer::Asked(_) => self.stay(),
        }
    }

    // A word that is not for the leg's state leaves it as it is. A match, as for the events.
    pub fn told(self, word: Word) -> Result<Reaction, Refusal>
        ensures { result ≡ told_word self.leg self.at word self.next }
    {
        match (word, self.leg.transfer) {
            (Word::Consult { secondary }, _) => {
                Ok(self.go_on(Transfer::Bound(Bond::Consulting { secondary })))
            }
            (Word::Place { placed }, Transfer::Asked(owed)) => {
                Ok(self.go_on(Transfer::Bound(Bond::Placing { placed, owed })))
            }
            (Word::Initiate { identity, address }, Transfer::Bound(bond)) => {
                self.initiate_bound(bond, identity, address)
            }
            (Word::Complete, Transfer::Bound(bond)) => Ok(self.complete(bond)),
            (Word::Part, _) => Ok(self.part(None)),
            (Word::Abandon, _) => {
                Ok(self.part(Some(self.notice(Operation::CallTransferAbandon))))
            }
            (Word::Met, _) => Ok(self.leave(Some(self.release()), None, None)),
            (Word::Lost, _) => Ok(self.partner_lost()),
            (Word::Place { .. } | Word::Initiate { .. } | Word::Complete, _) => Ok(self.stay()),
        }
    }
}
