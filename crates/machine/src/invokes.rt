// What a leg does with an invoke that it hears, by FACILITY or by SETUP.
ghost use Rattle.std.specs.Prelude.{◌≡◌, None};
ghost use Rattle.leg.specs.Views.{with_transfer, with_held};
ghost use Rattle.machine.specs.Reactions.{acting};
ghost use Rattle.machine.specs.Invokes.{failed, identified, owed_for, invoked, ringing_leg, set_up};
ghost use Rattle.machine.specs.Replies.{served};

use crate::reactions::{act, tell, with_timer};
use crate::view::View;
use leg::{
    FREE, HoldKind, Holder, Leg, Note, Owed, Phase, Place, Reaction, Refusal, Slot, Timer,
    TimerChange, Transfer, Word,
};
use message::{Carrier, ErrorCode, Kind, Message, Operation};

// What the answer to an invoke will need of it.
fn owed_for(heard: Message) -> Owed
    ensures { result ≡ owed_for heard }
{
    Owed {
        number: heard.number,
        identity: heard.identity,
        address: heard.address,
    }
}

// A transferred call that comes in.
fn ringing_leg(heard: Message) -> Leg
    ensures { result ≡ ringing_leg heard }
{
    Leg {
        phase: Phase::Ringing(owed_for(heard)),
        peer: heard.address,
        ..FREE
    }
}

impl View {
    // The invoke is answered by an error, and nothing changes.
    fn fail(self, operation: Operation, heard: Message, error: ErrorCode) -> Reaction
        ensures { result ≡ failed self.leg self.at operation heard.number error }
    {
        let answer = self.error(Carrier::Facility, operation, heard.number, error);
        act(self.leg, Some(answer), Note::Done)
    }

    // An identity is given, and the set-up that names it is awaited.
    fn give_identity(self, number: u16) -> Reaction
        ensures { result ≡ identified self.leg self.at number self.own }
    {
        let awaiting = Leg {
            transfer: Transfer::AwaitSetup,
            ..self.leg
        };
        let given = act(awaiting, Some(self.identity(number)), Note::Done);
        with_timer(Slot::Transfer, TimerChange::Set(Timer::CtT2), given)
    }

    // The far end asks this end to call someone else, and the host is to decide.
    fn take_up(self, heard: Message) -> Reaction
        ensures { result ≡ acting (with_transfer self.leg (Transfer.Asked (owed_for heard))) None (Note.Asked heard.address) }
    {
        let address = heard.address;
        let asked = Leg {
            transfer: Transfer::Asked(owed_for(heard)),
            ..self.leg
        };
        act(asked, None, Note::Asked { address })
    }

    // The far end holds this end from now on, or no longer.
    fn be_held(self, held: Option<HoldKind>, sent: Option<Message>, note: Note) -> Reaction
        ensures { result ≡ acting (with_held self.leg held) sent note }
    {
        act(Leg { held, ..self.leg }, sent, note)
    }

    // A confirmed invoke is answered at once, but for an initiate that is taken up.
    fn heard_invoke(self, operation: Operation, heard: Message) -> Reaction
        ensures { result ≡ invoked self.leg self.at self.own operation heard }
    {
        let leg = self.leg;
        let done = Some(self.result(Carrier::Facility, operation, heard.number));
        match operation {
            Operation::CallTransferIdentify if leg.is_active() && leg.is_idle() => {
                self.give_identity(heard.number)
            }
            Operation::CallTransferInitiate if leg.is_active() && leg.is_idle() => {
                self.take_up(heard)
            }
            Operation::CallTransferIdentify | Operation::CallTransferInitiate => {
                self.fail(operation, heard, ErrorCode::Unspecified)
            }
            Operation::CallTransferAbandon if leg.is_awaiting_setup() => {
                self.stop_awaiting(Note::Done)
            }
            Operation::HoldNotific if leg.is_active() && leg.is_unheld() => {
                self.be_held(Some(HoldKind::Near), None, Note::Held)
            }
            Operation::RetrieveNotific if matches!(leg.held, Some(HoldKind::Near)) => {
                self.be_held(None, None, Note::Retrieved)
            }
            Operation::RemoteHold if leg.is_active() && leg.is_unheld() => {
                self.be_held(Some(HoldKind::Remote), done, Note::Held)
            }
            Operation::RemoteHold if !matches!(leg.holder, Holder::Idle) => {
                let error = ErrorCode::SupplementaryServiceInteractionNotAllowed;
                self.fail(operation, heard, error)
            }
            Operation::RemoteRetrieve if matches!(leg.held, Some(HoldKind::Remote)) => {
                self.be_held(None, done, Note::Retrieved)
            }
            Operation::RemoteHold | Operation::RemoteRetrieve => {
                self.fail(operation, heard, ErrorCode::InvalidCallState)
            }
            _ => self.stray(),
        }
    }

    // An invoke, or a reply to one, on a leg in use.
    pub(crate) fn heard_facility(self, heard: Message, operation: Operation) -> Reaction
        ensures { result ≡ served self.leg self.at self.own heard operation }
    {
        match heard.kind {
            Kind::Nothing => self.stray(),
            Kind::Invoke => self.heard_invoke(operation, heard),
            Kind::Result => self.heard_result(operation, heard),
            Kind::Error | Kind::Reject => self.heard_fault(operation, heard),
        }
    }

    // A SETUP. Without an identity the leg rings; `met` is the leg that awaits the identity, if there is one, and this leg takes its place.
    pub(crate) fn heard_setup(self, heard: Message, met: Option<Place>) -> Result<Reaction, Refusal>
        ensures { result ≡ set_up self.leg self.at heard met }
    {
        if self.leg.in_use() {
            return Err(Refusal::LegInUse);
        }
        if heard.identity == 0 {
            return Ok(act(ringing_leg(heard), None, Note::Ringing));
        }
        let operation = Operation::CallTransferSetup;
        let Some(met) = met else {
            let error = ErrorCode::UnrecognizedCallIdentity;
            let answer = self.error(Carrier::ReleaseComplete, operation, heard.number, error);
            return Ok(act(self.leg, Some(answer), Note::Done));
        };
        let answer = self.result(Carrier::Connect, operation, heard.number);
        Ok(Reaction {
            tell: tell(met, Word::Met),
            ..act(Leg::active(heard.address), Some(answer), Note::Done)
        })
    }
}
