// What a leg does when one of its timers runs out.
ghost use Rattle.std.specs.Prelude.{◌≡◌};
ghost use Rattle.machine.specs.Timeouts.{expired, transfer_timed_out, hold_timed_out, timed_out};

use crate::reactions::{act, settle, tell, tell_to, with_timer};
use crate::view::View;
use leg::{Cause, Ended, Holder, Leg, Named, Note, Reaction, Slot, TimerChange, Transfer, Word};
use message::Operation;

impl View {
    // A timer that nothing waits for only stops.
    fn expire(self, slot: Slot) -> Reaction
        ensures { result ≡ expired self.leg slot }
    {
        with_timer(slot, TimerChange::Stopped, act(self.leg, None, Note::Done))
    }

    // The legs are as before the request, and a far end that would wait for a set-up is told not to; a call that was set up for a transfer is given up.
    fn transfer_timed_out(self) -> Reaction
        ensures { result ≡ transfer_timed_out self.leg self.at }
    {
        let idle = self.idle();
        let cause = Cause::Timeout;
        match self.leg.transfer {
            Transfer::AwaitIdentify { number, primary } => settle(
                idle,
                Slot::Transfer,
                Ended { number, cause },
                Some(self.notice(Operation::CallTransferAbandon)),
                tell(primary, Word::Part),
            ),
            Transfer::AwaitInitiate { number, secondary } => settle(
                idle,
                Slot::Transfer,
                Ended { number, cause },
                None,
                tell_to(secondary, Word::Abandon),
            ),
            Transfer::AwaitSetupResponse { primary, .. } => self.leave(
                Some(self.release()),
                Some(Named::Transfer(cause)),
                tell(primary, Word::Lost),
            ),
            Transfer::AwaitSetup => self.stop_awaiting(Note::SetupLapsed),
            Transfer::Idle | Transfer::Asked(_) | Transfer::Bound(_) => self.expire(Slot::Transfer),
        }
    }

    // A hold that is not answered is none; a held call that cannot be fetched back is released.
    fn hold_timed_out(self) -> Reaction
        ensures { result ≡ hold_timed_out self.leg self.at }
    {
        match self.leg.holder {
            Holder::RemoteRequested { number } => {
                let unheld = Leg {
                    holder: Holder::Idle,
                    ..self.leg
                };
                let cause = Cause::Timeout;
                settle(unheld, Slot::Hold, Ended { number, cause }, None, None)
            }
            Holder::RetrieveRequested { .. } => self.leave(
                Some(self.release()),
                Some(Named::Hold(Cause::Timeout)),
                self.tell_lost(),
            ),
            Holder::Idle | Holder::NearHolding | Holder::RemoteHolding => self.expire(Slot::Hold),
        }
    }

    pub(crate) fn timed_out(self, slot: Slot) -> Reaction
        ensures { result ≡ timed_out self.leg self.at slot }
    {
        match slot {
            Slot::Transfer => self.transfer_timed_out(),
            Slot::Hold => self.hold_timed_out(),
        }
    }
}
