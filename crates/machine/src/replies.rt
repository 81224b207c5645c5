// What a leg does with a reply that it hears by FACILITY. A reply that matches no open request by operation and number is stray.
ghost use Rattle.std.specs.Prelude.{◌≡◌};
ghost use Rattle.machine.specs.Replies.{resulted, faulted};

use crate::reactions::{settle, tell, tell_to};
use crate::view::View;
use leg::{Bond, Cause, Ended, Holder, Leg, Named, Reaction, Slot, Transfer, Word};
use message::{Message, Operation};

impl View {
    // A result of an identify has the primary go on; one of an initiate ends the leg, which is without use now.
    pub(crate) fn heard_result(self, operation: Operation, heard: Message) -> Reaction
        ensures { result ≡ resulted self.leg self.at operation heard }
    {
        let leg = self.leg;
        let ended = Ended {
            number: heard.number,
            cause: Cause::Result,
        };
        match (operation, leg.holder, leg.transfer) {
            (Operation::CallTransferIdentify, _, Transfer::AwaitIdentify { number, primary })
                if number == heard.number => {
                let transfer = Transfer::Bound(Bond::Consulted { primary });
                let word = Word::Initiate {
                    identity: heard.identity,
                    address: heard.address,
                };
                let tell = tell(primary, word);
                settle(Leg { transfer, ..leg }, Slot::Transfer, ended, None, tell)
            }
            (Operation::CallTransferInitiate, _, Transfer::AwaitInitiate { number, secondary })
                if number == heard.number => self.leave(
                Some(self.release()),
                Some(Named::Transfer(Cause::Result)),
                tell_to(secondary, Word::Part),
            ),
            (Operation::RemoteHold, Holder::RemoteRequested { number }, _)
                if number == heard.number => {
                let holder = Holder::RemoteHolding;
                settle(Leg { holder, ..leg }, Slot::Hold, ended, None, None)
            }
            (Operation::RemoteRetrieve, Holder::RetrieveRequested { number }, _)
                if number == heard.number => {
                let holder = Holder::Idle;
                settle(Leg { holder, ..leg }, Slot::Hold, ended, None, None)
            }
            _ => self.stray(),
        }
    }

    // An error or a reject. The legs are as before the request, but for a held call that cannot be fetched back: it is released.
    pub(crate) fn heard_fault(self, operation: Operation, heard: Message) -> Reaction
        ensures { result ≡ faulted self.leg self.at operation heard }
    {
        let leg = self.leg;
        let idle = self.idle();
        let ended = Ended {
            number: heard.number,
            cause: Cause::Fault,
        };
        match (operation, leg.holder, leg.transfer) {
            (Operation::CallTransferIdentify, _, Transfer::AwaitIdentify { number, primary })
                if number == heard.number => {
                let tell = tell(primary, Word::Part);
                settle(idle, Slot::Transfer, ended, None, tell)
            }
            (Operation::CallTransferInitiate, _, Transfer::AwaitInitiate { number, secondary })
                if number == heard.number => {
                let tell = tell_to(secondary, Word::Abandon);
                settle(idle, Slot::Transfer, ended, None, tell)
            }
            (Operation::RemoteHold, Holder::RemoteRequested { number }, _)
                if number == heard.number => {
                let holder = Holder::Idle;
                settle(Leg { holder, ..leg }, Slot::Hold, ended, None, None)
            }
            (Operation::RemoteRetrieve, Holder::RetrieveRequested { number }, _)
                if number == heard.number => self.leave(
                Some(self.release()),
                Some(Named::Hold(Cause::Fault)),
                self.tell_lost(),
            ),
            _ => self.stray(),
        }
    }
}
