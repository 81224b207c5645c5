// The messages that a leg sends.
ghost use Rattle.std.specs.Prelude.{◌≡◌};
ghost use Rattle.machine.specs.Messages.{release_on, notice_on, request_on, result_on, identity_on, error_on};

use crate::view::View;
use message::{Carrier, ErrorCode, Kind, Message, Operation};

impl View {
    // RELEASE COMPLETE with nothing attached.
    pub(crate) fn release(self) -> Message
        ensures { result ≡ release_on self.at }
    {
        Message {
            carrier: Carrier::ReleaseComplete,
            kind: Kind::Nothing,
            operation: None,
            leg: self.at.index,
            number: 0,
            identity: 0,
            address: 0,
            error: None,
        }
    }

    // An invoke that is not confirmed, so without a number.
    pub(crate) fn notice(self, operation: Operation) -> Message
        ensures { result ≡ notice_on self.at operation }
    {
        Message {
            carrier: Carrier::Facility,
            kind: Kind::Invoke,
            operation: Some(operation),
            ..self.release()
        }
    }

    // A confirmed invoke. Identity and address stay two: they are two fields of a message, and most requests have neither.
    pub(crate) fn request(
        self,
        carrier: Carrier,
        operation: Operation,
        number: u16,
        identity: u16,
        address: u16,
    ) -> Message
        ensures { result ≡ request_on self.at carrier operation number identity address }
    {
        Message {
            carrier,
            number,
            identity,
            address,
            ..self.notice(operation)
        }
    }

    // A result that says no more than that it is done.
    pub(crate) fn result(self, carrier: Carrier, operation: Operation, number: u16) -> Message
        ensures { result ≡ result_on self.at carrier operation number }
    {
        Message {
            carrier,
            kind: Kind::Result,
            operation: Some(operation),
            number,
            ..self.release()
        }
    }

    // The result of an identify. Identity 0 means that there is none, so a leg's is its place plus 1.
    pub(crate) fn identity(self, number: u16) -> Message
        ensures { result ≡ identity_on self.at number self.own }
    {
        Message {
            identity: u16::from(self.at.index) + 1,
            address: self.own,
            ..self.result(Carrier::Facility, Operation::CallTransferIdentify, number)
        }
    }

    pub(crate) fn error(
        self,
        carrier: Carrier,
        operation: Operation,
        number: u16,
        error: ErrorCode,
    ) -> Message
        ensures { result ≡ error_on self.at carrier operation number error }
    {
        Message {
            kind: Kind::Error,
            error: Some(error),
            ..self.result(carrier, operation, number)
        }
    }
}
