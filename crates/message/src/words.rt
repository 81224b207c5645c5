// Messages, and what is wrong with those that are none, in words.
ghost use Rattle.std.specs.Prelude.{◌++◌, Some, codes, decimal};
ghost use Rattle.std.specs.Fmt.{WritesOnOk};
ghost use Rattle.message.specs.Words.{carrier_word, kind_word, operation_word, error_word, attached_words, number_words, call_words, error_words, fault_words, unknown_words, words};

use crate::codes::{Carrier, ErrorCode, Kind, Operation, UnknownNumber};
use crate::record::{Message, MessageFault};
use std::fmt;

impl fmt::Display for Carrier {
    ghost output = { λ carrier. Some (carrier_word carrier) };

    fn fmt<W: fmt::Write>(&self, f: &mut fmt::Formatter<W>) -> fmt::Result {
        f.write_str(match self {
            Carrier::Setup => "SETUP",
            Carrier::Alerting => "ALERTING",
            Carrier::Connect => "CONNECT",
            Carrier::Facility => "FACILITY",
            Carrier::ReleaseComplete => "RELEASE-COMPLETE",
        })
    }
}

impl fmt::Display for Kind {
    ghost output = { λ kind. Some (kind_word kind) };

    fn fmt<W: fmt::Write>(&self, f: &mut fmt::Formatter<W>) -> fmt::Result {
        f.write_str(match self {
            Kind::Nothing => "nothing",
            Kind::Invoke => "invoke",
            Kind::Result => "result",
            Kind::Error => "error",
            Kind::Reject => "reject",
        })
    }
}

impl fmt::Display for Operation {
    ghost output = { λ operation. Some (operation_word operation) };

    fn fmt<W: fmt::Write>(&self, f: &mut fmt::Formatter<W>) -> fmt::Result {
        f.write_str(match self {
            Operation::CallTransferIdentify => "callTransferIdentify",
            Operation::CallTransferAbandon => "callTransferAbandon",
            Operation::CallTransferInitiate => "callTransferInitiate",
            Operation::CallTransferSetup => "callTransferSetup",
            Operation::HoldNotific => "holdNotific",
            Operation::RetrieveNotific => "retrieveNotific",
            Operation::RemoteHold => "remoteHold",
            Operation::RemoteRetrieve => "remoteRetrieve",
        })
    }
}

impl fmt::Display for ErrorCode {
    ghost output = { λ error. Some (error_word error) };

    fn fmt<W: fmt::Write>(&self, f: &mut fmt::Formatter<W>) -> fmt::Result {
        f.write_str(match self {
            ErrorCode::UnrecognizedCallIdentity => "unrecognizedCallIdentity",
            ErrorCode::EstablishmentFailure => "establishmentFailure",
            ErrorCode::Unspecified => "unspecified",
            ErrorCode::InvalidCallState => "invalidCallState",
            ErrorCode::SupplementaryServiceInteractionNotAllowed => {
                "supplementaryServiceInteractionNotAllowed"
            }
        })
    }
}

// The fields that apply, in the order of the row.
impl fmt::Display for Message {
    ghost output = { λ message. Some (words message) };

    #[tactic(auto, unfolding(crate::specs::Words::words))]
    fn fmt<W: fmt::Write>(&self, f: &mut fmt::Formatter<W>) -> fmt::Result {
        write!(f, "{}", self.carrier)?;
        self.fmt_attached(f)?;
        write!(f, " leg={}", self.leg)?;
        self.fmt_number(f)?;
        self.fmt_call(f)?;
        self.fmt_error(f)
    }
}

impl Message {
    // A kind and an operation, or nothing.
    fn fmt_attached<W: fmt::Write>(&self, f: &mut fmt::Formatter<W>) -> fmt::Result
        ensures { WritesOnOk W.write_str_gives f.old result (attached_words self.now.kind self.now.operation) f.new }
    {
        match self.operation {
            Some(operation) => write!(f, " {} {operation}", self.kind),
            None => Ok(()),
        }
    }

    fn fmt_number<W: fmt::Write>(&self, f: &mut fmt::Formatter<W>) -> fmt::Result
        ensures { WritesOnOk W.write_str_gives f.old result (number_words self.now) f.new }
    {
        if !self.has_number() {
            return Ok(());
        }
        write!(f, " number={}", self.number)
    }

    fn fmt_call<W: fmt::Write>(&self, f: &mut fmt::Formatter<W>) -> fmt::Result
        ensures { WritesOnOk W.write_str_gives f.old result (call_words self.now) f.new }
    {
        if !self.names_call() {
            return Ok(());
        }
        write!(f, " identity={} address={}", self.identity, self.address)
    }

    fn fmt_error<W: fmt::Write>(&self, f: &mut fmt::Formatter<W>) -> fmt::Result
        ensures { WritesOnOk W.write_str_gives f.old result (error_words self.now.error) f.new }
    {
        match self.error {
            Some(error) => write!(f, " error={error}"),
            None => Ok(()),
        }
    }
}

impl fmt::Display for MessageFault {
    ghost output = { λ fault. Some (fault_words fault) };

    fn fmt<W: fmt::Write>(&self, f: &mut fmt::Formatter<W>) -> fmt::Result {
        write!(f, "fault {}", self.byte)
    }
}

impl fmt::Display for UnknownNumber {
    ghost output = { λ unknown. Some (unknown_words unknown) };

    fn fmt<W: fmt::Write>(&self, f: &mut fmt::Formatter<W>) -> fmt::Result {
        write!(f, "unknown number {}", self.number)
    }
}
