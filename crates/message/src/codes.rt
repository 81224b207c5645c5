// The four enumerations of a message, and the number that stands for each case in a row.
ghost use Rattle.std.specs.Prelude.{◌≡◌};
ghost use Rattle.message.specs.Codes.{carrier_number, carrier_of, kind_number, kind_of, operation_number, operation_of, error_number, error_of, or_unknown};

use std::error::Error;

// The call message that carries the supplementary service.
#[derive(Clone, Copy, PartialEq, Eq, Debug, Default)]
pub enum Carrier {
    Setup,
    Alerting,
    Connect,
    Facility,
    #[default]
    ReleaseComplete,
}

// What is attached to the carrier.
#[derive(Clone, Copy, PartialEq, Eq, Debug, Default)]
pub enum Kind {
    #[default]
    Nothing,
    Invoke,
    Result,
    Error,
    Reject,
}

// The operation that is invoked or replied to.
#[derive(Clone, Copy, PartialEq, Eq, Debug)]
pub enum Operation {
    CallTransferIdentify,
    CallTransferAbandon,
    CallTransferInitiate,
    CallTransferSetup,
    HoldNotific,
    RetrieveNotific,
    RemoteHold,
    RemoteRetrieve,
}

// Why a confirmed operation was not carried out.
#[derive(Clone, Copy, PartialEq, Eq, Debug)]
pub enum ErrorCode {
    UnrecognizedCallIdentity,
    EstablishmentFailure,
    Unspecified,
    InvalidCallState,
    SupplementaryServiceInteractionNotAllowed,
}

// A number for which an enumeration has no case.
#[derive(Clone, Copy, PartialEq, Eq, Debug)]
pub struct UnknownNumber {
    pub number: u8,
}

impl Error for UnknownNumber {}

impl From<Carrier> for u8 {
    ghost from_gives = { λ carrier number. number ≡ carrier_number carrier };

    fn from(carrier: Carrier) -> u8 {
        match carrier {
            Carrier::Setup => 1,
            Carrier::Alerting => 2,
            Carrier::Connect => 3,
            Carrier::Facility => 4,
            Carrier::ReleaseComplete => 5,
        }
    }
}

impl TryFrom<u8> for Carrier {
    type Error = UnknownNumber;

    ghost try_from_gives = { λ number outcome. outcome ≡ or_unknown (carrier_of number) number };

    fn try_from(number: u8) -> Result<Carrier, UnknownNumber> {
        match number {
            1 => Ok(Carrier::Setup),
            2 => Ok(Carrier::Alerting),
            3 => Ok(Carrier::Connect),
            4 => Ok(Carrier::Facility),
            5 => Ok(Carrier::ReleaseComplete),
            _ => Err(UnknownNumber { number }),
        }
    }
}

impl From<Kind> for u8 {
    ghost from_gives = { λ kind number. number ≡ kind_number kind };

    fn from(kind: Kind) -> u8 {
        match kind {
            Kind::Nothing => 0,
            Kind::Invoke => 1,
            Kind::Result => 2,
            Kind::Error => 3,
            Kind::Reject => 4,
        }
    }
}

impl TryFrom<u8> for Kind {
    type Error = UnknownNumber;

    ghost try_from_gives = { λ number outcome. outcome ≡ or_unknown (kind_of number) number };

    fn try_from(number: u8) -> Result<Kind, UnknownNumber> {
        match number {
            0 => Ok(Kind::Nothing),
            1 => Ok(Kind::Invoke),
            2 => Ok(Kind::Result),
            3 => Ok(Kind::Error),
            4 => Ok(Kind::Reject),
            _ => Err(UnknownNumber { number }),
        }
    }
}

impl From<Operation> for u8 {
    ghost from_gives = { λ operation number. number ≡ operation_number operation };

    fn from(operation: Operation) -> u8 {
        match operation {
            Operation::CallTransferIdentify => 1,
            Operation::CallTransferAbandon => 2,
            Operation::CallTransferInitiate => 3,
            Operation::CallTransferSetup => 4,
            Operation::HoldNotific => 5,
            Operation::RetrieveNotific => 6,
            Operation::RemoteHold => 7,
            Operation::RemoteRetrieve => 8,
        }
    }
}

impl TryFrom<u8> for Operation {
    type Error = UnknownNumber;

    ghost try_from_gives = { λ number outcome. outcome ≡ or_unknown (operation_of number) number };

    fn try_from(number: u8) -> Result<Operation, UnknownNumber> {
        match number {
            1 => Ok(Operation::CallTransferIdentify),
            2 => Ok(Operation::CallTransferAbandon),
            3 => Ok(Operation::CallTransferInitiate),
            4 => Ok(Operation::CallTransferSetup),
            5 => Ok(Operation::HoldNotific),
            6 => Ok(Operation::RetrieveNotific),
            7 => Ok(Operation::RemoteHold),
            8 => Ok(Operation::RemoteRetrieve),
            _ => Err(UnknownNumber { number }),
        }
    }
}

impl From<ErrorCode> for u8 {
    ghost from_gives = { λ error number. number ≡ error_number error };

    fn from(error: ErrorCode) -> u8 {
        match error {
            ErrorCode::UnrecognizedCallIdentity => 1,
            ErrorCode::EstablishmentFailure => 2,
            ErrorCode::Unspecified => 3,
            ErrorCode::InvalidCallState => 4,
            ErrorCode::SupplementaryServiceInteractionNotAllowed => 5,
        }
    }
}

impl TryFrom<u8> for ErrorCode {
    type Error = UnknownNumber;

    ghost try_from_gives = { λ number outcome. outcome ≡ or_unknown (error_of number) number };

    fn try_from(number: u8) -> Result<ErrorCode, UnknownNumber> {
        match number {
            1 => Ok(ErrorCode::UnrecognizedCallIdentity),
            2 => Ok(ErrorCode::EstablishmentFailure),
            3 => Ok(ErrorCode::Unspecified),
            4 => Ok(ErrorCode::InvalidCallState),
            5 => Ok(ErrorCode::SupplementaryServiceInteractionNotAllowed),
            _ => Err(UnknownNumber { number }),
        }
    }
}
