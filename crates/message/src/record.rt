// A message, and what is wrong with bytes that are none.
use crate::codes::{Carrier, ErrorCode, Kind, Operation};
use std::error::Error;

// One signalling message. A number, identity or address that does not apply is 0, as in its row and in the host's records.
// No Option: 0 is a lawful identity too, where there is no secondary call.
// The default is the bare RELEASE COMPLETE, which stands in a place that holds nothing.
#[derive(Clone, Copy, PartialEq, Eq, Debug, Default)]
pub struct Message {
    pub carrier: Carrier,
    pub kind: Kind,
    pub operation: Option<Operation>,
    pub leg: u8,
    pub number: u16,
    pub identity: u16,
    pub address: u16,
    pub error: Option<ErrorCode>,
}

// The first wrong byte of a row: 0 to 15, or 16 where the row has another length. This number is what the host is told.
#[derive(Clone, Copy, PartialEq, Eq, Debug)]
pub struct MessageFault {
    pub byte: u8,
}

impl Error for MessageFault {}
