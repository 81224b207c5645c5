// Messages as rows of sixteen bytes.
ghost use Rattle.std.specs.Prelude.{◌≡◌, IfOk, Ok};
ghost use Rattle.message.specs.Codes.{carrier_of, kind_of};
ghost use Rattle.message.specs.Table.{operation_byte};
ghost use Rattle.message.specs.Format.{row_of, byte, meant, judged, first, wrongs, wrong_zeros, verdict, error_byte, Lawful};

use crate::codes::{Carrier, ErrorCode, Kind, Operation};
use crate::ranges::LEG;
use crate::record::{Message, MessageFault};
use crate::table::permits;

// The first of the bytes 11 to 15 that is not 0.
fn used(row: &[u8; 16]) -> Option<u8>
    ensures { result ≡ first 11 (wrong_zeros row.now) }
{
    (11..16u8).find(|&byte| row[usize::from(byte)] != 0)
}

impl Message {
    // The number of the operation, 0 where there is none: the byte of the row, so no Option.
    pub fn operation_number(&self) -> u8
        ensures { result ≡ operation_byte self.now.operation }
    {
        self.operation.map_or(0, u8::from)
    }

    // The number of the error code, 0 where there is none: the byte of the row, so no Option.
    pub fn error_number(&self) -> u8
        ensures { result ≡ error_byte self.now.error }
    {
        self.error.map_or(0, u8::from)
    }

    // What the fields of a row of this carrier and kind say.
    fn meant(carrier: Carrier, kind: Kind, row: &[u8; 16]) -> Message
        ensures { result ≡ meant carrier kind row.now }
    {
        Message {
            carrier,
            kind,
            operation: Operation::try_from(row[2]).ok(),
            leg: row[3],
            number: u16::from_be_bytes([row[4], row[5]]),
            identity: u16::from_be_bytes([row[6], row[7]]),
            address: u16::from_be_bytes([row[8], row[9]]),
            error: ErrorCode::try_from(row[10]).ok(),
        }
    }

    // The first wrong byte of `row` from byte 2 on, where the message is what its fields say.
    fn first_wrong(&self, row: &[u8; 16]) -> Option<u8>
        ensures { result ≡ first 2 (wrongs self.now row.now) }
    {
        if !permits(self.carrier, self.kind, row[2]) {
            return Some(2);
        }
        if !LEG.contains(u16::from(self.leg)) {
            return Some(3);
        }
        if !self.number_range().contains(self.number) {
            return Some(4);
        }
        if !self.identity_range().contains(self.identity) {
            return Some(6);
        }
        if !self.address_range().contains(self.address) {
            return Some(8);
        }
        if !self.error_range().contains(u16::from(row[10])) {
            return Some(10);
        }
        used(row)
    }

    // The verdict on sixteen bytes.
    fn judge_row(row: &[u8; 16]) -> Result<Message, MessageFault>
        ensures { result ≡ judged (carrier_of (byte row.now 0)) (kind_of (byte row.now 1)) row.now }
    {
        let carrier = Carrier::try_from(row[0]).map_err(|_| MessageFault { byte: 0 })?;
        let kind = Kind::try_from(row[1]).map_err(|_| MessageFault { byte: 1 })?;
        let message = Message::meant(carrier, kind, row);
        // not by `map_or`, in which the fault would stand behind the message
        match message.first_wrong(row) {
            Some(byte) => Err(MessageFault { byte }),
            None => Ok(message),
        }
    }

    // The verdict alone; `read` adds what the laws say of it.
    fn judge(bytes: &[u8]) -> Result<Message, MessageFault>
        ensures { result ≡ verdict bytes.now }
    {
        let row = <&[u8; 16]>::try_from(bytes).map_err(|_| MessageFault { byte: 16 })?;
        Message::judge_row(row)
    }

    // The message that a row means, or its first wrong byte. Not `TryFrom`, nor `From` for `write`: a row is read and written, by these names.
    // What is accepted is lawful, and is the row that is written of it.
    pub fn read(bytes: &[u8]) -> Result<Message, MessageFault>
        ensures verdict { result ≡ verdict bytes.now }
        ensures accepted { IfOk result (λ m. Lawful m × (bytes.now ≡ row_of m)) }
    {
        Message::judge(bytes)
    }

    // The message as a row. That of a lawful message reads back as the same message.
    pub fn write(&self) -> [u8; 16]
        ensures row { result ≡ row_of self.now }
        ensures back { Lawful self.now → verdict result ≡ Ok self.now }
    {
        self.encode()
    }

    // The row alone; `write` adds that it reads back.
    fn encode(&self) -> [u8; 16]
        ensures { result ≡ row_of self.now }
    {
        let Message {
            number,
            identity,
            address,
            ..
        } = *self;
        let [number_high, number_low] = number.to_be_bytes();
        let [identity_high, identity_low] = identity.to_be_bytes();
        let [address_high, address_low] = address.to_be_bytes();
        [
            u8::from(self.carrier),
            u8::from(self.kind),
            self.operation_number(),
            self.leg,
            number_high,
            number_low,
            identity_high,
            identity_low,
            address_high,
            address_low,
            self.error_number(),
            0,
            0,
            0,
            0,
            0,
        ]
    }
}
