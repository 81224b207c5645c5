// The fields of a message as numbers, in the order of the row, to hold them against a table.
ghost use Rattle.std.specs.Prelude.{◌≡◌};
ghost use Rattle.message_tests.specs.Numbers.{fields_of};

use message::Message;

pub fn fields(message: &Message) -> [u16; 8]
    ensures { result ≡ fields_of message.now }
{
    [
        u16::from(u8::from(message.carrier)),
        u16::from(u8::from(message.kind)),
        u16::from(message.operation_number()),
        u16::from(message.leg),
        message.number,
        message.identity,
        message.address,
        u16::from(message.error_number()),
    ]
}
