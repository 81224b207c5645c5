use crate::cases::{FAULTY, LAWFUL};
use crate::fields::fields;
use message::{Message, MessageFault};
use std::test::Fail;

// Each lawful row means its message, and is written of it again.
#[test]
fn lawful_rows(rt: HostRuntime) -> Result<(), Fail> {
    for (row, expected) in &LAWFUL {
        let message = Message::read(row)?;
        assert_eq!(rt; fields(&message), *expected);
        assert_eq!(rt; message.write(), *row);
    }
    Ok(())
}

// Each faulty row is faulted at its first wrong byte.
#[test]
fn faulty_rows(rt: HostRuntime) {
    for (row, byte) in &FAULTY {
        assert_eq!(rt; Message::read(row), Err(MessageFault { byte: *byte }));
    }
}

// Any other length than sixteen is found before all else.
#[test]
fn other_lengths(rt: HostRuntime) {
    let long = [0u8; 40];
    for length in 0..40usize {
        if length != 16 {
            assert_eq!(rt;
                Message::read(&long[0..length]),
                Err(MessageFault { byte: 16 })
            );
        }
    }
}

// What stands in a place that holds nothing is the bare RELEASE COMPLETE of leg 0.
#[test]
fn default_is_bare(rt: HostRuntime) {
    let row = [5, 0, 0, 0, 0, 0, 0, 0, 0, 0, 0, 0, 0, 0, 0, 0];
    assert_eq!(rt; Message::default().write(), row);
}
