// Which operations may stand under each carrier and kind, as a table of masks.
ghost use Rattle.std.specs.Prelude.{◌≡◌};
ghost use Rattle.message.specs.Table.{standing, mask_of, permitted};

use crate::codes::{Carrier, Kind};

// Bit n of a mask stands for operation n, bit 0 for none. A row for each kind, in it a mask for
// SETUP, ALERTING, CONNECT, FACILITY and RELEASE COMPLETE.
const OPERATION_MASKS: [[u16; 5]; 5] = [
    [0, 0b1, 0b1, 0, 0b1],
    [0b1_0000, 0, 0, 0b1_1110_1110, 0],
    [0, 0b1_0000, 0b1_0000, 0b1_1000_1010, 0b1000],
    [0, 0, 0, 0b1_1000_1010, 0b1_0000],
    [0, 0, 0, 0b1_1000_1010, 0b1_0000],
];

fn mask(carrier: Carrier, kind: Kind) -> u16
    ensures { result ≡ mask_of (standing carrier kind) }
{
    OPERATION_MASKS[kind as usize][carrier as usize]
}

// Whether byte `operation` may stand under this carrier and kind.
pub(crate) fn permits(carrier: Carrier, kind: Kind, operation: u8) -> bool
    ensures { result ≡ permitted carrier kind operation }
{
    operation <= 8 && mask(carrier, kind) & (1 << operation) != 0
}
