// The thirteen calls of a board.
use leg::record::HoldKind;

// A call with its arguments as the host gives them: any numbers and any bytes, checked by nobody yet.
#[derive(Clone, Copy, PartialEq, Eq, Debug)]
pub enum Call<'a> {
    Open { leg: u64, peer: u64 },
    Clear { leg: u64 },
    Transfer { leg: u64, address: u64 },
    Consult { primary: u64, secondary: u64 },
    Place { primary: u64, placed: u64 },
    Accept { leg: u64 },
    Decline { leg: u64 },
    Hold { leg: u64, kind: HoldKind },
    Retrieve { leg: u64 },
    Heard { bytes: &'a [u8] },
    Tick { time: u64 },
    Take,
    Look { leg: u64 },
}
