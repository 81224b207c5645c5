// The place of a leg in the board's table.
ghost use Rattle.std.specs.Prelude.{◌<◌};

// One of the 32 places, by its index. The type keeps the index below 32, so that a table is read without a test.
#[derive(Clone, Copy, PartialEq, Eq, Debug)]
pub struct Place {
    pub index: u8,
    ghost below: { index < 32 },
}
