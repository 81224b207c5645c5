// What a board is made with.
ghost use Rattle.std.specs.Prelude.{◌≤◌};

use leg::values::TimerValues;

// The station's own number, which the type keeps within 1 to 65,535, and its timer values.
#[derive(Clone, Copy, PartialEq, Eq, Debug)]
pub struct Settings {
    pub own: u16,
    pub values: TimerValues,
    ghost least: { 1 ≤ own },
    ghost most: { own ≤ 65535 },
}
