// How long a timer runs.
ghost use Rattle.std.specs.Prelude.{◌≤◌};

// A timer's value in ticks. The type keeps it within 1 to 3,600, so that it is added to any time of the board without a test.
// Not one type with the places and the own number, by const bounds: each is refused in its own way, and its field says what it counts.
#[derive(Clone, Copy, PartialEq, Eq, Debug)]
pub struct TimerValue {
    pub ticks: u16,
    ghost least: { 1 ≤ ticks },
    ghost most: { ticks ≤ 3600 },
}
