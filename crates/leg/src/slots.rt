// Which of a leg's two keys a timer runs on.
ghost use Rattle.std.specs.Prelude.{◌≡◌};
ghost use Rattle.leg.specs.Slots.{timer_slot};

use crate::reaction::{Slot, Timer};

impl Timer {
    pub fn slot(self) -> Slot
        ensures { result ≡ timer_slot self }
    {
        match self {
            Timer::CtT1 | Timer::CtT2 | Timer::CtT3 | Timer::CtT4 => Slot::Transfer,
            Timer::HoldT1 | Timer::HoldT2 => Slot::Hold,
        }
    }
}
