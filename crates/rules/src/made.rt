// Settings are checked before a board is made with them.
ghost use Rattle.std.specs.Prelude.{◌≡◌, true, false, MatchResult};
ghost use Rattle.rules.specs.Answers.{in_own_range};

use crate::settings::Settings;
use leg::{Refusal, TimerValues};

impl Settings {
    // An own number outside 1 to 65,535 is refused.
    pub fn new(number: u64, timers: TimerValues) -> Result<Settings, Refusal>
        ensures { MatchResult result
            (λ settings. (in_own_range number ≡ true) × (settings.own ≡ number) × (settings.values ≡ timers))
            (λ refusal. (in_own_range number ≡ false) × (refusal ≡ Refusal.BadSettings)) }
    {
        match number {
            1..=65535 => Ok(Settings {
                own: number as u16,
                values: timers,
            }),
            _ => Err(Refusal::BadSettings),
        }
    }
}
