// The values of the six timers.
ghost use Rattle.std.specs.Prelude.{◌≡◌, true, false, MatchResult};
ghost use Rattle.leg.specs.declared.codes.Refusal.TheVariants.{BadSettings};
ghost use Rattle.leg.specs.Values.{in_timer_range, all_in_range, value_of};

use crate::codes::Refusal;
use crate::reaction::Timer;
use crate::value::TimerValue;

// How long each timer runs, as set by the host.
#[derive(Clone, Copy, PartialEq, Eq, Debug)]
pub struct TimerValues {
    pub ct_t1: TimerValue,
    pub ct_t2: TimerValue,
    pub ct_t3: TimerValue,
    pub ct_t4: TimerValue,
    pub hold_t1: TimerValue,
    pub hold_t2: TimerValue,
}

impl TryFrom<u64> for TimerValue {
    type Error = Refusal;

    ghost try_from_gives = { λ ticks r. MatchResult r
        (λ value. (in_timer_range ticks ≡ true) × (value.ticks ≡ ticks))
        (λ refusal. (in_timer_range ticks ≡ false) × (refusal ≡ BadSettings)) };

    // Any value but 1 to 3,600 ticks is refused.
    fn try_from(ticks: u64) -> Result<TimerValue, Refusal> {
        match ticks {
            1..=3600 => Ok(TimerValue {
                ticks: ticks as u16,
            }),
            _ => Err(Refusal::BadSettings),
        }
    }
}

impl TimerValues {
    // One value out of range refuses them all.
    pub fn new(
        ct_t1: u64,
        ct_t2: u64,
        ct_t3: u64,
        ct_t4: u64,
        hold_t1: u64,
        hold_t2: u64,
    ) -> Result<TimerValues, Refusal>
        ensures { MatchResult result
            (λ values. (all_in_range ct_t1 ct_t2 ct_t3 ct_t4 hold_t1 hold_t2 ≡ true)
            × (values.ct_t1.ticks ≡ ct_t1) × (values.ct_t2.ticks ≡ ct_t2) × (values.ct_t3.ticks ≡ ct_t3)
            × (values.ct_t4.ticks ≡ ct_t4) × (values.hold_t1.ticks ≡ hold_t1) × (values.hold_t2.ticks ≡ hold_t2))
            (λ refusal. (all_in_range ct_t1 ct_t2 ct_t3 ct_t4 hold_t1 hold_t2 ≡ false) × (refusal ≡ BadSettings)) }
    {
        Ok(TimerValues {
            ct_t1: TimerValue::try_from(ct_t1)?,
            ct_t2: TimerValue::try_from(ct_t2)?,
            ct_t3: TimerValue::try_from(ct_t3)?,
            ct_t4: TimerValue::try_from(ct_t4)?,
            hold_t1: TimerValue::try_from(hold_t1)?,
            hold_t2: TimerValue::try_from(hold_t2)?,
        })
    }

    pub fn of(&self, timer: Timer) -> TimerValue
        ensures { result ≡ value_of self.now timer }
    {
        match timer {
            Timer::CtT1 => self.ct_t1,
            Timer::CtT2 => self.ct_t2,
            Timer::CtT3 => self.ct_t3,
            Timer::CtT4 => self.ct_t4,
            Timer::HoldT1 => self.hold_t1,
            Timer::HoldT2 => self.hold_t2,
        }
    }
}
