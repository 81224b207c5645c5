// At most two of a kind.
ghost use Rattle.std.specs.Prelude.{◌≡◌};
ghost use Rattle.leg.specs.Reactions.{up_to_two};

use crate::reaction::UpToTwo;

impl<T> UpToTwo<T> {
    // Those of the two that are there.
    pub fn of(first: Option<T>, second: Option<T>) -> UpToTwo<T>
        ensures { result ≡ up_to_two first second }
    {
        match (first, second) {
            (None, None) => UpToTwo::Zero,
            (Some(one), None) | (None, Some(one)) => UpToTwo::One(one),
            (Some(one), Some(other)) => UpToTwo::Two(one, other),
        }
    }
}
