// From the number of a leg to its place.
ghost use Rattle.std.specs.Prelude.{◌≡◌};
ghost use Rattle.std.specs.Option.{ok_or};
ghost use Rattle.leg.specs.declared.codes.Refusal.TheVariants.{NoSuchLeg};
ghost use Rattle.leg.specs.Places.{place_of};

use crate::codes::Refusal;
use crate::place::Place;

impl TryFrom<u64> for Place {
    type Error = Refusal;

    ghost try_from_gives = { λ leg place. place ≡ ok_or (place_of leg) NoSuchLeg };

    // The place of leg 0 to 31; there is no other leg.
    fn try_from(leg: u64) -> Result<Place, Refusal> {
        if leg < 32 {
            Ok(Place { index: leg as u8 })
        } else {
            Err(Refusal::NoSuchLeg)
        }
    }
}
