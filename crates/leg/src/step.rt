// A step of a leg: the one place where a record changes.
ghost use Rattle.std.specs.Prelude.{◌≡◌};

use crate::reaction::Reaction;
use crate::record::Leg;

impl Leg {
    // The record becomes that of the reaction; who calls carries out the rest of it.
    pub fn step(&mut self, reaction: &Reaction)
        ensures { self.new ≡ reaction.now.leg }
    {
        *self = reaction.leg;
    }
}
