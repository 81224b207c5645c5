// Theorems on the rules, each the contract of a function that does nothing.
ghost use Rattle.rules.specs.Events.{LegStaysSound, ToldStaysSound};
ghost use Rattle.rules.specs.Laws.{AlwaysConsistent, AlwaysLawful, EndsAllNamed, RefusedChangesNothing, FirstIsFirst};

// Whatever happens to a leg, its record is one of those that occur, what it keeps is in range, what it sends is lawful, and what it tells another leg fits how the two are tied.
pub fn every_leg_stands()
    ensures event { LegStaysSound }
    ensures told { ToldStaysSound }
{}

// What every list of calls on a fresh board keeps.
pub fn every_life_stands()
    ensures consistent { AlwaysConsistent }
    ensures lawful { AlwaysLawful }
    ensures ends { EndsAllNamed }
{}

// What holds of each step.
pub fn every_step_stands()
    ensures refused { RefusedChangesNothing }
    ensures first { FirstIsFirst }
{}
