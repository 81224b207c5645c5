// Worked cases, each the contract of a function that does nothing.
ghost use Rattle.rules.specs.Worked.{TransferSends, TransferLapses, TransferDone, ReleaseMatches, ReleaseOther, TransferFails, OtherResults, ConsultSends, ConsultIdentified, IdentifiedElsewhere, ConsultFails, ConsultRejected, ConsultLapses, ConsultDone, ConsultDoneAlone, ConsultUnanswered, PrimaryLostConsulting, PrimaryLostInitiating, SecondaryLostConsulting, SecondaryLost, AskedOn3, AskedTwice, AskedDeclined, AskedAndLost, PlacedOn4, AskedWhilePlacing, PlacedDone, PlacedConnects, ConnectsStray, PlacedPlain, PlacedLapses, PlacedFails, PlacedReleased, PrimaryLostPlacing, IdentityGiven, SetupMet, SetupFails, SetupNeedsTwo, SetupLapses, SetupsUnknown, SetupLost, RingingLost, InvokesFail, InvokesStray, SetupInUse, SetupRings, SetupNumbered, HoldAndRetrieve, RetrieveLapses, HoldTimers, HoldFails, RetrieveFails, HoldLapses, HoldGlare, HoldGlareHolding, HeldHere, RetrieveUnheld, HoldStrays, HoldNear, BothCleared, DoneWhileHolding, RetrieveFailsTransferring, RetrieveFailsConsulting, HoldingPrimaryLost, HoldingPrimaryDone, SetupMetHolding, TimeAndLegs, BadArguments, BadMessages, FreeLegs, NotActiveLegs, NotIdleLegs, WrongStates, NumbersRunOut, Looks, InNumbers, TakesInOrder, OneTimerAtACall, EqualDeadlines, EqualDeadlinesOfALeg, TimersFromNow, DueNotOut, TickNeedsOne};

// Transfer without consultation, at the end that transfers.
pub fn transfers_stand()
    ensures transfer_sends { TransferSends }
    ensures transfer_lapses { TransferLapses }
    ensures transfer_done { TransferDone }
    ensures release_matches { ReleaseMatches }
    ensures release_other { ReleaseOther }
    ensures transfer_fails { TransferFails }
    ensures other_results { OtherResults }
{}

// Transfer with consultation, at the end that transfers.
pub fn consultations_stand()
    ensures consult_sends { ConsultSends }
    ensures consult_identified { ConsultIdentified }
    ensures identified_elsewhere { IdentifiedElsewhere }
    ensures consult_fails { ConsultFails }
    ensures consult_rejected { ConsultRejected }
    ensures consult_lapses { ConsultLapses }
    ensures consult_done { ConsultDone }
    ensures consult_done_alone { ConsultDoneAlone }
    ensures consult_unanswered { ConsultUnanswered }
    ensures primary_lost_consulting { PrimaryLostConsulting }
    ensures primary_lost_initiating { PrimaryLostInitiating }
    ensures secondary_lost_consulting { SecondaryLostConsulting }
    ensures secondary_lost { SecondaryLost }
{}

// At the end that is transferred.
pub fn placed_calls_stand()
    ensures asked_on_3 { AskedOn3 }
    ensures asked_twice { AskedTwice }
    ensures asked_declined { AskedDeclined }
    ensures asked_and_lost { AskedAndLost }
    ensures placed_on_4 { PlacedOn4 }
    ensures asked_while_placing { AskedWhilePlacing }
    ensures placed_done { PlacedDone }
    ensures placed_connects { PlacedConnects }
    ensures connects_stray { ConnectsStray }
    ensures placed_plain { PlacedPlain }
    ensures placed_lapses { PlacedLapses }
    ensures placed_fails { PlacedFails }
    ensures placed_released { PlacedReleased }
    ensures primary_lost_placing { PrimaryLostPlacing }
{}

// At the end that is transferred to.
pub fn setups_stand()
    ensures identity_given { IdentityGiven }
    ensures setup_met { SetupMet }
    ensures setup_fails { SetupFails }
    ensures setup_needs_two { SetupNeedsTwo }
    ensures setup_lapses { SetupLapses }
    ensures setups_unknown { SetupsUnknown }
    ensures setup_lost { SetupLost }
    ensures ringing_lost { RingingLost }
    ensures invokes_fail { InvokesFail }
    ensures invokes_stray { InvokesStray }
    ensures setup_in_use { SetupInUse }
    ensures setup_rings { SetupRings }
    ensures setup_numbered { SetupNumbered }
{}

// Hold, at both ends.
pub fn holds_stand()
    ensures hold_and_retrieve { HoldAndRetrieve }
    ensures retrieve_lapses { RetrieveLapses }
    ensures hold_timers { HoldTimers }
    ensures hold_fails { HoldFails }
    ensures retrieve_fails { RetrieveFails }
    ensures hold_lapses { HoldLapses }
    ensures hold_glare { HoldGlare }
    ensures hold_glare_holding { HoldGlareHolding }
    ensures held_here { HeldHere }
    ensures retrieve_unheld { RetrieveUnheld }
    ensures hold_strays { HoldStrays }
    ensures hold_near { HoldNear }
    ensures both_cleared { BothCleared }
    ensures done_while_holding { DoneWhileHolding }
    ensures retrieve_fails_transferring { RetrieveFailsTransferring }
    ensures retrieve_fails_consulting { RetrieveFailsConsulting }
    ensures holding_primary_lost { HoldingPrimaryLost }
    ensures holding_primary_done { HoldingPrimaryDone }
    ensures setup_met_holding { SetupMetHolding }
{}

// Time, legs and the queue, and what is refused.
pub fn bounds_stand()
    ensures time_and_legs { TimeAndLegs }
    ensures bad_arguments { BadArguments }
    ensures bad_messages { BadMessages }
    ensures free_legs { FreeLegs }
    ensures not_active_legs { NotActiveLegs }
    ensures not_idle_legs { NotIdleLegs }
    ensures wrong_states { WrongStates }
    ensures numbers_run_out { NumbersRunOut }
    ensures looks { Looks }
    ensures in_numbers { InNumbers }
    ensures takes_in_order { TakesInOrder }
    ensures one_timer_at_a_call { OneTimerAtACall }
    ensures equal_deadlines { EqualDeadlines }
    ensures equal_deadlines_of_a_leg { EqualDeadlinesOfALeg }
    ensures timers_from_now { TimersFromNow }
    ensures due_not_out { DueNotOut }
    ensures tick_needs_one { TickNeedsOne }
{}
