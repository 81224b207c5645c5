// What a leg's record says.
ghost use Rattle.std.specs.Prelude.{◌≡◌};
ghost use Rattle.leg.specs.Views.{free_leg, active_leg, calling_leg, in_use, is_active, is_idle, is_awaiting_setup, is_unheld, transfer_request, hold_request, bond_owed, owed_by, bond_partner, partner_of};

use crate::place::Place;
use crate::record::{Bond, Holder, Leg, Owed, Phase, Request, Transfer};
use message::Operation;

// The record of a leg that serves no call.
pub const FREE: Leg = Leg {
    phase: Phase::Free,
    peer: 0,
    transfer: Transfer::Idle,
    holder: Holder::Idle,
    held: None,
};

impl Bond {
    fn partner(self) -> Place
        ensures { result ≡ bond_partner self }
    {
        match self {
            Bond::Consulting { secondary } => secondary,
            Bond::Consulted { primary } => primary,
            Bond::Placing { placed, .. } => placed,
        }
    }

    fn owed(self) -> Option<Owed>
        ensures { result ≡ bond_owed self }
    {
        match self {
            Bond::Placing { owed, .. } => Some(owed),
            Bond::Consulting { .. } | Bond::Consulted { .. } => None,
        }
    }
}

impl Leg {
    pub fn free() -> Leg
        ensures { result ≡ free_leg }
    {
        FREE
    }

    // A leg with this peer, and no transfer or hold.
    pub fn active(peer: u16) -> Leg
        ensures { result ≡ active_leg peer }
    {
        Leg {
            phase: Phase::Active,
            peer,
            ..FREE
        }
    }

    // A leg that calls this peer on behalf of the primary.
    pub fn calling(peer: u16, number: u16, primary: Place) -> Leg
        ensures { result ≡ calling_leg peer number primary }
    {
        Leg {
            phase: Phase::Calling,
            peer,
            transfer: Transfer::AwaitSetupResponse { number, primary },
            ..FREE
        }
    }

    pub fn in_use(&self) -> bool
        ensures { result ≡ in_use self.now }
    {
        !matches!(self.phase, Phase::Free)
    }

    pub fn is_active(&self) -> bool
        ensures { result ≡ is_active self.now }
    {
        matches!(self.phase, Phase::Active)
    }

    // No transfer is under way.
    pub fn is_idle(&self) -> bool
        ensures { result ≡ is_idle self.now }
    {
        matches!(self.transfer, Transfer::Idle)
    }

    pub fn is_awaiting_setup(&self) -> bool
        ensures { result ≡ is_awaiting_setup self.now }
    {
        matches!(self.transfer, Transfer::AwaitSetup)
    }

    // Neither end holds.
    pub fn is_unheld(&self) -> bool
        ensures { result ≡ is_unheld self.now }
    {
        matches!(self.holder, Holder::Idle) && self.held.is_none()
    }

    // The open request that the transfer timer watches.
    pub fn transfer_request(&self) -> Option<Request>
        ensures { result ≡ transfer_request self.now }
    {
        let (operation, number) = match self.transfer {
            Transfer::AwaitIdentify { number, .. } => (Operation::CallTransferIdentify, number),
            Transfer::AwaitInitiate { number, .. } => (Operation::CallTransferInitiate, number),
            Transfer::AwaitSetupResponse { number, .. } => (Operation::CallTransferSetup, number),
            _ => return None,
        };
        Some(Request { operation, number })
    }

    // The open request that the hold timer watches.
    pub fn hold_request(&self) -> Option<Request>
        ensures { result ≡ hold_request self.now }
    {
        let (operation, number) = match self.holder {
            Holder::RemoteRequested { number } => (Operation::RemoteHold, number),
            Holder::RetrieveRequested { number } => (Operation::RemoteRetrieve, number),
            _ => return None,
        };
        Some(Request { operation, number })
    }

    // The invoke that was heard on this leg and is not answered yet.
    pub fn owed(&self) -> Option<Owed>
        ensures { result ≡ owed_by self.now }
    {
        match (self.phase, self.transfer) {
            (Phase::Ringing(owed), _) | (_, Transfer::Asked(owed)) => Some(owed),
            (_, Transfer::Bound(bond)) => bond.owed(),
            _ => None,
        }
    }

    // The leg that this one waits for, or that waits for it.
    pub fn partner(&self) -> Option<Place>
        ensures { result ≡ partner_of self.now }
    {
        match self.transfer {
            Transfer::AwaitIdentify { primary, .. }
            | Transfer::AwaitSetupResponse { primary, .. } => Some(primary),
            Transfer::AwaitInitiate { secondary, .. } => secondary,
            Transfer::Bound(bond) => Some(bond.partner()),
            Transfer::Idle | Transfer::AwaitSetup | Transfer::Asked(_) => None,
        }
    }
}
