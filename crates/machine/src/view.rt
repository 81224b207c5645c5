// What a leg's step may read.
use leg::{Leg, Place};

// The record of the leg and its place; this station's own number, and the number of the next request, if one is left.
#[derive(Clone, Copy, PartialEq, Eq, Debug)]
pub struct View {
    pub leg: Leg,
    pub at: Place,
    pub own: u16,
    pub next: Option<u16>,
}
