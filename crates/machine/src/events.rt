// What a leg does at one event.
ghost use Rattle.std.specs.Prelude.{◌≡◌};
ghost use Rattle.machine.specs.Reacts.{reacts};

use crate::event::Event;
use crate::view::View;
use leg::{Reaction, Refusal};

impl View {
    // A match on the event, and no closures: a case carries what its step needs, and the cases are the steps that there are.
    pub fn react(self, event: Event) -> Result<Reaction, Refusal>
        ensures { result ≡ reacts self.leg self.at self.own self.next event }
    {
        match event {
            Event::Open { peer } => self.open(peer),
            Event::Clear => self.clear(),
            Event::Transfer { address } => self.transfer_to(address),
            Event::Identify { primary } => self.identify(primary),
            Event::SetUp { primary, asked } => self.set_up(primary, asked),
            Event::Accept => self.accept(),
            Event::Decline => self.decline(),
            Event::Hold { kind } => self.hold(kind),
            Event::Retrieve => self.retrieve(),
            Event::Hear { message } => Ok(self.hear(message)),
            Event::Meet { message, met } => self.heard_setup(message, met),
            Event::RunOut { slot } => Ok(self.timed_out(slot)),
        }
    }
}
