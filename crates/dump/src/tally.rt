// How many lines of each form there were.
ghost use Rattle.std.specs.Prelude.{◌≡◌, IfOk, Some, string_bytes};
ghost use Rattle.dump.specs.Lines.{counted, summary_of};

use crate::lines::Form;
use std::alloc::{AllocError, Global};
use std::fmt;

#[derive(Clone, Copy, PartialEq, Eq, Debug, Default)]
pub struct Tally {
    pub messages: u64,
    pub faults: u64,
    pub unreadable: u64,
}

impl Tally {
    pub fn new() -> Self
        ensures { (result.messages ≡ 0) × (result.faults ≡ 0) × (result.unreadable ≡ 0) }
    {
        Tally::default()
    }

    // One line more of this form.
    pub fn count(&mut self, form: Form)
        ensures { self.new ≡ counted form self.old }
    {
        match form {
            Form::Message => self.messages = self.messages.saturating_add(1),
            Form::Fault => self.faults = self.faults.saturating_add(1),
            Form::Unreadable => self.unreadable = self.unreadable.saturating_add(1),
        }
    }

    // What is printed after the last line.
    pub fn summary(&self, heap: Global) -> Result<String, AllocError>
        ensures { IfOk result (λ s. string_bytes s ≡ summary_of self.now) }
    {
        self.to_string(heap)
    }
}

impl fmt::Display for Tally {
    ghost output = { λ tally. Some (summary_of tally) };

    fn fmt<W: fmt::Write>(&self, f: &mut fmt::Formatter<W>) -> fmt::Result {
        let Tally {
            messages,
            faults,
            unreadable,
        } = *self;
        write!(
            f,
            "{messages} messages, {faults} faults, {unreadable} unreadable lines"
        )
    }
}
