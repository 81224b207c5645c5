// A line of input, what it turns out to be, and what is printed for it.
ghost use Rattle.std.specs.Prelude.{◌≡◌, IfOk, Some, string_bytes};
ghost use Rattle.dump.specs.Lines.{content, message_text, form_of, text_of, form_of_line, text_of_line};

use crate::hex::{Hex, hex_row};
use message::Message;
use std::alloc::{AllocError, Global};

// What a line holds: a lawful row, a row with a fault, or no row at all.
#[derive(Clone, Copy, PartialEq, Eq, Debug)]
pub enum Form {
    Message,
    Fault,
    Unreadable,
}

// The form of a line, and the text that is printed for it.
#[derive(Drop)]
pub struct Described {
    pub form: Form,
    pub text: String,
}

// The line without its end, which is LF or CR LF.
fn without_end(line: &[u8]) -> &[u8]
    ensures { result.now ≡ content line.now }
{
    match line {
        [text @ .., b'\r', b'\n'] => text,
        [text @ .., b'\n'] => text,
        _ => line,
    }
}

// The row of a message in digits, and the message in words.
fn message_text(heap: Global, message: &Message) -> Result<String, AllocError>
    ensures { IfOk result (λ s. string_bytes s ≡ message_text message.now) }
{
    let row = message.write();
    format!(in heap; "{} {message}", Hex(&row))
}

// What a row of any length turns out to be.
fn described_row(heap: Global, row: &[u8]) -> Result<Described, AllocError>
    ensures form { IfOk result (λ s. s.form ≡ form_of (Some row.now)) }
    ensures text { IfOk result (λ s. string_bytes s.text ≡ text_of (Some row.now)) }
{
    let (form, text) = match Message::read(row) {
        Ok(message) => (Form::Message, message_text(heap, &message)?),
        Err(fault) => (Form::Fault, fault.to_string(heap)?),
    };
    Ok(Described { form, text })
}

// What a line, with its end or without, turns out to be.
pub fn describe(heap: Global, line: &[u8]) -> Result<Described, AllocError>
    ensures form { IfOk result (λ s. s.form ≡ form_of_line line.now) }
    ensures text { IfOk result (λ s. string_bytes s.text ≡ text_of_line line.now) }
{
    match hex_row(heap, without_end(line))? {
        Some(row) => described_row(heap, row.as_slice()),
        None => Ok(Described {
            form: Form::Unreadable,
            text: String::from_str(heap, "?")?,
        }),
    }
}
