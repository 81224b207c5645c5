// Bytes as hexadecimal digits, two for each byte.
ghost use Rattle.std.specs.Prelude.{◌≡◌, ◌/◌, ◌%◌, ◌<◌, [], ◌∷◌, IfOk, Some, vec_items};
ghost use Rattle.std.specs.Fmt.{WritesOnOk};
ghost use Rattle.std.specs.Option.{option_map};
ghost use Rattle.dump.specs.Hex.{digit_of, glyph, paired, hex_text, hex_row};

use std::alloc::{AllocError, Global};
use std::fmt;

// The value of a digit of either case. Not by `to_digit`, which takes 2.6 % more instructions on a line of two million digits.
fn digit(c: u8) -> Option<u8>
    ensures { result ≡ digit_of c }
{
    match c {
        b'0'..=b'9' => Some(c - b'0'),
        b'a'..=b'f' => Some(c - b'a' + 10),
        b'A'..=b'F' => Some(c - b'A' + 10),
        _ => None,
    }
}

// The byte that two digits mean.
fn byte(high: u8, low: u8) -> Option<u8>
    ensures { result ≡ paired (digit_of high) (digit_of low) }
{
    Some(digit(high)? * 16 + digit(low)?)
}

// The digit that stands for a value, in lower case.
fn spelled(value: u8) -> &'static str
    requires { value < 16 }
    ensures { result.now ≡ glyph value ∷ [] }
{
    match value {
        0 => "0",
        1 => "1",
        2 => "2",
        3 => "3",
        4 => "4",
        5 => "5",
        6 => "6",
        7 => "7",
        8 => "8",
        9 => "9",
        10 => "a",
        11 => "b",
        12 => "c",
        13 => "d",
        14 => "e",
        _ => "f",
    }
}

// The two digits of a byte. Not by `{:02x}`, with which a row that says little takes twice as long.
fn write_byte<W: fmt::Write>(f: &mut fmt::Formatter<W>, byte: u8) -> fmt::Result
    ensures { WritesOnOk W.write_str_gives f.old result (glyph (byte / 16) ∷ glyph (byte % 16) ∷ []) f.new }
{
    f.write_str(spelled(byte / 16))?;
    f.write_str(spelled(byte % 16))
}

// Bytes as digits in lower case.
#[derive(Clone, Copy)]
pub(crate) struct Hex<'a>(pub(crate) &'a [u8]);

impl fmt::Display for Hex<'_> {
    ghost output = { λ hex. Some (hex_text hex.0.now) };

    fn fmt<W: fmt::Write>(&self, f: &mut fmt::Formatter<W>) -> fmt::Result {
        for &byte in self.0 {
            write_byte(f, byte)?;
        }
        Ok(())
    }
}

// The bytes that a line of digits means, or none where it has another character or an odd number of them.
pub(crate) fn hex_row(heap: Global, line: &[u8]) -> Result<Option<Vec<u8>>, AllocError>
    ensures { IfOk result (λ o. option_map vec_items o ≡ hex_row line.now) }
{
    let mut bytes = Vec::new(heap);
    let mut rest = line;
    while let [high, low, more @ ..] = rest {
        let Some(byte) = byte(*high, *low) else {
            return Ok(None);
        };
        bytes.push(byte)?;
        rest = more;
    }
    Ok(rest.is_empty().then_some(bytes))
}
