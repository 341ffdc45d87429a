ghost use Rattle.std.specs.Prelude.{◌≡◌};
ghost use Rattle.text.specs.Words.{HasItsCase, part_of};

use crate::number::all_digits;

// A word of a line: a part of the text, with the number of its line. Each case holds both, so that a word tells by itself where
// it stood.
#[derive(Debug, Clone, Copy, PartialEq, Eq)]
pub enum Word<'a> {
    // decimal digits and nothing else
    Digits { part: &'a [u8], line: u32 },
    // a single byte that is no digit, as the letter of a kind
    Letter { part: &'a [u8], line: u32 },
    // anything else, as the name of a command; also no byte at all
    Name { part: &'a [u8], line: u32 },
}

impl<'a> Word<'a> {
    // The word that those bytes of the line are.
    pub fn of(part: &'a [u8], line: u32) -> Word<'a>
        ensures part { part_of result ≡ part.now }
        ensures case { HasItsCase result }
    {
        if !part.is_empty() && all_digits(part) {
            Word::Digits { part, line }
        } else if part.len() == 1 {
            Word::Letter { part, line }
        } else {
            Word::Name { part, line }
        }
    }
}
