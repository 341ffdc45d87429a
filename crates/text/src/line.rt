ghost use Rattle.std.specs.Prelude.{◌≡◌, [], ◌∷◌, ◌++◌, IfSome, decimal, is_none, map};
ghost use Rattle.std.specs.Iterator.{YieldsFirstBy, item_count};
ghost use Rattle.text.specs.Pieces.{words_left, words_of};
ghost use Rattle.text.specs.Words.{part_of};

use crate::letter::Letter;
use crate::number;
use crate::pieces::cut;
use crate::word::Word;

// A line of the text, read word by word: two words have one space between them.
#[derive(Drop)]
pub struct Line<'a> {
    // what stands behind the last space that was read; absent once the last word was read
    rest: Option<&'a [u8]>,
    number: u32,
}

impl<'a> Line<'a> {
    pub fn new(bytes: &'a [u8], number: u32) -> Line<'a>
        ensures { words_left result.rest ≡ words_of bytes.now }
    {
        Line {
            rest: Some(bytes),
            number,
        }
    }

    // The next word as a letter: a single byte, be it a digit.
    pub fn letter(&mut self) -> Option<Letter>
        ensures { IfSome result (λ letter. words_left self.old.rest
            ≡ (letter.0 ∷ []) ∷ words_left self.new.rest) }
    {
        match self.next()? {
            Word::Letter { part: [byte], .. } | Word::Digits { part: [byte], .. } => {
                Some(Letter(char::from(*byte)))
            }
            _ => None,
        }
    }

    // The next word as a number.
    pub fn number(&mut self) -> Option<u32>
        ensures { IfSome result
            (λ number. words_left self.old.rest ≡ decimal number ∷ words_left self.new.rest) }
    {
        match self.next()? {
            Word::Digits { part, .. } => number::spelled(part),
            _ => None,
        }
    }

    // The next words as numbers.
    pub fn numbers<const N: usize>(&mut self) -> Option<[u32; N]>
        ensures { IfSome result
            (λ numbers. words_left self.old.rest ≡ map decimal numbers ++ words_left self.new.rest) }
    {
        let mut numbers = [0; N];
        for number in numbers.iter_mut() {
            *number = self.number()?;
        }
        Some(numbers)
    }

    // Whether every word was read.
    pub fn is_over(&self) -> bool
        ensures { result ≡ is_none self.now.rest }
    {
        self.rest.is_none()
    }
}

impl<'a> Iterator for Line<'a> {
    type Item = Word<'a>;

    ghost next_gives = { YieldsFirstBy part_of (λ line. words_left line.rest) };

    ghost remaining = { item_count (λ line. words_left line.rest) };

    fn next(&mut self) -> Option<Word<'a>> {
        let (part, rest) = cut(self.rest?, b' ');
        self.rest = rest;
        Some(Word::of(part, self.number))
    }
}
