// The arguments of a command, read from the left.
ghost use Rattle.std.specs.Prelude.{◌≡◌};
ghost use Rattle.std.specs.Option.{option_copied, option_map};
ghost use Rattle.notation.specs.Hex.{unhex};
ghost use Rattle.notation.specs.Words.{first_word, left};
ghost use Rattle.script_words.specs.Arguments.{asking, due, argument, kind, pairs, bytes, bytes_left, size_or, ended};
ghost use Rattle.script_words.specs.Told.{told, bytes_of};
ghost use Rattle.script_words.specs.declared.fault.Fault.TheVariants as fault;

use crate::fault::Fault;
use crate::words::{Bytes, Kind};
use notation::hex::are_pairs;
use notation::number::size_up_to;
use notation::words::{split_word, trimmed};

// The size that a larger place is lent as, since no answer shows more of it: so no line can take the machine's memory.
const LARGEST: u32 = 65536;

// What is left to read of a line.
#[derive(Clone, Copy)]
pub struct Arguments<'a> {
    pub rest: &'a [u8],
}

fn in_hex(word: &[u8]) -> Option<Bytes<'_>>
    ensures { option_map bytes_of result ≡ unhex word.now }
{
    match word {
        b"-" => Some(Bytes::Pairs(&[])),
        _ => are_pairs(word).then_some(Bytes::Pairs(word)),
    }
}

impl<'a> Arguments<'a> {
    // All of a line, unless it asks for nothing: a line of spaces alone, or a comment.
    pub fn of(line: &'a [u8]) -> Option<Self>
        ensures { option_map (λ words. words.rest.now) result ≡ asking line.now }
    {
        match line {
            [b'#', ..] => None,
            _ => (!trimmed(line).is_empty()).then_some(Arguments { rest: line }),
        }
    }

    // The next word, where one is left.
    pub fn take_word(&mut self) -> Option<&'a [u8]>
        ensures value { option_copied result ≡ first_word self.old.rest.now }
        ensures after { self.new.rest.now ≡ left self.old.rest.now }
    {
        let (word, rest) = split_word(self.rest);
        self.rest = rest;
        word
    }

    // A word that is due.
    pub fn due(&mut self) -> Result<&'a [u8], Fault>
        ensures value { told (λ x. x.now) result self.new.rest.now ≡ due self.old.rest.now }
        ensures after { self.new.rest.now ≡ left self.old.rest.now }
    {
        self.take_word().ok_or(Fault::TooFewWords)
    }

    // Not one generic read of an argument: its clause would be the relation `try_from_gives`, and this one is an equation.
    pub fn kind(&mut self) -> Result<Kind, Fault>
        ensures value { told (λ k. k) result self.new.rest.now ≡ argument kind fault.Kind self.old.rest.now }
        ensures after { self.new.rest.now ≡ left self.old.rest.now }
    {
        Kind::try_from(self.due()?)
    }

    // Bytes that are not a line's last argument.
    pub fn pairs(&mut self) -> Result<Bytes<'a>, Fault>
        ensures value { told bytes_of result self.new.rest.now ≡ pairs self.old.rest.now }
        ensures after { self.new.rest.now ≡ left self.old.rest.now }
    {
        in_hex(self.due()?).ok_or(Fault::Bytes)
    }

    // Bytes that begin with an apostrophe are all that follows it.
    pub fn bytes(&mut self) -> Result<Bytes<'a>, Fault>
        ensures value { told bytes_of result self.new.rest.now ≡ bytes self.old.rest.now }
        ensures after { self.new.rest.now ≡ bytes_left self.old.rest.now }
    {
        if let [b'\'', text @ ..] = trimmed(self.rest) {
            self.rest = &[];
            return Ok(Bytes::Text(text));
        }
        self.pairs()
    }

    // The size of a place, which may be left out.
    pub fn size_or(&mut self, usual: usize) -> Result<usize, Fault>
        ensures value { told (λ n. n) result self.new.rest.now ≡ size_or usual self.old.rest.now }
        ensures after { self.new.rest.now ≡ left self.old.rest.now }
    {
        match self.take_word() {
            Some(word) => size_up_to(word, LARGEST).ok_or(Fault::Size),
            None => Ok(usual),
        }
    }

    // The value that a line was read as, unless a word is left over.
    pub fn end<T: Drop>(&mut self, value: T) -> Result<T, Fault>
        ensures value { result ≡ ended value self.old.rest.now }
        ensures after { self.new.rest.now ≡ left self.old.rest.now }
    {
        match self.take_word() {
            None => Ok(value),
            Some(_) => Err(Fault::TooManyWords),
        }
    }
}
