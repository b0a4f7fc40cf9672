// Commands that begin `end`.
ghost use Rattle.std.specs.Prelude.{◌≡◌};
ghost use Rattle.std.specs.Option.{ok_or};
ghost use Rattle.script_words.specs.Arguments.{argument};
ghost use Rattle.script_words.specs.Told.{told, asked};
ghost use Rattle.script_words.specs.declared.fault.Fault.TheVariants as fault;
ghost use Rattle.end_script.specs.Calls.{end_name, line_number};
ghost use Rattle.end_script.specs.Commands.{name_or, end_open, call_after, end_call};
ghost use Rattle.end_script.specs.Told.{call_of, command_of};

use notation::number::byte_number;
use script_words::arguments::Arguments;
use script_words::fault::Fault;
use script_words::words::{Bytes, Kind, is};

// The size of the place that a take is lent where a line leaves it out.
const PLACE: usize = 96;

// Not one type with the name of a medium: fault, letters and meaning would all be its parameters.
#[derive(Clone, Copy, Debug, PartialEq, Eq)]
pub enum Name {
    A,
    B,
}

#[derive(Clone, Copy)]
pub enum EndCall<'a> {
    Open {
        line: u8,
        kind: Kind,
        frame: Bytes<'a>,
    },
    Submit(Bytes<'a>),
    Timeout,
    Arrive(Bytes<'a>),
    Take {
        size: usize,
    },
    Give {
        from: Name,
    },
    Collect,
    Settings(Bytes<'a>),
    State,
}

// A call on the end of a name.
#[derive(Clone, Copy)]
pub struct EndCommand<'a> {
    pub name: Name,
    pub call: EndCall<'a>,
}

impl<'a> TryFrom<&'a [u8]> for Name {
    type Error = Fault;

    ghost try_from_gives = { λ w r. r ≡ ok_or (end_name w.now) fault.EndName };

    fn try_from(word: &'a [u8]) -> Result<Self, Fault> {
        match word {
            b"a" => Ok(Name::A),
            b"b" => Ok(Name::B),
            _ => Err(Fault::EndName),
        }
    }
}

// The name of an end. Not one generic read of an argument, as at `Arguments::kind`.
fn name_in(words: &mut Arguments<'_>) -> Result<Name, Fault>
    ensures { told (λ n. n) result words.new.rest.now ≡ argument end_name fault.EndName words.old.rest.now }
{
    Name::try_from(words.due()?)
}

// The name of an end, which may be left out.
fn name_or(words: &mut Arguments<'_>, usual: Name) -> Result<Name, Fault>
    ensures { told (λ n. n) result words.new.rest.now ≡ name_or usual words.old.rest.now }
{
    match words.take_word() {
        Some(word) => Name::try_from(word),
        None => Ok(usual),
    }
}

// The number of a line.
fn line_in(words: &mut Arguments<'_>) -> Result<u8, Fault>
    ensures { told (λ n. n) result words.new.rest.now ≡ argument line_number fault.Line words.old.rest.now }
{
    byte_number(words.due()?).ok_or(Fault::Line)
}

// What the rest of a line that begins `end` asks for.
pub fn parse_end(mut words: Arguments<'_>) -> Result<EndCommand<'_>, Fault>
    ensures { asked command_of result ≡ end_call words.entry.rest.now }
{
    let name = name_in(&mut words)?;
    let word = words.due()?;
    let call = call_after(word, name, &mut words)?;
    words.end(EndCommand { name, call })
}

// The call that a word names, with its own arguments.
// Tried as a match on nine byte strings: its last arm stays open, as the search gave up at one of its limits.
fn call_after<'a>(word: &[u8], name: Name, words: &mut Arguments<'a>) -> Result<EndCall<'a>, Fault>
    ensures { told call_of result words.new.rest.now ≡ call_after word.now name words.old.rest.now }
{
    if is(word, "open") {
        open(words)
    } else if is(word, "submit") {
        Ok(EndCall::Submit(words.bytes()?))
    } else if is(word, "timeout") {
        Ok(EndCall::Timeout)
    } else if is(word, "arrive") {
        Ok(EndCall::Arrive(words.bytes()?))
    } else if is(word, "take") {
        let size = words.size_or(PLACE)?;
        Ok(EndCall::Take { size })
    } else if is(word, "give") {
        let from = name_or(words, name)?;
        Ok(EndCall::Give { from })
    } else if is(word, "collect") {
        Ok(EndCall::Collect)
    } else if is(word, "settings") {
        Ok(EndCall::Settings(words.bytes()?))
    } else if is(word, "state") {
        Ok(EndCall::State)
    } else {
        Err(Fault::UnknownCommand)
    }
}

// An opening, by the number of the line, a kind and a settings frame.
fn open<'a>(words: &mut Arguments<'a>) -> Result<EndCall<'a>, Fault>
    ensures { told call_of result words.new.rest.now ≡ end_open words.old.rest.now }
{
    Ok(EndCall::Open {
        line: line_in(words)?,
        kind: words.kind()?,
        frame: words.bytes()?,
    })
}
