// Commands that begin `line`.
ghost use Rattle.std.specs.Prelude.{◌≡◌};
ghost use Rattle.script_words.specs.Told.{told, asked};
ghost use Rattle.script.specs.Line.{side, side_in, line_open, command_after, line_call};
ghost use Rattle.script.specs.LineTold.{command_of};

use medium_script::call::spec_in;
use medium_script::spec::Spec;
use notation::number::byte_number;
use script_words::arguments::Arguments;
use script_words::fault::Fault;
use script_words::words::{Bytes, Kind, is};

// The size of the place that a read-out is lent where a line leaves it out.
const PLACE: usize = 96;

#[derive(Clone, Copy)]
pub enum LineCall<'a> {
    Submit(Bytes<'a>),
    Timeout,
    Arrive,
    Read { size: usize },
    Collect,
    Settings(Bytes<'a>),
    State,
}

#[derive(Clone, Copy)]
pub enum LineCommand<'a> {
    // The settings frames of west and of east, and the media from each to the other.
    Open {
        kind: Kind,
        west: Bytes<'a>,
        east: Bytes<'a>,
        eastward: Spec,
        westward: Spec,
    },
    // A call at the side of a number, which may be of no side.
    At(u8, LineCall<'a>),
}

fn side_of(word: &[u8]) -> Option<u8>
    ensures { result ≡ side word.now }
{
    if is(word, "west") {
        Some(0)
    } else if is(word, "east") {
        Some(1)
    } else {
        byte_number(word)
    }
}

// Not one generic read of an argument, as at `Arguments::kind`.
fn side_in(words: &mut Arguments<'_>) -> Result<u8, Fault>
    ensures { told (λ s. s) result words.new.rest.now ≡ side_in words.old.rest.now }
{
    side_of(words.due()?).ok_or(Fault::Side)
}

// What the rest of a line that begins `line` asks for.
pub fn parse_line(mut words: Arguments<'_>) -> Result<LineCommand<'_>, Fault>
    ensures { asked command_of result ≡ line_call words.entry.rest.now }
{
    let word = words.due()?;
    let command = command_after(word, &mut words)?;
    words.end(command)
}

// What a word names, with its own arguments.
fn command_after<'a>(word: &[u8], words: &mut Arguments<'a>) -> Result<LineCommand<'a>, Fault>
    ensures { told command_of result words.new.rest.now ≡ command_after word.now words.old.rest.now }
{
    if is(word, "open") {
        open(words)
    } else if is(word, "submit") {
        let side = side_in(words)?;
        let message = words.bytes()?;
        Ok(LineCommand::At(side, LineCall::Submit(message)))
    } else if is(word, "timeout") {
        Ok(LineCommand::At(side_in(words)?, LineCall::Timeout))
    } else if is(word, "arrive") {
        Ok(LineCommand::At(side_in(words)?, LineCall::Arrive))
    } else if is(word, "read") {
        let side = side_in(words)?;
        let size = words.size_or(PLACE)?;
        Ok(LineCommand::At(side, LineCall::Read { size }))
    } else if is(word, "collect") {
        Ok(LineCommand::At(side_in(words)?, LineCall::Collect))
    } else if is(word, "settings") {
        let side = side_in(words)?;
        let frame = words.bytes()?;
        Ok(LineCommand::At(side, LineCall::Settings(frame)))
    } else if is(word, "state") {
        Ok(LineCommand::At(side_in(words)?, LineCall::State))
    } else {
        Err(Fault::UnknownCommand)
    }
}

// An opening, by a kind, two settings frames and two media.
fn open<'a>(words: &mut Arguments<'a>) -> Result<LineCommand<'a>, Fault>
    ensures { told command_of result words.new.rest.now ≡ line_open words.old.rest.now }
{
    Ok(LineCommand::Open {
        kind: words.kind()?,
        west: words.pairs()?,
        east: words.pairs()?,
        eastward: spec_in(words)?,
        westward: spec_in(words)?,
    })
}
