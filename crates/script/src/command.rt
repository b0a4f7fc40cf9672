// The commands of a script.
ghost use Rattle.std.specs.Prelude.{◌≡◌};
ghost use Rattle.std.specs.Option.{option_map};
ghost use Rattle.script_words.specs.Told.{asked};
ghost use Rattle.script.specs.Commands.{call_after, command_of};
ghost use Rattle.script.specs.Told.{request};

use crate::line::{LineCommand, parse_line};
use end_script::end::{EndCommand, parse_end};
use end_script::settings::parse_settings;
use medium_script::call::MediumCommand;
use packet_script::call::PacketCall;
use script_words::arguments::Arguments;
use script_words::fault::Fault;
use script_words::words::{Bytes, is};

#[derive(Clone, Copy)]
pub enum Command<'a> {
    Packet(PacketCall<'a>),
    // The settings frame to read.
    Settings(Bytes<'a>),
    End(EndCommand<'a>),
    Medium(MediumCommand<'a>),
    Line(LineCommand<'a>),
}

// What a line, without its end, asks for, if it asks for anything.
pub fn parse(line: &[u8]) -> Result<Option<Command<'_>>, Fault>
    ensures { asked (option_map request) result ≡ command_of line.now }
{
    let Some(mut words) = Arguments::of(line) else {
        return Ok(None);
    };
    let subject = words.due()?;
    Ok(Some(parse_after(subject, words)?))
}

// What the rest of a line asks of the subject that its first word names.
fn parse_after<'a>(subject: &[u8], words: Arguments<'a>) -> Result<Command<'a>, Fault>
    ensures { asked request result ≡ call_after subject.now words.entry.rest.now }
{
    if is(subject, "packet") {
        Ok(Command::Packet(packet_script::call::parse(words)?))
    } else if is(subject, "medium") {
        Ok(Command::Medium(medium_script::call::parse(words)?))
    } else if is(subject, "settings") {
        Ok(Command::Settings(parse_settings(words)?))
    } else if is(subject, "end") {
        Ok(Command::End(parse_end(words)?))
    } else if is(subject, "line") {
        Ok(Command::Line(parse_line(words)?))
    } else {
        Err(Fault::UnknownCommand)
    }
}
