// Commands that begin `settings`.
ghost use Rattle.std.specs.Prelude.{◌≡◌};
ghost use Rattle.script_words.specs.Told.{asked, bytes_of};
ghost use Rattle.end_script.specs.Commands.{settings_call};

use script_words::arguments::Arguments;
use script_words::fault::Fault;
use script_words::words::Bytes;

// The settings frame of `settings read`.
pub fn parse_settings(mut words: Arguments<'_>) -> Result<Bytes<'_>, Fault>
    ensures { asked bytes_of result ≡ settings_call words.entry.rest.now }
{
    match words.due()? {
        b"read" => {
            let frame = words.bytes()?;
            words.end(frame)
        }
        _ => Err(Fault::UnknownCommand),
    }
}
