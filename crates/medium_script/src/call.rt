// What is asked of the media of a script.
ghost use Rattle.std.specs.Prelude.{◌≡◌};
ghost use Rattle.std.specs.Option.{ok_or};
ghost use Rattle.notation.specs.Words.{left};
ghost use Rattle.script_words.specs.Arguments.{argument};
ghost use Rattle.script_words.specs.Told.{told, asked};
ghost use Rattle.script_words.specs.declared.fault.Fault.TheVariants as fault;
ghost use Rattle.medium_script.specs.Calls.{name, call_after, medium_call};
ghost use Rattle.medium_script.specs.Specs.{spec};
ghost use Rattle.medium_script.specs.Told.{call_of, command_of};

use crate::spec::Spec;
use script_words::arguments::Arguments;
use script_words::fault::Fault;
use script_words::words::Bytes;

#[derive(Clone, Copy, Debug, PartialEq, Eq)]
pub enum Name {
    M,
    N,
}

#[derive(Clone, Copy)]
pub enum MediumCall<'a> {
    Make(Spec),
    Offer(Bytes<'a>),
    Take,
    Count,
    Holds,
}

#[derive(Clone, Copy)]
pub struct MediumCommand<'a> {
    pub name: Name,
    pub call: MediumCall<'a>,
}

impl<'a> TryFrom<&'a [u8]> for Name {
    type Error = Fault;

    ghost try_from_gives = { λ w r. r ≡ ok_or (name w.now) fault.MediumName };

    fn try_from(word: &'a [u8]) -> Result<Self, Fault> {
        match word {
            b"m" => Ok(Name::M),
            b"n" => Ok(Name::N),
            _ => Err(Fault::MediumName),
        }
    }
}

// The rest of a line that begins `medium`.
pub fn parse(mut words: Arguments<'_>) -> Result<MediumCommand<'_>, Fault>
    ensures { asked command_of result ≡ medium_call words.entry.rest.now }
{
    let name = Name::try_from(words.due()?)?;
    let word = words.due()?;
    let call = call_after(word, &mut words)?;
    words.end(MediumCommand { name, call })
}

// The call that a word names, with its own argument.
fn call_after<'a>(word: &[u8], words: &mut Arguments<'a>) -> Result<MediumCall<'a>, Fault>
    ensures { told call_of result words.new.rest.now ≡ call_after word.now words.old.rest.now }
{
    match word {
        b"make" => Ok(MediumCall::Make(spec_in(words)?)),
        b"offer" => Ok(MediumCall::Offer(words.bytes()?)),
        b"take" => Ok(MediumCall::Take),
        b"count" => Ok(MediumCall::Count),
        b"holds" => Ok(MediumCall::Holds),
        _ => Err(Fault::UnknownCommand),
    }
}

// Not one generic read of an argument, as at `Arguments::kind`.
pub fn spec_in(words: &mut Arguments<'_>) -> Result<Spec, Fault>
    ensures value { told (λ s. s) result words.new.rest.now ≡ argument spec fault.Spec words.old.rest.now }
    ensures after { words.new.rest.now ≡ left words.old.rest.now }
{
    Spec::try_from(words.due()?)
}
