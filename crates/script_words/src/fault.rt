// What is wrong with a line that is not carried out.
ghost use Rattle.std.specs.Prelude.{◌≡◌, Some};
ghost use Rattle.script_words.specs.Faults.{text};

use std::fmt;

#[derive(Clone, Copy, Debug, PartialEq, Eq)]
pub enum Fault {
    UnknownCommand,
    TooFewWords,
    Kind,
    Letter,
    Bytes,
    Size,
    EndName,
    Line,
    MediumName,
    Spec,
    Side,
    TooManyWords,
    NoEnd,
    NoSlip,
    SlipKept,
    NoMedium,
    NoLine,
}

impl Fault {
    pub fn text(self) -> &'static str
        ensures { result.now ≡ text self }
    {
        match self {
            Fault::UnknownCommand => "unknown command",
            Fault::TooFewWords => "too few words",
            Fault::Kind => "KIND is sum or xor",
            Fault::Letter => "LETTER is one byte in hexadecimal",
            Fault::Bytes => "BYTES are pairs of hexadecimal digits",
            Fault::Size => "SIZE is a decimal number",
            Fault::EndName => "NAME is a or b",
            Fault::Line => "LINE is a number from 0 to 255",
            Fault::MediumName => "NAME is m or n",
            Fault::Spec =>
                "SPEC is queue:PLACES, packed:BYTES or noisy:PLACES:PATTERN, or one of these after lossy:PATTERN/",
            Fault::Side => "a side is west, east or a number from 0 to 255",
            Fault::TooManyWords => "too many words",
            Fault::NoEnd => "no end of that name is open",
            Fault::NoSlip => "no slip is kept",
            Fault::SlipKept => "a slip is kept",
            Fault::NoMedium => "no medium of that name is made",
            Fault::NoLine => "no line is open",
        }
    }
}

impl fmt::Display for Fault {
    ghost output = { λ f. Some (text f) };

    fn fmt<W: fmt::Write>(&self, f: &mut fmt::Formatter<W>) -> fmt::Result {
        f.write_str(self.text())
    }
}
