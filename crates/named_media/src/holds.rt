// Which classes of letters are under way.
ghost use Rattle.std.specs.Prelude.{Some};
ghost use Rattle.named_media.specs.Holding.{holds_text};

use std::fmt;

#[derive(Clone, Copy, Debug, PartialEq, Eq)]
pub struct Holds {
    pub commands: bool,
    pub answers: bool,
}

impl fmt::Display for Holds {
    ghost output = { λ holds. Some (holds_text holds) };

    fn fmt<W: fmt::Write>(&self, f: &mut fmt::Formatter<W>) -> fmt::Result {
        write!(f, "commands={} answers={}", self.commands, self.answers)
    }
}
