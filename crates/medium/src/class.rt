// The two classes of operation letters.
ghost use Rattle.std.specs.Prelude.{◌≡◌};
ghost use Rattle.medium.specs.Classes.{letters, class_of};

use packet::letter::Letter;

#[derive(Clone, Copy, Debug, PartialEq, Eq)]
pub enum Class {
    Command,
    Answer,
}

impl From<Letter> for Class {
    ghost from_gives = { λ letter class. class ≡ class_of letter };

    fn from(letter: Letter) -> Class {
        match letter {
            Letter::Enq | Letter::Data(_) => Class::Command,
            Letter::Ack(_) | Letter::Reset => Class::Answer,
        }
    }
}

impl Class {
    // Whether a byte is a letter of the class.
    pub fn has(self, byte: u8) -> bool
        ensures { result ≡ letters self byte }
    {
        Letter::try_from(byte).is_ok_and(|letter| Class::from(letter) == self)
    }
}
