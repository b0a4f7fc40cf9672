// What a medium is made of.
ghost use Rattle.std.specs.Prelude.{◌≡◌};
ghost use Rattle.std.specs.Option.{ok_or};
ghost use Rattle.script_words.specs.declared.fault.Fault.TheVariants as fault;
ghost use Rattle.medium_script.specs.Specs.{base, spec};

use notation::hex::pattern;
use notation::number::size;
use notation::words::split;
use script_words::fault::Fault;

// The most bursts of a queue, and the most bytes of a packed medium.
const PLACES: u32 = 4096;

const BYTES: u32 = 65536;

#[derive(Clone, Copy, Debug, PartialEq, Eq)]
pub enum Base {
    Queue { places: usize },
    Packed { bytes: usize },
    Noisy { places: usize, pattern: u32 },
}

// A medium, under a layer of loss where it has a pattern of loss.
#[derive(Clone, Copy, Debug, PartialEq, Eq)]
pub struct Spec {
    pub loss: Option<u32>,
    pub base: Base,
}

impl<'a> TryFrom<&'a [u8]> for Spec {
    type Error = Fault;

    ghost try_from_gives = { λ w r. r ≡ ok_or (spec w.now) fault.Spec };

    fn try_from(word: &'a [u8]) -> Result<Self, Fault> {
        spec_of(word).ok_or(Fault::Spec)
    }
}

fn spec_of(word: &[u8]) -> Option<Spec>
    ensures { result ≡ spec word.now }
{
    match split(word, b':') {
        (b"lossy", rest) => {
            let (loss, below) = split(rest, b'/');
            Some(Spec {
                loss: Some(pattern(loss)?),
                base: base_of(below)?,
            })
        }
        _ => Some(Spec {
            loss: None,
            base: base_of(word)?,
        }),
    }
}

// A SPEC without loss.
fn base_of(word: &[u8]) -> Option<Base>
    ensures { result ≡ base word.now }
{
    match split(word, b':') {
        (b"queue", places) => Some(Base::Queue {
            places: size(places, PLACES)?,
        }),
        (b"packed", bytes) => Some(Base::Packed {
            bytes: size(bytes, BYTES)?,
        }),
        (b"noisy", numbers) => {
            let (places, bits) = split(numbers, b':');
            Some(Base::Noisy {
                places: size(places, PLACES)?,
                pattern: pattern(bits)?,
            })
        }
        _ => None,
    }
}
