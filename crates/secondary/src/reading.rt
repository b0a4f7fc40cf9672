// A user of the station: it can neither make nor copy a slip, nor let one go.
ghost use Rattle.std.specs.Prelude.{◌≡◌, length, OnErr};
ghost use Rattle.packet.specs.Refusals.{answer};
ghost use Rattle.secondary.specs.Station.{model, reading_answer, after_reading, place_after};

use crate::station::Secondary;
use packet::refusal::Refusal;

// Takes the oldest delivery and gives it back once it is copied; its length.
pub fn read_out(station: &mut Secondary, place: &mut [u8]) -> Result<usize, Refusal>
    ensures value { answer (λ n. n) result ≡ reading_answer (length place.old) (model station.old) }
    ensures after { model station.new ≡ after_reading (length place.old) (model station.old) }
    ensures copied { place.new ≡ place_after (model station.old) place.old }
    ensures unchanged { OnErr result (station.new ≡ station.old) }
{
    let (length, slip) = station.take(place)?;
    station.give_back(slip).unwrap();
    Ok(length)
}
