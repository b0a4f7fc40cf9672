// One end of a line, as data.
ghost use Rattle.std.specs.Prelude.{◌≡◌, ◌≤◌, true};
ghost use Rattle.primary.specs.Model.{model};
ghost use Rattle.primary.specs.Station.{unsettled_in};
ghost use Rattle.station.specs.Valid.{all_valid};

use packet::checks::Check;
use primary::station::Primary;
use secondary::station::Secondary;
use settings::values::Settings;
use std::marker::PhantomData;

// Every message without outcome can be sent: its submission was not refused. The attempt limit is one that the attempts, which
// stop at 255, can reach.
// From that limit follows what three calls promise as `in_time`: a ghost field of it would be no plainer, it would only say
// the limit again.
// The definition `model` is no impl of Model: a refused call leaves each field the same, which equal views would not say.
#[derive(Drop)]
pub struct End<K: Check> {
    of: PhantomData<K>,
    settings: Settings,
    primary: Primary,
    secondary: Secondary,
    ghost sendable: { all_valid (unsettled_in (model primary).phase) ≡ true },
    ghost limited: { settings.attempt_limit ≤ 255 },
}

pub mod calls;
pub mod opening;
pub mod outcomes;
pub mod questions;
