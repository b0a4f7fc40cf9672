//! The calls on a line.
ghost use Rattle.std.specs.Prelude.{◌≡◌, [], length, None};
ghost use Rattle.packet.specs.Refusals.{answer};
ghost use Rattle.agreement.specs.Calls.{Submit, Expire, Arrive, ReadOut, Collect, Set};
ghost use Rattle.agreement.specs.Line.{side_answer};
ghost use Rattle.line.specs.Called.{Called, stand, message_at};
ghost use Rattle.line.specs.Models.{line_of, said, offer_told, read_told, collect_told, set_told};
ghost use Rattle.station.specs.End.{seen};

use crate::at_side;
use crate::report::LineReport;
use agreement::Side;
use medium::{LONGEST, Medium};
use packet::checks::Check;
use packet::refusal::Refusal;
use primary::outcome::Outcome;
use station::end::End;

/// Two ends joined over two media, eastward (what west sends) and westward. The media are lent at each call, and must be the
/// same ones from the opening on. A side is named by its number, west 0 and east 1; every call refuses another with 25.
#[derive(Drop)]
pub struct Line<K: Check> {
    pub(crate) west: End<K>,
    pub(crate) east: End<K>,
}

impl<K: Check> Line<K> {
    /// Submits a message. The packet, if one is sent, is written to the front of the place. Refused with 25 or 16 to 19.
    pub fn submit<E: Medium, W: Medium>(
        &mut self,
        side: u8,
        message: &[u8],
        eastward: &mut E,
        westward: &mut W,
        place: &mut [u8; LONGEST],
    ) -> Result<LineReport, Refusal>
        ensures { Called K.Check E.Medium W.Medium side (Submit message.now) (said result) (offer_told result) (stand self.old eastward.old westward.old place.old) (stand self.new eastward.new westward.new place.new) }
    {
        match Side::try_from(side)? {
            Side::West => at_side::submit(&mut self.west, message, eastward, westward, place),
            Side::East => at_side::submit(&mut self.east, message, westward, eastward, place),
        }
    }

    /// No answer came in time. Refused with 25, or with 27 while a command from the side or an answer toward it is under way.
    pub fn timeout<E: Medium, W: Medium>(
        &mut self,
        side: u8,
        eastward: &mut E,
        westward: &mut W,
        place: &mut [u8; LONGEST],
    ) -> Result<LineReport, Refusal>
        ensures { Called K.Check E.Medium W.Medium side Expire (said result) (offer_told result) (stand self.old eastward.old westward.old place.old) (stand self.new eastward.new westward.new place.new) }
    {
        match Side::try_from(side)? {
            Side::West => at_side::expire(&mut self.west, eastward, westward, place),
            Side::East => at_side::expire(&mut self.east, westward, eastward, place),
        }
    }

    /// Takes the first burst toward the side and hands it to the end. Refused with 25 or 26, or by the burst, which is then
    /// used up, with 1 to 7.
    pub fn arrive<E: Medium, W: Medium>(
        &mut self,
        side: u8,
        eastward: &mut E,
        westward: &mut W,
        place: &mut [u8; LONGEST],
    ) -> Result<LineReport, Refusal>
        ensures { Called K.Check E.Medium W.Medium side Arrive (said result) (offer_told result) (stand self.old eastward.old westward.old place.old) (stand self.new eastward.new westward.new place.new) }
    {
        match Side::try_from(side)? {
            Side::West => at_side::arrive(&mut self.west, eastward, westward, place),
            Side::East => at_side::arrive(&mut self.east, westward, eastward, place),
        }
    }

    /// Copies the oldest delivery to the front of the place, gives it back, and returns its length. Refused with 25, 21 or 23.
    pub fn read_out<E: Medium, W: Medium>(
        &mut self,
        side: u8,
        eastward: &E,
        westward: &W,
        place: &mut [u8],
    ) -> Result<usize, Refusal>
        ensures call { Called K.Check E.Medium W.Medium side (ReadOut (length place.old)) (read_told result place.new) None (stand self.old eastward.now westward.now place.old) (stand self.new eastward.now westward.now place.new) }
        ensures length { answer (λ n. n) result ≡ seen length (message_at (side_answer side) (length place.old) (line_of self.old (E.Medium.bursts eastward.now) (W.Medium.bursts westward.now))) }
    {
        match Side::try_from(side)? {
            Side::West => at_side::read_out(&mut self.west, eastward, westward, place),
            Side::East => at_side::read_out(&mut self.east, westward, eastward, place),
        }
    }

    /// Returns the oldest outcome that was not collected, and frees its buffer. Refused with 25 or 20.
    pub fn collect<E: Medium, W: Medium>(
        &mut self,
        side: u8,
        eastward: &E,
        westward: &W,
    ) -> Result<Outcome, Refusal>
        ensures { Called K.Check E.Medium W.Medium side Collect (collect_told result) None (stand self.old eastward.now westward.now []) (stand self.new eastward.now westward.now []) }
    {
        match Side::try_from(side)? {
            Side::West => at_side::collect(&mut self.west, eastward, westward),
            Side::East => at_side::collect(&mut self.east, westward, eastward),
        }
    }

    /// All four settings change together, or none does. Refused with 25 or 8 to 15.
    pub fn change_settings<E: Medium, W: Medium>(
        &mut self,
        side: u8,
        eastward: &E,
        westward: &W,
        frame: &[u8],
    ) -> Result<(), Refusal>
        ensures { Called K.Check E.Medium W.Medium side (Set frame.now) (set_told result) None (stand self.old eastward.now westward.now []) (stand self.new eastward.now westward.now []) }
    {
        match Side::try_from(side)? {
            Side::West => at_side::change_settings(&mut self.west, eastward, westward, frame),
            Side::East => at_side::change_settings(&mut self.east, westward, eastward, frame),
        }
    }
}
