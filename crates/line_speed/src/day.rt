//! Messages from west to east over two queues.
use line::Line;
use medium::LONGEST;
use medium::burst::Burst;
use medium::queue::QueueMedium;
use packet::refusal::Refusal;
use packet::sum::Sum;

/// M = 3 and R = 8.
const FRAME: [u8; 9] = [0x01, 0x00, 0x06, 0x00, 0xc8, 0x01, 0x2c, 0x03, 0x08];

/// An ordinary alarm.
const MESSAGE: &[u8] = b"FIRE 0042 ZONE 7";

/// Places of each queue.
const PLACES: usize = 64;

/// A line with its media and the places that its calls are lent.
#[derive(Drop)]
struct Bench<'m> {
    line: Line<Sum>,
    eastward: QueueMedium<'m>,
    westward: QueueMedium<'m>,
    place: [u8; LONGEST],
}

impl<'m> Bench<'m> {
    fn arrive(&mut self, side: u8) -> Result<(), Refusal> {
        let Bench {
            line,
            eastward,
            westward,
            place,
        } = self;
        line.arrive(side, eastward, westward, place)?;
        Ok(())
    }

    /// One message is sent, stored, acknowledged and read out, and its outcome collected: five calls.
    fn carry(&mut self) -> Result<(), Refusal> {
        let Bench {
            line,
            eastward,
            westward,
            place,
        } = self;
        line.submit(0, MESSAGE, eastward, westward, place)?;
        line.arrive(1, eastward, westward, place)?;
        line.arrive(0, eastward, westward, place)?;
        line.read_out(1, eastward, westward, place)?;
        line.collect(0, eastward, westward)?;
        Ok(())
    }
}

/// How many calls it took to bring both ends up and to carry so many messages, if none was refused.
pub fn messages_carried(messages: u32) -> Result<u64, Refusal> {
    let mut memory = [Burst::blank(); PLACES];
    let mut other = [Burst::blank(); PLACES];
    let mut eastward = QueueMedium::over(&mut memory);
    let mut westward = QueueMedium::over(&mut other);
    let mut place = [0; LONGEST];
    let mut east_place = [0; LONGEST];
    let opened = Line::open(
        &FRAME,
        &FRAME,
        &mut eastward,
        &mut westward,
        &mut place,
        &mut east_place,
    )?;
    let mut bench = Bench {
        line: opened.line,
        eastward,
        westward,
        place,
    };
    for side in [1, 0, 0, 1] {
        bench.arrive(side)?;
    }
    for _ in 0..messages {
        bench.carry()?;
    }
    Ok(4 + 5 * u64::from(messages))
}
