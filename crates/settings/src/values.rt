// The four settings of one end.
ghost use Rattle.std.specs.Prelude.{Some};
ghost use Rattle.settings.specs.Printed.{text};

use std::fmt;

#[derive(Clone, Copy, Debug, PartialEq, Eq)]
pub struct Settings {
    // Periods in hundredths of a second.
    pub enq_period: u16,
    pub data_period: u16,
    pub attempt_limit: u8,
    pub receive_limit: u8,
}

impl fmt::Display for Settings {
    ghost output = { λ settings. Some (text settings) };

    fn fmt<W: fmt::Write>(&self, f: &mut fmt::Formatter<W>) -> fmt::Result {
        write!(
            f,
            "enq={} data={} M={} R={}",
            self.enq_period, self.data_period, self.attempt_limit, self.receive_limit
        )
    }
}
