// What a station is asked.
ghost use Rattle.std.specs.Prelude.{◌≡◌, length};
ghost use Rattle.secondary.specs.Station.{model, buffer_out};

use super::Secondary;
use packet::number::Number;

impl Secondary {
    // The number of the last ACK, none while the last answer is RESET.
    pub fn last_answer(&self) -> Option<Number>
        ensures { result ≡ (model self.now).last }
    {
        self.last
    }

    // How many deliveries are held, the one that is out counted.
    pub fn held(&self) -> u8
        ensures { result ≡ length (model self.now).held }
    {
        self.deliveries.held()
    }

    // The number of the buffer that is out.
    pub fn buffer_out(&self) -> Option<u8>
        ensures { result ≡ buffer_out (model self.now) }
    {
        self.out.then_some(self.deliveries.oldest())
    }
}
