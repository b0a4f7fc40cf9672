// What a slip is asked.
ghost use Rattle.std.specs.Prelude.{◌≡◌};

use super::DeliverySlip;

impl DeliverySlip {
    // The number of the line that the delivery came by.
    pub fn line(&self) -> u8
        ensures { result ≡ self.now.line }
    {
        self.line
    }

    // The number of the buffer that is out.
    pub fn buffer(&self) -> u8
        ensures { result ≡ self.now.buffer }
    {
        self.buffer
    }
}
