// The duty to send a packet that was forwarded. It can be neither copied nor dropped: the host spends it by saying that the
// packet was sent, or that it was not.
ghost use Rattle.std.specs.Prelude.{◌≡◌};

pub struct SendDuty {
    number: u32,
}

impl SendDuty {
    // The number of the packet.
    pub fn number(&self) -> u32
        ensures { result ≡ self.now.number }
    {
        self.number
    }

    // Only a forwarded packet makes one.
    pub(crate) fn new(number: u32) -> SendDuty
        ensures { result.number ≡ number }
    {
        SendDuty { number }
    }

    pub(crate) fn spend(self) -> u32
        ensures { result ≡ self.number }
    {
        let SendDuty { number } = self;
        number
    }
}
