// What it takes to be written: when a packet has an encoding, and how its fields are put.
ghost use Rattle.std.specs.Prelude.{◌≡◌, ◌≤◌, Bool, true, length, Decides};
ghost use Rattle.wire.specs.Writing.{Written};
ghost use Rattle.packet.specs.declared.kind.Kind.{Kind};
ghost use Rattle.packet.specs.Values.{PacketValue, kind_of};
ghost use Rattle.packet.specs.Encoding.{packet_bytes, WellFormed};
ghost use Rattle.packet_writer.specs.Writers.{longest};

pub trait Encode {
    // The packet that it stands for.
    ghost value: { Self → PacketValue };

    // The kinds that its reader asks for.
    ghost asked_by: { Kind → Bool };

    // Whether it has an encoding.
    fn fits(&self) -> bool
        ensures { Decides result (WellFormed (value self.now)) };

    // Its encoding in front of a buffer that takes any packet, and how long that is.
    fn put(&self, out: &mut [u8]) -> usize
        requires fits { WellFormed (value self.now) }
        requires room { longest ≤ length out.old }
        ensures { Written out.old (packet_bytes (value self.now)) out.new result };

    // Its reader asks for its kind.
    ghost asked: { (p : Self) → asked_by (kind_of (value p)) ≡ true };
}
