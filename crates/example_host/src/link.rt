// A link to a peer, as a host has one.
ghost use Rattle.std.specs.Prelude.{◌≡◌, ℕ, Bool, List};

// It takes a packet, or is full and takes nothing.
pub trait Link {
    // Whether it would take these bytes now.
    ghost takes: { Self → List ℕ → Bool };

    // Hands it a packet, and says whether it took it. What it takes later is left open.
    fn offer(&mut self, packet: &[u8]) -> bool
        ensures { result ≡ takes self.old packet.now };
}
