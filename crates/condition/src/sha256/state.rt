// The eight words that the rounds work on.
ghost use Rattle.std.specs.Prelude.{◌≡◌};
ghost use Rattle.condition.specs.Sha256.{added, initial, output};

#[derive(Clone, Copy)]
pub struct State {
    pub a: u32,
    pub b: u32,
    pub c: u32,
    pub d: u32,
    pub e: u32,
    pub f: u32,
    pub g: u32,
    pub h: u32,
}

// The hash value that every digest starts from.
pub(super) fn start() -> State
    ensures { result ≡ initial }
{
    State {
        a: 0x6a09_e667,
        b: 0xbb67_ae85,
        c: 0x3c6e_f372,
        d: 0xa54f_f53a,
        e: 0x510e_527f,
        f: 0x9b05_688c,
        g: 0x1f83_d9ab,
        h: 0x5be0_cd19,
    }
}

// The sums word by word, which wrap at 32 bits.
pub(super) fn add(s: State, t: State) -> State
    ensures { result ≡ added s t }
{
    State {
        a: s.a.wrapping_add(t.a),
        b: s.b.wrapping_add(t.b),
        c: s.c.wrapping_add(t.c),
        d: s.d.wrapping_add(t.d),
        e: s.e.wrapping_add(t.e),
        f: s.f.wrapping_add(t.f),
        g: s.g.wrapping_add(t.g),
        h: s.h.wrapping_add(t.h),
    }
}

// The eight words one after another, each with its highest byte first.
pub(super) fn bytes(s: State) -> [u8; 32]
    ensures { result ≡ output s }
{
    let words = [s.a, s.b, s.c, s.d, s.e, s.f, s.g, s.h].map(u32::to_be_bytes);
    let mut out = [0; 32];
    out.copy_from_slice(words.as_flattened());
    out
}
