// A reader over a lent packet: the packet's bytes, of which it copies none, and the place of the next one.
ghost use Rattle.std.specs.Prelude.{◌≤◌, length};

mod calls;

#[derive(Drop)]
pub struct Reader<'a> {
    bytes: &'a [u8],
    place: usize,
    ghost within: { place ≤ length bytes.now },
}
