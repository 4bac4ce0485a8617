// A writer over a lent buffer: what is written goes to its place, and the place goes on.

mod calls;

#[derive(Drop)]
pub struct Writer<'a> {
    out: &'a mut [u8],
    place: usize,
}
