// The numbers that are open, at most 64, in the order taken and none twice. A fixed array and a count: no call
// allocates, and a value is `Copy`, which the kit's `ArrayVec` is not.
ghost use Rattle.std.specs.Prelude.{◌≡◌, ◌<◌, ◌≤◌, true, false, [], ◌∷◌, ◌++◌, length, take, ◌==◌, position};
ghost use Rattle.stage.specs.Numbers.{among, none_twice, without};

pub const MOST_OPEN: usize = 64;

#[derive(Clone, Copy)]
pub struct OpenNumbers {
    places: [u32; MOST_OPEN],
    count: usize,
    ghost few: { count ≤ 64 },
    ghost once: { none_twice (take count places) ≡ true },
}

impl OpenNumbers {
    ghost use Rattle.stage.specs.Opened.{opened};

    pub(crate) fn new() -> OpenNumbers
        ensures { opened result ≡ [] }
    {
        OpenNumbers {
            places: [0; MOST_OPEN],
            count: 0,
        }
    }

    pub(crate) fn count(&self) -> usize
        ensures { result ≡ length (opened self.now) }
    {
        self.count
    }

    // The place of a number that is open.
    fn find(&self, number: u32) -> Option<usize>
        ensures { result ≡ position (λ x. x == number) (opened self.now) }
    {
        self.places[..self.count]
            .iter()
            .position(|open| *open == number)
    }

    pub(crate) fn has(&self, number: u32) -> bool
        ensures { result ≡ among (opened self.now) number }
    {
        self.places[..self.count].contains(&number)
    }

    // Opens a number.
    pub(crate) fn add(&mut self, number: u32)
        requires new { among (opened self.old) number ≡ false }
        requires room { length (opened self.old) < 64 }
        ensures { opened self.new ≡ opened self.old ++ number ∷ [] }
    {
        self.places[self.count] = number;
        self.count += 1;
    }

    // Closes a number, and keeps the order of the others; one that is not open changes nothing.
    pub(crate) fn remove(&mut self, number: u32)
        ensures numbers { opened self.new ≡ without (opened self.old) number }
        ensures unchanged { among (opened self.old) number ≡ false → self.new ≡ self.old }
    {
        let Some(place) = self.find(number) else {
            return;
        };
        self.places.copy_within(place + 1..self.count, place);
        self.count -= 1;
    }
}
