// Which pairs of the sample bytes are one channel's.
ghost use Rattle.std.specs.Prelude.{◌≡◌, ◌<◌, ◌≤◌};
ghost use Rattle.copy.specs.Samples.{pairs_fit};

// The first is pair number `first`, each next one stands `step` pairs on, and they are `count`. With `iq` the I of a
// pair stands before its Q.
#[derive(Clone, Copy)]
pub struct Pairs {
    pub iq: bool,
    pub first: usize,
    pub step: usize,
    pub count: usize,
}

impl Pairs {
    // Whether they lie inside size bytes, two numbers of so many bytes each, and a slice has room for them. Nothing is
    // multiplied by the step, so that no test overflows: the last pair is found by a division.
    pub(crate) fn fit(self, width: usize, size: usize, room: usize) -> bool
        requires { (0 < width) × (width ≤ 4) }
        ensures { result ≡ pairs_fit width size self.first self.step self.count room }
    {
        if room / 2 < self.count {
            return false;
        }
        if self.count == 0 {
            return true;
        }
        let places = size / (2 * width);
        if places <= self.first {
            return false;
        }
        if self.step == 0 {
            return true;
        }
        self.count - 1 <= (places - 1 - self.first) / self.step
    }
}

// How many words of four bytes come before the first that lies at a multiple of 16 bytes, where the first word stands
// at a place; at most so many. Vectors are loaded faster from there on: a stream is taken to lie at such an address
// itself.
pub(crate) fn lead(place: usize, most: usize) -> usize
    ensures { result ≤ most }
{
    ((16 - place % 16) % 16 / 4).min(most)
}
