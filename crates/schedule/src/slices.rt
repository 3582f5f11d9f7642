// The five slices that a job is lent: to be written, and to be read.
ghost use Rattle.std.specs.Prelude.{◌≡◌};
ghost use Rattle.schedule.specs.Opened.{lengths_of, zero_memory};
ghost use Rattle.schedule.specs.Lent.{held, viewed, SameSlices};

use input::Lengths;

// Five slices, to be written (rule S1). They are the lender's: a call that takes them leaves the same
// five.
// Kept: no equality, since `&mut` slices have none, and no copy.
#[derive(Drop)]
pub struct Slices<'a> {
    pub kinds: &'a mut [u8],
    pub numbers: &'a mut [f64],
    pub places: &'a mut [u32],
    pub store: &'a mut [f64],
    pub corners: &'a mut [f64],
}

// The same five, to be read.
#[derive(Clone, Copy, Debug, PartialEq)]
pub struct View<'a> {
    pub kinds: &'a [u8],
    pub numbers: &'a [f64],
    pub places: &'a [u32],
    pub store: &'a [f64],
    pub corners: &'a [f64],
}

impl<'a> Slices<'a> {
    // To be read for a while.
    pub fn view(&self) -> View<'_>
        ensures { viewed result ≡ held self.now }
    {
        View {
            kinds: self.kinds,
            numbers: self.numbers,
            places: self.places,
            store: self.store,
            corners: self.corners,
        }
    }

    // All five set to zero, whole.
    pub fn zero(&mut self)
        ensures slices { SameSlices self.old self.new }
        ensures memory { held self.new ≡ zero_memory (lengths_of (held self.old)) }
    {
        self.kinds.fill(0);
        self.numbers.fill(0.0);
        self.places.fill(0);
        self.store.fill(0.0);
        self.corners.fill(0.0);
    }
}

impl<'a> View<'a> {
    // How long each is.
    pub fn lengths(&self) -> Lengths
        ensures { result ≡ lengths_of (viewed self.now) }
    {
        Lengths {
            kinds: self.kinds.len(),
            numbers: self.numbers.len(),
            places: self.places.len(),
            store: self.store.len(),
            corners: self.corners.len(),
        }
    }
}
