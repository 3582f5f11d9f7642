// Numbers written one after the other: those of an answer, or of a record.
ghost use Rattle.std.specs.Prelude.{◌≡◌, ◌+◌, ◌-◌, ◌≤◌, ◌++◌, [], ◌∷◌, length, map, replicate};
ghost use Rattle.arrayvec.specs.ArrayVec.{array_vec_len};
ghost use Rattle.causes.specs.Number.{number_of};
ghost use Rattle.cases.specs.Answer.{bits_of, box_bits, flag_of, grid_bits, indices_of, outcome_of, vector_bits};

use arrayvec::ArrayVec;
use causes::Cause;
use geometry::{BoundingBox, Vec3, Vec3i};
use grid::Grid;
use vectors::MOST_NUMBERS;

// What was written so far, with room for N numbers.
#[derive(Debug, Drop, PartialEq, Eq)]
pub struct Written<const N: usize> {
    pub numbers: ArrayVec<u64, N>,
}

// An answer has as many numbers as a line has room for.
pub type Answer = Written<MOST_NUMBERS>;

// Kept: each asks for the room that it takes, which the written numbers leave or not.
impl<const N: usize> Written<N> {
    pub fn new() -> Self
        ensures { result.numbers.items ≡ [] }
    {
        Written {
            numbers: ArrayVec::new(),
        }
    }

    // One number more, in place. What is written at length is written so, since a value that is handed
    // on by itself moves the whole room.
    pub fn put(&mut self, n: u64)
        requires { array_vec_len self.old.numbers + 1 ≤ N }
        ensures { self.new.numbers.items ≡ self.old.numbers.items ++ n ∷ [] }
    {
        self.numbers.push(n);
    }

    // The same of more numbers.
    pub fn put_all(&mut self, numbers: &[u64])
        requires { array_vec_len self.old.numbers + length numbers.now ≤ N }
        ensures { self.new.numbers.items ≡ self.old.numbers.items ++ numbers.now }
    {
        let _ = self.numbers.try_extend_from_slice(numbers);
    }

    // The same of floats, by their bits.
    pub fn put_floats(&mut self, xs: &[f64])
        requires { array_vec_len self.old.numbers + length xs.now ≤ N }
        ensures { self.new.numbers.items ≡ self.old.numbers.items ++ map bits_of xs.now }
    {
        for x in xs {
            self.put(float::to_bits(*x));
        }
    }

    // The same of a point.
    pub fn put_vector(&mut self, p: Vec3)
        requires { array_vec_len self.old.numbers + 3 ≤ N }
        ensures { self.new.numbers.items ≡ self.old.numbers.items ++ vector_bits p }
    {
        self.put_floats(&[p.x, p.y, p.z]);
    }

    // One number more.
    pub fn number(mut self, n: u64) -> Self
        requires { array_vec_len self.numbers + 1 ≤ N }
        ensures { result.numbers.items ≡ self.entry.numbers.items ++ n ∷ [] }
    {
        self.put(n);
        self
    }

    // The same of more numbers.
    pub fn copied(mut self, numbers: &[u64]) -> Self
        requires { array_vec_len self.numbers + length numbers.now ≤ N }
        ensures { result.numbers.items ≡ self.entry.numbers.items ++ numbers.now }
    {
        self.put_all(numbers);
        self
    }

    // A count or an index.
    pub fn place(self, n: usize) -> Self
        requires { array_vec_len self.numbers + 1 ≤ N }
        ensures { result.numbers.items ≡ self.entry.numbers.items ++ n ∷ [] }
    {
        self.number(n as u64)
    }

    // A yes is 1, a no 0.
    pub fn flag(self, b: bool) -> Self
        requires { array_vec_len self.numbers + 1 ≤ N }
        ensures { result.numbers.items ≡ self.entry.numbers.items ++ flag_of b ∷ [] }
    {
        self.number(u64::from(b))
    }

    // A float by its bits.
    pub fn float(self, x: f64) -> Self
        requires { array_vec_len self.numbers + 1 ≤ N }
        ensures { result.numbers.items ≡ self.entry.numbers.items ++ bits_of x ∷ [] }
    {
        self.number(float::to_bits(x))
    }

    pub fn floats(mut self, xs: &[f64]) -> Self
        requires { array_vec_len self.numbers + length xs.now ≤ N }
        ensures { result.numbers.items ≡ self.entry.numbers.items ++ map bits_of xs.now }
    {
        self.put_floats(xs);
        self
    }

    pub fn vector(mut self, p: Vec3) -> Self
        requires { array_vec_len self.numbers + 3 ≤ N }
        ensures { result.numbers.items ≡ self.entry.numbers.items ++ vector_bits p }
    {
        self.put_vector(p);
        self
    }

    // The indices or the counts along the axes.
    pub fn indices(self, n: Vec3i) -> Self
        requires { array_vec_len self.numbers + 3 ≤ N }
        ensures { result.numbers.items ≡ self.entry.numbers.items ++ indices_of n }
    {
        self.place(n.i).place(n.j).place(n.k)
    }

    pub fn bounds(self, b: BoundingBox) -> Self
        requires { array_vec_len self.numbers + 6 ≤ N }
        ensures { result.numbers.items ≡ self.entry.numbers.items ++ box_bits b }
    {
        self.vector(b.min).vector(b.max)
    }

    // A grid: its bounds, its cell, its blocks.
    pub fn grid(self, g: Grid) -> Self
        requires { array_vec_len self.numbers + 9 ≤ N }
        ensures { result.numbers.items ≡ self.entry.numbers.items ++ grid_bits g }
    {
        self.bounds(g.bounds)
            .float(g.cell)
            .number(u64::from(g.inner))
            .number(u64::from(g.leaf))
    }
}

impl<const N: usize> Written<N> {
    // All N numbers. Those that were not written are 0.
    pub fn whole(self) -> [u64; N]
        ensures { result ≡ self.entry.numbers.items ++ replicate (N - array_vec_len self.entry.numbers) 0 }
    {
        let mut all = [0; N];
        let count = self.numbers.len();
        all[..count].copy_from_slice(&self.numbers);
        all
    }
}

impl Answer {
    // That a call was accepted. What it gave follows.
    pub fn accepted() -> Self
        ensures { result.numbers.items ≡ 0 ∷ [] }
    {
        Answer::new().number(0)
    }

    // That a call was refused, by its cause.
    pub fn refused(cause: Cause) -> Self
        ensures { result.numbers.items ≡ number_of cause ∷ [] }
    {
        Answer::new().number(u64::from(cause.number()))
    }

    // What became of a call: 0, or the cause of its refusal.
    pub fn outcome<T: Copy>(done: Result<T, Cause>) -> Self
        ensures { result.numbers.items ≡ outcome_of done ∷ [] }
    {
        match done {
            Ok(_) => Answer::accepted(),
            Err(cause) => Answer::refused(cause),
        }
    }
}
