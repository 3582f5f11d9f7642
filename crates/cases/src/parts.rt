// The parts of a model, each a kind and four numbers.
ghost use Rattle.std.specs.Prelude.{◌≡◌, ◌+◌, ◌*◌, ◌≤◌, [], ◌∷◌, ◌++◌, drop, length, min};
ghost use Rattle.arrayvec.specs.ArrayVec.{array_vec_len};
ghost use Rattle.cases.specs.Answer.{bits_of, part_bits};
ghost use Rattle.cases.specs.Parts.{model_at, part_at, parts_at};

use crate::answer::Written;
use crate::numbers::Numbers;
use geometry::Vec3;
use model::{ImplicitModel, ModelComponent, Part};

impl Numbers<'_> {
    // A part: 0 is a constant, 1 a sphere, 2 a plane, 3 to 6 min, max, add and sub, any other kind neg.
    // Kept: the kinds are the numbers that the cases have.
    pub fn part(&mut self) -> Part
        ensures value { result ≡ part_at self.old.left.now 0 }
        ensures rest { self.new.left.now ≡ drop 5 self.old.left.now }
    {
        let kind = self.number();
        let mut first = *self;
        let mut inputs = *self;
        let vector = self.vector();
        let last = self.float();
        let a = inputs.short();
        let b = inputs.short();
        match kind {
            0 => Part::Constant(first.float()),
            1 => Part::Sphere(vector, last),
            2 => Part::Plane(vector, last),
            3 => Part::Min(a, b),
            4 => Part::Max(a, b),
            5 => Part::Add(a, b),
            6 => Part::Sub(a, b),
            _ => Part::Neg(a),
        }
    }

    // As many parts as there are places for.
    pub fn parts(&mut self, parts: &mut [ModelComponent])
        ensures values { parts.new ≡ parts_at self.old.left.now (length parts.old) }
        ensures rest { self.new.left.now ≡ drop (5 * length parts.old) self.old.left.now }
    {
        for component in parts {
            component.part = self.part();
        }
    }

    // A model that counts so many parts. Those that are given are read, 64 at most; the others are
    // constants of +0.
    pub fn model(&mut self, given: usize, count: u32) -> ImplicitModel
        ensures value { result ≡ model_at self.old.left.now given count }
        ensures rest { self.new.left.now ≡ drop (5 * min given 64) self.old.left.now }
    {
        let none = ModelComponent {
            part: Part::Constant(0.0),
        };
        let mut parts = [none; 64];
        self.parts(&mut parts[..given.min(64)]);
        ImplicitModel { parts, count }
    }
}

fn shape_numbers(kind: u64, v: Vec3, last: f64) -> [u64; 5]
    ensures { result ≡ kind ∷ bits_of v.x ∷ bits_of v.y ∷ bits_of v.z ∷ bits_of last ∷ [] }
{
    [
        kind,
        float::to_bits(v.x),
        float::to_bits(v.y),
        float::to_bits(v.z),
        float::to_bits(last),
    ]
}

fn operation_numbers(kind: u64, a: u32, b: u32) -> [u64; 5]
    ensures { result ≡ kind ∷ a ∷ b ∷ 0 ∷ 0 ∷ [] }
{
    [kind, u64::from(a), u64::from(b), 0, 0]
}

// A part: its kind, and four numbers.
pub fn part_numbers(part: Part) -> [u64; 5]
    ensures { result ≡ part_bits part }
{
    match part {
        Part::Constant(x) => [0, float::to_bits(x), 0, 0, 0],
        Part::Sphere(v, r) => shape_numbers(1, v, r),
        Part::Plane(v, d) => shape_numbers(2, v, d),
        Part::Min(a, b) => operation_numbers(3, a, b),
        Part::Max(a, b) => operation_numbers(4, a, b),
        Part::Add(a, b) => operation_numbers(5, a, b),
        Part::Sub(a, b) => operation_numbers(6, a, b),
        Part::Neg(a) => operation_numbers(7, a, 0),
    }
}

impl<const N: usize> Written<N> {
    pub fn part(self, part: Part) -> Self
        requires { array_vec_len self.numbers + 5 ≤ N }
        ensures { result.numbers.items ≡ self.entry.numbers.items ++ part_bits part }
    {
        self.copied(&part_numbers(part))
    }
}
