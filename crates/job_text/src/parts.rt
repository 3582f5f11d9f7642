// A part line, read into a part of a model.
ghost use Rattle.std.specs.Prelude.{◌≡◌, ◌≤◌, map};
ghost use Rattle.geometry.specs.Values.{vec3};
ghost use Rattle.forms.specs.Forms.{piece_of};
ghost use Rattle.job_text.specs.Lines.{part_form};
ghost use Rattle.job_text.specs.Parts.{float_of, part_from, pattern_from, part_among, read_part};
ghost use Rattle.job_text.specs.Inner.TextAnswers.{FitsWords, part_in};

use crate::LIMIT;
use geometry::Vec3;
use model::Part;

// The kinds of part lines.
#[derive(Clone, Copy, Debug, PartialEq, Eq)]
pub enum PartKind {
    Const,
    Sphere,
    Plane,
    Min,
    Max,
    Add,
    Sub,
    Neg,
}

// All kinds, in the order in which a line is held against their forms.
const PART_KINDS: [PartKind; 8] = [
    PartKind::Const,
    PartKind::Sphere,
    PartKind::Plane,
    PartKind::Min,
    PartKind::Max,
    PartKind::Add,
    PartKind::Sub,
    PartKind::Neg,
];

impl PartKind {
    // The form of a kind's lines.
    fn form(self) -> &'static [u8]
        ensures { map piece_of result.now ≡ part_form self }
    {
        match self {
            PartKind::Const => b"(const H)\n",
            PartKind::Sphere => b"(sphere H H H H)\n",
            PartKind::Plane => b"(plane H H H H)\n",
            PartKind::Min => b"(min D D)\n",
            PartKind::Max => b"(max D D)\n",
            PartKind::Add => b"(add D D)\n",
            PartKind::Sub => b"(sub D D)\n",
            PartKind::Neg => b"(neg D)\n",
        }
    }
}

// A part line: its kind, its numbers with 0 after them, and the text after it.
#[derive(Clone, Copy, Debug, PartialEq, Eq)]
pub struct PartLine<'a> {
    pub kind: PartKind,
    pub numbers: [u64; 4],
    pub rest: &'a [u8],
}

// A point from the bits of its coordinates.
pub fn point(x: u64, y: u64, z: u64) -> Vec3
    ensures { result ≡ vec3 (float_of x) (float_of y) (float_of z) }
{
    Vec3 {
        x: float::from_bits(x),
        y: float::from_bits(y),
        z: float::from_bits(z),
    }
}

// The part of a kind with a line's numbers. Those that name its inputs fit 32 bits.
#[tactic(auto, unfolding(crate::specs::Parts::part_from, crate::specs::Inner::TextAnswers::FitsWords))]
pub fn part_of(kind: PartKind, numbers: [u64; 4]) -> Part
    requires { FitsWords kind numbers }
    ensures { result ≡ part_from kind numbers }
{
    let [a, b, c, d] = numbers;
    match kind {
        PartKind::Const => Part::Constant(float::from_bits(a)),
        PartKind::Sphere => Part::Sphere(point(a, b, c), float::from_bits(d)),
        PartKind::Plane => Part::Plane(point(a, b, c), float::from_bits(d)),
        PartKind::Min => Part::Min(a as u32, b as u32),
        PartKind::Max => Part::Max(a as u32, b as u32),
        PartKind::Add => Part::Add(a as u32, b as u32),
        PartKind::Sub => Part::Sub(a as u32, b as u32),
        PartKind::Neg => Part::Neg(a as u32),
    }
}

// The bits of a constant as they are written, 0 for other parts.
#[tactic(auto, unfolding(crate::specs::Parts::pattern_from))]
pub fn pattern_of(kind: PartKind, numbers: [u64; 4]) -> u64
    ensures { result ≡ pattern_from kind numbers }
{
    match kind {
        PartKind::Const => numbers[0],
        PartKind::Sphere
        | PartKind::Plane
        | PartKind::Min
        | PartKind::Max
        | PartKind::Add
        | PartKind::Sub
        | PartKind::Neg => 0,
    }
}

// The part line at the front, of the first of some kinds whose form stands there.
fn line_among<'a>(kinds: &[PartKind], text: &'a [u8]) -> Option<PartLine<'a>>
    ensures { part_in result ≡ part_among kinds.now text.now }
{
    for kind in kinds {
        if let Some(line) = forms::read_form(text, kind.form(), LIMIT) {
            return Some(PartLine {
                kind: *kind,
                numbers: line.numbers,
                rest: line.rest,
            });
        }
    }
    None
}

// The part line at the front, of any kind.
pub fn part_line(text: &[u8]) -> Option<PartLine<'_>>
    ensures { part_in result ≡ read_part text.now }
{
    line_among(&PART_KINDS, text)
}
