// Why a call is refused: the causes, and their numbers.
#![tactic(auto)]

ghost use Rattle.std.specs.Prelude.{◌≡◌};
ghost use Rattle.causes.specs.Number.{number_of};

use std::error::Error;
use std::fmt;

// A cause of a refusal (rules C1 to C11). Of several that apply the first of this list is named.
#[derive(Clone, Copy, Debug, PartialEq, Eq)]
pub enum Cause {
    // Bounds or an origin that are not finite, bounds that end before they begin, or a cell's size that is
    // not above 0.
    Bounds = 1,
    // A block's size that is none.
    BlockSize = 2,
    // A limit of the band that is a NaN.
    BandLimit = 3,
    // No parts, too many, or an input that does not stand before its part.
    Parts = 4,
    // A node without a finite size, or too many nodes or children.
    Nodes = 5,
    // A lent slice that is too short.
    TooShort = 6,
    // A step without a job.
    NoJob = 7,
    // A step with a record that no job has.
    ImpossibleRecord = 8,
    // Dimensions that no field has, or values that are not as many.
    Dimensions = 9,
    // A point or a cell outside the field.
    Outside = 10,
    // A walk with too few or too many places, or a cursor outside it.
    Walk = 11,
}

impl Cause {
    // The number by which callers know the cause.
    // Kept: `u32::from(cause)` says less at the calls.
    pub fn number(self) -> u32
        ensures { result ≡ number_of self }
    {
        self as u32
    }
}

impl fmt::Display for Cause {
    fn fmt<W: fmt::Write>(&self, f: &mut fmt::Formatter<W>) -> fmt::Result {
        write!(f, "cause {}", self.number())
    }
}

impl Error for Cause {}
