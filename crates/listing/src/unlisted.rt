// Why there is no listing.
ghost use Rattle.std.specs.Prelude.{◌≡◌};
ghost use Rattle.listing.specs.Unlisted.{number_of};

use causes::Cause;
use std::error::Error;
use std::fmt;

// A refusal by the number of its cause; or a job that is not finished, or has a leaf outside the
// store.
#[derive(Clone, Copy, Debug, PartialEq, Eq)]
pub enum Unlisted {
    Refused(Cause),
    NotPrintable,
}

// The number by which C knows it.
impl From<Unlisted> for u32 {
    ghost from_gives = { λ e n. n ≡ number_of e };

    fn from(unlisted: Unlisted) -> u32 {
        match unlisted {
            Unlisted::Refused(cause) => cause.number(),
            Unlisted::NotPrintable => 8,
        }
    }
}

impl fmt::Display for Unlisted {
    fn fmt<W: fmt::Write>(&self, f: &mut fmt::Formatter<W>) -> fmt::Result {
        match self {
            Unlisted::Refused(cause) => write!(f, "refused by {cause}"),
            Unlisted::NotPrintable => write!(f, "not printable"),
        }
    }
}

impl Error for Unlisted {}
