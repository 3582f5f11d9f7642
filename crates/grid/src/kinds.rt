// The number of a child's kind, and the kind of a number.
ghost use Rattle.std.specs.Prelude.{◌≡◌};
ghost use Rattle.grid.specs.Kinds.{kind_number, kind_of};

use crate::Kind;

// The number that a lent slice holds.
impl From<Kind> for u8 {
    ghost from_gives = { λ kind number. number ≡ kind_number kind };

    fn from(kind: Kind) -> u8 {
        kind as u8
    }
}

// The kind that a lent number stands for. One that is no kind's counts as active.
impl From<u8> for Kind {
    ghost from_gives = { λ number kind. kind ≡ kind_of number };

    fn from(number: u8) -> Kind {
        match number {
            0 => Kind::Empty,
            2 => Kind::Leaf,
            _ => Kind::Active,
        }
    }
}
