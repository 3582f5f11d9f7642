// What a byte of a form stands for.
ghost use Rattle.std.specs.Prelude.{◌≡◌};
ghost use Rattle.forms.specs.Forms.{piece_of, is_field, after};

// A float's bits, a decimal number, or a byte that stands for itself.
#[derive(Clone, Copy, Debug, PartialEq, Eq)]
pub enum Piece {
    Hex,
    Decimal,
    Byte(u8),
}

impl From<u8> for Piece {
    ghost from_gives = { λ b piece. piece ≡ piece_of b };

    #[tactic(auto, unfolding(crate::specs::Forms::piece_of))]
    fn from(b: u8) -> Piece {
        match b {
            b'H' => Piece::Hex,
            b'D' => Piece::Decimal,
            _ => Piece::Byte(b),
        }
    }
}

impl Piece {
    // Whether a piece has a number.
    #[tactic(auto, unfolding(crate::specs::Forms::is_field))]
    pub fn is_field(self) -> bool
        ensures { result ≡ is_field self }
    {
        match self {
            Piece::Hex | Piece::Decimal => true,
            Piece::Byte(_) => false,
        }
    }

    // The numbers that are left after a piece.
    #[tactic(auto, unfolding(crate::specs::Forms::is_field, crate::specs::Forms::after))]
    pub fn after(self, numbers: &[u64]) -> &[u64]
        ensures { result.now ≡ after self numbers.now }
    {
        match self {
            Piece::Hex | Piece::Decimal => &numbers[numbers.len().min(1)..],
            Piece::Byte(_) => numbers,
        }
    }
}
