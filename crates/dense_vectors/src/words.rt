// The words of the cases.
ghost use Rattle.std.specs.Prelude.{◌≡◌, IfSome};
ghost use Rattle.dense_vectors.specs.Words.{letters_of};

// The call that a case makes.
#[derive(Clone, Copy, Debug, PartialEq, Eq)]
pub enum Word {
    Count,
    Place,
    Indices,
    Corners,
    Points,
    Cells,
    Pad,
    Threshold,
    Smooth,
    Octet,
    Octets,
    Sample,
}

impl Word {
    // The word with these letters.
    // Kept: each list of cases has words of its own, and no function takes words of more than one.
    pub fn named(letters: &[u8]) -> Option<Word>
        ensures { IfSome result (λ word. letters.now ≡ letters_of word) }
    {
        Some(match letters {
            b"count" => Word::Count,
            b"place" => Word::Place,
            b"indices" => Word::Indices,
            b"corners" => Word::Corners,
            b"points" => Word::Points,
            b"cells" => Word::Cells,
            b"pad" => Word::Pad,
            b"threshold" => Word::Threshold,
            b"smooth" => Word::Smooth,
            b"octet" => Word::Octet,
            b"octets" => Word::Octets,
            b"sample" => Word::Sample,
            _ => return None,
        })
    }
}
