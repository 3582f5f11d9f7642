// The words of the lines.
ghost use Rattle.std.specs.Prelude.{◌≡◌, IfSome};
ghost use Rattle.sparse_cases.specs.Words.{letters_of, takes};

// What a line does.
#[derive(Clone, Copy, Debug, PartialEq, Eq)]
pub enum Word {
    Lend,
    Parts,
    Open,
    Step,
    Drop,
    Forge,
    Poke,
    Dump,
    Full,
}

impl Word {
    // The word with these letters.
    // Kept: each list of cases has words of its own, and no function takes words of more than one.
    pub fn named(letters: &[u8]) -> Option<Word>
        ensures { IfSome result (λ word. letters.now ≡ letters_of word) }
    {
        Some(match letters {
            b"lend" => Word::Lend,
            b"parts" => Word::Parts,
            b"open" => Word::Open,
            b"step" => Word::Step,
            b"drop" => Word::Drop,
            b"forge" => Word::Forge,
            b"poke" => Word::Poke,
            b"dump" => Word::Dump,
            b"full" => Word::Full,
            _ => return None,
        })
    }

    // Whether so many numbers may follow the word.
    pub fn takes(self, count: usize) -> bool
        ensures { result ≡ takes self count }
    {
        match self {
            Word::Parts => true,
            Word::Open => count == 12,
            Word::Lend => count == 6,
            Word::Poke => count == 3,
            Word::Forge => count == 2,
            Word::Step => count == 1,
            Word::Drop | Word::Dump | Word::Full => count == 0,
        }
    }
}
