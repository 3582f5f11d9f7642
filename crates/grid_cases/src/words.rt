// The words of the cases.
ghost use Rattle.std.specs.Prelude.{◌≡◌, IfSome, take};
ghost use Rattle.grid_cases.specs.Words.{count_of, letters_of};

// What a case asks for.
#[derive(Clone, Copy, Debug, PartialEq, Eq)]
pub enum Word {
    Block,
    Size,
    Along,
    Counts,
    Node,
    Axis,
    Child,
    Active,
    Corner,
    Corners,
    Leaf,
    Leaves,
    Places,
    Half,
    Extremes,
    Pruned,
    ShortList,
    LongList,
    Open,
}

impl Word {
    // The word with these letters. Those past the eighth do not count.
    // Kept: each list of cases has words of its own, and no function takes words of more than one.
    pub fn named(letters: &[u8]) -> Option<Word>
        ensures { IfSome result (λ word. take 8 letters.now ≡ letters_of word) }
    {
        Some(match letters.get(..8).unwrap_or(letters) {
            b"block" => Word::Block,
            b"size" => Word::Size,
            b"along" => Word::Along,
            b"counts" => Word::Counts,
            b"node" => Word::Node,
            b"axis" => Word::Axis,
            b"child" => Word::Child,
            b"active" => Word::Active,
            b"corner" => Word::Corner,
            b"corners" => Word::Corners,
            b"leaf" => Word::Leaf,
            b"leaves" => Word::Leaves,
            b"places" => Word::Places,
            b"half" => Word::Half,
            b"extremes" => Word::Extremes,
            b"pruned" => Word::Pruned,
            b"list" => Word::ShortList,
            b"longlist" => Word::LongList,
            b"open" => Word::Open,
            _ => return None,
        })
    }

    // How many numbers follow the word.
    pub fn count(self) -> usize
        ensures { result ≡ count_of self }
    {
        match self {
            Word::Block => 1,
            Word::Places => 2,
            Word::Size | Word::Along => 3,
            Word::ShortList => 5,
            Word::Axis | Word::Half => 6,
            Word::Corner | Word::Leaf | Word::Extremes => 8,
            Word::Counts | Word::Corners | Word::Leaves => 9,
            Word::Node | Word::Active => 10,
            Word::Child | Word::Pruned => 11,
            Word::LongList => 12,
            Word::Open => 21,
        }
    }
}
