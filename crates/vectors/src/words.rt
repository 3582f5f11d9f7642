// The word that begins a line.
ghost use Rattle.std.specs.Prelude.{◌≤◌, length};

// The most bytes of a word.
const LONGEST_WORD: usize = 64;

// Where the word that begins a line ends: before its first space, or the line's end.
pub fn word_end(line: &[u8]) -> usize
    ensures short { result ≤ 64 }
    ensures within { result ≤ length line.now }
{
    line.iter()
        .take(LONGEST_WORD)
        .take_while(|b| **b > b' ')
        .count()
}
