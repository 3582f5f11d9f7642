// The lines of a text.
ghost use Rattle.std.specs.Prelude.{◌≡◌, ◌<◌, ◌==◌, length, position};
ghost use Rattle.std.specs.Iterator.{at_most};
ghost use Rattle.vectors.specs.Line.{LineEnd, IsFirstLine};

// The place of the first byte 10.
fn first_end(s: &[u8]) -> Option<usize>
    ensures { result ≡ position (λ b. b == 10) s.now }
{
    s.iter().position(|b| *b == b'\n')
}

// Where the line that holds a place ends: past its byte 10, or at the end of the text.
pub fn line_end(s: &[u8], at: usize) -> usize
    requires { at < length s.now }
    ensures { LineEnd s.now at result }
{
    match first_end(&s[at..]) {
        Some(k) => at + k + 1,
        None => s.len(),
    }
}

// The lines of a text that are left, each with its byte 10.
#[derive(Clone, Copy, Debug)]
pub struct Lines<'a> {
    pub left: &'a [u8],
}

impl<'a> Lines<'a> {
    pub fn new(text: &'a [u8]) -> Lines<'a>
        ensures { result.left.now ≡ text.entry.now }
    {
        Lines { left: text }
    }
}

impl<'a> Iterator for Lines<'a> {
    type Item = &'a [u8];

    ghost next_gives = { λ s r t. IsFirstLine s.left.now r t.left.now };

    ghost remaining = { λ s. at_most (length s.left.now) };

    fn next(&mut self) -> Option<&'a [u8]> {
        if self.left.is_empty() {
            return None;
        }
        let (line, rest) = self.left.split_at(line_end(self.left, 0));
        self.left = rest;
        Some(line)
    }
}
