// Where the answers of a list go: into its digest, or written whole where that was asked for.
ghost use Rattle.std.specs.Prelude.{◌≡◌, false, OnOk};
ghost use Rattle.vectors.specs.Digest.{no_bytes};

use std::io;

#[derive(Clone, Copy, Debug, PartialEq, Eq)]
pub struct Output {
    // The digest of the list's answers so far.
    pub digest: u64,
    // Whether the answers are written whole.
    pub whole: bool,
}

impl Output {
    // No answers, as at the first list.
    pub fn new() -> Output
        ensures digest { result.digest ≡ no_bytes }
        ensures whole { result.whole ≡ false }
    {
        Output {
            digest: vectors::digest_start(),
            whole: false,
        }
    }

    // Takes a line of answers.
    pub fn take(&mut self, rt: &impl Print, numbers: &[u64]) -> io::Result<()>
        ensures whole { self.new.whole ≡ self.old.whole }
    {
        if self.whole {
            return vectors::write_numbers(rt, numbers);
        }
        self.digest = vectors::digest_numbers(self.digest, numbers);
        Ok(())
    }

    // Ends a list: writes its digest, and begins the next list's.
    pub fn close(&mut self, rt: &impl Print) -> io::Result<()>
        ensures digest { OnOk result (self.new.digest ≡ no_bytes) }
        ensures whole { self.new.whole ≡ self.old.whole }
    {
        if !self.whole {
            vectors::write_numbers(rt, &[self.digest])?;
        }
        self.digest = vectors::digest_start();
        Ok(())
    }
}
