// Counts of stored cases, one for each kind, and their report.
ghost use Rattle.std.specs.Prelude.{◌≡◌, ◌<◌, replicate};
ghost use Rattle.vectors.specs.Tally.{counted, plus, total_of, wrong_if};

use std::io;

// At most so many lines of a sort are named.
pub const SHOWN: u64 = 10;

// The cases of each kind, those that are wrong, and the lines that are off their form. No list is long
// enough for a count to wrap.
#[derive(Clone, Copy, Debug, PartialEq, Eq)]
pub struct Tally<const N: usize> {
    pub cases: [u64; N],
    pub wrong: [u64; N],
    pub off: u64,
}

impl<const N: usize> Tally<N> {
    // No case.
    pub fn new() -> Self
        ensures cases { result.cases ≡ replicate N 0 }
        ensures wrong { result.wrong ≡ replicate N 0 }
        ensures off { result.off ≡ 0 }
    {
        Tally {
            cases: [0; N],
            wrong: [0; N],
            off: 0,
        }
    }

    // One case more of a kind.
    pub fn add(&mut self, kind: usize, right: bool)
        requires { kind < N }
        ensures cases { self.new.cases ≡ counted kind self.old.cases }
        ensures wrong { self.new.wrong ≡ wrong_if right kind self.old.wrong }
        ensures off { self.new.off ≡ self.old.off }
    {
        self.cases[kind] = self.cases[kind].wrapping_add(1);
        if !right {
            self.wrong[kind] = self.wrong[kind].wrapping_add(1);
        }
    }

    // One line more that is off its form.
    pub fn add_off(&mut self)
        ensures cases { self.new.cases ≡ self.old.cases }
        ensures wrong { self.new.wrong ≡ self.old.wrong }
        ensures off { self.new.off ≡ plus self.old.off 1 }
    {
        self.off = self.off.wrapping_add(1);
    }

    // Prints a line for each kind by its name, one for all of them, and one for the lines off their form.
    pub fn report(&self, rt: &impl Print, names: &[&str]) -> io::Result<()> {
        for ((name, cases), wrong) in names.iter().zip(&self.cases).zip(&self.wrong) {
            print_counts(rt, name, *cases, *wrong)?;
        }
        print_counts(rt, "total", total(&self.cases), total(&self.wrong))?;
        let off = self.off;
        if off > 0 {
            println!(rt; "{off} lines off their form")?;
        }
        Ok(())
    }
}

// The count over all kinds.
pub fn total(counts: &[u64]) -> u64
    ensures { result ≡ total_of counts.now }
{
    counts.iter().fold(0, |sum, n| sum.wrapping_add(*n))
}

fn print_counts(rt: &impl Print, kind: &str, cases: u64, wrong: u64) -> io::Result<()> {
    println!(rt; "{kind} {cases} cases, {wrong} wrong")
}
