// The square root of an f64, correctly rounded, worked out from bits: an estimate by float
// arithmetic, a trial of it that is exact where it has no objections, and a search for the others.
#![tactic(auto)]

ghost use Rattle.std.specs.Prelude.{◌≡◌, map};
ghost use Rattle.root.specs.Root.{square_root};

// A float by its bits, reduced to a number in [1/2, 2).
mod operand;
// An estimate of a root.
mod seed;
// A root tried without a branch.
mod trial;
// The search on whole numbers.
mod whole;
// From a float's bits to its root's.
mod bits;
// A row of at most 64 roots.
mod row;

// The correctly rounded square root (rule F2). What is below 0 has none: NaN. A zero and +infinity are
// their own (rule F3).
pub fn sqrt(x: f64) -> f64
    ensures { result ≡ square_root x }
{
    bits::root(x)
}

// Each element becomes its correctly rounded square root.
pub fn sqrt_row(xs: &mut [f64])
    ensures { xs.new ≡ map square_root xs.old }
{
    for at in (0..xs.len()).step_by(64) {
        let end = xs.len().min(at + 64);
        row::roots(&mut xs[at..end]);
    }
}
