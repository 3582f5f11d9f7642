// How far a budget goes.
ghost use Rattle.std.specs.Prelude.{◌≡◌, min};

// How many evaluations a budget allows, where so many are left.
pub fn allowed(budget: u64, left: usize) -> usize
    ensures { result ≡ min budget left }
{
    if budget < left as u64 {
        budget as usize
    } else {
        left
    }
}
