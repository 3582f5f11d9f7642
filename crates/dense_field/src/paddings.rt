// The outside points of a field are set to one value. A row is the points of one j and k, and a
// slab those of one k.
ghost use Rattle.std.specs.Prelude.{◌≡◌, ◌+◌, ◌*◌, ◌<◌, length, if◌then◌else◌};
ghost use Rattle.lists.specs.Filled.{filled};
ghost use Rattle.dense_field.specs.Field.{values_refused};
ghost use Rattle.dense_field.specs.Inner.Lent.{Lent};
ghost use Rattle.dense_field.specs.Outcomes.{outcome_of};
ghost use Rattle.dense_field.specs.Padding.{padded_at, padded};

use crate::counts;
use causes::Cause;
use geometry::Vec3i;

// One row of an inner slab: all of an outer row, and the two ends of an inner one.
// Kept: `n` and `values` stay two parameters. A struct of both would hold a `&mut` slice, and each clause
// would name its fields at the entry and at the exit, which is longer than `Lent`.
fn pad_row(n: Vec3i, value: f64, values: &mut [f64], j: usize, k: usize)
    requires lent { Lent n (length values.old) }
    requires inside { (j < n.j) × (0 < k) × (k + 1 < n.k) }
    ensures { values.new
        ≡ filled (k * (n.i * n.j) + j * n.i) n.i (padded_at n value values.old) values.old }
{
    let at = k * (n.i * n.j) + j * n.i;
    if j == 0 || j + 1 == n.j {
        values[at..at + n.i].fill(value);
        return;
    }
    values[at] = value;
    values[at + (n.i - 1)] = value;
}

// One slab: all of the first and of the last, and the others row by row.
fn pad_slab(n: Vec3i, value: f64, values: &mut [f64], k: usize)
    requires lent { Lent n (length values.old) }
    requires inside { k < n.k }
    ensures { values.new ≡ filled (k * (n.i * n.j)) (n.i * n.j) (padded_at n value values.old) values.old }
{
    let slab = n.i * n.j;
    if k == 0 || k + 1 == n.k {
        values[k * slab..k * slab + slab].fill(value);
        return;
    }
    for j in 0..n.j {
        pad_row(n, value, values, j, k);
    }
}

fn pad_slabs(n: Vec3i, value: f64, values: &mut [f64])
    requires { Lent n (length values.old) }
    ensures { values.new ≡ padded n value values.old }
{
    for k in 0..n.k {
        pad_slab(n, value, values, k);
    }
}

// Sets every point on the outside to a value (rule D6). No other point is written. A refusal changes
// nothing.
#[tactic(auto, unfolding(crate::specs::Outcomes::outcome_of, causes::specs::First::first_of))]
pub fn padding(n: Vec3i, value: f64, values: &mut [f64]) -> Result<(), Cause>
    ensures answer { result ≡ outcome_of n (length values.old) }
    ensures values { values.new
        ≡ (if values_refused n (length values.old) then values.old else padded n value values.old) }
{
    counts::tested(n, values.len())?;
    pad_slabs(n, value, values);
    Ok(())
}
