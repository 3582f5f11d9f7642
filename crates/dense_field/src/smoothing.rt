// Smoothing of a field's values, in rounds from one slice into the other. A row is the points of
// one j and k, and a slab those of one k.
ghost use Rattle.std.specs.Prelude.{◌≡◌, ◌+◌, ◌*◌, ◌<◌, ◌≤◌, cond, length, replicate};
ghost use Rattle.lists.specs.Filled.{filled};
ghost use Rattle.float.specs.Zero.{plus_zero};
ghost use Rattle.dense_field.specs.Inner.Lent.{Lent, Between};
ghost use Rattle.dense_field.specs.Inner.Offsets.{offset_sum, offset_blend};
ghost use Rattle.dense_field.specs.Outcomes.{smooth_outcome};
ghost use Rattle.dense_field.specs.Smoothing.{smooth_refused, value_of, smoothed_at, smoothed_once, smoothed};

use crate::counts;
use causes::Cause;
use geometry::Vec3i;

// Copies `count` values from `at` on.
fn copy_values(old: &[f64], new: &mut [f64], at: usize, count: usize)
    requires { (at + count ≤ length old.now) × (length new.old ≡ length old.now) }
    ensures { new.new ≡ filled at count (value_of old.now) new.old }
{
    model::copy_values(&old[at..at + count], &mut new[at..at + count]);
}

// The sum of a point's six neighbours.
fn neighbour_sum(n: Vec3i, values: &[f64], p: usize) -> f64
    requires { Between n p 1 (length values.now) (length values.now) }
    ensures { result ≡ offset_sum n values.now p }
{
    let row = n.i;
    let slab = n.i * n.j;
    values[p + 1]
        + values[p - 1]
        + values[p + row]
        + values[p - row]
        + values[p + slab]
        + values[p - slab]
}

// One round: the numbers of points of a field, how much of a point's value becomes its neighbours' mean,
// and the values before the round.
// Kept: `new` is no field, since it would be a `&mut` slice, and each clause would name it at the entry and
// at the exit. That it is as long as `old` stays a clause.
#[derive(Clone, Copy, Debug, PartialEq)]
struct Round<'a> {
    n: Vec3i,
    factor: f64,
    old: &'a [f64],
    ghost lent: { Lent n (length old.now) },
}

impl<'a> Round<'a> {
    // Blends `count` values from `at` on with their neighbours. The compiler makes vector instructions
    // of the loop.
    fn blend_values(&self, new: &mut [f64], at: usize, count: usize)
        requires { Between self.now.n at count (length self.now.old.now) (length new.old) }
        ensures { new.new ≡ filled at count (offset_blend self.now.n self.now.factor self.now.old.now) new.old }
    {
        let n = self.n;
        let factor = self.factor;
        let old = self.old;
        let keep = 1.0 - factor;
        for i in 0..count {
            let p = at + i;
            let sum = neighbour_sum(n, old, p);
            new[p] = float::computed(keep * old[p] + factor * (sum / 6.0));
        }
    }

    // One row of an inner slab: the inner points of an inner row are blended, the others stay.
    fn smooth_row(&self, new: &mut [f64], j: usize, k: usize)
        requires same { length new.old ≡ length self.now.old.now }
        requires inside { (j < self.now.n.j) × (0 < k) × (k + 1 < self.now.n.k) }
        ensures { new.new ≡ filled (k * (self.now.n.i * self.now.n.j) + j * self.now.n.i) self.now.n.i
            (smoothed_at self.now.n self.now.factor self.now.old.now) new.old }
    {
        let row = self.n.i;
        let at = k * (row * self.n.j) + j * row;
        if row < 3 || j == 0 || j + 1 == self.n.j {
            copy_values(self.old, new, at, row);
            return;
        }
        copy_values(self.old, new, at, 1);
        self.blend_values(new, at + 1, row - 2);
        copy_values(self.old, new, at + 1 + (row - 2), 1);
    }

    // One slab: the first and the last stay, and the others are smoothed row by row.
    fn smooth_slab(&self, new: &mut [f64], k: usize)
        requires same { length new.old ≡ length self.now.old.now }
        requires inside { k < self.now.n.k }
        ensures { new.new ≡ filled (k * (self.now.n.i * self.now.n.j)) (self.now.n.i * self.now.n.j)
            (smoothed_at self.now.n self.now.factor self.now.old.now) new.old }
    {
        let slab = self.n.i * self.n.j;
        if k == 0 || k + 1 == self.n.k {
            copy_values(self.old, new, k * slab, slab);
            return;
        }
        for j in 0..self.n.j {
            self.smooth_row(new, j, k);
        }
    }

    // The whole round, into the new values.
    fn smooth_once(&self, new: &mut [f64])
        requires { length new.old ≡ length self.now.old.now }
        ensures { new.new ≡ smoothed_once self.now.n self.now.factor self.now.old.now }
    {
        for k in 0..self.n.k {
            self.smooth_slab(new, k);
        }
    }
}

// One round, from the old values into the new.
fn smooth_once(n: Vec3i, factor: f64, old: &[f64], new: &mut [f64])
    requires { Lent n (length old.now) × (length new.old ≡ length old.now) }
    ensures { new.new ≡ smoothed_once n factor old.now }
{
    Round { n, factor, old }.smooth_once(new);
}

// All rounds, two at a time: from the values into the scratch and back. After an odd last round
// the result is copied back.
// Kept: these are the parameters of `smooth`, and of the original.
fn smooth_rounds(n: Vec3i, factor: f64, rounds: u32, values: &mut [f64], scratch: &mut [f64])
    requires { Lent n (length values.old) × (length scratch.old ≡ length values.old) }
    ensures { values.new ≡ smoothed n factor rounds values.old }
{
    for _ in 0..rounds / 2 {
        smooth_once(n, factor, &values[..], scratch);
        smooth_once(n, factor, &scratch[..], values);
    }
    if rounds % 2 == 1 {
        smooth_once(n, factor, &values[..], scratch);
        copy_values(&scratch[..], values, 0, scratch.len());
    }
}

// Smooths the values in so many rounds and sets the whole scratch to +0. A refusal changes nothing.
#[tactic(auto, unfolding(crate::specs::Outcomes::smooth_outcome, crate::specs::Outcomes::outcome_of, crate::specs::Smoothing::smooth_refused, crate::specs::Field::scratch_needed, causes::specs::First::first_of))]
pub fn smooth(
    n: Vec3i,
    factor: f64,
    rounds: u32,
    values: &mut [f64],
    scratch: &mut [f64],
) -> Result<(), Cause>
    ensures answer { result ≡ smooth_outcome n (length values.old) (length scratch.old) }
    ensures values { values.new
        ≡ cond (smooth_refused n (length values.old) (length scratch.old)) values.old
        (smoothed n factor rounds values.old) }
    ensures scratch { scratch.new
        ≡ cond (smooth_refused n (length values.old) (length scratch.old)) scratch.old
        (replicate (length scratch.old) plus_zero) }
{
    let count = values.len();
    counts::tested(n, count)?;
    if scratch.len() < count {
        return Err(Cause::Dimensions);
    }
    smooth_rounds(n, factor, rounds, values, &mut scratch[..count]);
    scratch.fill(0.0);
    Ok(())
}
