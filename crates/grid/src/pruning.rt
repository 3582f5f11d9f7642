// Which active children become constants, and which kind and number a constant has.
ghost use Rattle.std.specs.Prelude.{◌≡◌};
ghost use Rattle.grid.specs.Pruning as pruning;

use crate::{Kind, Verdict};
use float::{Max, Min, Operation};
use geometry::BoundingBox;

// Half the distance between a child's ends.
pub fn half_diagonal(b: BoundingBox) -> f64
    ensures { result ≡ pruning.half_diagonal b }
{
    let min = b.min;
    float::computed(min.distance_to_vec3(b.max) / 2.0)
}

// One of eight values, from the first on: what an operation makes of each with the values before it.
fn folded<O: Operation>(octet: [f64; 8]) -> f64
    ensures { result ≡ pruning.from_first O.of octet }
{
    let mut found = octet[0];
    for value in &octet[1..] {
        found = O::apply(found, *value);
    }
    found
}

// The least of eight values.
pub fn lowest(octet: [f64; 8]) -> f64
    ensures { result ≡ pruning.lowest octet }
{
    folded::<Min>(octet)
}

// The greatest of eight values.
pub fn highest(octet: [f64; 8]) -> f64
    ensures { result ≡ pruning.highest octet }
{
    folded::<Max>(octet)
}

// Whether no value within h of the octet's lies in the band from min_val to max_val.
#[tactic(auto, unfolding(crate::specs::Pruning::pruned))]
pub fn is_pruned(min_val: f64, max_val: f64, octet: [f64; 8], h: f64) -> bool
    ensures { result ≡ pruning.pruned min_val max_val (pruning.lowest octet) (pruning.highest octet) h }
{
    highest(octet) + h < min_val || lowest(octet) - h > max_val
}

// The mean of eight values, added from 0 on in their order.
pub fn average(octet: [f64; 8]) -> f64
    ensures { result ≡ pruning.average octet }
{
    let front = (((0.0 + octet[0]) + octet[1]) + octet[2]) + octet[3];
    let sum = (((front + octet[4]) + octet[5]) + octet[6]) + octet[7];
    float::computed(sum / 8.0)
}

// What an active child becomes that has the box b, by the band from min to max and its octet.
#[tactic(auto, unfolding(crate::specs::Pruning::verdict_of))]
pub fn decide_child(min: f64, max: f64, b: BoundingBox, octet: [f64; 8]) -> Verdict
    ensures { result ≡ pruning.verdict_of min max b octet }
{
    if is_pruned(min, max, octet, half_diagonal(b)) {
        return Verdict::Constant(Kind::Active, average(octet));
    }
    Verdict::Leaf
}
