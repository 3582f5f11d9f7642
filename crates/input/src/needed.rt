// How long the five slices of a job have to be.
ghost use Rattle.std.specs.Prelude.{◌≡◌};
ghost use Rattle.input.specs.Needed.{needed_lengths, shorter};

use crate::Lengths;
use grid::SizedGrid;

// The lengths that a grid's jobs need.
pub fn needed_lengths(g: SizedGrid) -> Lengths
    ensures { result ≡ needed_lengths g.grid }
{
    let children = g.children();
    Lengths {
        kinds: children,
        numbers: children,
        places: children,
        store: g.active_children() as usize * g.leaf_points(),
        corners: g.node_corners(),
    }
}

// Whether one of five lengths is below the one that it is held against.
#[tactic(auto, unfolding(crate::specs::Needed::shorter))]
pub fn is_shorter(lengths: Lengths, needed: Lengths) -> bool
    ensures { result ≡ shorter lengths needed }
{
    lengths.kinds < needed.kinds
        || lengths.numbers < needed.numbers
        || lengths.places < needed.places
        || lengths.store < needed.store
        || lengths.corners < needed.corners
}
