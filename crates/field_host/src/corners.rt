// The corners that a node's active children need.
// Kept: the parameters, arrays with a count beside them too, are what C lends.
ghost use Rattle.std.specs.Prelude.{◌≡◌, length};
ghost use Rattle.grid.specs.CornerList.{corner_list_of, HoldsCorners};
ghost use Rattle.field_host.specs.Answers.{outcome_number, corners_count};

use crate::answers;

// Writes each needed corner of a node once, in no promised order, zeroes the rest of the list, and
// counts them. A kind that is not 0 is an active child. Refused by 2, then 6.
pub fn jisampode_corner_list(
    inner: u32,
    kinds: &[u8],
    list: &mut [u32],
    count: &mut [usize; 1],
) -> u32
    ensures answer { result ≡ outcome_number (corner_list_of inner kinds.now (length list.old)) }
    ensures list { HoldsCorners (corner_list_of inner kinds.now (length list.old)) inner kinds.now
        list.old list.new }
    ensures count { count.new ≡ corners_count count.old (corner_list_of inner kinds.now (length list.old)) }
{
    let listed = grid::corner_list(inner, kinds, list);
    if let Ok(corners) = listed {
        *count = [corners];
    }
    answers::number(listed)
}
