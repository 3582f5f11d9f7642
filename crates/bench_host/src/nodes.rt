// The grid of a sparse field.
ghost use Rattle.std.specs.Prelude.{◌≡◌, cond, eqb};
ghost use Rattle.grid.specs.Boxes.{node_box, child_box};
ghost use Rattle.grid.specs.Corners.{corner_point};
ghost use Rattle.grid.specs.Leaves.{leaf_point};
ghost use Rattle.grid.specs.Nodes.{node_size};
ghost use Rattle.grid.specs.Pruning.{half_diagonal, lowest, highest, average};
ghost use Rattle.field_host.specs.Answers.{coordinates, ends};
ghost use Rattle.field_host.specs.Given.{box_given, grid_given};

use field_host::{box_of, put_box, put_point};
use grid::Grid;

// The size of a node.
#[unsafe(no_mangle)]
pub extern "C" fn bench_node_size(cell: f64, inner: u32, leaf: u32) -> f64
    ensures { result ≡ node_size cell inner leaf }
{
    grid::node_size(cell, inner, leaf)
}

// The ends of node v's box.
#[unsafe(no_mangle)]
pub extern "C" fn bench_node_box(
    x0: f64,
    y0: f64,
    z0: f64,
    x1: f64,
    y1: f64,
    z1: f64,
    cell: f64,
    inner: u32,
    leaf: u32,
    v: usize,
    out: &mut [f64; 6],
)
    ensures { out.new ≡ ends (node_box (grid_given (box_given x0 y0 z0 x1 y1 z1) cell inner leaf) v) }
{
    let g = Grid {
        bounds: box_of(x0, y0, z0, x1, y1, z1),
        cell,
        inner,
        leaf,
    };
    put_box(grid::node_box(g, v), out);
}

// The ends of the box of child c of a node that has a box and n children along an axis, n not 0. With 0
// nothing is written.
#[unsafe(no_mangle)]
pub extern "C" fn bench_child_box(
    x0: f64,
    y0: f64,
    z0: f64,
    x1: f64,
    y1: f64,
    z1: f64,
    n: u32,
    c: usize,
    out: &mut [f64; 6],
)
    ensures { out.new ≡ cond (eqb n 0) out.old (ends (child_box (box_given x0 y0 z0 x1 y1 z1) n c)) }
{
    if n == 0 {
        return;
    }
    put_box(grid::child_box(box_of(x0, y0, z0, x1, y1, z1), n, c), out);
}

// Half the distance between a box's ends.
#[unsafe(no_mangle)]
pub extern "C" fn bench_half_diagonal(x0: f64, y0: f64, z0: f64, x1: f64, y1: f64, z1: f64) -> f64
    ensures { result ≡ half_diagonal (box_given x0 y0 z0 x1 y1 z1) }
{
    grid::half_diagonal(box_of(x0, y0, z0, x1, y1, z1))
}

// A corner of a node that has a box and n children along an axis.
#[unsafe(no_mangle)]
pub extern "C" fn bench_corner_point(
    x0: f64,
    y0: f64,
    z0: f64,
    x1: f64,
    y1: f64,
    z1: f64,
    n: u32,
    corner: usize,
    out: &mut [f64; 3],
)
    ensures { out.new ≡ coordinates (corner_point (box_given x0 y0 z0 x1 y1 z1) n corner) }
{
    put_point(
        grid::corner_point(box_of(x0, y0, z0, x1, y1, z1), n, corner),
        out,
    );
}

// Point p of a leaf that has a box and l points along an axis, l not 0. With 0 nothing is written.
#[unsafe(no_mangle)]
pub extern "C" fn bench_leaf_point(
    x0: f64,
    y0: f64,
    z0: f64,
    x1: f64,
    y1: f64,
    z1: f64,
    l: u32,
    p: usize,
    out: &mut [f64; 3],
)
    ensures { out.new ≡ cond (eqb l 0) out.old (coordinates (leaf_point (box_given x0 y0 z0 x1 y1 z1) l p)) }
{
    if l == 0 {
        return;
    }
    put_point(grid::leaf_point(box_of(x0, y0, z0, x1, y1, z1), l, p), out);
}

// The mean of eight values.
#[unsafe(no_mangle)]
pub extern "C" fn bench_average(octet: &[f64; 8]) -> f64
    ensures { result ≡ average octet.now }
{
    grid::average(*octet)
}

// The least of eight values.
#[unsafe(no_mangle)]
pub extern "C" fn bench_lowest(octet: &[f64; 8]) -> f64
    ensures { result ≡ lowest octet.now }
{
    grid::lowest(*octet)
}

// The greatest of eight values.
#[unsafe(no_mangle)]
pub extern "C" fn bench_highest(octet: &[f64; 8]) -> f64
    ensures { result ≡ highest octet.now }
{
    grid::highest(*octet)
}
