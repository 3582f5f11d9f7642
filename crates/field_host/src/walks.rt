// Walks over the points and the cells of a grid in bounds, and over a field's octets. Each answers 0
// where its cursor has a point, a cell or an octet, and then moves the cursor on; 100 where the walk is
// done; and the number of the cause that refused it.
ghost use Rattle.std.specs.Prelude.{◌≡◌};
ghost use Rattle.geometry.specs.Values.{vec3i};
ghost use Rattle.dense_field.specs.Walks.{point_step, cell_step, octet_step};
ghost use Rattle.field_host.specs.Given.{box_in, indices_in};
ghost use Rattle.field_host.specs.Answers.{coordinates, ends, step_number, step_cursor, step_left};

use crate::given::box_in;
use causes::Cause;
use dense_field::Step;
use geometry::{BoundingBox, Vec3, Vec3i};

// The cursor of three numbers.
fn indices_in(cursor: &[usize; 3]) -> Vec3i
    ensures { result ≡ indices_in cursor.now }
{
    Vec3i {
        i: cursor[0],
        j: cursor[1],
        k: cursor[2],
    }
}

// Writes a point's coordinates.
pub fn put_point(p: Vec3, out: &mut [f64; 3])
    ensures { out.new ≡ coordinates p }
{
    *out = [p.x, p.y, p.z];
}

// Writes the coordinates of a box's ends.
pub fn put_box(b: BoundingBox, out: &mut [f64; 6])
    ensures { out.new ≡ ends b }
{
    let p = b.min;
    let q = b.max;
    *out = [p.x, p.y, p.z, q.x, q.y, q.z];
}

// Writes the next cursor of a step, where it has one, and answers the step's number.
fn put_next<T: Copy>(step: Result<Option<Step<T>>, Cause>, cursor: &mut [usize; 3]) -> u32
    ensures answer { result ≡ step_number step }
    ensures cursor { cursor.new ≡ step_cursor cursor.old step }
{
    match step {
        Ok(Some(at)) => {
            *cursor = [at.next.i, at.next.j, at.next.k];
            0
        }
        Ok(None) => 100,
        Err(cause) => cause.number(),
    }
}

// The point at the cursor of a walk over nx × ny × nz points. Refused by 1, then 11.
// Kept: C calls each walk by its own name, with arrays of its own lengths.
pub fn jisampode_point_step(
    bounds: &[f64; 6],
    nx: usize,
    ny: usize,
    nz: usize,
    cursor: &mut [usize; 3],
    point: &mut [f64; 3],
) -> u32
    ensures answer { result ≡ step_number (point_step (box_in bounds.now) (vec3i nx ny nz) (indices_in cursor.old)) }
    ensures cursor { cursor.new
        ≡ step_cursor cursor.old (point_step (box_in bounds.now) (vec3i nx ny nz) (indices_in cursor.old)) }
    ensures point { point.new
        ≡ step_left coordinates point.old (point_step (box_in bounds.now) (vec3i nx ny nz) (indices_in cursor.old)) }
{
    let n = Vec3i::new(nx, ny, nz);
    let step = dense_field::point_step(box_in(bounds), n, indices_in(cursor));
    if let Ok(Some(at)) = step {
        put_point(at.found, point);
    }
    put_next(step, cursor)
}

// The ends of the cell at the cursor of a walk over nx × ny × nz cells. Refused by 1, then 11.
pub fn jisampode_cell_step(
    bounds: &[f64; 6],
    nx: usize,
    ny: usize,
    nz: usize,
    cursor: &mut [usize; 3],
    cell: &mut [f64; 6],
) -> u32
    ensures answer { result ≡ step_number (cell_step (box_in bounds.now) (vec3i nx ny nz) (indices_in cursor.old)) }
    ensures cursor { cursor.new
        ≡ step_cursor cursor.old (cell_step (box_in bounds.now) (vec3i nx ny nz) (indices_in cursor.old)) }
    ensures cell { cell.new
        ≡ step_left ends cell.old (cell_step (box_in bounds.now) (vec3i nx ny nz) (indices_in cursor.old)) }
{
    let n = Vec3i::new(nx, ny, nz);
    let step = dense_field::cell_step(box_in(bounds), n, indices_in(cursor));
    if let Ok(Some(at)) = step {
        put_box(at.found, cell);
    }
    put_next(step, cursor)
}

// The octet at the cursor of a walk over the cells of a field of nx × ny × nz values. Refused by 9,
// then 10.
pub fn jisampode_octet_step(
    nx: usize,
    ny: usize,
    nz: usize,
    values: &[f64],
    cursor: &mut [usize; 3],
    octet: &mut [f64; 8],
) -> u32
    ensures answer { result ≡ step_number (octet_step (vec3i nx ny nz) values.now (indices_in cursor.old)) }
    ensures cursor { cursor.new
        ≡ step_cursor cursor.old (octet_step (vec3i nx ny nz) values.now (indices_in cursor.old)) }
    ensures octet { octet.new
        ≡ step_left (λ values. values) octet.old (octet_step (vec3i nx ny nz) values.now (indices_in cursor.old)) }
{
    let n = Vec3i::new(nx, ny, nz);
    let step = dense_field::walk_octet(values, n, indices_in(cursor));
    if let Ok(Some(at)) = step {
        let eight = at.found;
        *octet = eight;
    }
    put_next(step, cursor)
}
