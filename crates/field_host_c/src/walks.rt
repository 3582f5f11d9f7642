// Walks over the points and the cells of a grid in bounds, and over a field's octets. Each answers 0
// where its cursor has a point, a cell or an octet, and then moves the cursor on; 100 where the walk is
// done; and the number of the cause that refused it.
ghost use Rattle.std.specs.Prelude.{◌≡◌};
ghost use Rattle.geometry.specs.Values.{vec3i};
ghost use Rattle.dense_field.specs.Walks.{point_step, cell_step, octet_step};
ghost use Rattle.field_host.specs.Given.{box_in, indices_in};
ghost use Rattle.field_host.specs.Answers.{coordinates, ends, step_number, step_cursor, step_left};

// The point at the cursor of a walk over nx × ny × nz points. Refused by 1, then 11.
// Kept: C calls each walk by its own name, with arrays of its own lengths.
#[unsafe(no_mangle)]
pub extern "C" fn jisampode_point_step(
    bounds: &[f64; 6],
    nx: usize,
    ny: usize,
    nz: usize,
    cursor: &mut [usize; 3],
    point: &mut [f64; 3],
) -> u32
    ensures answer { result ≡ step_number (point_step (box_in bounds.now) (vec3i nx ny nz) (indices_in cursor.old)) }
    ensures cursor { cursor.new
        ≡ step_cursor cursor.old (point_step (box_in bounds.now) (vec3i nx ny nz) (indices_in cursor.old)) }
    ensures point { point.new
        ≡ step_left coordinates point.old (point_step (box_in bounds.now) (vec3i nx ny nz) (indices_in cursor.old)) }
{
    field_host::jisampode_point_step(bounds, nx, ny, nz, cursor, point)
}

// The ends of the cell at the cursor of a walk over nx × ny × nz cells. Refused by 1, then 11.
#[unsafe(no_mangle)]
pub extern "C" fn jisampode_cell_step(
    bounds: &[f64; 6],
    nx: usize,
    ny: usize,
    nz: usize,
    cursor: &mut [usize; 3],
    cell: &mut [f64; 6],
) -> u32
    ensures answer { result ≡ step_number (cell_step (box_in bounds.now) (vec3i nx ny nz) (indices_in cursor.old)) }
    ensures cursor { cursor.new
        ≡ step_cursor cursor.old (cell_step (box_in bounds.now) (vec3i nx ny nz) (indices_in cursor.old)) }
    ensures cell { cell.new
        ≡ step_left ends cell.old (cell_step (box_in bounds.now) (vec3i nx ny nz) (indices_in cursor.old)) }
{
    field_host::jisampode_cell_step(bounds, nx, ny, nz, cursor, cell)
}

// The octet at the cursor of a walk over the cells of a field of nx × ny × nz values. Refused by 9,
// then 10.
#[unsafe(no_mangle)]
pub extern "C" fn jisampode_octet_step(
    nx: usize,
    ny: usize,
    nz: usize,
    values: &[f64],
    cursor: &mut [usize; 3],
    octet: &mut [f64; 8],
) -> u32
    ensures answer { result ≡ step_number (octet_step (vec3i nx ny nz) values.now (indices_in cursor.old)) }
    ensures cursor { cursor.new
        ≡ step_cursor cursor.old (octet_step (vec3i nx ny nz) values.now (indices_in cursor.old)) }
    ensures octet { octet.new
        ≡ step_left (λ values. values) octet.old (octet_step (vec3i nx ny nz) values.now (indices_in cursor.old)) }
{
    field_host::jisampode_octet_step(nx, ny, nz, values, cursor, octet)
}
