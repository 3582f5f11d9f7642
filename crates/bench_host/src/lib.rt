// What the benchmark calls beyond the C interface: each function is one call, exported under a C name.
#![tactic(auto)]

ghost use Rattle.std.specs.Prelude.{◌≡◌, map, ◌++◌, min, drop, length};
ghost use Rattle.lists.specs.Filled.{filled};
ghost use Rattle.root.specs.Root.{square_root};
ghost use Rattle.model.specs.Flat.{flat_in};
ghost use Rattle.model.specs.Flat as flat;
ghost use Rattle.model.specs.Model.{values_to, model_value, parts_in, parts_of, parts_value};
ghost use Rattle.model.specs.Row.{evaluated_rows};
ghost use Rattle.field_host.specs.Given.{model_given};
ghost use Rattle.bench_host.specs.Points.{value_at};

mod cells; // cells.rt: the cells of a dense field
mod floats; // floats.rt: floats, points and boxes
mod nodes; // nodes.rt: the grid of a sparse field

// The correctly rounded square root.
#[unsafe(no_mangle)]
pub extern "C" fn bench_sqrt(x: f64) -> f64
    ensures { result ≡ square_root x }
{
    root::sqrt(x)
}

// Each element becomes its correctly rounded square root.
#[unsafe(no_mangle)]
pub extern "C" fn bench_sqrt_row(xs: &mut [f64])
    ensures { xs.new ≡ map square_root xs.old }
{
    root::sqrt_row(xs);
}

// The value at a point of the first `count` parts of flat arrays, 64 at most, with the parts' values left in `values`. It
// is that of the model that the arrays make.
#[unsafe(no_mangle)]
pub extern "C" fn bench_evaluate(
    words: &[u32; 192],
    numbers: &[f64; 256],
    count: usize,
    x: f64,
    y: f64,
    z: f64,
    values: &mut [f64; 64],
) -> f64
    ensures flat_answer { result ≡ model_value (flat.parts_of (flat_in words numbers) (min count 64)) (min count 64) x y z }
    ensures flat_values { values.new
        ≡ values_to (flat.parts_of (flat_in words numbers) (min count 64)) x y z (min count 64) ++ drop (min count 64) values.old }
    ensures answer { let m = model_given (flat_in words numbers) (min count 64) in
        result ≡ parts_value (parts_in m) (min m.count 64) x y z }
    ensures values { let m = model_given (flat_in words numbers) (min count 64) in
        values.new ≡ values_to (parts_of (parts_in m) (min m.count 64)) x y z (min m.count 64) ++ drop (min m.count 64) values.old }
{
    model::evaluate_flat(words, numbers, count, x, y, z, values)
}

// The values of the first `count` parts at n points, 64 at most of each: part p's value at point i is left at p * 64 + i.
// They are those of the model that the arrays make.
#[unsafe(no_mangle)]
pub extern "C" fn bench_evaluate_row(
    words: &[u32; 192],
    numbers: &[f64; 256],
    count: usize,
    px: &[f64; 64],
    py: &[f64; 64],
    pz: &[f64; 64],
    n: usize,
    values: &mut [f64; 4096],
)
    ensures flat { values.new
        ≡ evaluated_rows (flat.parts_of (flat_in words numbers) (min count 64)) (min count 64) (min n 64)
        (record { xs = px.now; ys = py.now; zs = pz.now }) values.old }
    ensures values { let m = model_given (flat_in words numbers) (min count 64) in
        values.new ≡ evaluated_rows (parts_in m) (min m.count 64) (min n 64)
        (record { xs = px.now; ys = py.now; zs = pz.now }) values.old }
{
    model::evaluate_flat_row(words, numbers, count, px, py, pz, n, values);
}

// The values of the model of flat arrays at points, one after the other, as many as the shortest list has.
#[unsafe(no_mangle)]
pub extern "C" fn bench_values(
    words: &[u32; 192],
    numbers: &[f64; 256],
    count: u32,
    px: &[f64],
    py: &[f64],
    pz: &[f64],
    results: &mut [f64],
)
    ensures { results.new
        ≡ filled 0 (min (min (length px.now) (length py.now)) (min (length pz.now) (length results.old)))
        (value_at (model_given (flat_in words numbers) count) px.now py.now pz.now) results.old }
{
    let mut values = [0.0; 64];
    let points = px.len().min(py.len()).min(pz.len().min(results.len()));
    for k in 0..points {
        results[k] = model::evaluate_flat(
            words,
            numbers,
            count as usize,
            px[k],
            py[k],
            pz[k],
            &mut values,
        );
    }
}
