// Floats, points and boxes.
ghost use Rattle.std.specs.Prelude.{◌≡◌};
ghost use Rattle.float.specs.Sign.{abs_of};
ghost use Rattle.float.specs.Select.{min_of, max_of};
ghost use Rattle.float.specs.Whole.{floor_of, ceil_of};
ghost use Rattle.geometry.specs.Values.{vec3};
ghost use Rattle.geometry.specs.Box.{dimensions_of};
ghost use Rattle.geometry.specs.Distance.{distance_of};
ghost use Rattle.field_host.specs.Answers.{coordinates};
ghost use Rattle.field_host.specs.Given.{box_given};

use field_host::{box_of, put_point};
use geometry::Vec3;

#[unsafe(no_mangle)]
pub extern "C" fn bench_floor(x: f64) -> f64
    ensures { result ≡ floor_of x }
{
    float::floor(x)
}

#[unsafe(no_mangle)]
pub extern "C" fn bench_ceil(x: f64) -> f64
    ensures { result ≡ ceil_of x }
{
    float::ceil(x)
}

#[unsafe(no_mangle)]
pub extern "C" fn bench_abs(x: f64) -> f64
    ensures { result ≡ abs_of x }
{
    float::abs(x)
}

#[unsafe(no_mangle)]
pub extern "C" fn bench_min(a: f64, b: f64) -> f64
    ensures { result ≡ min_of a b }
{
    float::min(a, b)
}

#[unsafe(no_mangle)]
pub extern "C" fn bench_max(a: f64, b: f64) -> f64
    ensures { result ≡ max_of a b }
{
    float::max(a, b)
}

// The distance from (x0, y0, z0) to (x1, y1, z1).
#[unsafe(no_mangle)]
pub extern "C" fn bench_distance(x0: f64, y0: f64, z0: f64, x1: f64, y1: f64, z1: f64) -> f64
    ensures { result ≡ distance_of (vec3 x0 y0 z0) x1 y1 z1 }
{
    let p = Vec3 {
        x: x0,
        y: y0,
        z: z0,
    };
    p.distance_to_coord(x1, y1, z1)
}

// The size of a box along each axis.
#[unsafe(no_mangle)]
pub extern "C" fn bench_dimensions(
    x0: f64,
    y0: f64,
    z0: f64,
    x1: f64,
    y1: f64,
    z1: f64,
    out: &mut [f64; 3],
)
    ensures { out.new ≡ coordinates (dimensions_of (box_given x0 y0 z0 x1 y1 z1)) }
{
    let b = box_of(x0, y0, z0, x1, y1, z1);
    put_point(b.dimensions(), out);
}
