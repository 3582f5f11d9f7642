// A box, a model and a job's input, from numbers.
// Kept: arrays of fixed size with a count beside them, as C lends them.
ghost use Rattle.std.specs.Prelude.{◌≡◌, ◌<◌};
ghost use Rattle.model.specs.Flat.{flat_in};
ghost use Rattle.field_host.specs.Given.{input_lent, box_given, box_in, part_coded, component_given, model_given};

use geometry::{BoundingBox, Vec3};
use grid::Grid;
use input::{Band, Input};
use model::{ImplicitModel, ModelComponent, Part};

// The box of two ends.
pub fn box_of(x0: f64, y0: f64, z0: f64, x1: f64, y1: f64, z1: f64) -> BoundingBox
    ensures { result ≡ box_given x0 y0 z0 x1 y1 z1 }
{
    let min = Vec3 {
        x: x0,
        y: y0,
        z: z0,
    };
    let max = Vec3 {
        x: x1,
        y: y1,
        z: z1,
    };
    BoundingBox { min, max }
}

// The box of six numbers: its least end, and its most.
pub fn box_in(bounds: &[f64; 6]) -> BoundingBox
    ensures { result ≡ box_in bounds.now }
{
    box_of(
        bounds[0], bounds[1], bounds[2], bounds[3], bounds[4], bounds[5],
    )
}

// The part of any code. One that no part has reads as an operation on a part that stands nowhere, so
// that cause 4 refuses it.
fn part_coded(code: u32, v: Vec3, w: f64, a: u32, b: u32) -> Part
    ensures { result ≡ part_coded code v w a b }
{
    if code > 7 {
        return Part::Neg(4294967295);
    }
    model::part_from(code, v, w, a, b)
}

// The part at a place.
fn component_given(parts: &[u32; 192], reals: &[f64; 256], p: usize) -> ModelComponent
    requires { p < 64 }
    ensures { result ≡ component_given (flat_in parts reals) p }
{
    let v = Vec3 {
        x: reals[p],
        y: reals[64 + p],
        z: reals[128 + p],
    };
    let part = part_coded(parts[p], v, reals[192 + p], parts[64 + p], parts[128 + p]);
    ModelComponent { part }
}

// All 64 parts, of which the first `count` are the model.
pub fn model_given(parts: &[u32; 192], reals: &[f64; 256], count: u32) -> ImplicitModel
    ensures { result ≡ model_given (flat_in parts reals) count }
{
    let none = ModelComponent {
        part: Part::Constant(0.0),
    };
    let mut all = [none; 64];
    for p in 0..64 {
        all[p] = component_given(parts, reals, p);
    }
    ImplicitModel { parts: all, count }
}

// A job's input. The nine settings are the bounds' least end and their most, the cell's size, and the
// band.
pub fn input_given(
    settings: &[f64; 9],
    inner: u32,
    leaf: u32,
    parts: &[u32; 192],
    reals: &[f64; 256],
    count: u32,
) -> Input
    ensures { result ≡ input_lent settings inner leaf parts reals count }
{
    let bounds = box_of(
        settings[0],
        settings[1],
        settings[2],
        settings[3],
        settings[4],
        settings[5],
    );
    let grid = Grid {
        bounds,
        cell: settings[6],
        inner,
        leaf,
    };
    let band = Band {
        min: settings[7],
        max: settings[8],
    };
    let model = model_given(parts, reals, count);
    Input { grid, band, model }
}
