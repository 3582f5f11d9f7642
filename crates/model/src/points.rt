// A row of points, as three arrays that are lent: those of a `PointRow`, or C's. So no point is copied.
ghost use Rattle.std.specs.Prelude.{◌≡◌, ◌<◌};
ghost use Rattle.geometry.specs.PointRow.{point_in};
ghost use Rattle.model.specs.Inner.Lanes.{points_lent};

use geometry::{PointRow, Vec3};

#[derive(Clone, Copy, Debug, PartialEq)]
pub struct Points<'a> {
    pub xs: &'a [f64; 64],
    pub ys: &'a [f64; 64],
    pub zs: &'a [f64; 64],
}

impl<'a> Points<'a> {
    // Those of a row.
    pub fn of(row: &'a PointRow) -> Points<'a>
        ensures { points_lent result ≡ row.now }
    {
        Points {
            xs: &row.xs,
            ys: &row.ys,
            zs: &row.zs,
        }
    }

    // The point at a place.
    pub fn get(&self, q: usize) -> Vec3
        requires { q < 64 }
        ensures { result ≡ point_in (points_lent self.now) q }
    {
        Vec3::new(self.xs[q], self.ys[q], self.zs[q])
    }
}
