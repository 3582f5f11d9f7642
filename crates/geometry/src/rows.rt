// A row of points.
ghost use Rattle.std.specs.Prelude.{◌≡◌, ◌<◌};
ghost use Rattle.geometry.specs.PointRow.{no_points, with_point, point_in};

use crate::{PointRow, Vec3};

impl PointRow {
    // A row of 64 times (0, 0, 0).
    pub fn new() -> Self
        ensures { result ≡ no_points }
    {
        PointRow {
            xs: [0.0; 64],
            ys: [0.0; 64],
            zs: [0.0; 64],
        }
    }

    // The point at a place.
    pub fn get(&self, q: usize) -> Vec3
        requires { q < 64 }
        ensures { result ≡ point_in self.now q }
    {
        Vec3::new(self.xs[q], self.ys[q], self.zs[q])
    }

    // Sets the point at a place.
    pub fn set(&mut self, q: usize, p: Vec3)
        requires { q < 64 }
        ensures { self.new ≡ with_point self.old q p }
    {
        self.xs[q] = p.x;
        self.ys[q] = p.y;
        self.zs[q] = p.z;
    }
}
