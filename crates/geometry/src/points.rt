// Points and the distances between them.
ghost use Rattle.std.specs.Prelude.{◌≡◌};
ghost use Rattle.geometry.specs.Values.{vec3};
ghost use Rattle.geometry.specs.Distance.{distance_squared_of, distance_of};

use crate::Vec3;

impl Vec3 {
    pub fn new(x: f64, y: f64, z: f64) -> Self
        ensures { result ≡ vec3 x y z }
    {
        Vec3 { x, y, z }
    }

    // The euclidean distance to another point.
    pub fn distance_to_vec3(self, pt: Vec3) -> f64
        ensures { result ≡ distance_of self pt.x pt.y pt.z }
    {
        self.distance_to_coord(pt.x, pt.y, pt.z)
    }

    // The euclidean distance to a location.
    #[tactic(auto, unfolding(crate::specs::Distance::distance_of))]
    pub fn distance_to_coord(self, x: f64, y: f64, z: f64) -> f64
        ensures { result ≡ distance_of self x y z }
    {
        float::computed(root::sqrt(self.distance_to_coord_squared(x, y, z)))
    }

    // The square of the distance to a location, each square one multiplication.
    #[tactic(auto, unfolding(crate::specs::Distance::square, crate::specs::Distance::distance_squared_of))]
    pub fn distance_to_coord_squared(self, x: f64, y: f64, z: f64) -> f64
        ensures { result ≡ distance_squared_of self x y z }
    {
        let dx = self.x - x;
        let dy = self.y - y;
        let dz = self.z - z;
        float::computed((dx * dx + dy * dy) + dz * dz)
    }
}
