// Boxes: their sizes, and which of them meet.
ghost use Rattle.std.specs.Prelude.{◌≡◌};
ghost use Rattle.geometry.specs.Values.{box};
ghost use Rattle.geometry.specs.Box.{dimensions_of, intersects_of};

use crate::{BoundingBox, Vec3};

impl BoundingBox {
    pub fn new(min: Vec3, max: Vec3) -> Self
        ensures { result ≡ box min max }
    {
        BoundingBox { min, max }
    }

    // The size of the box along each axis.
    #[tactic(auto, unfolding(crate::specs::Box::dimensions_of))]
    pub fn dimensions(self) -> Vec3
        ensures { result ≡ dimensions_of self }
    {
        Vec3::new(
            float::computed(self.max.x - self.min.x),
            float::computed(self.max.y - self.min.y),
            float::computed(self.max.z - self.min.z),
        )
    }

    // Whether two boxes have a point in common. Boxes that only touch have one.
    #[tactic(auto, unfolding(crate::specs::Box::intersects_of))]
    pub fn intersects(self, other: BoundingBox) -> bool
        ensures { result ≡ intersects_of self other }
    {
        self.min.x <= other.max.x
            && self.max.x >= other.min.x
            && self.min.y <= other.max.y
            && self.max.y >= other.min.y
            && self.min.z <= other.max.z
            && self.max.z >= other.min.z
    }
}
