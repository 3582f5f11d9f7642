// Floats, copied.
ghost use Rattle.std.specs.Prelude.{◌≡◌, length};

// Copies each float to its place in a slice as long.
// Kept: a loop, since the library's `copy_from_slice` calls memmove, which the archive for C does not ask its
// host for.
pub fn copy_values(from: &[f64], to: &mut [f64])
    requires { length from.now ≡ length to.old }
    ensures { to.new ≡ from.now }
{
    for i in 0..from.len() {
        to[i] = from[i];
    }
}
