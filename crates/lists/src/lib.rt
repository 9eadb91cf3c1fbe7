// Definitions and laws about tests and lists that the other crates share, and one list filled from another.
#![tactic(auto)]

ghost use Rattle.std.specs.Prelude.{◌≡◌, length};

// Fills a list from another of its length. It serves the crates above. The library's own copying is not called for it,
// since the archive would then ask for one function more of the C library.
pub fn copy<T: Copy>(from: &[T], to: &mut [T])
    requires { length from.now ≡ length to.old }
    ensures { to.new ≡ from.now }
{
    for i in 0..to.len() {
        to[i] = from[i];
    }
}
