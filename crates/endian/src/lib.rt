// Little-endian numbers of a byte slice.
#![tactic(auto)]

ghost use Rattle.std.specs.Prelude.{◌≡◌, ◌+◌, ◌≤◌, ◌<◌, length};
ghost use Rattle.std.proofs.lemmas.List.Edits.{sets};
ghost use Rattle.endian.specs.Endian.{u32_at, u16_at, u32_of};

// A byte as a u32. It serves the crates above as well.
pub fn wide(x: u8) -> u32
    ensures { (result ≡ x) × (result < 256) }
{
    u32::from(x)
}

// The u32 that stands at `at`. It serves the crates above, which know that it is there.
pub fn u32_at(s: &[u8], at: usize) -> u32
    requires { at + 4 ≤ length s.now }
    ensures { result ≡ u32_at s.now at }
{
    u32::from_le_bytes([s[at], s[at + 1], s[at + 2], s[at + 3]])
}

// The u16 that stands at `at`. It serves the crates above, which know that it is there.
pub fn u16_at(s: &[u8], at: usize) -> u32
    requires { at + 2 ≤ length s.now }
    ensures { result ≡ u16_at s.now at }
{
    u32::from(u16::from_le_bytes([s[at], s[at + 1]]))
}

// Puts a u32 at `at`. It serves the crates above, which know that there is room.
pub fn put_u32(n: u32, at: usize, out: &mut [u8])
    requires { at + 4 ≤ length out.old }
    ensures { out.new ≡ sets out.old at (u32_of n) }
{
    out[at..at + 4].copy_from_slice(&n.to_le_bytes());
}
