// 64-bit FNV-1a, and the 32 bytes that a hash is spread over.
#![tactic(auto)]

ghost use Rattle.std.specs.Prelude.{◌≡◌, ◌*◌, ◌%◌, ◌^◌, ◌<◌};
ghost use Rattle.fnv.specs.Fnv.{basis, fnv_from, rotated, spread};

// The FNV prime of 64 bits.
const PRIME: u64 = 0x100_0000_01b3;

// The hash of no bytes: the offset basis.
pub fn start() -> u64
    ensures { result ≡ basis }
{
    0xcbf2_9ce4_8422_2325
}

// a · b modulo 2^64, by wrapping adds: of a shifted to each bit that is set in b, from the lowest on. The FNV prime
// has seven of them.
fn wrapping_mul(a: u64, b: u64) -> u64
    ensures { result ≡ a * b % 2 ^ 64 }
{
    let mut sum: u64 = 0;
    let mut shifted = a;
    let mut rest = b;
    while rest != 0 {
        let zeros = u64::trailing_zeros(rest);
        shifted <<= zeros;
        sum = std::num::wrapping_add_u64(sum, shifted);
        rest = (rest >> zeros) - 1;
    }
    sum
}

// x rotated left by n modulo 64.
fn rotate_left(x: u64, n: u32) -> u64
    ensures { result ≡ rotated x (n % 64) }
{
    let up = n % 64;
    if up == 0 {
        return x;
    }
    (x << up) + (x >> (64 - up))
}

// The hash after some more bytes.
pub fn feed(hash: u64, bytes: &[u8]) -> u64
    ensures { result ≡ fnv_from hash bytes.now }
{
    let mut h = hash;
    for b in bytes {
        h = wrapping_mul(u64::from(*b) ^ h, PRIME);
    }
    h
}

// Byte i of the 32: the low byte of the hash rotated by 7·i.
fn spread_byte(hash: u64, i: usize) -> u8
    requires { i < 32 }
    ensures { result ≡ rotated hash (7 * i % 64) % 256 }
{
    (rotate_left(hash, 7 * i as u32) % 256) as u8
}

// The 32 bytes of a hash.
pub fn digest(hash: u64) -> [u8; 32]
    ensures { result ≡ spread hash }
{
    let mut bytes = [0; 32];
    for (i, byte) in bytes.iter_mut().enumerate() {
        *byte = spread_byte(hash, i);
    }
    bytes
}
