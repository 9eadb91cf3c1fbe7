// What the programs print to standard output, and say on standard error, whether they were given arguments, how they
// read, and how much of a slice they take. The exit status is 0 whatever happens: a program that could not print says
// so.
#![tactic(auto)]

ghost use Rattle.std.specs.Prelude.{◌≡◌, ◌≢◌, ◌<◌, ◌≤◌, ℕ, length, slice_index};

use std::env::FillError;
use std::io::{Read, Stderr, Stdout};
use std::rt::Env;

// Whether all of it was written.
pub fn put(out: Stdout, text: &[u8]) -> bool {
    out.write_all(text).is_ok()
}

// On standard error. If that cannot be written, nobody is left to be told.
pub fn say(err: Stderr, text: &[u8]) {
    let _ = err.write_all(text);
}

// Whether the program was given an argument; its own name is argument 0.
pub fn has_arguments(rt: &impl Env) -> bool {
    !matches!(rt.arg(1, &mut []), Err(FillError::NotPresent))
}

// Reads until the buffer is full, the input ends or a read fails: how many bytes stand first in the buffer.
pub fn read_full<R: Read>(from: &mut R, room: &mut [u8]) -> usize
    ensures { result ≤ length room.new }
{
    let mut done: usize = 0;
    while done < room.len() {
        match from.read(&mut room[done..]) {
            Ok(0) => return done,
            Ok(n) => done += n,
            Err(_) => return done,
        }
    }
    done
}

// The first n bytes, or all where there are no more.
pub fn part(bytes: &[u8], n: usize) -> &[u8] {
    &bytes[..n.min(bytes.len())]
}

// The lesser of two numbers: how many of so many places there are to take.
pub fn least(n: usize, most: usize) -> usize
    ensures { result ≤ most }
{
    n.min(most)
}

// The place of the first such byte from one place on and before another, or else the other.
pub fn find(s: &[u8], from: usize, to: usize, b: u8) -> usize
    requires order { from ≤ to }
    requires there { to ≤ length s.now }
    ensures least { from ≤ result }
    ensures most { result ≤ to }
    ensures before { (k : ℕ) → from ≤ k → k < result → slice_index s.now k ≢ b }
    ensures found { result < to → slice_index s.now result ≡ b }
{
    for i in from..to {
        if s[i] == b {
            return i;
        }
    }
    to
}
