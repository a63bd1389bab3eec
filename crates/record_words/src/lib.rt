// The bytes of a scene record: whole numbers and floats, the most significant byte first.
#![tactic(auto)]

ghost use Rattle.std.specs.Prelude.{◌≡◌, ◌+◌, ◌/◌, ◌%◌, ◌^◌, ◌≤◌, ◌<◌, length, drop};
ghost use Rattle.lists.specs.Bytes.{number_at, bytes_of};
ghost use Rattle.lists.specs.Stores.{stored};
ghost use Rattle.record_words.specs.Floats.{float_bytes, float_at, floats_bytes, floats_of};

use float32::bits::{bits_of, of_bits};

// Head and voice end in this many floats.
pub const FLOATS: usize = 7;

// The number of three bytes.
pub fn three_at(bytes: &[u8], at: usize) -> u32
    requires { at + 3 ≤ length bytes.now }
    ensures { (result ≡ number_at bytes.now at 3) × (result < 2 ^ 24) }
{
    u32::from_be_bytes([0, bytes[at], bytes[at + 1], bytes[at + 2]])
}

// The number of four bytes.
fn four_at(bytes: &[u8], at: usize) -> u32
    requires { at + 4 ≤ length bytes.now }
    ensures { result ≡ number_at bytes.now at 4 }
{
    u32::from_be_bytes([bytes[at], bytes[at + 1], bytes[at + 2], bytes[at + 3]])
}

// Writes the three lowest bytes of a number.
pub fn put_three(bytes: &mut [u8], at: usize, n: u32)
    requires { at + 3 ≤ length bytes.old }
    ensures { bytes.new ≡ stored bytes.old at (bytes_of 3 n) }
{
    bytes[at..at + 3].copy_from_slice(&n.to_be_bytes()[1..]);
}

// Writes a number's four bytes.
fn put_four(bytes: &mut [u8], at: usize, n: u32)
    requires { at + 4 ≤ length bytes.old }
    ensures { bytes.new ≡ stored bytes.old at (bytes_of 4 n) }
{
    bytes[at..at + 4].copy_from_slice(&n.to_be_bytes());
}

// The float of four bytes.
pub fn float_at(bytes: &[u8], at: usize) -> f32
    requires { at + 4 ≤ length bytes.now }
    ensures { result ≡ float_at bytes.now at }
{
    of_bits(four_at(bytes, at))
}

fn put_float(bytes: &mut [u8], at: usize, x: f32)
    requires { at + 4 ≤ length bytes.old }
    ensures { bytes.new ≡ stored bytes.old at (float_bytes x) }
{
    put_four(bytes, at, bits_of(x));
}

// The seven floats from a place on.
pub fn floats_at(bytes: &[u8], at: usize) -> [f32; FLOATS]
    requires { at + 28 ≤ length bytes.now }
    ensures { result ≡ floats_of (drop at bytes.now) 7 }
{
    let mut floats = [0.0f32; FLOATS];
    for i in 0..FLOATS {
        floats[i] = float_at(bytes, at + 4 * i);
    }
    floats
}

// Writes seven floats from a place on.
pub fn put_floats(bytes: &mut [u8], at: usize, floats: [f32; FLOATS])
    requires { at + 28 ≤ length bytes.old }
    ensures { bytes.new ≡ stored bytes.old at (floats_bytes floats) }
{
    for i in 0..FLOATS {
        put_float(bytes, at + 4 * i, floats[i]);
    }
}
