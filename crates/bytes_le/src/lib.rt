// Little-endian numbers in slices of bytes, and an f64 by its bits. All NaN patterns are the one NaN.
#![tactic(auto)]

ghost use Rattle.std.specs.Prelude.{◌≡◌, ◌+◌, ◌≤◌, length};
ghost use Rattle.std.specs.Float.{binary64};
ghost use Rattle.std.specs.Float.Ieee.{of_bits, to_bits};
ghost use Rattle.complex.specs.Parts.{part};
ghost use Rattle.bytes_le.specs.Value.{value};

use std::num::{f64_from_bits_with_nan, f64_to_bits_with_nan};

// ---- whole numbers at an index, least byte first

#[tactic(auto, using(crate::proofs::Value::value_one))]
pub fn u8_at(s: &[u8], at: usize) -> u8
    requires { at + 1 ≤ length s.now }
    ensures { result ≡ value (part at (at + 1) s.now) }
{
    s[at]
}

#[tactic(auto, using(crate::proofs::Value::value_none, crate::proofs::Value::value_more))]
pub fn u16_at(s: &[u8], at: usize) -> u16
    requires { at + 2 ≤ length s.now }
    ensures { result ≡ value (part at (at + 2) s.now) }
{
    u16::from_le_bytes([s[at], s[at + 1]])
}

#[tactic(auto, using(crate::proofs::Value::value_none, crate::proofs::Value::value_more))]
pub fn u32_at(s: &[u8], at: usize) -> u32
    requires { at + 4 ≤ length s.now }
    ensures { result ≡ value (part at (at + 4) s.now) }
{
    u32::from_le_bytes([s[at], s[at + 1], s[at + 2], s[at + 3]])
}

#[tactic(auto, using(crate::proofs::Value::value_none, crate::proofs::Value::value_more))]
pub fn u64_at(s: &[u8], at: usize) -> u64
    requires { at + 8 ≤ length s.now }
    ensures { result ≡ value (part at (at + 8) s.now) }
{
    u64::from_le_bytes([
        s[at],
        s[at + 1],
        s[at + 2],
        s[at + 3],
        s[at + 4],
        s[at + 5],
        s[at + 6],
        s[at + 7],
    ])
}

// ---- an f64 by its bits. Names for std's functions, which promise the same: that all NaN patterns are one NaN is promised
// here by one crate for those that read and print numbers

// The f64 of a pattern.
pub fn from_bits(bits: u64) -> f64
    ensures { result ≡ of_bits binary64 bits }
{
    f64_from_bits_with_nan(bits)
}

// The pattern of an f64, 7FF8000000000000 for a NaN.
pub fn to_bits(x: f64) -> u64
    ensures { result ≡ to_bits binary64 x }
{
    f64_to_bits_with_nan(x)
}

pub fn f64_at(s: &[u8], at: usize) -> f64
    requires { at + 8 ≤ length s.now }
    ensures { result ≡ of_bits binary64 (value (part at (at + 8) s.now)) }
{
    from_bits(u64_at(s, at))
}
