//! The search for a byte.
ghost use Rattle.std.specs.Prelude.{◌≡◌, ◌≢◌, ◌+◌, ◌≤◌, ◌<◌, ℕ, slice_index, length};

use std::simd::prelude::*;

/// How many of the 16 bytes from a place on stand before the first that is this byte.
#[inline(always)]
fn ahead_in_16(byte: u8, bytes: &[u8], at: usize) -> usize
    requires { at + 16 ≤ length bytes.now }
    ensures within { result ≤ 16 }
    ensures none_before { (k : ℕ) → at ≤ k → k < at + result → slice_index bytes.now k ≢ byte }
    ensures here { result < 16 → slice_index bytes.now (at + result) ≡ byte }
{
    let lanes = u8x16::from_slice(&bytes[at..]);
    let marks = lanes.simd_eq(u8x16::splat(byte)).to_bitmask();
    if marks == 0 {
        16
    } else {
        marks.trailing_zeros() as usize
    }
}

/// The same of the 8 bytes from a place on.
#[inline(always)]
fn ahead_in_8(byte: u8, bytes: &[u8], at: usize) -> usize
    requires { at + 8 ≤ length bytes.now }
    ensures within { result ≤ 8 }
    ensures none_before { (k : ℕ) → at ≤ k → k < at + result → slice_index bytes.now k ≢ byte }
    ensures here { result < 8 → slice_index bytes.now (at + result) ≡ byte }
{
    let lanes = u8x8::from_slice(&bytes[at..]);
    let marks = lanes.simd_eq(u8x8::splat(byte)).to_bitmask();
    if marks == 0 {
        8
    } else {
        marks.trailing_zeros() as usize
    }
}

/// Where this byte is first, from a place on, by one byte after another. The length where it is not.
#[inline(always)]
fn place_by_one(byte: u8, bytes: &[u8], from: usize) -> usize
    requires { from ≤ length bytes.now }
    ensures after { from ≤ result }
    ensures within { result ≤ length bytes.now }
    ensures none_before { (k : ℕ) → from ≤ k → k < result → slice_index bytes.now k ≢ byte }
    ensures here { result < length bytes.now → slice_index bytes.now result ≡ byte }
{
    for at in from..bytes.len() {
        if bytes[at] == byte {
            return at;
        }
    }
    bytes.len()
}

/// The same, of the next 8 bytes at once, and then by one after another.
#[inline(always)]
fn place_near(byte: u8, bytes: &[u8], from: usize) -> usize
    requires { from ≤ length bytes.now }
    ensures after { from ≤ result }
    ensures within { result ≤ length bytes.now }
    ensures none_before { (k : ℕ) → from ≤ k → k < result → slice_index bytes.now k ≢ byte }
    ensures here { result < length bytes.now → slice_index bytes.now result ≡ byte }
{
    if bytes.len() - from < 8 {
        return place_by_one(byte, bytes, from);
    }
    let ahead = ahead_in_8(byte, bytes, from);
    if ahead < 8 {
        return from + ahead;
    }
    place_by_one(byte, bytes, from + 8)
}

/// Where this byte is first, from a place on. The length where it is not.
#[inline(always)]
pub fn place_of(byte: u8, bytes: &[u8], from: usize) -> usize
    requires { from ≤ length bytes.now }
    ensures after { from ≤ result }
    ensures within { result ≤ length bytes.now }
    ensures none_before { (k : ℕ) → from ≤ k → k < result → slice_index bytes.now k ≢ byte }
    ensures here { result < length bytes.now → slice_index bytes.now result ≡ byte }
{
    let mut at = from;
    while bytes.len() - at >= 16 {
        let ahead = ahead_in_16(byte, bytes, at);
        at += ahead;
        if ahead < 16 {
            return at;
        }
    }
    place_near(byte, bytes, at)
}
