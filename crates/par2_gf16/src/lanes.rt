//! Operations on vectors, lane by lane. `Factor` computes its tables and its products with them.

ghost use Rattle.std.specs.Prelude.{◌≡◌, ℕ, ◌+◌, ◌*◌, ◌/◌, ◌%◌, ◌^◌, ◌++◌, ◌<◌, ◌≤◌, length, slice_index, map, take, drop, bit_xor};
ghost use Rattle.std.specs.List.{range_with_len};
ghost use Rattle.std.specs.Simd.Lanes.{zip2, Each1};
ghost use Rattle.par2_spec.specs.Prelude.{mul};
ghost use Rattle.par2_gf16.specs.Words.{lane_of, IsTable, IsInterleaving, AddsLanes};

use crate::tables::doubled;
use std::simd::prelude::*;

// Adds k to the sum in the lanes of v whose lowest bit is set: a step of `product_lanes`.
#[inline(always)]
fn select_add(sum: u16x16, v: u16x16, k: u16) -> u16x16
    ensures { result ≡ zip2 (λ s x. bit_xor s (x % 2 * k)) sum v }
{
    let one = u16x16::splat(1);
    let odd = (v & one).simd_eq(one);
    sum ^ odd.select(u16x16::splat(k), u16x16::splat(0))
}

/// The product of c and each lane, by doubling and adding: one step for each of the `bits` bits that a lane may have.
#[inline(always)]
pub(crate) fn product_lanes(c: u16, v: u16x16, bits: u32) -> u16x16
    requires few { bits ≤ 16 }
    requires lanes { Each1 (λ x. x < 2 ^ bits) v }
    ensures { result ≡ map (mul c) v }
{
    let mut sum = u16x16::splat(0);
    let mut rest = v;
    let mut k = c;
    for j in 0..bits {
        sum = select_add(sum, rest, k);
        rest = rest >> u16x16::splat(1);
        k = doubled(k);
    }
    sum
}

/// The lanes of v, twice.
#[inline(always)]
pub(crate) fn twice(v: u16x16) -> u16x32
    ensures { result ≡ v ++ v }
{
    v.swizzle([
        0, 1, 2, 3, 4, 5, 6, 7, 8, 9, 10, 11, 12, 13, 14, 15, 0, 1, 2, 3, 4, 5, 6, 7, 8, 9, 10, 11,
        12, 13, 14, 15,
    ])
}

/// The lower byte of each lane.
#[inline(always)]
pub(crate) fn lower_bytes(v: u16x32) -> u8x32
    ensures { result ≡ map (λ x. x % 256) v }
{
    (v & u16x32::splat(255)).cast::<u8>()
}

/// The higher byte of each lane.
#[inline(always)]
pub(crate) fn higher_bytes(v: u16x32) -> u8x32
    ensures { result ≡ map (λ x. x / 256) v }
{
    (v >> u16x32::splat(8)).cast::<u8>()
}

/// The lower nibble of each lane.
#[inline(always)]
pub(crate) fn low_nibbles(v: u8x32) -> u8x32
    ensures value { result ≡ map (λ x. x % 16) v }
    ensures small { (i : ℕ) → slice_index result i < 16 }
{
    v & u8x32::splat(15)
}

/// The higher nibble of each lane.
#[inline(always)]
pub(crate) fn high_nibbles(v: u8x32) -> u8x32
    ensures value { result ≡ map (λ x. x / 16) v }
    ensures small { (i : ℕ) → slice_index result i < 16 }
{
    v >> u8x32::splat(4)
}

/// For each lane, the table's entry at the lane's nibble. `IsTable`: a table of a function at each nibble, twice.
#[inline(always)]
pub(crate) fn looked_up(table: u8x32, v: u8x32) -> u8x32
    requires { (i : ℕ) → slice_index v i < 16 }
    ensures { (f : ℕ → ℕ) → IsTable f table → result ≡ map f v }
{
    table.swizzle_dyn_within::<16>(v)
}

/// The exclusive or in each lane, which is the sum of elements.
#[inline(always)]
pub(crate) fn sum(a: u8x32, b: u8x32) -> u8x32
    ensures { result ≡ zip2 bit_xor a b }
{
    a ^ b
}

/// The thirty-two bytes from byte `at` on.
#[inline(always)]
pub(crate) fn vector_at(bytes: &[u8], at: usize) -> u8x32
    requires { at + 32 ≤ length bytes.now }
    ensures value { result ≡ take 32 (drop at bytes.now) }
    ensures fit { (i : ℕ) → slice_index bytes.now i < 256 }
{
    u8x32::from_slice(&bytes[at..])
}

// The lanes with the quarters in the middle exchanged. Instructions that pack and unpack work on each half of a vector
// by itself: for words in this order they need no instruction that moves lanes between the halves.
#[inline(always)]
fn exchanged(v: u8x32) -> u8x32
    ensures { result ≡ map (λ j. slice_index v (lane_of j)) (range_with_len 0 32) }
{
    v.swizzle([
        0, 1, 2, 3, 4, 5, 6, 7, 16, 17, 18, 19, 20, 21, 22, 23, 8, 9, 10, 11, 12, 13, 14, 15, 24,
        25, 26, 27, 28, 29, 30, 31,
    ])
}

/// The lower and the higher bytes of the thirty-two words from byte `at` on, in the lanes that `lane_of` names.
#[inline(always)]
pub(crate) fn words_at(bytes: &[u8], at: usize) -> (u8x32, u8x32)
    requires { at + 64 ≤ length bytes.now }
    ensures { IsInterleaving result.0 result.1 (take 64 (drop at bytes.now)) }
{
    let words = u16x32::from_le_bytes(u8x64::from_slice(&bytes[at..]));
    (
        exchanged(lower_bytes(words)),
        exchanged(higher_bytes(words)),
    )
}

/// The thirty-two words with these lower and higher bytes, sixteen in each of two vectors.
#[inline(always)]
pub(crate) fn interleaved(low: u8x32, high: u8x32) -> (u8x32, u8x32)
    ensures { IsInterleaving low high (result.0 ++ result.1) }
{
    (
        low.shuffle(
            high,
            [
                0, 32, 1, 33, 2, 34, 3, 35, 4, 36, 5, 37, 6, 38, 7, 39, 16, 48, 17, 49, 18, 50, 19,
                51, 20, 52, 21, 53, 22, 54, 23, 55,
            ],
        ),
        low.shuffle(
            high,
            [
                8, 40, 9, 41, 10, 42, 11, 43, 12, 44, 13, 45, 14, 46, 15, 47, 24, 56, 25, 57, 26,
                58, 27, 59, 28, 60, 29, 61, 30, 62, 31, 63,
            ],
        ),
    )
}

/// Adds a vector to the thirty-two bytes from byte `at` on.
#[inline(always)]
pub(crate) fn add_vector(dst: &mut [u8], at: usize, v: u8x32)
    requires { at + 32 ≤ length dst.old }
    ensures { AddsLanes dst.old dst.new at 32 v }
{
    let old = vector_at(dst, at);
    sum(old, v).copy_to_slice(&mut dst[at..]);
}
