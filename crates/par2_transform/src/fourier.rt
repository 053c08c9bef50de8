//! The butterflies of the additive FFT (values of polynomials at the points of a subspace) and of its transpose (power
//! sums), on all columns of words at once (Cantor 1989; Gao and Mateer 2010). Run q of level i is the `2 ^ i` rows from
//! row `q * 2 ^ i` on, and belongs to a coset of subspace i. The transforms are recursions on runs: one half of a run is
//! finished before the other one is begun, so that its rows stay in the caches.
//!
//! A polynomial's coefficients become those in the basis of products of subspace polynomials (`to_combinations`), from
//! which its values at the points of a coset follow. The locator needs few of the points: it lists their numbers once
//! (`list`), and runs that contain none of them are not split.
//!
//! The inverse of the transpose leads from power sums to the weights of the points that have them. It works on one
//! column of words: `weigh_run` inverts `sum_run`.
//!
//! The points belong to a Cantor basis of the field. Point u is the element to which row u belongs, and subspace i is the
//! points below `2 ^ i`, on which subspace polynomial i vanishes.
#![tactic(auto, using(crate::proofs::GridLaws::run_steps))]

ghost use Rattle.std.specs.Int.{bit_at};
ghost use Rattle.std.specs.Prelude.{◌≤◌, ◌*◌, ◌^◌, suc, ◌≡◌, ℕ, ◌+◌, ◌-◌, ◌<◌, length, slice_index, IfOk, IfSome, IsTrue};
ghost use Rattle.par2_spec.specs.Prelude.{field_sum, mul, GivesElements};
ghost use Rattle.par2_transform.specs.Polynomials.{point, point_number, powers_in, ArePowerSums, IsMerged, sum_ahead, IsCombination, IsHalved, IsSplit, AreListedValues, IsListed, listed_by, AreValues};
ghost use Rattle.par2_transform.specs.Rows.{AreTwoRuns, EachColumn, IsPair, IsRun, RunBecomes, RunAddedBy, AheadAdded, IsSpreadAbove, IsSpreadBelow, IsRaised};
ghost use Rattle.par2_transform.specs.Chirps.{AreWeights};

use crate::rows::Rows;
use par2_gf16::{Factor, Gf};
use std::alloc::{AllocError, Global};

// The elements of the basis: the first is 1, and each is the sum of the next one and its square.
const BASIS: [u16; 16] = [
    0x1, 0x15E, 0x1A, 0x1CF2, 0x169A, 0xBBAC, 0xFDE2, 0x468A, 0x712, 0x1B76, 0xAD6C, 0x4640,
    0xA79E, 0xF2B4, 0xF77A, 0x7FE2,
];

// Entry i is the number of the point whose only set bit is bit i.
const BIT_NUMBERS: [u16; 16] = [
    0x1, 0x1F70, 0x10C8, 0x7D8, 0x18AC, 0x48DC, 0x434, 0x141C, 0x14FA, 0x7E94, 0x6CB2, 0x35BC,
    0x62E, 0xECD8, 0x1E12, 0xFED4,
];

// The sum of the elements of the table at the set bits of x.
fn sum_at_bits(x: u16, table: &[u16]) -> u16
    requires { length table.now ≡ 16 }
    ensures { result ≡ field_sum 16 (λ i. bit_at x i * slice_index table.now i) }
{
    let mut sum = 0u16;
    for i in 0..16 {
        if (x >> i) % 2 == 1 {
            sum ^= table[i];
        }
    }
    sum
}

/// Point u: the sum of the basis elements at the set bits of u.
pub(crate) fn point(u: u16) -> u16
    ensures { result ≡ point u }
{
    sum_at_bits(u, &BASIS)
}

/// The number of the point that is the element x: the inverse of `point`. The locator needs it for the row of a root.
pub(crate) fn point_number(x: u16) -> u16
    ensures { result ≡ point_number x }
{
    sum_at_bits(x, &BIT_NUMBERS)
}

/// The powers of subspace polynomial i, which vanishes on subspace i and is a sum of powers `x ^ (2 ^ j)`. Bit j of the
/// result says whether this one is in it.
pub(crate) fn powers_in(i: u32) -> u32
    requires { i < 16 }
    ensures { result ≡ powers_in i }
{
    let mut powers = 1u32;
    for _ in 0..i {
        powers ^= powers << 1;
    }
    powers
}

/// The transpose: replaces each column of weights by the weighted sums of the first `2 ^ levels` powers of the points.
pub(crate) fn power_sums(rows: &mut Rows)
    ensures { EachColumn (ArePowerSums rows.old.levels 0) rows.old rows.new }
{
    sum_run(rows, rows.levels(), 0);
}

// The transpose of run q of level i, whose rows are weights of the points of coset q.
fn sum_run(rows: &mut Rows, i: u32, q: u16)
    requires { IsRun rows.old.levels i q }
    ensures { EachColumn (RunBecomes i q (ArePowerSums i q)) rows.old rows.new }
{
    rows.fit();
    if i > 0 {
        sum_run(rows, i - 1, 2 * q);
        sum_run(rows, i - 1, 2 * q + 1);
        merge(rows, i - 1, q);
    }
}

// Merges runs 2 q and 2 q + 1 of level i into run q of level i + 1: the power sums over two cosets give those over
// both. `weigh_run` inverts it on one column.
fn merge(rows: &mut Rows, i: u32, q: u16)
    requires { IsRun rows.old.levels (suc i) q }
    ensures { EachColumn (RunBecomes (suc i) q (IsMerged i (point (2 * q)))) rows.old rows.new }
{
    let half = 1usize << i;
    let start = q as usize * 2 * half;
    rows.add_rows(None, start + half, start, half);
    add_scaled(rows, point(2 * q), start, start + half, half);
    // The lower half of the values ahead comes first, so that those read in the upper half are complete.
    add_lower_ahead(rows, i, start);
    add_upper_ahead(rows, i, start);
}

/// Replaces the first `2 ^ levels` coefficients of each column, of which those from number `count` on are 0, by those of
/// the same polynomial as a combination of products of subspace polynomials (Lin, Chung and Han 2014). Then the
/// butterflies at the points of any coset divide no more.
pub(crate) fn to_combinations(rows: &mut Rows, levels: u32, count: usize)
    requires { (levels ≤ rows.old.levels) × (rows.old.levels ≤ 16) }
    ensures { EachColumn (IsCombination count levels) rows.old rows.new }
{
    combine_run(rows, levels, 0, count);
}

// The same of run q of level i alone.
fn combine_run(rows: &mut Rows, i: u32, q: u16, count: usize)
    requires { IsRun rows.old.levels i q }
    ensures { EachColumn (RunBecomes i q (IsCombination count i)) rows.old rows.new }
{
    rows.fit();
    if i > 0 {
        let half = 1usize << (i - 1);
        halve(rows, i - 1, q, count);
        combine_run(rows, i - 1, 2 * q, count);
        combine_run(rows, i - 1, 2 * q + 1, count.saturating_sub(half));
    }
}

// Divides run q of level i + 1, whose coefficients from number `count` on are 0, by subspace polynomial i: leaves the
// remainder in the lower half and the quotient in the upper one.
fn halve(rows: &mut Rows, i: u32, q: u16, count: usize)
    requires { IsRun rows.old.levels (suc i) q }
    ensures { EachColumn (RunBecomes (suc i) q (IsHalved count i)) rows.old rows.new }
{
    rows.fit();
    let half = 1usize << i;
    if count > half {
        let start = q as usize * 2 * half;
        spread_above(rows, i, start);
        spread_below(rows, i, start);
    }
}

/// Splits run q of level i + 1 of combinations into two of level i that agree with it on one half of the coset each. c is
/// the value of subspace polynomial i on the first half.
pub(crate) fn split(rows: &mut Rows, i: u32, q: u16, c: u16)
    requires { IsRun rows.old.levels (suc i) q }
    ensures { EachColumn (RunBecomes (suc i) q (IsSplit i c)) rows.old rows.new }
{
    rows.fit();
    let half = 1usize << i;
    let start = q as usize * 2 * half;
    if c == 0 {
        rows.add_rows(None, start, start + half, half);
    } else {
        rows.butterfly(&Factor::new(c), start, start + half, half);
    }
}

// Adds c times the `count` rows from `from` on to those from `to` on, unless c is 0, as in the first run of each level.
fn add_scaled(rows: &mut Rows, c: u16, from: usize, to: usize, count: usize)
    requires { AreTwoRuns (2 ^ rows.old.levels) from to count }
    ensures { EachColumn (RunAddedBy (mul c) from to count) rows.old rows.new }
{
    if c != 0 {
        rows.add_rows(Some(&Factor::new(c)), from, to, count);
    }
}

// A step of `merge`: adds to value 2 ^ i + e those of the values e + 2 ^ j that lie in the lower half of the run.
fn add_lower_ahead(rows: &mut Rows, i: u32, start: usize)
    requires { IsPair rows.old.levels i start }
    ensures { EachColumn (AheadAdded i start 0 (2 ^ i) i) rows.old rows.new }
{
    let powers = powers_in(i);
    let half = 1usize << i;
    for j in 0..i {
        if (powers >> j) % 2 == 1 {
            rows.add_rows(None, start + (1 << j), start + half, half - (1 << j));
        }
    }
}

// A step of `merge`: adds to value 2 ^ i + e those of the values e + 2 ^ j that lie in the upper half of the run.
fn add_upper_ahead(rows: &mut Rows, i: u32, start: usize)
    requires { IsPair rows.old.levels i start }
    ensures { EachColumn (AheadAdded i start (2 ^ i) (2 ^ suc i) i) rows.old rows.new }
{
    let powers = powers_in(i);
    let half = 1usize << i;
    for j in 0..i {
        if (powers >> j) % 2 == 1 {
            rows.add_rows(None, start + half, start + 2 * half - (1 << j), 1 << j);
        }
    }
}

// A step of `halve`: adds coefficient 2 ^ i + e to coefficient e + 2 ^ j, for each lower power 2 ^ j of the subspace
// polynomial, if that lies in the upper half.
fn spread_above(rows: &mut Rows, i: u32, start: usize)
    requires { IsPair rows.old.levels i start }
    ensures { EachColumn (IsSpreadAbove i start i) rows.old rows.new }
{
    let powers = powers_in(i);
    let half = 1usize << i;
    for j in 0..i {
        if (powers >> j) % 2 == 1 {
            rows.add_rows(None, start + 2 * half - (1 << j), start + half, 1 << j);
        }
    }
}

// A step of `halve`: adds coefficient 2 ^ i + e to coefficient e + 2 ^ j, as `spread_above`, if it is in the lower half.
// The upper half, which is the quotient, is complete before.
fn spread_below(rows: &mut Rows, i: u32, start: usize)
    requires { IsPair rows.old.levels i start }
    ensures { EachColumn (IsSpreadBelow i start i) rows.old rows.new }
{
    let powers = powers_in(i);
    let half = 1usize << i;
    for j in 0..i {
        if (powers >> j) % 2 == 1 {
            rows.add_rows(None, start + half, start + (1 << j), half - (1 << j));
        }
    }
}

// The number of points of the whole field.
const POINTS: usize = 65536;

/// For each n below 65,536, the least of `numbers` that is n or more, or 65,536 if there is none. One look at it tells
/// whether a run contains a listed point. `IsListed`: the number is in the list.
pub(crate) fn list(alloc: Global, numbers: &[u16]) -> Result<Vec<u32>, AllocError>
    ensures count { IfOk result (λ next. length next.items ≡ 65536) }
    ensures listed { IfOk result (λ next. (j : ℕ) → j < length numbers.now
        → IsListed (slice_index next.items) (slice_index numbers.now j)) }
{
    let mut next = vec![in alloc; POINTS as u32; POINTS]?;
    let entries = next.as_mut_slice();
    name_each(numbers, entries);
    name_least(entries);
    Ok(next)
}

// The first step of `list`: enters each number at its own index.
fn name_each(numbers: &[u16], next: &mut [u32])
    requires { length next.old ≡ 65536 }
    ensures { (j : ℕ) → j < length numbers.now
        → slice_index next.new (slice_index numbers.now j) ≤ slice_index numbers.now j }
{
    for number in numbers {
        next[*number as usize] = *number as u32;
    }
}

// The second step of `list`: replaces each entry by the least one from it on.
fn name_least(next: &mut [u32])
    ensures { (n : ℕ) → n < length next.old → slice_index next.old n ≤ n
        → IsListed (slice_index next.new) n }
{
    for a in (1..next.len()).rev() {
        next[a - 1] = next[a - 1].min(next[a]);
    }
}

// Whether a wanted point is in coset `number` of subspace i: a listed one, or any if there is no list.
fn has_wanted(next: Option<&[u32]>, i: u32, number: u16) -> bool
    requires list { IfSome next (λ list. length list.now ≡ 65536) }
    requires coset { IsRun 16 i number }
    ensures { (u : ℕ) → u < 2 ^ i → IsListed (listed_by next.entry) (number * 2 ^ i + u) → IsTrue result }
{
    let Some(next) = next else {
        return true;
    };
    let first = (number as usize) << i;
    (next[first] as usize) < first + (1usize << i)
}

// Replaces run q of level i by its values at the points of coset `number`, or at the listed ones among them.
fn evaluate_run(rows: &mut Rows, next: Option<&[u32]>, i: u32, q: u16, number: u16)
    // Run q of level i lies in the rows, and the coset in the field.
    requires run { IsRun rows.old.levels i q }
    requires coset { IsRun 16 i number }
    // The list, if there is one, has an entry for each point.
    requires list { IfSome next (λ list. length list.now ≡ 65536) }
    // The run gets its values at the listed points. No other run changes.
    ensures { EachColumn (RunBecomes i q (AreListedValues (listed_by next.entry) i number)) rows.old rows.new }
{
    if i > 0 && has_wanted(next, i, number) {
        split(rows, i - 1, q, point(2 * number));
        rows.fit();
        evaluate_run(rows, next, i - 1, 2 * q, 2 * number);
        evaluate_run(rows, next, i - 1, 2 * q + 1, 2 * number + 1);
    }
}

/// Replaces the first `2 ^ levels` coefficients of each column, which are those of a combination (`to_combinations`), by
/// its values at the listed points of a coset, or at all of its points if there is no list. Rows of other points have no
/// meaning afterwards. The field has `2 ^ (16 - levels)` cosets of `2 ^ levels` points.
pub(crate) fn values_in_coset(rows: &mut Rows, next: Option<&[u32]>, levels: u32, coset: u16)
    requires levels { (levels ≤ rows.old.levels) × (rows.old.levels ≤ 16) }
    requires coset { IsRun 16 levels coset }
    requires list { IfSome next (λ list. length list.now ≡ 65536) }
    ensures { EachColumn (AreListedValues (listed_by next.entry) levels coset) rows.old rows.new }
{
    evaluate_run(rows, next, levels, 0, coset);
}

/// The additive FFT: replaces each column of coefficients, of which those from number `count` on are 0, by the values of
/// the polynomial at the points of the subspace.
pub(crate) fn values_at_points(rows: &mut Rows, count: usize)
    ensures { EachColumn (AreValues count rows.old.levels) rows.old rows.new }
{
    let levels = rows.levels();
    to_combinations(rows, levels, count);
    values_in_coset(rows, None, levels, 0);
}

/// For the prover: each word is below 2 ^ 16.
#[inline(always)]
pub(crate) fn fit_words(words: &[u16])
    ensures { GivesElements (slice_index words.now) }
{
    let _ = words.len();
}

/// Replaces power sums, word e that of power e, by the weights that have them, word u that of point u. There are
/// `2 ^ levels` words.
pub(crate) fn weights(gf: &Gf, words: &mut [u16], levels: u32)
    requires few { levels ≤ 16 }
    requires count { length words.old ≡ 2 ^ levels }
    ensures count { length words.new ≡ length words.old }
    ensures elements { GivesElements (slice_index words.new) }
    ensures are { (sequence : ℕ → ℕ) (b : ℕ)
        → ((e : ℕ) → e < 2 ^ levels → slice_index words.old e ≡ sequence (b + e))
        → AreWeights levels sequence b (slice_index words.new) }
{
    weigh_run(gf, words, levels, 0);
    fit_words(words);
}

// The same of run q of level i, whose power sums are those of coset q.
fn weigh_run(gf: &Gf, words: &mut [u16], i: u32, q: u16)
    requires level { i ≤ 16 }
    requires run { q < 2 ^ (16 - i) }
    requires fits { q * 2 ^ i + 2 ^ i ≤ length words.old }
    ensures count { length words.new ≡ length words.old }
    ensures weights { RunBecomes i q (ArePowerSums i q) (slice_index words.new) (slice_index words.old) }
{
    fit_words(words);
    if i > 0 {
        let half = 1usize << (i - 1);
        let start = q as usize * 2 * half;
        lower(gf, words, i - 1, start, point(2 * q));
        add_run(words, start + half, start, half);
        weigh_run(gf, words, i - 1, 2 * q + 1);
        weigh_run(gf, words, i - 1, 2 * q);
        fit_words(words);
    }
}

// Adds the `count` values from `from` on to those from `to` on.
fn add_run(words: &mut [u16], from: usize, to: usize, count: usize)
    requires from { from + count ≤ length words.old }
    requires apart { to + count ≤ from }
    ensures { RunAddedBy (λ x. x) from to count (slice_index words.old) (slice_index words.new) }
{
    for e in 0..count {
        words[to + e] ^= words[from + e];
    }
}

// Inverts the second step of `merge` on one column, in the run that begins at `start`. It goes downwards, because the
// values that it reads in the upper half must still be the merged ones.
fn lower(gf: &Gf, words: &mut [u16], i: u32, start: usize, c: u16)
    requires level { i < 16 }
    requires fits { start + 2 ^ suc i ≤ length words.old }
    ensures { IsRaised i c start 0 (slice_index words.new) (slice_index words.old) }
{
    let half = 1usize << i;
    for e in (0..half).rev() {
        let besides = gf.mul(c, words[start + e]) ^ sum_ahead(words, i, start + e);
        words[start + half + e] ^= besides;
    }
}

// The sum of the values at `at + 2 ^ j`, for the lower powers 2 ^ j of the subspace polynomial.
fn sum_ahead(words: &[u16], i: u32, at: usize) -> u16
    requires level { i < 16 }
    requires fits { at + 2 ^ i < length words.now }
    ensures { result ≡ sum_ahead i (slice_index words.now) at }
{
    let powers = powers_in(i);
    let mut sum = 0;
    for j in 0..i {
        if (powers >> j) % 2 == 1 {
            sum ^= words[at + (1 << j)];
        }
    }
    sum
}
