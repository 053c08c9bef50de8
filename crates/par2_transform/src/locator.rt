//! Products of matrices and sources, in about n log n products of sources.
//!
//! `Numerators` multiplies the Hankel matrix of a sequence: sum t is that of all sources, source s times element s + t of
//! the sequence. If the sequence has the coefficients of an error locator and the sources are syndromes, these sums are
//! the coefficients of the numerator, Forney's error evaluator (Forney 1965), or right-hand sides of the locator's
//! recurrence.
//!
//! `Locator` divides a polynomial by z minus each of its roots: the coefficients of the quotients are a matrix with a row
//! for each root. For L roots, its product with L sources takes about L log L products of sources here and not L x L. The
//! values of the numerator at the roots, scaled, are the product.

ghost use Rattle.std.specs.Prelude.{◌≡◌, ◌+◌, ◌-◌, ◌^◌, ◌<◌, ◌≤◌, length, slice_index, IfOk};
ghost use Rattle.par2_spec.specs.Prelude.{lists_of, GivesElements};
ghost use Rattle.par2_transform.specs.Rows.{within, AddsToEach, HaveWords, HasSize};
ghost use Rattle.par2_transform.specs.Chirps.{Tabulates, byte_lists, words_at, AreByteLists};
ghost use Rattle.par2_transform.specs.Locators.{AreNumbered, AreNumerators, HaveFirst, HoldNumerators, IsWeighed, in_coset};

use crate::exponents::{buffer_at, buffers_fit, bytes_from, columns_for};
use crate::fourier::{
    fit_words, list, point_number, power_sums, to_combinations, values_at_points, values_in_coset,
    weights,
};
use crate::outputs::{Columns, Places};
use crate::recovery::whole_buffers;
use crate::rows::Rows;
use crate::windows::gather_rows;
use par2_gf16::{Factor, Gf};
use std::alloc::{AllocError, Global};

/// The Hankel matrix of a sequence: row t, of which there are `count`, has the elements from t on. Elements past the end
/// are 0.
#[derive(Drop)]
pub struct Numerators {
    pub sequence: Vec<u16>,
    pub count: usize,
    pub(crate) levels: u32,
    weights: Vec<u16>,
    ghost few: { levels ≤ 16 },
    ghost fit: { length sequence.items + count ≤ 2 ^ levels },
    ghost weighed: { IsWeighed levels sequence.items weights.items },
    ghost elements: { GivesElements (slice_index sequence.items) },
}

/// Scratch for sums of sources: two sets of rows of one shape.
#[derive(Drop)]
pub(crate) struct Scratch {
    pub(crate) rows: Rows,
    pub(crate) sums: Rows,
    ghost same_levels: { sums.levels ≡ rows.levels },
    ghost same_words: { sums.words ≡ rows.words },
}

// The word at `place`, or 0 past the end.
fn word_or_zero(words: &[u16], place: usize) -> u16
    ensures { result ≡ slice_index words.now place }
{
    if place < words.len() { words[place] } else { 0 }
}

// The first `count` words, padded with zeros if there are fewer.
#[tactic(auto, using(crate::proofs::BlockLaws::tables))]
fn padded(alloc: Global, words: &[u16], count: usize) -> Result<Vec<u16>, AllocError>
    ensures { IfOk result (λ all. Tabulates (slice_index words.now) count all.items) }
{
    (0..count).map(|i| word_or_zero(words, i)).collect(alloc)
}

// Copies the words of source s, from word `from` on, to row s: as many as a row has, and zeros for those past the
// source's end. The rows after the last source become zero.
fn fill(sources: &[&[u8]], from: usize, rows: &mut Rows)
    requires { length sources.now ≤ 2 ^ rows.old.levels }
    ensures bytes { AreByteLists (byte_lists sources.now) }
    ensures rows { HaveFirst (length sources.now)
        (λ c s. words_at (byte_lists sources.now) (from + c) s) rows.old rows.new }
{
    buffers_fit(sources);
    rows.clear();
    let factor = Factor::new(1);
    for s in 0..sources.len() {
        rows.add_bytes(&factor, bytes_from(buffer_at(sources, s), from), s);
    }
}

impl Numerators {
    ghost use Rattle.par2_transform.specs.Outputs.{AddsIn, Fit, numerator_word};

    /// For this sequence and `count` sums. Computes the weights of the points. An error is that memory ran out.
    pub fn new(
        alloc: Global,
        gf: &Gf,
        sequence: Vec<u16>,
        count: usize,
    ) -> Result<Numerators, AllocError>
        requires { length sequence.items + count ≤ 65536 }
        ensures sequence { IfOk result (λ made. made.sequence.items ≡ sequence.items) }
        ensures count { IfOk result (λ made. made.count ≡ count) }
    {
        // With fewer points, the sums would wrap around.
        let levels = (sequence.len() + count).next_power_of_two().ilog2();
        let mut points = padded(alloc, &sequence, 1 << levels)?;
        weights(gf, points.as_mut_slice(), levels);
        fit_words(&sequence);
        Ok(Numerators {
            sequence,
            count,
            levels,
            weights: points,
        })
    }

    /// Computes the sums of the sources' words from word `from` on, sum t in row t of `sums`.
    pub(crate) fn sum(&self, sources: &[&[u8]], from: usize, scratch: &mut Scratch)
        // There is a source for each element, and the rows have one for each point.
        requires count { length sources.now ≡ length self.now.sequence.items }
        requires levels { scratch.old.rows.levels ≡ self.now.levels }
        // For the prover: the sources are bytes.
        ensures bytes { AreByteLists (byte_lists sources.now) }
        // The first rows of `sums` are the numerators.
        ensures numerators { AreNumerators self.now.count self.now.sequence.items
            (byte_lists sources.now) from scratch.old.sums scratch.new.sums }
    {
        fill(sources, from, &mut scratch.rows);
        values_at_points(&mut scratch.rows, sources.len());
        scratch.sums.clear();
        gather_rows(&self.weights, &scratch.rows, &mut scratch.sums);
        power_sums(&mut scratch.sums);
    }

    // Adds sum t to output t in these columns.
    fn add_columns(
        &self,
        sources: &[&[u8]],
        columns: &Columns,
        scratch: &mut Scratch,
        buffers: &mut [Vec<u8>],
    )
        // There is a source for each element and a sum for each output, and the rows have one for each point.
        requires sources { length sources.now ≡ length self.now.sequence.items }
        requires count { length columns.now.outputs.places.now ≤ self.now.count }
        requires levels { scratch.old.rows.levels ≡ self.now.levels }
        // These columns fit the rows, and the outputs lie inside the buffers.
        requires fits { Fit scratch.old.rows.words columns.now buffers.old }
        // The rows keep their shape, so that the next columns can use them.
        ensures size { HasSize scratch.old.rows.levels scratch.old.rows.words scratch.new.rows }
        // Each output gets its sum in these columns. Nothing else changes.
        ensures added { AddsIn columns.now (numerator_word self.now sources.now) buffers.old buffers.new }
    {
        self.sum(sources, columns.from, scratch);
        for t in 0..columns.outputs.len() {
            columns.add_products(1, scratch.sums.row(t), buffers, t);
        }
    }

    /// Adds sum t to buffer t, some columns at a time. Takes about `room` bytes of memory beside the buffers, or the least
    /// it can, which is two rows of 32 words for each of 2 ^ levels points.
    pub fn add_sums(
        &self,
        alloc: Global,
        sources: &[&[u8]],
        words: usize,
        buffers: &mut [Vec<u8>],
        room: usize,
    ) -> Result<(), AllocError>
        requires sources { length sources.now ≡ length self.now.sequence.items }
        requires count { length buffers.old ≤ self.now.count }
        requires size { HaveWords words (lists_of buffers.old) }
        ensures { IfOk result (λ _. AddsToEach (numerator_word self.now sources.now)
            (lists_of buffers.old) (lists_of buffers.new)) }
    {
        let places = whole_buffers(alloc, buffers.len())?;
        let outputs = Places::new(&places, words);
        let width = columns_for(2 << self.levels, words, room);
        let rows = Rows::new(alloc, self.levels, width)?;
        let sums = Rows::new(alloc, self.levels, width)?;
        let mut scratch = Scratch { rows, sums };
        for k in 0..outputs.words.div_ceil(width) {
            let columns = outputs.columns(k, width);
            self.add_columns(sources, &columns, &mut scratch, buffers);
        }
        Ok(())
    }
}

/// Multiplies sources by the quotients of a polynomial on division by z minus each of the points. Each quotient is
/// scaled by a factor. The sequence of the numerators has the polynomial's coefficients from 1 on.
#[derive(Drop)]
pub struct Locator {
    pub numerators: Numerators,
    pub points: Vec<u16>,
    pub factors: Vec<u16>,
    numbers: Vec<u16>,
    next: Vec<u32>,
    // The numerator has at most `2 ^ levels` coefficients, so cosets of as many points serve.
    levels: u32,
    ghost few: { levels ≤ numerators.levels },
    ghost fit: { length numerators.sequence.items ≤ 2 ^ levels },
    ghost whole: { numerators.count ≡ length numerators.sequence.items },
    ghost factors_count: { length factors.items ≡ length points.items },
    ghost points_fit: { GivesElements (slice_index points.items) },
    ghost factors_fit: { GivesElements (slice_index factors.items) },
    ghost numbered: { AreNumbered points.items numbers.items next.items },
}

impl Locator {
    ghost use Rattle.par2_transform.specs.Outputs.{Adds, AddsIn, Serves, quotient_word};

    /// For the polynomial with these coefficients from 1 on (`sequence`), its roots (`points`) and a factor for each.
    /// Computes the numbers of the points and what the numerators need. An error is that memory ran out.
    pub fn new(
        alloc: Global,
        gf: &Gf,
        sequence: Vec<u16>,
        points: Vec<u16>,
        factors: Vec<u16>,
    ) -> Result<Locator, AllocError>
        requires few { length sequence.items ≤ 32768 }
        requires factors { length factors.items ≡ length points.items }
        ensures sequence { IfOk result (λ made. made.numerators.sequence.items ≡ sequence.items) }
        ensures points { IfOk result (λ made. made.points.items ≡ points.items) }
        ensures factors { IfOk result (λ made. made.factors.items ≡ factors.items) }
    {
        let count = sequence.len();
        let numerators = Numerators::new(alloc, gf, sequence, count)?;
        let numbers: Vec<u16> = points.iter().map(|x| point_number(*x)).collect(alloc)?;
        let next = list(alloc, &numbers)?;
        fit_words(&points);
        fit_words(&factors);
        let levels = numerators.levels.saturating_sub(1);
        Ok(Locator {
            numerators,
            points,
            factors,
            numbers,
            next,
            levels,
        })
    }

    // Evaluates the numerators at the points in the coset, and adds the values, times their factors, to these columns of
    // the points' outputs.
    fn add_coset(
        &self,
        sources: &[&[u8]],
        coset: usize,
        columns: &Columns,
        scratch: &mut Scratch,
        buffers: &mut [Vec<u8>],
    )
        // The coset exists.
        requires coset { coset < 2 ^ (16 - self.now.levels) }
        requires serves { Serves self.now columns.now scratch.old.rows buffers.old }
        // The rows are the numerators over the sources, as combinations.
        requires bytes { AreByteLists (byte_lists sources.now) }
        requires numerators { HoldNumerators self.now.levels
            self.now.numerators.sequence.items (byte_lists sources.now) columns.now.from
            scratch.old.rows }
        // The combinations stay for the next coset.
        ensures kept { scratch.new.rows ≡ scratch.old.rows }
        // Each output whose point is in the coset gets its sum. Nothing else changes.
        ensures added { Adds columns.now.outputs (λ t p.
            in_coset self.now.numbers.items self.now.levels coset t
            (within columns.now.from columns.now.to p (quotient_word self.now sources.now t p)))
            buffers.old buffers.new }
    {
        scratch.sums.copy_from(&scratch.rows, 1 << self.levels);
        let sums = &mut scratch.sums;
        values_in_coset(sums, Some(&self.next), self.levels, coset as u16);
        for j in 0..columns.outputs.len() {
            let number = self.numbers[j] as usize;
            if number >> self.levels == coset {
                let row = scratch.sums.row(number - (coset << self.levels));
                columns.add_products(self.factors[j], row, buffers, j);
            }
        }
    }

    // Adds the sums to these columns of the outputs: computes the numerators, divides them into combinations, and adds
    // coset by coset.
    fn add_columns(
        &self,
        sources: &[&[u8]],
        columns: &Columns,
        scratch: &mut Scratch,
        buffers: &mut [Vec<u8>],
    )
        // There is a source for each coefficient.
        requires sources { length sources.now ≡ length self.now.numerators.sequence.items }
        requires serves { Serves self.now columns.now scratch.old.rows buffers.old }
        // The rows keep their shape, so that the next columns can use them.
        ensures size { HasSize scratch.old.rows.levels scratch.old.rows.words scratch.new.rows }
        // Each output gets its sum in these columns. Nothing else changes.
        ensures added { AddsIn columns.now (quotient_word self.now sources.now) buffers.old buffers.new }
    {
        self.numerators.sum(sources, columns.from, scratch);
        let count = self.numerators.sequence.len();
        scratch.rows.clear();
        scratch.rows.copy_from(&scratch.sums, count);
        to_combinations(&mut scratch.rows, self.levels, count);
        for coset in 0..1usize << (16 - self.levels) {
            self.add_coset(sources, coset, columns, scratch, buffers);
        }
    }

    /// Adds to buffer j the sum of the sources, each times its coefficient of the quotient for point j. Takes about
    /// `room` bytes of memory beside the buffers, or the least it can, which is two rows of 32 words for each of
    /// 2 ^ levels points.
    pub fn add_quotient_sums(
        &self,
        alloc: Global,
        sources: &[&[u8]],
        words: usize,
        buffers: &mut [Vec<u8>],
        room: usize,
    ) -> Result<(), AllocError>
        requires sources { length sources.now ≡ length self.now.numerators.sequence.items }
        requires count { length buffers.old ≡ length self.now.points.items }
        requires size { HaveWords words (lists_of buffers.old) }
        ensures { IfOk result (λ _. AddsToEach (quotient_word self.now sources.now)
            (lists_of buffers.old) (lists_of buffers.new)) }
    {
        let places = whole_buffers(alloc, buffers.len())?;
        let outputs = Places::new(&places, words);
        let levels = self.numerators.levels;
        let width = columns_for(2 << levels, words, room);
        let rows = Rows::new(alloc, levels, width)?;
        let sums = Rows::new(alloc, levels, width)?;
        let mut scratch = Scratch { rows, sums };
        for k in 0..outputs.words.div_ceil(width) {
            let columns = outputs.columns(k, width);
            self.add_columns(sources, &columns, &mut scratch, buffers);
        }
        Ok(())
    }
}
