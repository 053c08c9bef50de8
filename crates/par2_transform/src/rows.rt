//! The rows of words that a transform works on. Row u has the values of point u (or coefficient u), and
//! each column of words is transformed by itself.
#![tactic(auto, using(crate::proofs::GridLaws::grid_steps))]

ghost use Rattle.std.specs.Prelude.{◌≡◌, ℕ, ◌+◌, ◌*◌, ◌%◌, ◌^◌, ◌<◌, ◌≤◌, length, IfOk};
ghost use Rattle.par2_gf16.specs.Words.{word_in, word_of};
ghost use Rattle.par2_spec.specs.Prelude.{mul, word, GivesElements};
ghost use Rattle.par2_transform.specs.Rows.{times, column, AreCopied, AreRewritten, AreTwoRuns, AddsToRun, CopiesVectors, EachColumn, HasSize, IsAdded, RunAddedBy, IsButterfly};

use crate::outputs::copy_padded;
use par2_gf16::{Factor, WordVector};
use std::alloc::{AllocError, Global};
use std::marker::Model;

// The words, multiplied by the factor if there is one.
#[inline(always)]
fn times(by: Option<&Factor>, words: WordVector) -> WordVector
    ensures { (j : ℕ) → j < 32 → word_in result j ≡ times by.entry (word_in words j) }
{
    match by {
        None => words,
        Some(factor) => factor.times(words),
    }
}

// Copies the first `count` vectors of `src` to those of `dst`.
fn copy(src: &[WordVector], dst: &mut [WordVector], count: usize)
    requires source { count ≤ length src.now }
    requires room { count ≤ length dst.old }
    ensures { CopiesVectors count src.now dst.old dst.new }
{
    dst[..count].copy_from_slice(&src[..count]);
}

// Adds the words to vector n.
#[inline(always)]
fn add_at(vectors: &mut [WordVector], n: usize, words: WordVector)
    requires { n < length vectors.old }
    ensures kept { AreRewritten vectors.old vectors.new }
    ensures added { AddsToRun (32 * n) 32 (word_in words) (word_of vectors.old) (word_of vectors.new) }
{
    vectors[n] = vectors[n].plus(words);
}

/// `2 ^ levels` rows of words, one after the other, each of whole vectors.
#[derive(Drop)]
pub(crate) struct Rows {
    levels: u32,
    // The number of vectors of a row.
    width: usize,
    vectors: Vec<WordVector>,
    // A buffer for the bytes that are added to a row. They are copied first, because a copy reads memory faster than
    // the products do.
    source: Vec<u8>,
}

impl Model for Rows {
    ghost use Rattle.std.specs.Prelude.{◌≡◌, ◌*◌, length};
    ghost use Rattle.par2_transform.specs.Rows.{Grid, AreRows};

    ghost Value = { Grid };

    ghost view = { λ a. record {
      levels = a.levels;
      words = 32 * a.width;
      vectors = a.vectors.items;
    } };

    ghost invariant = { λ a. AreRows a.levels a.width a.vectors.items
        × (length a.source.items ≡ 64 * a.width) };
}

impl Rows {
    /// `2 ^ levels` rows of `words` zeros each. A row has whole vectors of thirty-two words.
    pub(crate) fn new(alloc: Global, levels: u32, words: usize) -> Result<Rows, AllocError>
        requires few { levels ≤ 16 }
        requires fit { words ≤ 2 ^ 16 }
        requires whole { words % 32 ≡ 0 }
        ensures levels { IfOk result (λ rows. rows.levels ≡ levels) }
        ensures words { IfOk result (λ rows. rows.words ≡ words) }
        ensures zero { IfOk result (λ rows. (c u : ℕ) → column rows c u ≡ 0) }
    {
        let width = words / 32;
        let vectors = vec![in alloc; WordVector::zeros(); (1 << levels) * width]?;
        let source = vec![in alloc; 0u8; 64 * width]?;
        Ok(Rows {
            levels,
            width,
            vectors,
            source,
        })
    }

    /// The logarithm of the number of rows.
    pub(crate) fn levels(&self) -> u32
        ensures value { result ≡ self.now.levels }
        ensures most { result ≤ 16 }
    {
        self.levels
    }

    /// Sets all words to zero, before scratch rows are filled again.
    pub(crate) fn clear(&mut self)
        ensures levels { self.new.levels ≡ self.old.levels }
        ensures words { self.new.words ≡ self.old.words }
        ensures zero { (c u : ℕ) → column self.new c u ≡ 0 }
    {
        self.vectors.as_mut_slice().fill(WordVector::zeros());
    }

    // The number of vectors before row u.
    fn place(&self, u: usize) -> usize
        requires { u ≤ 2 ^ self.now.levels }
        ensures { 32 * result ≡ u * self.now.words }
    {
        u * self.width
    }

    /// The words of row u.
    pub(crate) fn row(&self, u: usize) -> &[WordVector]
        requires { u < 2 ^ self.now.levels }
        ensures size { 32 * length result.now ≡ self.now.words }
        ensures words { (c : ℕ) → word_of result.now c ≡ column self.now c u }
    {
        &self.vectors[self.place(u)..self.place(u + 1)]
    }

    /// Copies the first `count` of the other rows.
    pub(crate) fn copy_from(&mut self, other: &Rows, count: usize)
        requires count { count ≤ 2 ^ self.old.levels }
        requires same { HasSize self.old.levels self.old.words other.now }
        ensures { AreCopied count other.now self.old self.new }
    {
        let count = self.place(count);
        copy(&other.vectors, self.vectors.as_mut_slice(), count);
    }

    /// Adds the factor times word c of the bytes to word c of row `to`. Bytes shorter than a row are padded with zeros.
    pub(crate) fn add_bytes(&mut self, factor: &Factor, bytes: &[u8], to: usize)
        requires place { to < 2 ^ self.old.levels }
        ensures { IsAdded self.old self.new to (λ c. mul factor.now (word c bytes.now)) }
    {
        let start = self.place(to);
        copy_padded(bytes, self.source.as_mut_slice());
        let source = self.source.as_slice();
        let vectors = self.vectors.as_mut_slice();
        for k in 0..self.width {
            let words = WordVector::from_bytes(source, 64 * k);
            add_at(vectors, start + k, factor.times(words));
        }
    }

    /// Adds the factor times row `from` of the other rows to row `to`.
    pub(crate) fn add_other(&mut self, factor: &Factor, other: &Rows, from: usize, to: usize)
        requires place { to < 2 ^ self.old.levels }
        requires other { from < 2 ^ other.now.levels }
        requires same { other.now.words ≡ self.old.words }
        ensures { IsAdded self.old self.new to (λ c. mul factor.now (column other.now c from)) }
    {
        let start = self.place(to);
        let row = other.row(from);
        let vectors = self.vectors.as_mut_slice();
        for k in 0..row.len() {
            add_at(vectors, start + k, factor.times(row[k]));
        }
    }

    /// Adds the `count` rows from row `from` on, multiplied if there is a factor, to those from row `to` on. They don't
    /// overlap.
    pub(crate) fn add_rows(&mut self, by: Option<&Factor>, from: usize, to: usize, count: usize)
        requires { AreTwoRuns (2 ^ self.old.levels) from to count }
        ensures { EachColumn (RunAddedBy (times by.entry) from to count) self.old self.new }
    {
        let (from, to, count) = (self.place(from), self.place(to), self.place(count));
        let vectors = self.vectors.as_mut_slice();
        for k in 0..count {
            let words = vectors[from + k];
            add_at(vectors, to + k, times(by, words));
        }
    }

    /// The butterfly: adds the factor times the `count` rows from row `high` on to those from row `low` on, and then these
    /// to those from row `high` on.
    pub(crate) fn butterfly(&mut self, factor: &Factor, low: usize, high: usize, count: usize)
        requires order { low + count ≤ high }
        requires high { high + count ≤ 2 ^ self.old.levels }
        ensures { EachColumn (IsButterfly (mul factor.now) low high count) self.old self.new }
    {
        let (low, high, count) = (self.place(low), self.place(high), self.place(count));
        let vectors = self.vectors.as_mut_slice();
        for k in 0..count {
            let words = vectors[high + k];
            add_at(vectors, low + k, factor.times(words));
            let sums = vectors[low + k];
            add_at(vectors, high + k, sums);
        }
    }

    /// For the prover: each word is below 2 ^ 16.
    pub(crate) fn fit(&self)
        ensures { (c : ℕ) → GivesElements (column self.now c) }
    {
        let _ = &self.width;
    }
}
