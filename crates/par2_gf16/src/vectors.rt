//! Thirty-two words with their lower and their higher bytes apart. A product needs them apart, so words that take part in
//! many products are kept so, and their bytes are interleaved only in the end. In bytes, a word's lower byte is first.

ghost use Rattle.std.specs.Prelude.{◌≡◌, ℕ, ◌+◌, ◌-◌, ◌*◌, ◌^◌, ◌<◌, ◌≤◌, length, drop, bit_xor, IfOk};
ghost use Rattle.par2_spec.specs.Prelude.{word};
ghost use Rattle.par2_gf16.specs.Words.{word_in, word_of, AddsEach};

use crate::lanes;
use par2_spec::Result;
use std::alloc::Global;
use std::simd::prelude::*;

/// Thirty-two words: a vector of their lower bytes and one of their higher bytes, in the lanes that `lane_of` names.
#[derive(Clone, Copy, Drop)]
pub struct WordVector {
    pub(crate) low: u8x32,
    pub(crate) high: u8x32,
}

/// The words of the bytes, in vectors. Zeros fill up the last one. Fails only when memory runs out.
pub fn vectors_of(alloc: Global, bytes: &[u8]) -> Result<Vec<WordVector>>
    ensures count { IfOk result (λ vectors. length bytes.now ≤ 64 * length vectors.items) }
    ensures words { IfOk result (λ vectors. (p : ℕ) → word_of vectors.items p ≡ word p bytes.now) }
{
    let count = bytes.len().div_ceil(64);
    let mut vectors = Vec::with_capacity(alloc, count)?;
    for k in 0..count {
        vectors.push(WordVector::padded(bytes, 32 * k))?;
    }
    Ok(vectors)
}

impl WordVector {
    /// Thirty-two zeros.
    pub fn zeros() -> WordVector
        ensures { (j : ℕ) → word_in result j ≡ 0 }
    {
        WordVector {
            low: u8x32::splat(0),
            high: u8x32::splat(0),
        }
    }

    /// The thirty-two little-endian words from byte `at` on.
    #[inline(always)]
    pub fn from_bytes(bytes: &[u8], at: usize) -> WordVector
        requires { at + 64 ≤ length bytes.now }
        ensures { (j : ℕ) → j < 32 → word_in result j ≡ word j (drop at bytes.now) }
    {
        let (low, high) = lanes::words_at(bytes, at);
        WordVector { low, high }
    }

    /// The thirty-two words from word n on, where zeros stand for those past the end.
    #[inline(always)]
    #[tactic(auto, using(crate::proofs::Words::word_drop))]
    pub(crate) fn padded(bytes: &[u8], n: usize) -> WordVector
        requires { 2 * n ≤ length bytes.now }
        ensures { (j : ℕ) → j < 32 → word_in result j ≡ word (n + j) bytes.now }
    {
        if bytes.len() - 2 * n < 64 {
            WordVector::last(&bytes[2 * n..])
        } else {
            WordVector::from_bytes(bytes, 2 * n)
        }
    }

    // The words of fewer bytes than a vector has, and zeros.
    fn last(bytes: &[u8]) -> WordVector
        requires { length bytes.now < 64 }
        ensures { (j : ℕ) → j < 32 → word_in result j ≡ word j bytes.now }
    {
        let mut block = [0u8; 64];
        block[..bytes.len()].copy_from_slice(bytes);
        WordVector::from_bytes(&block, 0)
    }

    /// The sums of these words and others, which are their exclusive or.
    #[inline(always)]
    pub fn plus(self, other: WordVector) -> WordVector
        ensures sums { (j : ℕ) → j < 32 → word_in result j ≡ bit_xor (word_in self j) (word_in other j) }
        ensures fit { (j : ℕ) → word_in result j < 2 ^ 16 }
    {
        WordVector {
            low: lanes::sum(self.low, other.low),
            high: lanes::sum(self.high, other.high),
        }
    }

    /// Adds the words to the little-endian words of `dst` from word n on, for as many as it has.
    #[inline(always)]
    pub(crate) fn add_to(self, dst: &mut [u8], n: usize)
        requires { 2 * n ≤ length dst.old }
        ensures { AddsEach (λ i. word_in self (i - n)) dst.old dst.new n (n + 32) }
    {
        if dst.len() - 2 * n < 64 {
            self.add_first(dst, n);
        } else {
            self.add_all(dst, n);
        }
    }

    // Adds all words to those of `dst` from word n on.
    #[inline(always)]
    fn add_all(self, dst: &mut [u8], n: usize)
        requires { 2 * n + 64 ≤ length dst.old }
        ensures { AddsEach (λ i. word_in self (i - n)) dst.old dst.new n (n + 32) }
    {
        let (first, second) = lanes::interleaved(self.low, self.high);
        lanes::add_vector(dst, 2 * n, first);
        lanes::add_vector(dst, 2 * n + 32, second);
    }

    // Adds the first words to those of `dst` from word n to the end, at most thirty-two.
    fn add_first(self, dst: &mut [u8], n: usize)
        requires some { 2 * n ≤ length dst.old }
        requires few { length dst.old ≤ 2 * n + 64 }
        ensures { AddsEach (λ i. word_in self (i - n)) dst.old dst.new n (n + 32) }
    {
        let mut bytes = [0u8; 64];
        WordVector::padded(dst, n).plus(self).add_all(&mut bytes, 0);
        let (_, end) = dst.split_at_mut(2 * n);
        end.copy_from_slice(&bytes[..end.len()]);
    }
}
