//! Outputs at their places inside buffers. A buffer may hold several outputs, with other bytes between them.
//! Also padded copies and sums of buffers.
#![tactic(auto, using(crate::proofs::Additions::adding_steps))]

ghost use Rattle.std.specs.Prelude.{◌≡◌, ◌+◌, ◌-◌, ◌*◌, ◌<◌, ◌≤◌, length, min, take, drop, ℕ, ◌^◌, slice_index};
ghost use Rattle.par2_gf16.specs.Tables.{AddsTo};
ghost use Rattle.par2_gf16.specs.Words.{word_of};
ghost use Rattle.par2_spec.specs.Prelude.{mul, word};
ghost use Rattle.par2_transform.specs.Rows.{AreApart};

use par2_gf16::{Factor, WordVector};

/// Where an output lies: the number of its buffer, and its first byte there.
#[derive(Clone, Copy)]
pub struct Place {
    pub buffer: usize,
    pub at: usize,
}

/// The places of outputs of `words` words each. No two overlap.
#[derive(Clone, Copy)]
pub struct Places<'a> {
    pub places: &'a [Place],
    pub words: usize,
    ghost apart: { AreApart words places.now },
}

impl<'a> Places<'a> {
    /// Outputs of `words` words at these places, which must not overlap.
    pub fn new(places: &'a [Place], words: usize) -> Places<'a>
        requires apart { AreApart words places.now }
        ensures places { result.places.now ≡ places.now }
        ensures words { result.words ≡ words }
    {
        Places { places, words }
    }

    /// The number of outputs.
    pub(crate) fn len(&self) -> usize
        ensures { result ≡ length self.now.places.now }
    {
        self.places.len()
    }

    /// The places of outputs `from` up to `to`, so that output `from` becomes output 0.
    pub fn part(&self, from: usize, to: usize) -> Places<'a>
        requires order { from ≤ to }
        requires end { to ≤ length self.now.places.now }
        ensures places { result.places.now ≡ take (to - from) (drop from self.now.places.now) }
        ensures words { result.words ≡ self.now.words }
    {
        Places {
            places: &self.places[from..to],
            words: self.words,
        }
    }

    /// Block k of the columns, of `width` columns each. The last block may have fewer.
    pub(crate) fn columns(&self, k: usize, width: usize) -> Columns<'a>
        requires { k * width < self.now.words }
        ensures outputs { result.outputs ≡ self.now }
        ensures from { result.from ≡ k * width }
        ensures to { result.to ≡ min self.now.words ((k + 1) * width) }
    {
        let words = self.words;
        let from = k * width;
        Columns {
            outputs: *self,
            from,
            to: from + width.min(words - from),
        }
    }
}

/// Words `from` up to `to` of each output.
#[derive(Clone, Copy)]
pub struct Columns<'a> {
    pub outputs: Places<'a>,
    pub from: usize,
    pub to: usize,
    ghost order: { from ≤ to },
    ghost inside: { to ≤ outputs.words },
}

impl<'a> Columns<'a> {
    ghost use Rattle.par2_transform.specs.Outputs.{AddsRow, LieIn};

    /// Adds (exclusive or) word k of the row to column `from + k` of output `t`, for all of the columns.
    pub fn add(&self, row: &[u8], buffers: &mut [Vec<u8>], t: usize)
        requires place { t < length self.now.outputs.places.now }
        requires row { 2 * self.now.to ≤ 2 * self.now.from + length row.now }
        requires room { LieIn self.now.outputs buffers.old }
        ensures { AddsRow self.now t (λ c. word c row.now) buffers.old buffers.new }
    {
        let Place { buffer, at } = self.outputs.places[t];
        let bytes = buffers[buffer].as_mut_slice();
        add(row, &mut bytes[at + 2 * self.from..at + 2 * self.to]);
    }

    /// The same with c times the words of vectors.
    pub(crate) fn add_products(&self, c: u16, row: &[WordVector], buffers: &mut [Vec<u8>], t: usize)
        requires place { t < length self.now.outputs.places.now }
        requires row { self.now.to ≤ self.now.from + 32 * length row.now }
        requires room { LieIn self.now.outputs buffers.old }
        ensures { AddsRow self.now t (λ k. mul c (word_of row.now k)) buffers.old buffers.new }
    {
        let Place { buffer, at } = self.outputs.places[t];
        let output = buffers[buffer].as_mut_slice();
        Factor::new(c).add_products(row, &mut output[at + 2 * self.from..at + 2 * self.to]);
    }
}

/// For the prover: each byte is below 2 ^ 8.
#[inline(always)]
pub(crate) fn fit_bytes(bytes: &[u8])
    ensures { (k : ℕ) → slice_index bytes.now k < 2 ^ 8 }
{
    let _ = bytes.len();
}

/// Copies as many of the bytes as fit, and fills the rest of `to` with zeros.
#[tactic(auto, using(crate::proofs::Additions::padded_copy, par2_gf16::proofs::Words::zeros_read))]
pub(crate) fn copy_padded(bytes: &[u8], to: &mut [u8])
    ensures size { length to.new ≡ length to.old }
    ensures same { (k : ℕ) → k < length to.old → slice_index to.new k ≡ slice_index bytes.now k }
{
    let count = bytes.len().min(to.len());
    let (front, back) = to.split_at_mut(count);
    front.copy_from_slice(&bytes[..count]);
    back.fill(0);
}

/// Adds to each word of `dst` the word of `src` at the same place. The sum of two elements is their exclusive or.
pub(crate) fn add(src: &[u8], dst: &mut [u8])
    requires { length dst.old ≤ length src.now }
    ensures { AddsTo (λ p. word p src.now) dst.old dst.new }
{
    fit_bytes(src);
    fit_bytes(dst);
    for k in 0..dst.len() {
        dst[k] ^= src[k];
    }
}
