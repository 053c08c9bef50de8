//! Recovery slices, added to outputs inside buffers or to whole buffers. The outputs are computed in groups as large as
//! memory allows, each by one transform (`add_group`) over all columns, some at a time.
//! The theorems behind the transform are contracts of functions that do nothing.
#![tactic(auto, using(crate::proofs::Additions::group_steps, crate::proofs::Chirps::law_steps))]

ghost use Rattle.std.specs.Prelude.{◌+◌, ◌*◌, ◌^◌, ◌≤◌, length, IfOk, ◌≡◌, ◌<◌, ℕ, ◌/◌, bit_xor};
ghost use Rattle.par2_spec.specs.Prelude.{lists_of, field_sum, mul, pow, coefficient};
ghost use Rattle.par2_transform.specs.Rows.{AddsToEach, AreWholeBuffers, HaveWords};
ghost use Rattle.par2_transform.specs.Outputs.{CoverOutputs, cut_of, AddsSlices, LieIn};
ghost use Rattle.par2_transform.specs.Chirps.{byte_lists, recovered, chirp, chirp_inverse, AreWordsOfFirst, Cut, Reaches, HasWeights, from_gathered, gathered};
ghost use Rattle.par2_transform.specs.Polynomials.{point, vanishing, sum_ahead};

use crate::exponents::{Plan, outputs_at_once};
use crate::outputs::{Place, Places};
use crate::rows::Rows;
use crate::windows::{Block, Windows};
use par2_gf16::Gf;
use std::alloc::{AllocError, Global};

// Blocks of outputs that cover the `count` exponents from `first` on. Block j begins `j * plan.block` exponents later.
fn blocks_of(
    alloc: Global,
    gf: &Gf,
    plan: &Plan,
    first: u32,
    count: usize,
) -> Result<Vec<Block>, AllocError>
    requires { first + count ≤ 2 ^ 32 }
    ensures { IfOk result (λ blocks.
        CoverOutputs (cut_of plan.now) plan.now.columns first plan.now.block count blocks.items) }
{
    let mut blocks = Vec::new(alloc);
    for j in 0..count.div_ceil(plan.block) {
        blocks.push(Block::new(alloc, gf, plan, first as u64 + (j * plan.block) as u64)?)?;
    }
    Ok(blocks)
}

/// The places of `count` outputs that are a whole buffer each: output t is buffer t.
#[tactic(auto, using(crate::proofs::Additions::whole_tables))]
pub fn whole_buffers(alloc: Global, count: usize) -> Result<Vec<Place>, AllocError>
    ensures { IfOk result (λ places. AreWholeBuffers count places.items) }
{
    (0..count)
        .map(|buffer| Place { buffer, at: 0 })
        .collect(alloc)
}

/// Computes recovery slices of these slices in about `room` bytes of memory beside the buffers, but at least about 100
/// KiB. Shorter slices are padded with zeros, so an absent slice is an empty one.
#[derive(Clone, Copy)]
pub struct Transform<'a> {
    pub gf: &'a Gf,
    pub slices: &'a [&'a [u8]],
    pub room: usize,
    ghost few: { length slices.now ≤ 32768 },
}

impl<'a> Transform<'a> {
    // Adds to output t the recovery slice of exponent `first + t`, for all outputs in one transform, some columns at a
    // time.
    fn add_group(
        &self,
        alloc: Global,
        first: u32,
        buffers: &mut [Vec<u8>],
        outputs: &Places,
    ) -> Result<(), AllocError>
        requires exponents { first + length outputs.now.places.now ≤ 2 ^ 32 }
        requires room { LieIn outputs.now buffers.old }
        ensures { IfOk result (λ _. AddsSlices self.now.slices.now first outputs.now buffers.old buffers.new) }
    {
        let Transform { gf, slices, room } = *self;
        let windows = Windows::new(alloc, gf, slices, first, outputs, room)?;
        let plan = windows.plan;
        let mut rows = Rows::new(alloc, plan.levels, plan.columns)?;
        let mut blocks = blocks_of(alloc, gf, &plan, first, outputs.len())?;
        for k in 0..outputs.words.div_ceil(plan.columns) {
            let columns = outputs.columns(k, plan.columns);
            windows.add_classes(&columns, &mut rows, blocks.as_mut_slice(), buffers);
        }
        Ok(())
    }

    /// Adds to output t the recovery slice of exponent `first + t`.
    pub fn add_recovery_slices_at(
        &self,
        alloc: Global,
        first: u32,
        buffers: &mut [Vec<u8>],
        outputs: &Places,
    ) -> Result<(), AllocError>
        requires exponents { first + length outputs.now.places.now ≤ 2 ^ 32 }
        requires room { LieIn outputs.now buffers.old }
        ensures { IfOk result (λ _. AddsSlices self.now.slices.now first outputs.now buffers.old buffers.new) }
    {
        let at_once = outputs_at_once(self.room);
        let count = outputs.len();
        let mut from = 0;
        while from < count {
            let to = from + at_once.min(count - from);
            let group = outputs.part(from, to);
            self.add_group(alloc, first + from as u32, buffers, &group)?;
            from = to;
        }
        Ok(())
    }

    /// Adds to buffer t, which has `words` words, the recovery slice of exponent `first + t`.
    pub fn add_recovery_slices(
        &self,
        alloc: Global,
        words: usize,
        first: u32,
        buffers: &mut [Vec<u8>],
    ) -> Result<(), AllocError>
        requires exponents { first + length buffers.old ≤ 2 ^ 32 }
        requires size { HaveWords words (lists_of buffers.old) }
        ensures { IfOk result (λ _. AddsToEach
            (λ t p. recovered (byte_lists self.now.slices.now) (first + t) p)
            (lists_of buffers.old) (lists_of buffers.new)) }
    {
        let places = whole_buffers(alloc, buffers.len())?;
        let outputs = Places::new(&places, words);
        self.add_recovery_slices_at(alloc, first, buffers, &outputs)
    }
}

/// Subspace polynomials (Cantor 1989): each is constant on every coset of its subspace, and is a sum of powers
/// `x ^ (2 ^ j)`.
pub fn subspaces_vanish()
    ensures on_cosets { (i u : ℕ) → u < 65536 → vanishing i (point u) ≡ point (u / 2 ^ i) }
    ensures leading { (i x : ℕ) → x < 65536 → pow x (2 ^ i) ≡ bit_xor (vanishing i x) (sum_ahead i (pow x) 0) }
{}

/// A power of 2 whose exponent is a product is itself a product of three chirps (Bluestein 1970).
pub fn products_by_chirps()
    ensures inverse { (d m : ℕ) → mul (chirp d m) (chirp_inverse d m) ≡ 1 }
    ensures product { (d m e : ℕ) → pow 2 (d * (m * e))
        ≡ mul (chirp_inverse d e) (mul (chirp_inverse d m) (chirp d (m + e))) }
{}

/// A word of a recovery slice, as a sum over residue classes of the exponents of the constants, windows in each class,
/// and the points of a subspace. Any cut is correct that reaches all slices, has its weights, and whose windows fit the
/// points.
pub fn sums_by_windows()
    ensures { (n e t : ℕ) (words : ℕ → ℕ) (cut : Cut) (weights : ℕ → ℕ → ℕ)
        → AreWordsOfFirst n words → Reaches n cut
        → HasWeights cut e weights → cut.window + t ≤ 2 ^ cut.levels
        → field_sum n (λ i. mul (coefficient (e + t) i) (words i))
        ≡ field_sum cut.classes (λ r. from_gathered cut (gathered cut weights words r) e t r) }
{}
