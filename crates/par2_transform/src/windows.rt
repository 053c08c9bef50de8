//! Sums over slices, by classes and windows of the exponents of their constants. With d classes, exponent `d * m + r`
//! is number m of class r, and window a is `window` consecutive numbers. `add_classes` takes a block of columns: for
//! each class it evaluates each window at the points, gathers the values in the blocks, and adds the blocks' outputs.
//!
//! Blocks of outputs. A block gathers the weighted values of all windows of a class at the points, and turns them into
//! outputs by power sums. For each class, `clear_all` resets the sums of all blocks, `gather_all` is called for each
//! window, and `add_all` adds the outputs. Row u of the sums belongs to point u, and a column is a word of the outputs.
//!
//! Powers of 2, and chirps (Bluestein 1970): by them, a power of 2 whose exponent is a product becomes a product of
//! powers that depend on one number each.
#![tactic(auto, using(crate::proofs::BlockLaws::window_steps, crate::proofs::BlockLaws::block_steps, crate::proofs::Additions::output_steps))]

ghost use Rattle.std.specs.Prelude.{◌≡◌, ◌+◌, ◌-◌, ◌*◌, ◌^◌, ◌<◌, ◌≤◌, length, IfOk, ℕ, slice_index};
ghost use Rattle.par2_transform.specs.Outputs.{EachBlock, IsGathered, class_sum_at, AreReady, cut_of, IsBlock, IsCleared, HasShape, RowsGathered, Gathers, Takes, Keeps, AreWeightRows, outputs_at, weight_at, HaveShape, part_from, AddsIn, Fit, Adds};
ghost use Rattle.par2_transform.specs.Chirps.{chirp_inverse, Tabulates, Reaches, coefficients_from, chirp, HasWeights, byte_lists, words_at, recovered, AreByteLists};
ghost use Rattle.par2_transform.specs.Rows.{HasSize};
ghost use Rattle.par2_transform.specs.Locators.{HaveFirst};
ghost use Rattle.par2_spec.specs.Prelude.{mul, pow, field_sum, list_at, lists_of};

use crate::exponents::{Class, Plan, Slices, bytes_from};
use crate::fourier::{power_sums, values_at_points, weights};
use crate::outputs::{Columns, Places};
use crate::rows::Rows;
use par2_gf16::{Factor, Gf};
use std::alloc::{AllocError, Global};
use std::marker::Model;

// The order of 2: powers of 2 repeat after this many.
const ORDER: u64 = 65535;

// 2 to the power n, which may exceed the order.
fn power(gf: &Gf, n: u64) -> u16
    ensures { result ≡ pow 2 n }
{
    gf.pow(2, (n % ORDER) as u32)
}

// Chirp m of step d: 2 to the power `d m (m - 1) / 2`. The step is the number of classes.
#[tactic(auto, using(crate::proofs::Chirps::chirp_round))]
fn chirp(gf: &Gf, d: u64, m: u64) -> u16
    requires { d ≤ 65536 }
    ensures { result ≡ chirp d m }
{
    let m = m % ORDER;
    power(gf, d * (m * m.saturating_sub(1) / 2))
}

// The multiplicative inverse of chirp m of step d.
fn chirp_inverse(gf: &Gf, d: u64, m: u64) -> u16
    requires { d ≤ 65536 }
    ensures { result ≡ chirp_inverse d m }
{
    gf.pow(chirp(gf, d, m), 65534)
}

// The inverses of the first n chirps of step d: the slice of number m in a class is multiplied by the
// inverse of number m.
#[tactic(auto, using(crate::proofs::BlockLaws::tables))]
fn inverse_chirps(alloc: Global, gf: &Gf, d: usize, n: usize) -> Result<Vec<u16>, AllocError>
    requires { d ≤ 65536 }
    ensures { IfOk result (λ inverses. Tabulates (chirp_inverse d) n inverses.items) }
{
    (0..n)
        .map(|m| chirp_inverse(gf, d as u64, m as u64))
        .collect(alloc)
}

/// Slices, and the plan by which their sums are cut.
#[derive(Drop)]
pub(crate) struct Windows<'a> {
    pub(crate) gf: &'a Gf,
    pub(crate) plan: Plan,
    pub(crate) slices: Slices<'a>,
    pub(crate) first: u32,
    inverses: Vec<u16>,
    ghost few: { length slices ≤ 32768 },
    ghost bytes: { AreByteLists slices },
    ghost reaches: { Reaches (length slices) (cut_of plan) },
    ghost inverted: { Tabulates (chirp_inverse plan.classes) (plan.windows * plan.window) inverses.items },
}

impl<'a> Windows<'a> {
    /// Plans the sums of the slices for outputs that belong to the exponents from `first` on. `room` is the memory for
    /// rows, in bytes.
    pub(crate) fn new(
        alloc: Global,
        gf: &'a Gf,
        buffers: &'a [&'a [u8]],
        first: u32,
        outputs: &Places,
        room: usize,
    ) -> Result<Windows<'a>, AllocError>
        requires slices { length buffers.now ≤ 32768 }
        requires outputs { length outputs.now.places.now ≤ 2 ^ 32 }
        ensures slices { IfOk result (λ windows. windows.slices ≡ byte_lists buffers.now) }
        ensures first { IfOk result (λ windows. windows.first ≡ first) }
    {
        let slices = Slices::new(alloc, buffers)?;
        let plan = Plan::new(slices.exponents(), outputs.len(), outputs.words, room);
        let inverses = inverse_chirps(alloc, gf, plan.classes, plan.windows * plan.window)?;
        Ok(Windows {
            gf,
            plan,
            slices,
            first,
            inverses,
        })
    }

    // Sets row i to coefficient i of window a of class r, in the columns from word `from` of the slices on: the words of
    // the slice whose constant has this exponent, divided by the chirp of its number.
    fn fill(&self, r: usize, a: usize, from: usize, rows: &mut Rows)
        requires class { r < self.now.plan.classes }
        requires window { a < self.now.plan.windows }
        requires levels { rows.old.levels ≡ self.now.plan.levels }
        ensures { HaveFirst self.now.plan.window
            (coefficients_from (cut_of self.now.plan) self.now.slices r a from) rows.old rows.new }
    {
        rows.clear();
        for i in 0..self.plan.window {
            let m = a * self.plan.window + i;
            let slice = self.slices.at_power(self.plan.classes * m + r);
            let factor = Factor::new(self.inverses[m]);
            rows.add_bytes(&factor, bytes_from(slice, from), i);
        }
    }

    // Gathers all windows of class r in all blocks, whose sums it resets first: evaluates each window at the points, in
    // these columns of the slices.
    fn gather(&self, r: usize, columns: &Columns, rows: &mut Rows, blocks: &mut [Block])
        // The class is the plan's, and the rows and the blocks have its shape.
        requires class { r < self.now.plan.classes }
        requires ready { AreReady self.now.plan self.now.first columns.now.outputs rows.old blocks.old }
        // The rows keep their shape; what they hold is scratch.
        ensures rows { HasSize self.now.plan.levels self.now.plan.columns rows.new }
        // Each block holds the sums of all windows of this class, whatever it held before.
        ensures gathered { EachBlock
            (IsGathered (cut_of self.now.plan) self.now.slices r columns.now.from self.now.plan.windows)
            blocks.old blocks.new }
    {
        clear_all(blocks);
        for a in 0..self.plan.windows {
            self.fill(r, a, columns.from, rows);
            values_at_points(rows, self.plan.window);
            gather_all(a, rows, blocks);
        }
    }

    // Adds the part of class r to these columns of the outputs. The first of three classes has no slice.
    fn add_class(
        &self,
        r: usize,
        columns: &Columns,
        rows: &mut Rows,
        blocks: &mut [Block],
        buffers: &mut [Vec<u8>],
    )
        // The class is the plan's, the rows and the blocks have its shape, and the blocks cover the outputs.
        requires class { r < self.now.plan.classes }
        requires ready { AreReady self.now.plan self.now.first columns.now.outputs rows.old blocks.old }
        // One block of columns at most, and the outputs lie inside the buffers.
        requires fits { Fit self.now.plan.columns columns.now buffers.old }
        // The next class can use the rows and the blocks.
        ensures ready { AreReady self.now.plan self.now.first columns.now.outputs rows.new blocks.new }
        // The part of class r is added to these columns and to nothing else.
        ensures added { AddsIn columns.now (λ t p. class_sum_at (cut_of self.now.plan)
            (words_at self.now.slices p) (self.now.first + t) r) buffers.old buffers.new }
    {
        if r == 0 && self.plan.classes == 3 {
            return;
        }
        self.gather(r, columns, rows, blocks);
        let plan = self.plan;
        let class = Class { plan, number: r };
        add_all(self.gf, &class, columns, blocks, buffers);
    }

    /// Adds the recovery slices to these columns of the outputs, class by class.
    pub(crate) fn add_classes(
        &self,
        columns: &Columns,
        rows: &mut Rows,
        blocks: &mut [Block],
        buffers: &mut [Vec<u8>],
    )
        // The rows and the blocks have the shape of the plan, and the blocks cover the outputs.
        requires ready { AreReady self.now.plan self.now.first columns.now.outputs rows.old blocks.old }
        // One block of columns at most, and the outputs lie inside the buffers.
        requires fits { Fit self.now.plan.columns columns.now buffers.old }
        // The next columns can use the rows and the blocks.
        ensures ready { AreReady self.now.plan self.now.first columns.now.outputs rows.new blocks.new }
        // The recovery slices are added in these columns, and nothing else changes.
        ensures added { AddsIn columns.now
            (λ t p. recovered self.now.slices (self.now.first + t) p) buffers.old buffers.new }
    {
        for r in 0..self.plan.classes {
            self.add_class(r, columns, rows, blocks, buffers);
        }
    }
}

/// Consecutive outputs: the weights of the points for each window, and the sums gathered at the points so far.
#[derive(Drop)]
pub(crate) struct Block {
    exponent: u64,
    weights: Vec<Vec<u16>>,
    sums: Rows,
}

impl Model for Block {
    ghost use Rattle.std.specs.Prelude.{◌^◌, ◌≤◌, length};
    ghost use Rattle.par2_spec.specs.Sums.{lists_of};
    ghost use Rattle.par2_transform.specs.Outputs.{Outputs, AreWeightRows};

    ghost Value = { Outputs };

    ghost view = { λ b. record {
      exponent = b.exponent;
      windows = length b.weights.items;
      weights = lists_of b.weights.items;
      sums = b.sums;
    } };

    ghost invariant = { λ b. AreWeightRows b.sums.levels (lists_of b.weights.items)
        × (b.exponent ≤ 2 ^ 34) };
}

// The `2 ^ levels` chirps from chirp m on, of step `plan.classes`: the power sums that the weights of a window have.
fn chirps(alloc: Global, gf: &Gf, plan: &Plan, m: u64) -> Result<Vec<u16>, AllocError>
    requires { m ≤ 2 ^ 40 }
    ensures { IfOk result (λ chirps.
        Tabulates (λ i. chirp plan.now.classes (m + i)) (2 ^ plan.now.levels) chirps.items) }
{
    (0..1u64 << plan.levels)
        .map(|i| chirp(gf, plan.classes as u64, m + i))
        .collect(alloc)
}

// For each window, the weights of the points whose power sums are the chirps from the window's first number plus
// `exponent` on.
fn window_weights(
    alloc: Global,
    gf: &Gf,
    plan: &Plan,
    exponent: u64,
) -> Result<Vec<Vec<u16>>, AllocError>
    requires { exponent ≤ 2 ^ 34 }
    ensures count { IfOk result (λ rows. length rows.items ≡ plan.now.windows) }
    ensures rows { IfOk result (λ rows. AreWeightRows plan.now.levels (lists_of rows.items)) }
    ensures has { IfOk result (λ rows. HasWeights (cut_of plan.now) exponent
        (weight_at (lists_of rows.items))) }
{
    let mut all = Vec::with_capacity(alloc, plan.windows)?;
    for a in 0..plan.windows {
        let mut words = chirps(alloc, gf, plan, (a * plan.window) as u64 + exponent)?;
        weights(gf, words.as_mut_slice(), plan.levels);
        all.push(words)?;
    }
    Ok(all)
}

// The weights of window a, one for each point.
#[inline(always)]
fn weights_at(rows: &[Vec<u16>], a: usize) -> &[u16]
    requires { a < length rows.now }
    ensures { result.now ≡ list_at (lists_of rows.now) a }
{
    &rows[a]
}

/// Adds to each row u of `sums` row u of `values` times the weight of point u. A block gathers a window with it, and a
/// locator its sources.
pub(crate) fn gather_rows(weights: &[u16], values: &Rows, sums: &mut Rows)
    requires weights { length weights.now ≡ 2 ^ sums.old.levels }
    requires same { HasSize sums.old.levels sums.old.words values.now }
    ensures { RowsGathered (slice_index weights.now) values.now (2 ^ sums.old.levels) sums.old sums.new }
{
    for u in 0..weights.len() {
        let factor = Factor::new(weights[u]);
        sums.add_other(&factor, values, u, u);
    }
}

impl Block {
    /// The block of the outputs of the exponents from `exponent` on, as many as `plan.block`: computes their weights. The
    /// contract says nothing of the sums, because each class clears them first.
    pub(crate) fn new(
        alloc: Global,
        gf: &Gf,
        plan: &Plan,
        exponent: u64,
    ) -> Result<Block, AllocError>
        requires { exponent ≤ 2 ^ 34 }
        ensures { IfOk result (IsBlock (cut_of plan.now) plan.now.columns exponent) }
    {
        let weights = window_weights(alloc, gf, plan, exponent)?;
        let sums = Rows::new(alloc, plan.levels, plan.columns)?;
        Ok(Block {
            exponent,
            weights,
            sums,
        })
    }

    /// Resets the gathered sums to zero, before the windows of the next class.
    pub(crate) fn clear(&mut self)
        ensures { IsCleared self.old self.new }
    {
        self.sums.clear();
    }

    /// Adds to the gathered sums the values of window a, whose row u is for point u, each times the window's weight for
    /// its point. `Takes`: the block has weights for this window and the shape of the values.
    pub(crate) fn gather(&mut self, a: usize, values: &Rows)
        requires { Takes a values.now self.old }
        ensures { Gathers a values.now self.old self.new }
    {
        gather_rows(weights_at(&self.weights, a), values, &mut self.sums);
    }

    /// Turns the sums gathered for a class into outputs, and adds them to the outputs from `first` on, in these columns.
    /// `first` is the index, among all outputs, of the block's first one. The gathered sums are overwritten.
    pub(crate) fn add_to(
        &mut self,
        gf: &Gf,
        class: &Class,
        columns: &Columns,
        buffers: &mut [Vec<u8>],
        first: usize,
    )
        // The block has the shape of the plan. There is one block of columns at most, and the outputs lie inside the
        // buffers.
        requires shape { HasShape (cut_of class.now.plan) class.now.plan.columns self.old }
        requires fits { Fit class.now.plan.columns columns.now buffers.old }
        // The part of the class is added to the outputs of this block and to nothing else. Only the sums of the block
        // change.
        ensures kept { Keeps self.old self.new }
        ensures added { Adds columns.now.outputs (part_from class.now columns.now self.old first)
            buffers.old buffers.new }
    {
        power_sums(&mut self.sums);
        let left = columns.outputs.len().saturating_sub(first);
        for t in 0..class.plan.block.min(left) {
            let e = self.exponent + t as u64;
            let inverse = chirp_inverse(gf, class.plan.classes as u64, e);
            let factor = gf.mul(power(gf, e * class.number as u64), inverse);
            columns.add_products(factor, self.sums.row(t), buffers, first + t);
        }
    }
}

/// Resets the gathered sums of all blocks to zero, before the windows of a class are gathered.
pub(crate) fn clear_all(blocks: &mut [Block])
    ensures { EachBlock IsCleared blocks.old blocks.new }
{
    for j in 0..blocks.len() {
        blocks[j].clear();
    }
}

/// Gathers in all blocks the values of window a at the points, each block with its own weights.
pub(crate) fn gather_all(a: usize, values: &Rows, blocks: &mut [Block])
    requires { (j : ℕ) → j < length blocks.old → Takes a values.now (outputs_at blocks.old j) }
    ensures { EachBlock (Gathers a values.now) blocks.old blocks.new }
{
    for j in 0..blocks.len() {
        blocks[j].gather(a, values);
    }
}

/// Turns the sums that all blocks gathered for a class into outputs, and adds them in these columns.
pub(crate) fn add_all(
    gf: &Gf,
    class: &Class,
    columns: &Columns,
    blocks: &mut [Block],
    buffers: &mut [Vec<u8>],
)
    // All blocks have the shape of the plan. There is one block of columns at most, and the outputs lie inside the
    // buffers.
    requires few { length blocks.old * class.now.plan.block ≤ 2 ^ 34 }
    requires shape { HaveShape class.now.plan blocks.old }
    requires fits { Fit class.now.plan.columns columns.now buffers.old }
    // Each output gets the sum of the parts of all blocks. Only the sums of the blocks change.
    ensures kept { EachBlock Keeps blocks.old blocks.new }
    ensures added { Adds columns.now.outputs (λ t p. field_sum (length blocks.old)
        (λ j. part_from class.now columns.now (outputs_at blocks.old j)
        (j * class.now.plan.block) t p)) buffers.old buffers.new }
{
    for j in 0..blocks.len() {
        blocks[j].add_to(gf, class, columns, buffers, j * class.plan.block);
    }
}
