//! Slices by the exponents of their constants, which are powers of 2. The transform sums over these exponents instead
//! of the numbers of slices: `Slices::at_power` has the slice of each.
//!
//! How a sum over slices is cut into classes, windows, blocks and columns. `outputs_at_once` limits the outputs of one
//! transform, and `Plan::new` cuts their sums.
#![tactic(auto, using(crate::proofs::StepLaws::level_steps))]

ghost use Rattle.std.specs.Prelude.{◌≡◌, ℕ, ◌+◌, ◌*◌, ◌<◌, ◌≤◌, length, slice_index_or, if◌then◌else◌, IfOk, ◌%◌, ◌^◌};
ghost use Rattle.par2_spec.specs.Prelude.{is_coprime, word, list_at};
ghost use Rattle.par2_transform.specs.Chirps.{word_at_power, coprimes_below, byte_lists, words_at, AreNumbers, AreByteLists};

use crate::outputs::fit_bytes;
use std::alloc::{AllocError, Global};
use std::marker::Model;

// Each constant is 2 to a power below this.
const ORDER: u32 = 65536;

// The entry of an exponent that no slice's constant has.
const NONE: u16 = u16::MAX;

// Whether the number is coprime to 65,535 = 3 x 5 x 17 x 257, as the exponents of constants are (PAR2 2.0).
fn is_coprime(n: u32) -> bool
    ensures { result ≡ is_coprime n }
{
    n % 3 != 0 && n % 5 != 0 && n % 17 != 0 && n % 257 != 0
}

// The entry of an exponent: the number of the next slice if the exponent is coprime to 65,535, and otherwise `NONE`.
fn number(coprime: bool, next: usize) -> u16
    requires { next < 32768 }
    ensures { result ≡ (if coprime then next else 65535) }
{
    if coprime { next as u16 } else { NONE }
}

// For each exponent up to that of the last of n slices, the number of the slice whose constant has it.
fn slice_numbers(alloc: Global, n: usize) -> Result<Vec<u16>, AllocError>
    requires { n ≤ 32768 }
    ensures { IfOk result (λ numbers. AreNumbers n numbers.items) }
{
    let mut numbers = Vec::new(alloc);
    let mut found = 0usize;
    for exponent in 0..ORDER {
        if found < n {
            let coprime = is_coprime(exponent);
            numbers.push(number(coprime, found))?;
            found += coprime as usize;
        }
    }
    Ok(numbers)
}

// The number of the slice whose constant has the exponent n: the entry there, or `NONE` past the end.
fn number_at(numbers: &[u16], n: usize) -> u16
    ensures { result ≡ slice_index_or numbers.now n 65535 }
{
    if n < numbers.len() { numbers[n] } else { NONE }
}

/// Buffer i, or an empty one past the end.
#[tactic(auto, using(std::proofs::lemmas::List::get_or_past))]
pub(crate) fn buffer_at<'a>(buffers: &[&'a [u8]], i: usize) -> &'a [u8]
    ensures { result.now ≡ list_at (byte_lists buffers.now) i }
{
    if i < buffers.len() { buffers[i] } else { &[] }
}

/// For the prover: each byte of each buffer is below 2 ^ 8.
pub(crate) fn buffers_fit(buffers: &[&[u8]])
    ensures { AreByteLists (byte_lists buffers.now) }
{
    for i in 0..buffers.len() {
        fit_bytes(buffer_at(buffers, i));
    }
}

/// Slices, at most 32,768, with the exponents of their constants.
#[derive(Drop)]
pub(crate) struct Slices<'a> {
    buffers: &'a [&'a [u8]],
    numbers: Vec<u16>,
}

impl<'a> Model for Slices<'a> {
    ghost use Rattle.std.specs.Prelude.{ℕ, List, ◌≤◌, length};
    ghost use Rattle.par2_transform.specs.Chirps.{byte_lists, AreNumbers};

    ghost Value = { List (List ℕ) };

    ghost view = { λ a. byte_lists a.buffers.now };

    ghost invariant = { λ a. (length a.buffers.now ≤ 32768)
        × AreNumbers (length a.buffers.now) a.numbers.items };
}

impl<'a> Slices<'a> {
    /// Computes the exponents of the slices' constants.
    pub(crate) fn new(alloc: Global, buffers: &'a [&'a [u8]]) -> Result<Slices<'a>, AllocError>
        requires { length buffers.now ≤ 32768 }
        ensures are { IfOk result (λ slices. slices ≡ byte_lists buffers.now) }
        ensures few { IfOk result (λ slices. length slices ≤ 32768) }
        ensures bytes { IfOk result AreByteLists }
    {
        buffers_fit(buffers);
        let numbers = slice_numbers(alloc, buffers.len())?;
        Ok(Slices { buffers, numbers })
    }

    /// One more than the exponent of the last slice's constant, or 0 without slices.
    pub(crate) fn exponents(&self) -> usize
        ensures few { result ≤ 65536 }
        ensures reach { length self.now ≤ coprimes_below result }
    {
        self.numbers.len()
    }

    /// The slice whose constant is 2 to this power, or an empty one if there is none.
    #[tactic(auto, using(crate::proofs::Chirps::slices_found))]
    pub(crate) fn at_power(&self, power: usize) -> &[u8]
        ensures { (p : ℕ) → word p result.now ≡ word_at_power (words_at self.now p) power }
    {
        let number = number_at(&self.numbers, power);
        buffer_at(self.buffers, number as usize)
    }
}

/// The bytes from word `from` on; none past the end, so that each word there is 0.
pub(crate) fn bytes_from(bytes: &[u8], from: usize) -> &[u8]
    ensures { (p : ℕ) → word p result.now ≡ word (from + p) bytes.now }
{
    if from < bytes.len().div_ceil(2) {
        &bytes[2 * from..]
    } else {
        &[]
    }
}

// The number of residue classes of the exponents of constants. The first one is empty, because 3 divides no exponent.
const CLASSES: usize = 3;

// The number of columns of a row is a multiple of this, as many as the kernels take at a time.
const STEP: usize = 32;

// At least this many outputs are computed at once, even if they exceed `room`.
const FEWEST: usize = 256;

/// How a sum over slices is cut: `windows` windows of `window` exponents in each of `classes` classes, `2 ^ levels`
/// points, blocks of `block` outputs, and blocks of `columns` columns of words. The numbers affect speed and memory,
/// never the sums.
#[derive(Clone, Copy)]
pub(crate) struct Plan {
    pub(crate) classes: usize,
    pub(crate) windows: usize,
    pub(crate) window: usize,
    pub(crate) levels: u32,
    pub(crate) block: usize,
    pub(crate) columns: usize,
    ghost few_classes: { classes ≤ 2 ^ 16 },
    ghost few_numbers: { windows * window ≤ 2 ^ 20 },
    ghost few_levels: { levels ≤ 16 },
    ghost some: { (1 ≤ window) × ((1 ≤ block) × (1 ≤ columns)) },
    ghost few_columns: { columns ≤ 2 ^ 16 },
    ghost whole: { columns % 32 ≡ 0 },
    ghost fit: { window + block ≤ 2 ^ levels + 1 },
}

/// One of the classes of a plan.
#[derive(Clone, Copy)]
pub(crate) struct Class {
    pub(crate) plan: Plan,
    pub(crate) number: usize,
    ghost known: { number < plan.classes },
}

// The least k such that `outputs` is at most 2 ^ k, kept between 4 and 12. The transform has 2 ^ k points.
fn levels_for(outputs: usize) -> u32
    requires { outputs ≤ 2 ^ 32 }
    ensures { (4 ≤ result) × (result ≤ 12) }
{
    outputs.next_power_of_two().trailing_zeros().clamp(4, 12)
}

// Half the number of points, which is `2 ^ levels`: the most outputs of a block.
fn half_of(levels: u32) -> usize
    requires { (4 ≤ levels) × (levels ≤ 12) }
    ensures half { 2 * result ≡ 2 ^ levels }
    ensures bounds { (8 ≤ result) × (result ≤ 2048) }
{
    1 << (levels - 1)
}

// The number of windows of `window` numbers in each of the three classes that cover all exponents below `exponents`.
fn windows_for(exponents: usize, window: usize) -> usize
    requires exponents { exponents ≤ 65536 }
    requires window { (1 ≤ window) × (window ≤ 8192) }
    ensures reach { exponents ≤ 3 * (result * window) }
    ensures few { result * window ≤ 2 ^ 20 }
{
    exponents.div_ceil(CLASSES).div_ceil(window)
}

/// How many columns of words go through the levels at a time: as many as `rows` rows hold in `room` bytes, at least 32
/// and at most 1,024. The outputs have `words` words each, which are divided about equally.
pub(crate) fn columns_for(rows: usize, words: usize, room: usize) -> usize
    ensures few { (1 ≤ result) × (result ≤ 1024) }
    ensures whole { result % 32 ≡ 0 }
{
    let each = room / rows.max(1) / 2;
    let most = (each / STEP * STEP).clamp(STEP, 1024);
    let blocks = words.div_ceil(most).max(1);
    let width = words.div_ceil(blocks).clamp(1, most);
    width.next_multiple_of(STEP).min(1024)
}

/// How many outputs are computed at once: the largest power of 2 whose rows fit `room` bytes with the fewest columns,
/// three rows for each output, and at least `FEWEST`.
pub(crate) fn outputs_at_once(room: usize) -> usize
    ensures { 1 ≤ result }
{
    let most = room / (3 * 2 * STEP);
    (most / 2 + 1).next_power_of_two().max(FEWEST)
}

impl Plan {
    /// A plan for constants with exponents below `exponents`, `outputs` outputs of `words` words each, and rows of
    /// about `room` bytes.
    pub(crate) fn new(exponents: usize, outputs: usize, words: usize, room: usize) -> Plan
        requires exponents { exponents ≤ 65536 }
        requires outputs { outputs ≤ 2 ^ 32 }
        ensures { exponents ≤ result.classes * (result.windows * result.window) }
    {
        let levels = levels_for(outputs);
        let half = half_of(levels);
        let blocks = outputs.div_ceil(half).max(2);
        let block = outputs.div_ceil(blocks).clamp(1, half);
        let window = 2 * half - block + 1;
        Plan {
            classes: CLASSES,
            windows: windows_for(exponents, window),
            window,
            levels,
            block,
            columns: columns_for((blocks + 1).saturating_mul(2 * half), words, room),
        }
    }
}
