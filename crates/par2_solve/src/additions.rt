//! Adds recovery slices to outputs. If the exponents have few holes between them, those of all numbers from the first
//! exponent to the last are computed together (`add_over_span`): the transform of `par2_transform` takes about as long for
//! a thousand outputs as for some hundreds. Otherwise the exponents are cut into groups (`add_group`): a long run is computed
//! by the transform, other exponents each as the sum of its products. To write recovery slices is to add them to zeros.

ghost use Rattle.std.specs.Prelude.{◌≡◌, ℕ, ◌+◌, ◌-◌, ◌*◌, ◌^◌, ◌<◌, ◌≤◌, ◌⊎◌, ◌↔◌, length, map, slice_index, IfOk, IfSome, IsTrue, OnOk};
ghost use Rattle.std.specs.List.{range_with_len};
ghost use Rattle.par2_spec.specs.Prelude.{word, coefficients, list_at, lists_of};
ghost use Rattle.par2_transform.specs.Outputs.{AddsIn, LieIn};
ghost use Rattle.par2_transform.specs.Rows.{AddsToEach, HaveWords};
ghost use Rattle.par2_transform.specs.Chirps.{recovered};
ghost use Rattle.par2_solve.specs.BufferContents.{AddsRecovery, AreConsecutive, byte_lists, AreWithin, IsSpanOf, picked};
ghost use Rattle.par2_solve.specs.Rebuilding.{AreWritten, AreZeros};

use crate::products::{
    BLOCK, Size, blank, buffers_fit, fit_lists, products_of, source_at, windows,
};
use crate::room::whole_room;
use crate::targets::{Recovered, Targets};
use par2_gf16::Gf;
use par2_matrix::{buffer_at, coefficients};
use par2_spec::Result;
use par2_transform::{Columns, Places, Transform, whole_buffers};
use std::alloc::Global;

// The fewest exponents, and slices, for which the transform is used. With fewer, it is faster to compute each recovery
// slice as the sum of its products.
const MANY: usize = 32;

// The bytes that an exponent takes beside its coefficients and the words of its sum: two `Vec`s and the allocator's
// overhead.
const OVERHEAD: usize = 104;

// The fewest columns of sums that are computed at a time.
const FEWEST: usize = 32;

// Whether the recovery slices of a run of `count` exponents over `slices` input slices are computed together, by the
// transform. With few of either, sums of products are faster.
fn are_together(slices: usize, count: usize) -> bool
    ensures { IsTrue result ↔ (32 ≤ slices) × (32 ≤ count) }
{
    slices >= MANY && count >= MANY
}

/// The `count` numbers from `first` on: the numbers of slices, or the exponents of a volume.
pub fn numbers_from(alloc: Global, first: u32, count: u32) -> Result<Vec<u32>>
    requires { first + count ≤ 2 ^ 32 }
    ensures { IfOk result (λ numbers. numbers.items ≡ range_with_len first count) }
{
    (0..count).map(|k| first + k).collect(alloc)
}

/// Adds sum t to output t in these columns. A sum has these columns only, so its first word belongs to column
/// `columns.from`.
pub(crate) fn add_sums(sums: &[Vec<u8>], columns: &Columns, buffers: &mut [Vec<u8>])
    // There is a sum for each output, and it has a word for each of these columns.
    requires count { length sums.now ≡ length columns.now.outputs.places.now }
    requires sizes { HaveWords (columns.now.to - columns.now.from) (lists_of sums.now) }
    requires room { LieIn columns.now.outputs buffers.old }
    // Output t gets sum t in these columns, and no other byte changes.
    ensures { AddsIn columns.now
        (λ t p. word (p - columns.now.from) (list_at (lists_of sums.now) t))
        buffers.old buffers.new }
{
    fit_lists(sums);
    for t in 0..sums.len() {
        columns.add(buffer_at(sums, t), buffers, t);
    }
}

/// For the prover: a `usize` can count the bytes of an output, because it can count those of the output's buffer.
pub(crate) fn fit_output(buffers: &[Vec<u8>], outputs: &Places)
    requires some { 0 < length outputs.now.places.now }
    requires room { LieIn outputs.now buffers.now }
    ensures { 2 * outputs.now.words < 2 ^ 64 }
{
    let _ = buffer_at(buffers, outputs.places[0].buffer).len();
}

// The end of the run of consecutive exponents that begins at index `at`: the index after its last exponent.
fn run_end(exponents: &[u32], at: usize) -> usize
    requires { at < length exponents.now }
    ensures beyond { at < result }
    ensures within { result ≤ length exponents.now }
    ensures run { AreConsecutive exponents.now at result }
    ensures fits { slice_index exponents.now at + (result - at) ≤ 2 ^ 32 }
{
    let mut end = at + 1;
    while end < exponents.len() && exponents[end] as u64 == exponents[end - 1] as u64 + 1 {
        end += 1;
    }
    end
}

// The end (exclusive) of the group of exponents that begins at index `at`: a long run, or the exponents before the next
// long run, at most `most` of them. The number of input slices, `slices`, decides which run is long.
fn group_end(exponents: &[u32], at: usize, slices: usize, most: usize) -> usize
    requires place { at < length exponents.now }
    requires some { 1 ≤ most }
    ensures beyond { at < result }
    ensures within { result ≤ length exponents.now }
    ensures room { AreConsecutive exponents.now at result ⊎ (result ≤ at + most) }
    ensures long { at + most < result → (32 ≤ slices) × (32 ≤ result - at) }
{
    let mut end = run_end(exponents, at);
    if are_together(slices, end - at) {
        return end;
    }
    while end < exponents.len() && end - at < most {
        let next = run_end(exponents, end);
        if are_together(slices, next - end) {
            return at + most.min(end - at);
        }
        end = next;
    }
    at + most.min(end - at)
}

// For each exponent, the row of its coefficients for the slices. `products_of` multiplies by them.
fn rows_over(alloc: Global, transform: &Transform, exponents: &[u32]) -> Result<Vec<Vec<u16>>>
    ensures { IfOk result (λ rows. lists_of rows.items
        ≡ map (coefficients (range_with_len 0 (length transform.now.slices.now))) exponents.now) }
{
    let numbers = numbers_from(alloc, 0, transform.slices.len() as u32)?;
    let mut rows = Vec::with_capacity(alloc, exponents.len())?;
    for i in 0..exponents.len() {
        rows.push(coefficients(alloc, transform.gf, &numbers, exponents[i])?)?;
    }
    Ok(rows)
}

// Adds to each output the recovery slice of its exponent, as the sum of products. All slices are read once, some columns
// of them at a time: as many as fit into memory beside the coefficients, but at least `FEWEST` and at most `BLOCK`.
fn add_as_sums(
    alloc: Global,
    transform: &Transform,
    targets: &Targets,
    buffers: &mut [Vec<u8>],
) -> Result<()>
    requires some { 0 < length targets.now.exponents.now }
    requires room { LieIn targets.now.outputs buffers.old }
    ensures { OnOk result (AddsRecovery transform.now targets.now buffers.old buffers.new) }
{
    let Transform { slices, room, .. } = *transform;
    let rows = rows_over(alloc, transform, targets.exponents)?;
    let each = (room / rows.len().max(1)).saturating_sub(2 * slices.len() + OVERHEAD);
    let at_once = (each / 2).clamp(FEWEST, BLOCK);
    let outputs = targets.outputs;
    fit_output(buffers, &outputs);
    let mut from = 0;
    while from < outputs.words {
        let to = from + at_once.min(outputs.words - from);
        let bytes = 2 * (to - from);
        let windows = windows(alloc, slices, 2 * from, bytes)?;
        let sums = products_of(alloc, &rows, &windows, Size { bytes })?;
        add_sums(&sums, &Columns { outputs, from, to }, buffers);
        from = to;
    }
    Ok(())
}

// Adds to each output the recovery slice of its exponent. The exponents are one group of `add_by_groups`: a long run,
// which the transform computes, or others, which are sums of products.
fn add_group(
    alloc: Global,
    transform: &Transform,
    targets: &Targets,
    buffers: &mut [Vec<u8>],
) -> Result<()>
    requires some { 0 < length targets.now.exponents.now }
    requires room { LieIn targets.now.outputs buffers.old }
    ensures { OnOk result (AddsRecovery transform.now targets.now buffers.old buffers.new) }
{
    let exponents = targets.exponents;
    let count = exponents.len();
    if are_together(transform.slices.len(), count) && run_end(exponents, 0) == count {
        return transform.add_recovery_slices_at(alloc, exponents[0], buffers, &targets.outputs);
    }
    add_as_sums(alloc, transform, targets, buffers)
}

// Adds to each output the recovery slice of its exponent, group by group. Groups without a long run have as many
// exponents as fit into memory with their coefficients and the fewest columns of their sums.
fn add_by_groups(
    alloc: Global,
    transform: &Transform,
    targets: &Targets,
    buffers: &mut [Vec<u8>],
) -> Result<()>
    requires { LieIn targets.now.outputs buffers.old }
    ensures { OnOk result (AddsRecovery transform.now targets.now buffers.old buffers.new) }
{
    let slices = transform.slices.len();
    let most = (transform.room / (2 * slices + OVERHEAD + 2 * FEWEST)).max(1);
    let mut at = 0;
    while at < targets.exponents.len() {
        let to = group_end(targets.exponents, at, slices, most);
        let exponents = &targets.exponents[at..to];
        let outputs = targets.outputs.part(at, to);
        add_group(alloc, transform, &Targets { exponents, outputs }, buffers)?;
        at = to;
    }
    Ok(())
}

/// Adds to each output the recovery slice of its exponent over all slices. Beside the buffers this takes as much memory
/// as it may, or as little as it can; if the exponents have few holes between them, also the bytes of an output for each
/// number from the first exponent to the last.
pub(crate) fn add_recovery(
    alloc: Global,
    transform: &Transform,
    targets: &Targets,
    buffers: &mut [Vec<u8>],
) -> Result<()>
    requires { LieIn targets.now.outputs buffers.old }
    ensures { OnOk result (AddsRecovery transform.now targets.now buffers.old buffers.new) }
{
    match close_span(targets.exponents, transform.slices.len()) {
        Some(span) => add_over_span(alloc, transform, targets, span, buffers),
        None => add_by_groups(alloc, transform, targets, buffers),
    }
}

/// Copies of these recovery slices, of `words` words each, to each of which the recovery slice of its exponent is added.
/// If they are the surviving ones and lost slices are given as empty ones, these are the syndromes.
pub(crate) fn with_recovery_slices(
    alloc: Global,
    transform: &Transform,
    words: usize,
    kept: &Recovered,
) -> Result<Vec<Vec<u8>>>
    requires { HaveWords words (byte_lists kept.now.slices.now) }
    ensures { IfOk result (λ sums. AddsToEach (λ t p.
        recovered (byte_lists transform.now.slices.now) (slice_index kept.now.exponents.now t) p)
        (byte_lists kept.now.slices.now) (lists_of sums.items)) }
{
    let places = whole_buffers(alloc, kept.slices.len())?;
    let mut sums = Vec::with_capacity(alloc, kept.slices.len())?;
    for k in 0..kept.slices.len() {
        sums.push(Vec::from_slice(alloc, source_at(kept.slices, k))?)?;
    }
    let exponents = kept.exponents;
    let outputs = Places::new(&places, words);
    let targets = Targets { exponents, outputs };
    add_recovery(alloc, transform, &targets, sums.as_mut_slice())?;
    Ok(sums)
}

// How many numbers there are from the first exponent to the last, if their recovery slices are computed together: if
// some of them, and at most half, are no exponents. None otherwise. `slices` is the number of input slices.
fn close_span(exponents: &[u32], slices: usize) -> Option<usize>
    ensures { IfSome result (λ count. IsSpanOf exponents.now count) }
{
    let (first, last) = (*exponents.first()?, *exponents.last()?);
    if last < first {
        return None;
    }
    let count = (last - first) as usize + 1;
    let has_few_holes = count > exponents.len() && count / 2 <= exponents.len();
    if !has_few_holes || !are_together(slices, count) {
        return None;
    }
    let all = exponents
        .iter()
        .all(|e| first <= *e && ((*e - first) as usize) < count);
    if all { Some(count) } else { None }
}

// Copies of the exponents' lists, in order. List x is that of number `first + x`, and numbers between have lists too.
fn picked(alloc: Global, lists: &[Vec<u8>], exponents: &[u32], first: u32) -> Result<Vec<Vec<u8>>>
    requires { AreWithin first (length lists.now) exponents.now }
    ensures { IfOk result (λ copies.
        lists_of copies.items ≡ picked first exponents.now (lists_of lists.now)) }
{
    let mut copies = Vec::with_capacity(alloc, exponents.len())?;
    for j in 0..exponents.len() {
        let bytes = buffer_at(lists, (exponents[j] - first) as usize);
        copies.push(Vec::from_slice(alloc, bytes)?)?;
    }
    Ok(copies)
}

// Adds to each output the recovery slice of its exponent, after the transform has computed those of all `count` numbers
// from the first exponent on. `count` is the result of `close_span`, so the copies take about as much memory as three times
// the outputs.
fn add_over_span(
    alloc: Global,
    transform: &Transform,
    targets: &Targets,
    count: usize,
    buffers: &mut [Vec<u8>],
) -> Result<()>
    requires span { IsSpanOf targets.now.exponents.now count }
    requires room { LieIn targets.now.outputs buffers.old }
    ensures { OnOk result (AddsRecovery transform.now targets.now buffers.old buffers.new) }
{
    let outputs = targets.outputs;
    fit_output(buffers, &outputs);
    let (first, from, to) = (targets.exponents[0], 0, outputs.words);
    let mut all = blank(alloc, count, 2 * to)?;
    transform.add_recovery_slices(alloc, to, first, all.as_mut_slice())?;
    let sums = picked(alloc, &all, targets.exponents, first)?;
    add_sums(&sums, &Columns { outputs, from, to }, buffers);
    Ok(())
}

/// Writes into each output, which is zeros, the recovery slice of its exponent over all `slices`. A slice that is
/// shorter than an output is padded with zeros. `outputs` says where in the buffers the outputs lie. An error is that
/// memory ran out; then the outputs may be partly written.
pub fn write_recovery_slices(
    alloc: Global,
    gf: &Gf,
    slices: &[&[u8]],
    exponents: &[u32],
    buffers: &mut [Vec<u8>],
    outputs: &Places,
) -> Result<()>
    requires slices { length slices.now ≤ 32768 }
    requires count { length exponents.now ≡ length outputs.now.places.now }
    requires room { LieIn outputs.now buffers.old }
    requires zeros { AreZeros outputs.now.words outputs.now.places.now (lists_of buffers.old) }
    ensures { IfOk result (λ _. AreWritten outputs.now.words (byte_lists slices.now) exponents.now
        outputs.now.places.now (lists_of buffers.old) (lists_of buffers.new)) }
{
    buffers_fit(slices);
    let room = whole_room(slices, exponents.len());
    let outputs = *outputs;
    let transform = Transform { gf, slices, room };
    add_recovery(alloc, &transform, &Targets { exponents, outputs }, buffers)?;
    fit_lists(buffers);
    Ok(())
}
