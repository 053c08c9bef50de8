//! Lists of buffers, and the product of a matrix of factors and a list of buffers (sources): a sum of the sources for
//! each row, each source times its factor in the row. `products_of` makes targets of zeros. `add_matrix_product` passes over
//! blocks of columns, `add_columns` over the sources and `add_source` over the targets.

ghost use Rattle.std.specs.Prelude.{◌≡◌, ◌+◌, ◌-◌, ◌*◌, ◌%◌, ◌^◌, ◌<◌, ◌≤◌, length, map, slice_index, IfOk};
ghost use Rattle.par2_gf16.specs.Words.{AddsEach, word_of};
ghost use Rattle.par2_spec.specs.Prelude.{mul, list_at, lists_of};
ghost use Rattle.par2_solve.specs.BufferContents.{Adds, AddsSource, AreBlank, AreByteLists, AreProducts, HaveAtLeast, byte_lists, chunk};

use par2_gf16::{Factor, WordVector, vectors_of};
use par2_matrix::{buffer_at, fit_bytes};
use par2_spec::Result;
use std::alloc::Global;

/// How many words of each buffer are processed at a time, so that a source's vectors and the words written stay in the
/// caches.
pub(crate) const BLOCK: usize = 4096;

/// Columns `from` up to `to`. A column is a word of each buffer.
#[derive(Clone, Copy)]
pub(crate) struct ColumnRange {
    pub(crate) from: usize,
    pub(crate) to: usize,
    ghost order: { from ≤ to },
}

/// A size in bytes, which are whole words.
#[derive(Clone, Copy)]
pub(crate) struct Size {
    pub(crate) bytes: usize,
    ghost even: { bytes % 2 ≡ 0 },
}

// Adds to these columns of the target the factor times the source's words. The vectors begin with the first of them.
fn add_product(factor: u16, source: &[WordVector], columns: ColumnRange, target: &mut [u8])
    requires { 2 * columns.to ≤ length target.old }
    ensures { AddsEach (λ p. mul factor (word_of source.now (p - columns.from)))
        target.old target.new columns.from columns.to }
{
    let words = &mut target[2 * columns.from..2 * columns.to];
    Factor::new(factor).add_products(source, words);
}

// Adds to each target the source, which is number `k`, times the target's factor for it, in these columns. `AddsSource`
// gives the sum for the first n targets; the others are unchanged.
fn add_source(
    factors: &[Vec<u16>],
    k: usize,
    source: &[WordVector],
    columns: ColumnRange,
    targets: &mut [Vec<u8>],
)
    requires rows { length factors.now ≡ length targets.old }
    requires factors { HaveAtLeast (k + 1) factors.now }
    requires room { HaveAtLeast (2 * columns.to) targets.old }
    ensures { AddsSource (λ r. slice_index (list_at (lists_of factors.now) r) k)
        (λ p. word_of source.now (p - columns.from)) (lists_of targets.old) (lists_of targets.new)
        columns.from columns.to (length targets.old) }
{
    for r in 0..targets.len() {
        add_product(factors[r][k], source, columns, targets[r].as_mut_slice());
    }
}

/// The bytes of borrowed buffer `k`. For a list of vectors, it is `buffer_at`.
#[inline(always)]
pub(crate) fn source_at<'a>(sources: &[&'a [u8]], k: usize) -> &'a [u8]
    requires { k < length sources.now }
    ensures { result.now ≡ list_at (byte_lists sources.now) k }
{
    sources[k]
}

// The bytes of a buffer from byte `from` on, at most `count` of them; none past the end.
fn window_of(bytes: &[u8], from: usize, count: usize) -> &[u8]
    ensures { result.now ≡ chunk from count bytes.now }
{
    let rest = &bytes[from.min(bytes.len())..];
    &rest[..count.min(rest.len())]
}

/// The bytes of each buffer from `from` on, at most `count` of them.
pub(crate) fn windows<'a>(
    alloc: Global,
    buffers: &[&'a [u8]],
    from: usize,
    count: usize,
) -> Result<Vec<&'a [u8]>>
    ensures { IfOk result
        (λ windows. byte_lists windows.items ≡ map (chunk from count) (byte_lists buffers.now)) }
{
    let windows = buffers.iter().map(|bytes| window_of(*bytes, from, count));
    windows.collect(alloc)
}

/// The same buffers, borrowed, as sources of products.
pub(crate) fn borrowed(alloc: Global, buffers: &[Vec<u8>]) -> Result<Vec<&[u8]>>
    ensures { IfOk result (λ slices. byte_lists slices.items ≡ lists_of buffers.now) }
{
    buffers.iter().map(|bytes| bytes.as_slice()).collect(alloc)
}

// Adds to each target all sources, each times the target's factor for it, in these columns. A source that ends before
// them, or an empty one, which is a lost slice, adds nothing.
fn add_columns(
    alloc: Global,
    factors: &[Vec<u16>],
    sources: &[&[u8]],
    columns: ColumnRange,
    targets: &mut [Vec<u8>],
) -> Result<()>
    requires fits { 2 * columns.to < 2 ^ 64 }
    requires rows { length factors.now ≡ length targets.old }
    requires factors { HaveAtLeast (length sources.now) factors.now }
    requires room { HaveAtLeast (2 * columns.to) targets.old }
    ensures { IfOk result (λ _. Adds (lists_of factors.now) (byte_lists sources.now)
        (lists_of targets.old) (lists_of targets.new)
        columns.from columns.to (length sources.now)) }
{
    let start = 2 * columns.from;
    let count = 2 * columns.to - start;
    for k in 0..sources.len() {
        let bytes = source_at(sources, k);
        if start < bytes.len() {
            let source = vectors_of(alloc, window_of(bytes, start, count))?;
            add_source(factors, k, &source, columns, targets);
        }
    }
    Ok(())
}

// Adds to each of the first `words` words of each target the sum of the sources' words there, each times its factor in
// the target's row. All sources are read once, some columns of all of them at a time.
fn add_matrix_product(
    alloc: Global,
    factors: &[Vec<u16>],
    sources: &[&[u8]],
    targets: &mut [Vec<u8>],
    words: usize,
) -> Result<()>
    requires fits { 2 * words < 2 ^ 64 }
    requires rows { length factors.now ≡ length targets.old }
    requires factors { HaveAtLeast (length sources.now) factors.now }
    requires room { HaveAtLeast (2 * words) targets.old }
    ensures { IfOk result (λ _. Adds (lists_of factors.now) (byte_lists sources.now)
        (lists_of targets.old) (lists_of targets.new) 0 words (length sources.now)) }
{
    for block in 0..words.div_ceil(BLOCK) {
        let from = block * BLOCK;
        let to = from + BLOCK.min(words - from);
        add_columns(alloc, factors, sources, ColumnRange { from, to }, targets)?;
    }
    Ok(())
}

/// `count` buffers of `size` zero bytes each, to which products or recovery slices are added.
pub fn blank(alloc: Global, count: usize, size: usize) -> Result<Vec<Vec<u8>>>
    ensures { IfOk result (λ buffers. AreBlank size count (lists_of buffers.items)) }
{
    let mut buffers = Vec::with_capacity(alloc, count)?;
    for _i in 0..count {
        buffers.push(vec![in alloc; 0u8; size]?)?;
    }
    Ok(buffers)
}

/// The product of a matrix of factors and the sources: for each row a buffer of this size. A shorter source is read
/// as if zeros followed. An error is that memory ran out.
pub(crate) fn products_of(
    alloc: Global,
    factors: &[Vec<u16>],
    sources: &[&[u8]],
    size: Size,
) -> Result<Vec<Vec<u8>>>
    requires { HaveAtLeast (length sources.now) factors.now }
    ensures { IfOk result (λ sums. AreProducts size.bytes
        (lists_of factors.now) (byte_lists sources.now) (lists_of sums.items)) }
{
    let mut sums = blank(alloc, factors.len(), size.bytes)?;
    let words = size.bytes / 2;
    add_matrix_product(alloc, factors, sources, sums.as_mut_slice(), words)?;
    Ok(sums)
}

/// For the prover: each item of these buffers is a byte.
pub(crate) fn buffers_fit(buffers: &[&[u8]])
    ensures { AreByteLists (byte_lists buffers.now) }
{
    for i in 0..buffers.len() {
        fit_bytes(source_at(buffers, i));
    }
}

/// For the prover: each item of these lists is a byte.
pub(crate) fn fit_lists(buffers: &[Vec<u8>])
    ensures { AreByteLists (lists_of buffers.now) }
{
    for i in 0..buffers.len() {
        fit_bytes(buffer_at(buffers, i));
    }
}
