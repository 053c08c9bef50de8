//! The steps of Gauss-Jordan elimination. For an offered equation, `prepare` subtracts the kept ones and scales it, and
//! `put_in` clears its pivot's column in the kept ones and stores it. Rows and right-hand sides are bytes: element `i`
//! of a row is the little-endian word at `2 * i`, so that one kernel adds both. `bytes_of_row` writes elements as bytes,
//! and `rows_of` reads them.

ghost use Rattle.std.specs.Prelude.{◌≡◌, ◌≢◌, ℕ, ◌+◌, ◌*◌, ◌%◌, ◌^◌, ◌<◌, length, slice_index, IfSome, IfOk, IsNone};
ghost use Rattle.par2_spec.specs.Prelude.{word, OneChanged, lists_of, list_at};
ghost use Rattle.par2_gf16.specs.Tables.{AddsProducts};
ghost use Rattle.par2_matrix.specs.Echelon.{Scaled, ReducedBelow, IsReduced, IsImplied, IsPrepared, PutAt, AllEmpty, echelon_of, WordPut, HoldsRow};
ghost use Rattle.par2_matrix.specs.LostSlices.{AreByteRows, IsUnit};

use par2_gf16::{Factor, Gf};
use par2_spec::Result;
use std::alloc::Global;

/// For the prover: each byte is below 2 ^ 8.
#[inline(always)]
pub fn fit_bytes(bytes: &[u8])
    ensures { (k : ℕ) → slice_index bytes.now k < 2 ^ 8 }
{
    let _ = bytes.len();
}

/// The bytes of buffer `r`: in a system, of the row or the right-hand side of the equation with its pivot in column `r`.
#[inline(always)]
pub fn buffer_at(buffers: &[Vec<u8>], r: usize) -> &[u8]
    requires { r < length buffers.now }
    ensures { result.now ≡ list_at (lists_of buffers.now) r }
{
    &buffers[r]
}

/// `count` empty lists: the rows, or the right-hand sides, of a system without equations.
pub(crate) fn empty_lists(alloc: Global, count: usize) -> Result<Vec<Vec<u8>>>
    ensures { IfOk result (λ lists. AllEmpty (lists_of lists.items) count) }
{
    let mut lists = Vec::new(alloc);
    for _i in 0..count {
        lists.push(Vec::new(alloc))?;
    }
    Ok(lists)
}

// Multiplies each element of the bytes, a row or a right-hand side, by the factor.
fn scale(gf: &Gf, factor: u16, bytes: &mut [u8])
    ensures { Scaled factor bytes.old bytes.new (length bytes.old) }
{
    for i in 0..bytes.len() / 2 {
        let product = gf.mul(factor, element(bytes, i));
        put_element(bytes, i, product);
    }
}

// Adds multiples of the kept equations to the offered one, `row` and `right`, so that its row is 0 at each kept pivot.
fn reduce(gf: &Gf, rows: &[Vec<u8>], right_sides: &[Vec<u8>], row: &mut [u8], right: &mut [u8])
    ghost rank: { ℕ }
    requires reduced { IsReduced (echelon_of (length right.old) rank rows.now right_sides.now) }
    requires size { length row.old ≡ 2 * length rows.now }
    ensures { ReducedBelow (echelon_of (length right.old) 0 rows.now right_sides.now)
        row.old right.old row.new right.new (length rows.now) }
{
    for p in 0..rows.len() {
        let factor = element(row, p);
        let source = buffer_at(rows, p);
        if factor != 0 && !source.is_empty() {
            let multiple = Factor::new(factor);
            gf.mul_add_by(&multiple, source, row);
            gf.mul_add_by(&multiple, buffer_at(right_sides, p), right);
        }
    }
}

// The number of the first element that isn't 0, which becomes the pivot; None if all are 0.
fn first_nonzero(row: &[u8]) -> Option<usize>
    ensures none { IsNone result → (i : ℕ) → 2 * i + 1 < length row.now → word i row.now ≡ 0 }
    ensures some { IfSome result (λ q. (2 * q + 1 < length row.now) × (word q row.now ≢ 0)) }
{
    for i in 0..row.len() / 2 {
        if element(row, i) != 0 {
            return Some(i);
        }
    }
    None
}

/// Reduces an equation by the kept ones and scales it to a pivot of 1. Returns the column of the pivot, or nothing if
/// its row is a linear combination of the kept rows.
pub(crate) fn prepare(
    gf: &Gf,
    rows: &[Vec<u8>],
    right_sides: &[Vec<u8>],
    row: &mut [u8],
    right: &mut [u8],
) -> Option<usize>
    ghost rank: { ℕ }
    requires reduced { IsReduced (echelon_of (length right.old) rank rows.now right_sides.now) }
    requires size { length row.old ≡ 2 * length rows.now }
    ensures none { IsNone result
        → IsImplied (echelon_of (length right.old) rank rows.now right_sides.now) row.old }
    ensures some { IfSome result
        (IsPrepared (echelon_of (length right.old) 0 rows.now right_sides.now)
        row.old right.old row.new right.new) }
    ensures room { IfSome result (λ q. rank < length rows.now) }
{
    fit_bytes(row);
    fit_bytes(right);
    reduce(gf, rows, right_sides, row, right);
    fit_bytes(row);
    fit_bytes(right);
    let q = first_nonzero(row)?;
    let inverse = gf.inv(element(row, q)).unwrap();
    scale(gf, inverse, row);
    scale(gf, inverse, right);
    Some(q)
}

// Adds the factor times each word of `src` to the word of list `p` at the same place, and changes no other list.
fn add_row(gf: &Gf, lists: &mut [Vec<u8>], p: usize, factor: &Factor, src: &[u8])
    requires { p < length lists.old }
    ensures changed { OneChanged (lists_of lists.old) (lists_of lists.new) p }
    ensures added { AddsProducts factor.now src.now (list_at (lists_of lists.old) p)
        (list_at (lists_of lists.new) p) }
    ensures bytes { (k : ℕ) → slice_index (list_at (lists_of lists.new) p) k < 2 ^ 8 }
{
    let list = lists[p].as_mut_slice();
    gf.mul_add_by(factor, src, list);
    fit_bytes(list);
}

/// Makes column q zero in each kept equation, and stores the new equation there.
pub(crate) fn put_in(
    gf: &Gf,
    rows: &mut [Vec<u8>],
    right_sides: &mut [Vec<u8>],
    q: usize,
    row: Vec<u8>,
    right: Vec<u8>,
)
    ghost rank: { ℕ }
    requires place { q < length rows.old }
    requires size { length row.items ≡ 2 * length rows.old }
    requires reduced { IsReduced (echelon_of (length right.items) rank rows.old right_sides.old) }
    ensures { PutAt q row.items right.items (lists_of rows.old) (lists_of right_sides.old)
        (lists_of rows.new) (lists_of right_sides.new) }
{
    for p in 0..rows.len() {
        let target = buffer_at(rows, p);
        if !target.is_empty() {
            let factor = Factor::new(element(target, q));
            add_row(gf, rows, p, &factor, &row);
            add_row(gf, right_sides, p, &factor, &right);
        }
    }
    fit_bytes(&row);
    fit_bytes(&right);
    rows[q] = row;
    right_sides[q] = right;
}

/// Element `i` of a row.
#[inline(always)]
pub fn element(row: &[u8], i: usize) -> u16
    requires { 2 * i + 1 < length row.now }
    ensures { result ≡ word i row.now }
{
    u16::from_le_bytes([row[2 * i], row[2 * i + 1]])
}

/// Sets element `i` of a row, and changes no other byte.
#[inline(always)]
pub fn put_element(row: &mut [u8], i: usize, element: u16)
    requires { 2 * i + 1 < length row.old }
    ensures { WordPut i element row.old row.new }
{
    let [low, high] = element.to_le_bytes();
    row[2 * i] = low;
    row[2 * i + 1] = high;
}

/// The bytes of a row of elements, as `System` keeps rows. Fails only when memory runs out.
pub fn bytes_of_row(alloc: Global, row: &[u16]) -> Result<Vec<u8>>
    ensures { IfOk result (λ bytes. HoldsRow row.now bytes.items (length row.now)) }
{
    let mut bytes = vec![in alloc; 0u8; 2 * row.len()]?;
    for i in 0..row.len() {
        put_element(&mut bytes, i, row[i]);
    }
    Ok(bytes)
}

// The elements of a right-hand side, two bytes each. After elimination they are a row of the inverse.
fn row_of(alloc: Global, bytes: &[u8]) -> Result<Vec<u16>>
    requires { length bytes.now % 2 ≡ 0 }
    ensures { IfOk result (λ row. HoldsRow row.items bytes.now (length row.items)) }
{
    let count = bytes.len() / 2;
    let mut row = Vec::with_capacity(alloc, count)?;
    for i in 0..count {
        row.push(element(bytes, i))?;
    }
    Ok(row)
}

/// The elements of each right-hand side. `AreByteRows`: row r has the elements whose bytes are right-hand side r.
pub fn rows_of(alloc: Global, sides: &[Vec<u8>]) -> Result<Vec<Vec<u16>>>
    requires { (r : ℕ) → r < length sides.now → length (list_at (lists_of sides.now) r) % 2 ≡ 0 }
    ensures { IfOk result
        (λ rows. AreByteRows (lists_of rows.items) (lists_of sides.now) (length sides.now)) }
{
    let mut rows = Vec::with_capacity(alloc, sides.len())?;
    for r in 0..sides.len() {
        rows.push(row_of(alloc, buffer_at(sides, r))?)?;
    }
    Ok(rows)
}

/// The bytes of unit vector `i` of `n` elements (1 at place `i`, 0 elsewhere); zeros if `i` isn't below `n`.
pub(crate) fn unit(alloc: Global, n: usize, i: usize) -> Result<Vec<u8>>
    requires { n < 65536 }
    ensures size { IfOk result (λ bytes. length bytes.items ≡ 2 * n) }
    ensures unit { i < n → IfOk result (λ bytes. IsUnit n i bytes.items) }
{
    let mut bytes = vec![in alloc; 0u8; 2 * n]?;
    if i >= n {
        return Ok(bytes);
    }
    put_element(bytes.as_mut_slice(), i, 1);
    Ok(bytes)
}
