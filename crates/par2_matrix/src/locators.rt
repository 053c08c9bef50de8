//! The error locator of lost slices, which gives the inverse for a run of exponents, as many as slices are lost. Exponent
//! `f + k` multiplies lost slice `j` by power `f + k` of its constant `c`: this is a Vandermonde matrix with scaled columns.
//! The error locator `p` is the polynomial whose roots are the constants of the lost slices. Its quotient on division by
//! `z - c` is 0 at the other constants and not 0 at `c`, so its coefficients, scaled by a factor (Forney 1965), are row `j`
//! of the inverse. A polynomial is the list of its coefficients, from that of `z ^ 0` on.

ghost use Rattle.std.specs.Prelude.{◌≡◌, ℕ, ◌<◌, bit_xor, length, map, slice_index, IfOk};
ghost use Rattle.par2_spec.specs.Prelude.{constant, mul, value, times, times_root, with_roots, quotient};
ghost use Rattle.par2_matrix.specs.LostSlices.{AreFactors, locator};

use crate::exponents::{Lost, coefficients};
use par2_gf16::Gf;
use par2_spec::Result;
use std::alloc::Global;

// The product of a polynomial and `z - c`.
fn times_root(alloc: Global, gf: &Gf, c: u16, p: &[u16]) -> Result<Vec<u16>>
    ensures { IfOk result (λ product. product.items ≡ times_root c p.now) }
{
    let mut product = Vec::with_capacity(alloc, p.len() + 1)?;
    let mut before = 0;
    for t in 0..p.len() {
        product.push(gf.mul(c, p[t]) ^ before)?;
        before = p[t];
    }
    product.push(before)?;
    Ok(product)
}

// The monic polynomial with these roots: its coefficients, from that of `z ^ 0` on.
fn with_roots(alloc: Global, gf: &Gf, points: &[u16]) -> Result<Vec<u16>>
    ensures { IfOk result (λ p. p.items ≡ with_roots points.now) }
{
    let mut p = vec![in alloc; 1u16; 1]?;
    for i in (0..points.len()).rev() {
        p = times_root(alloc, gf, points[i], &p)?;
    }
    Ok(p)
}

/// The quotient of a polynomial on division by `z - c`, without the remainder, times a factor: a row of the inverse. It takes
/// the steps of Horner's rule (synthetic division).
pub fn scaled_quotient(alloc: Global, gf: &Gf, factor: u16, c: u16, p: &[u16]) -> Result<Vec<u16>>
    ensures { IfOk result (λ row. row.items ≡ times factor (quotient c p.now)) }
{
    let count = p.len().saturating_sub(1);
    let mut row = vec![in alloc; 0u16; count]?;
    let mut value = 0;
    for t in (0..count).rev() {
        value = p[t + 1] ^ gf.mul(c, value);
        row[t] = gf.mul(factor, value);
    }
    Ok(row)
}

// A step of Horner's rule at several points: each value times its factor, plus the coefficient.
fn step_each(gf: &Gf, factors: &[u16], coefficient: u16, values: &mut [u16])
    requires { length factors.now ≡ length values.old }
    ensures count { length values.new ≡ length values.old }
    ensures each { (j : ℕ) → j < length values.old → slice_index values.new j
        ≡ bit_xor coefficient (mul (slice_index factors.now j) (slice_index values.old j)) }
{
    for j in 0..values.len() {
        values[j] = coefficient ^ gf.mul(factors[j], values[j]);
    }
}

// The values at the points of the derivative of a polynomial, which at a point `c` is that of the quotient on division
// by `z - c`. In characteristic 2 only odd powers have a derivative, so it is a polynomial of the square of `c`. All
// points take a step before the next one, so that no product waits for another one.
fn derivatives(alloc: Global, gf: &Gf, p: &[u16], points: &[u16]) -> Result<Vec<u16>>
    ensures count { IfOk result (λ values. length values.items ≡ length points.now) }
    ensures each { IfOk result (λ values. (j : ℕ) → j < length points.now
        → let c = slice_index points.now j in slice_index values.items j ≡ value (quotient c p.now) c) }
{
    let squares: Vec<u16> = points.iter().map(|c| gf.mul(*c, *c)).collect(alloc)?;
    let mut values = vec![in alloc; 0u16; points.len()]?;
    for k in (0..p.len() / 2).rev() {
        step_each(gf, &squares, p[2 * k + 1], values.as_mut_slice());
    }
    Ok(values)
}

/// The error locator of the lost slices: the coefficients, from `z ^ 0` on, of the polynomial whose roots are their
/// constants.
pub fn locator(alloc: Global, gf: &Gf, lost: &[u32]) -> Result<Vec<u16>>
    ensures { IfOk result (λ p. p.items ≡ locator lost.now) }
{
    // Exponent 1 multiplies each slice by its constant.
    with_roots(alloc, gf, &coefficients(alloc, gf, lost, 1)?)
}

/// The error locator `p` of the lost slices, its roots, and the factor of each root for the exponents from some number on.
#[derive(Drop)]
pub struct Factored {
    pub p: Vec<u16>,
    pub points: Vec<u16>,
    pub factors: Vec<u16>,
}

/// The factors for the exponents from `first` on: 1 over `c ^ first` times the derivative at `c` (Forney 1965).
pub fn with_factors(alloc: Global, gf: &Gf, lost: &Lost, first: u32) -> Result<Factored>
    ensures p { IfOk result (λ made. made.p.items ≡ locator lost.now.numbers.now) }
    ensures points { IfOk result (λ made. made.points.items ≡ map constant lost.now.numbers.now) }
    ensures factors { IfOk result (λ made. AreFactors
        first lost.now.numbers.now made.factors.items (length lost.now.numbers.now)) }
{
    let p = locator(alloc, gf, lost.numbers)?;
    let points = coefficients(alloc, gf, lost.numbers, 1)?;
    let derivatives = derivatives(alloc, gf, &p, &points)?;
    let mut factors = Vec::with_capacity(alloc, points.len())?;
    for j in 0..points.len() {
        let value = gf.mul(gf.pow(points[j], first), derivatives[j]);
        factors.push(gf.inv(value).unwrap())?;
    }
    Ok(Factored { p, points, factors })
}
