//! Which exponents a repair keeps, and the inverse of the matrix of their coefficients for the lost slices, in one of three
//! forms. `invert` tries the first exponents, as many as slices are lost (`inverse_at_front`); if they don't suffice, it
//! offers the equations of all exponents to a system in order, with unit vectors on the right-hand side, whose solution is
//! the inverse. The product of the inverse and the syndromes gives the lost slices.
//!
//! For a run of exponents, as many as slices are lost, the rows of the inverse are quotients of the error locator (`locator`
//! of `par2_matrix`). A `Locator` represents these rows without computing any of them.

ghost use Rattle.std.specs.Prelude.{◌≡◌, ℕ, ◌%◌, List, length, IfErr, IfOk, IsOk};
ghost use Rattle.par2_spec.specs.Prelude.{IsRepairable, lists_of};
ghost use Rattle.par2_solve.specs.BufferContents.{AreSolvedBy, InvertsRun, IsInverseOf, IsInversion, located_rows, AreProducts, byte_lists};
ghost use Rattle.par2_solve.specs.Rebuilding.{IsTrueFault};
ghost use Rattle.par2_transform.specs.Chirps.{words_at};

use crate::holes::{Filling, inverse_at_front};
use crate::products::{Size, blank, buffers_fit, products_of};
use crate::rebuild_slices::RebuildFault;
use par2_gf16::Gf;
use par2_matrix::{Exponents, Factored, Lost, eliminate, rows_of, scaled_quotient, with_factors};
use par2_spec::Result;
use par2_transform::Locator;
use std::alloc::Global;

/// The kept exponents in order, and the inverse of the matrix of their coefficients for the lost slices.
#[derive(Drop)]
pub(crate) struct Inversion {
    pub(crate) kept: Vec<u32>,
    pub(crate) inverse: Inverse,
}

/// The kept exponents and their inverse; `NotRepairable` if the exponents don't determine the lost slices. If the first
/// exponents, as many as slices are lost, are a run or have few holes between them, they are the kept ones and the
/// error locator gives the inverse. Otherwise elimination does.
pub(crate) fn invert(
    alloc: Global,
    gf: &Gf,
    lost: &Lost,
    exponents: &Exponents,
) -> Result<Inversion, RebuildFault>
    // The first exponents whose equations are independent are kept, and the inverse is theirs.
    ensures found { IfOk result (IsInversion lost.now.numbers.now exponents.now.numbers.now) }
    // It succeeds only if the lost slices are determined; otherwise the fault says so with the true
    // rank.
    ensures enough { IsOk result → IsRepairable lost.now.numbers.now exponents.now.numbers.now }
    ensures refused { IfErr result (IsTrueFault lost.now.numbers.now exponents.now.numbers.now) }
{
    let missing = lost.numbers.len();
    if let Some(inverse) = inverse_at_front(alloc, gf, lost, exponents)? {
        let kept = Vec::from_slice(alloc, &exponents.numbers[..missing])?;
        return Ok(Inversion { kept, inverse });
    }
    let (kept, system) = eliminate(alloc, gf, lost.numbers, exponents, missing)?;
    let rank = system.rank();
    let Ok(buffers) = system.into_solution() else {
        return Err(RebuildFault::NotRepairable { missing, rank });
    };
    let inverse = Inverse::Rows(rows_of(alloc, &buffers)?);
    Ok(Inversion { kept, inverse })
}

/// The inverse of the matrix of the kept exponents: its rows, or a form by which it is applied without computing them.
#[derive(Drop)]
pub(crate) enum Inverse {
    Rows(Vec<Vec<u16>>),
    /// For a run of exponents, the error locator.
    Located(Locator),
    /// For exponents with holes between them, what computes the holes' syndromes, and the locator.
    Filled(Filling),
}

/// The product of the inverse that a locator represents and the sources, which are the syndromes of its run: for each
/// lost slice a buffer of this size. `room` is the memory that the locator may take, in bytes.
pub(crate) fn located_products(
    alloc: Global,
    locator: &Locator,
    sources: &[&[u8]],
    size: Size,
    room: usize,
) -> Result<Vec<Vec<u8>>>
    requires { length locator.now.numerators.sequence.items ≡ length sources.now }
    ensures { IfOk result (λ sums. AreProducts size.bytes (located_rows locator.now)
        (byte_lists sources.now) (lists_of sums.items)) }
{
    let mut sums = blank(alloc, locator.points.len(), size.bytes)?;
    locator.add_quotient_sums(alloc, sources, size.bytes / 2, sums.as_mut_slice(), room)?;
    Ok(sums)
}

// The fewest bytes of each slice that are solved at a time by rows. All rows are read for each of these blocks, and for
// a short block this takes longer than the products.
const LEAST: usize = 4096;

impl Inverse {
    /// The fewest bytes of each slice that are solved at a time: more than 0 for a form that reads all its rows for
    /// each of these blocks.
    pub(crate) fn least(&self) -> usize
        ensures { result % 2 ≡ 0 }
    {
        match self {
            Inverse::Located(_) => 0,
            _ => LEAST,
        }
    }

    /// The product of the inverse and the sources, which are the syndromes of the kept exponents: for each lost slice a
    /// buffer of `size` bytes. `room` is the memory that a locator may take, in bytes. `AreSolvedBy`: for the exponents of
    /// which it is the inverse, the buffers solve the equations.
    pub(crate) fn products(
        &self,
        alloc: Global,
        sources: &[&[u8]],
        size: Size,
        room: usize,
    ) -> Result<Vec<Vec<u8>>>
        requires { IsInverseOf (length sources.now) self.now }
        ensures { IfOk result (λ sums. (exponents : List ℕ) → AreSolvedBy self.now size.bytes exponents
            (words_at (byte_lists sources.now)) (lists_of sums.items)) }
    {
        buffers_fit(sources);
        match self {
            Inverse::Rows(rows) => products_of(alloc, rows, sources, size),
            Inverse::Located(locator) => located_products(alloc, locator, sources, size, room),
            Inverse::Filled(filling) => filling.products(alloc, sources, size, room),
        }
    }
}

/// The fewest lost slices for which the locator is faster than rows.
pub(crate) const LOCATED: usize = 768;

/// The locator for the exponents from `first` on, as many as slices are lost. `InvertsRun`: the rows that it represents
/// are the inverse of the matrix of these exponents.
pub(crate) fn run_locator(alloc: Global, gf: &Gf, lost: &Lost, first: u32) -> Result<Locator>
    ensures { IfOk result (λ it. InvertsRun lost.now.numbers.now first (Inverse.Located it)) }
{
    let Factored { p, points, factors } = with_factors(alloc, gf, lost, first)?;
    // No quotient depends on the coefficient of `z ^ 0`.
    let sequence = Vec::from_slice(alloc, &p[1..])?;
    Ok(Locator::new(alloc, gf, sequence, points, factors)?)
}

/// The inverse for the exponents from `first` on, as many as slices are lost: its rows if these are few, otherwise the
/// locator.
pub(crate) fn inverse_for_run(alloc: Global, gf: &Gf, lost: &Lost, first: u32) -> Result<Inverse>
    ensures { IfOk result (InvertsRun lost.now.numbers.now first) }
{
    if lost.numbers.len() >= LOCATED {
        return Ok(Inverse::Located(run_locator(alloc, gf, lost, first)?));
    }
    let Factored { p, points, factors } = with_factors(alloc, gf, lost, first)?;
    let mut rows = Vec::with_capacity(alloc, points.len())?;
    for j in 0..points.len() {
        rows.push(scaled_quotient(alloc, gf, factors[j], points[j], &p)?)?;
    }
    Ok(Inverse::Rows(rows))
}
