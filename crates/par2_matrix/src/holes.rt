//! Holes between exponents. Take the first exponents, as many as slices are lost. They lie in a window of consecutive
//! numbers; those of the window that aren't among them are the holes. For a vector with an element for each lost slice,
//! let the sum of a number be that of the elements, each times its slice's constant to the power of the number. These
//! sums satisfy the linear recurrence of the error locator (Peterson 1960), the polynomial whose roots are the
//! constants of the lost slices: from each number on, the sums, each times the next coefficient of the locator, add up
//! to 0. A window has as many of these equations as it has holes. If they are independent, the sums of the exponents
//! determine those of the holes, the window becomes a run, and the exponents determine the lost slices.

ghost use Rattle.std.specs.Prelude.{◌≡◌, ◌+◌, ◌<◌, ◌≤◌, IfOk, IfSome, IsTrue, length};
ghost use Rattle.par2_spec.specs.Prelude.{IsRepairable, lists_of};
ghost use Rattle.par2_matrix.specs.LostSlices.{AreHoleEquations, AreHoleInverse, AreOrigins, IsOriginAt, holes, shifted, shifted_at, span};

use crate::elimination::{rows_of, unit};
use crate::exponents::{Exponents, Front, are_slices};
use crate::locators::locator;
use crate::system::{Offer, System};
use par2_gf16::Gf;
use par2_spec::Result;
use std::alloc::Global;

/// The origin of the syndrome of a number of the window.
#[derive(Clone, Copy, Drop)]
pub enum Origin {
    /// It is the syndrome of the kept exponent with this index.
    Exponent(usize),
    /// It is the syndrome of the hole with this index.
    Hole(usize),
}

impl<'a> Front<'a> {
    /// The places of the holes between the exponents, in increasing order: for each hole, how far it is above the first
    /// exponent.
    pub fn holes(&self, alloc: Global) -> Result<Vec<u32>>
        ensures { IfOk result (λ places. places.items ≡ holes self.now.numbers.now) }
    {
        let numbers = self.numbers;
        let exponents = Exponents { numbers };
        let mut places = Vec::new(alloc);
        for x in 0..self.span() {
            if !exponents.contains(numbers[0] + x) {
                places.push(x)?;
            }
        }
        Ok(places)
    }

    /// The number of equations of the holes in the window, which is the number of holes.
    pub fn count_equations(&self) -> usize
        ensures { result + length self.now.numbers.now ≡ span self.now.numbers.now + 1 }
    {
        self.span() as usize + 1 - self.numbers.len()
    }

    // The origin of the syndrome of the number at place `x`: the exponent with this number, or else a hole.
    fn origin_at(&self, places: &[u32], x: u32) -> Origin
        requires within { x ≤ span self.now.numbers.now }
        requires places { places.now ≡ holes self.now.numbers.now }
        ensures { IsOriginAt self.now.numbers.now x result }
    {
        let numbers = self.numbers;
        match numbers.binary_search(&(numbers[0] + x)) {
            Ok(j) => Origin::Exponent(j),
            Err(_) => Origin::Hole(places.binary_search(&x).unwrap()),
        }
    }

    /// The origins of the syndromes of the window, in order. `places` are those of all holes.
    pub fn origins(&self, alloc: Global, places: &[u32]) -> Result<Vec<Origin>>
        requires { places.now ≡ holes self.now.numbers.now }
        ensures { IfOk result (λ origins. AreOrigins
            self.now.numbers.now (span self.now.numbers.now + 1) origins.items) }
    {
        let mut origins = Vec::with_capacity(alloc, self.numbers.len() + places.len())?;
        for x in 0..=self.span() {
            origins.push(self.origin_at(places, x))?;
        }
        Ok(origins)
    }
}

// The coefficient of `z ^ x` in a polynomial times `z ^ u`. `p` has the polynomial's coefficients from `z ^ 0` on.
fn shifted_at(p: &[u16], u: usize, x: u32) -> u16
    ensures { result ≡ shifted_at p.now u x }
{
    let x = x as usize;
    if x < u {
        return 0;
    }
    p.get(x - u).copied().unwrap_or(0)
}

// The coefficients of a polynomial times `z ^ u` at these places. For the locator and the places of holes, this is row
// `u` of the holes' equations.
fn shifted(alloc: Global, p: &[u16], u: usize, places: &[u32]) -> Result<Vec<u16>>
    ensures { IfOk result (λ row. row.items ≡ shifted p.now u places.now) }
{
    places.iter().map(|x| shifted_at(p, u, *x)).collect(alloc)
}

// The system of the first `count` equations of the holes at these places; None if they are dependent. Row `u` has the
// coefficients of the locator shifted by `u`, and its right-hand side is unit vector `u` of `units` elements. If only
// the rank is needed, `units` is 0.
fn hole_system(
    alloc: Global,
    gf: &Gf,
    locator: &[u16],
    places: &[u32],
    units: usize,
    count: usize,
) -> Result<Option<System>>
    requires { units < 65536 }
    ensures { IfOk result (λ it. IfSome it (AreHoleEquations locator.now places.now units count)) }
{
    let mut system = System::new(alloc, places.len(), 2 * units)?;
    for u in 0..count {
        let row = shifted(alloc, locator, u, places)?;
        match system.offer(gf, &row, unit(alloc, units, u)?)? {
            Offer::Kept => {}
            Offer::Dependent => return Ok(None),
        }
    }
    Ok(Some(system))
}

/// The rows of the inverse of the matrix of the first `count` equations of the holes at these places. None if they are
/// dependent or fewer than the holes. `par2_solve` multiplies syndromes by them.
pub fn hole_inverse(
    alloc: Global,
    gf: &Gf,
    locator: &[u16],
    places: &[u32],
    count: usize,
) -> Result<Option<Vec<Vec<u16>>>>
    requires { count < 65536 }
    ensures { IfOk result (λ found. IfSome found
        (λ rows. AreHoleInverse locator.now places.now count (lists_of rows.items))) }
{
    let Some(system) = hole_system(alloc, gf, locator, places, count, count)? else {
        return Ok(None);
    };
    if system.rank() < places.len() {
        return Ok(None);
    }
    match system.into_solution() {
        Ok(buffers) => Ok(Some(rows_of(alloc, &buffers)?)),
        Err(_) => Ok(None),
    }
}

/// Whether the first exponents, as many as slices are lost, determine these by the equations of the holes between them.
/// If it returns false, they may still do so. For h holes it takes h^3 products of single words, and memory for h^2
/// words.
pub(crate) fn determine(alloc: Global, gf: &Gf, lost: &[u32], exponents: &Exponents) -> Result<bool>
    ensures { IfOk result (λ yes. IsTrue yes → IsRepairable lost.now exponents.now.numbers.now) }
{
    let Some(first) = exponents.first(lost.len()) else {
        return Ok(false);
    };
    if !are_slices(lost) || !first.has_few_holes() {
        return Ok(false);
    }
    let places = first.holes(alloc)?;
    let locator = locator(alloc, gf, lost)?;
    match hole_system(alloc, gf, &locator, &places, 0, first.count_equations())? {
        Some(system) => Ok(system.rank() == places.len()),
        None => Ok(false),
    }
}
