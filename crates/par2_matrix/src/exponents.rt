//! Whether the surviving recovery slices determine the lost slices: the rank of their equations. `rank` compares the
//! exponents first (`rank_by_runs`), which takes no memory, then tries the equations of the holes between them
//! (`determine`), and last the elimination of all equations (`eliminate`).

ghost use Rattle.std.specs.Prelude.{◌≡◌, ◌==◌, ◌↔◌, ◌*◌, ◌<◌, ◌≤◌, ◌⊎◌, ℕ, length, slice_index, take, IfOk, IfSome, IsNone, IsTrue};
ghost use Rattle.std.specs.List.{list_any};
ghost use Rattle.std.specs.List.Sorted.{IsStrictlyIncreasing};
ghost use Rattle.par2_spec.specs.Prelude.{coefficient, coefficients, rank, IsRepairable, AreClose, AreSlices, HasRun};
ghost use Rattle.par2_matrix.specs.LostSlices.{IsEliminated, span};

use crate::elimination::unit;
use crate::holes::determine;
use crate::system::{Offer, System};
use par2_gf16::Gf;
use par2_spec::Result;
use std::alloc::Global;

/// The numbers of the lost slices, in increasing order. They are numbers of a PAR2 set, so each has a constant.
#[derive(Clone, Copy)]
pub struct Lost<'a> {
    pub numbers: &'a [u32],
    ghost count: { length numbers.now ≤ 32768 },
    ghost below: { (i : ℕ) → slice_index numbers.now i < 32768 },
    ghost rise: { IsStrictlyIncreasing numbers.now },
}

/// Exponents in increasing order.
#[derive(Clone, Copy)]
pub struct Exponents<'a> {
    pub numbers: &'a [u32],
    ghost rise: { IsStrictlyIncreasing numbers.now },
}

/// The first exponents, as many as slices are lost, at least one.
#[derive(Clone, Copy)]
pub struct Front<'a> {
    pub numbers: &'a [u32],
    ghost some: { 0 < length numbers.now },
    ghost rise: { IsStrictlyIncreasing numbers.now },
}

// The coefficient of input slice `k` in the recovery slice of exponent `e`: the slice's constant to the power `e`. A
// number past the last slice counts as one with the constant 1.
#[tactic(auto, unfolding(par2_spec::specs::Field::coefficient), using(crate::proofs::Combinations::constant_past))]
fn coefficient(gf: &Gf, k: u32, e: u32) -> u16
    ensures { result ≡ coefficient e k }
{
    gf.pow(gf.constant(k).unwrap_or(1), e)
}

/// The coefficient of each of the input slices `numbers` in the recovery slice of exponent `e`. For the lost slices
/// this is the left-hand side of the exponent's equation.
pub fn coefficients(alloc: Global, gf: &Gf, numbers: &[u32], e: u32) -> Result<Vec<u16>>
    ensures { IfOk result (λ row. row.items ≡ coefficients numbers.now e) }
{
    let row = numbers.iter().map(|k| coefficient(gf, *k, e));
    row.collect(alloc)
}

/// Whether these are increasing numbers of input slices, as those of `Lost` are.
pub(crate) fn are_slices(numbers: &[u32]) -> bool
    ensures { IsTrue result → AreSlices numbers.now }
{
    numbers.windows(2).all(|pair| pair[0] < pair[1]) && numbers.iter().all(|k| *k < 32768)
}

impl<'a> Exponents<'a> {
    // Whether any two of the exponents differ by less than `count`. It is enough to compare the first and the last.
    fn are_close(&self, count: usize) -> bool
        ensures { IsTrue result ↔ AreClose count self.now.numbers.now }
    {
        if self.numbers.is_empty() {
            return true;
        }
        let span = self.numbers[self.numbers.len() - 1] - self.numbers[0];
        (span as usize) < count
    }

    // Whether `count` of the exponents are consecutive: they are if they lie within `count` numbers.
    fn has_run(&self, count: usize) -> bool
        ensures { IsTrue result ↔ (first : ℕ) × HasRun first count self.now.numbers.now }
    {
        for end in count..=self.numbers.len() {
            let numbers = &self.numbers[end - count..end];
            let part = Exponents { numbers };
            if part.are_close(count) {
                return true;
            }
        }
        false
    }

    /// Whether `e` is one of the exponents.
    pub fn contains(&self, e: u32) -> bool
        ensures { result ≡ list_any (λ x. e == x) self.now.numbers.now }
    {
        self.numbers.binary_search(&e).is_ok()
    }

    /// The first `count` exponents, at least one, if there are that many.
    pub fn first(&self, count: usize) -> Option<Front<'a>>
        ensures first { IfSome result (λ it. it.numbers.now ≡ take count self.now.numbers.now) }
        ensures count { IfSome result (λ it. length it.numbers.now ≡ count) }
        ensures none { IsNone result → (count ≡ 0) ⊎ (length self.now.numbers.now < count) }
    {
        if count == 0 || self.numbers.len() < count {
            return None;
        }
        let numbers = &self.numbers[..count];
        Some(Front { numbers })
    }
}

impl<'a> Front<'a> {
    /// The difference between the last exponent and the first.
    pub fn span(&self) -> u32
        ensures { result ≡ span self.now.numbers.now }
    {
        self.numbers[self.numbers.len() - 1] - self.numbers[0]
    }

    /// Whether there are at most as many holes between the exponents as exponents. With more, the holes' equations would
    /// outnumber those of the exponents, and elimination would be as fast.
    pub fn has_few_holes(&self) -> bool
        ensures { IsTrue result → span self.now.numbers.now < 2 * length self.now.numbers.now }
    {
        (self.span() as usize) < 2 * self.numbers.len()
    }
}

/// The rank, if the exponents alone determine it: either any two of them differ by less than the number of lost slices,
/// or a run of consecutive ones is as long as that. None otherwise, and if `lost` aren't increasing numbers of slices.
/// It takes no memory and passes over the exponents once.
pub fn rank_by_runs(lost: &[u32], exponents: &[u32]) -> Option<usize>
    requires { IsStrictlyIncreasing exponents.now }
    ensures { IfSome result (λ n. n ≡ rank lost.now exponents.now) }
{
    if !are_slices(lost) {
        return None;
    }
    let exponents = Exponents { numbers: exponents };
    if exponents.are_close(lost.len()) {
        return Some(exponents.numbers.len());
    }
    if exponents.has_run(lost.len()) {
        return Some(lost.len());
    }
    None
}

/// Offers the equations of the exponents for the `lost` slices in order. Returns the exponents whose equations are kept,
/// and the system of these equations. A right-hand side is the unit vector, of `units` elements, of the equation's number
/// among the kept ones, so that the solution of the system is the inverse. At full rank no row is computed.
pub fn eliminate(
    alloc: Global,
    gf: &Gf,
    lost: &[u32],
    exponents: &Exponents,
    units: usize,
) -> Result<(Vec<u32>, System)>
    requires { units < 65536 }
    ensures { IfOk result (λ found.
        IsEliminated lost.now units exponents.now.numbers.now found.0.items found.1) }
{
    let mut system = System::new(alloc, lost.len(), 2 * units)?;
    let mut kept = Vec::new(alloc);
    for i in 0..exponents.numbers.len() {
        let e = exponents.numbers[i];
        if system.rank() == lost.len() {
            continue;
        }
        let row = coefficients(alloc, gf, lost, e)?;
        let right = unit(alloc, units, system.rank())?;
        match system.offer(gf, &row, right)? {
            Offer::Kept => kept.push(e)?,
            Offer::Dependent => {}
        }
    }
    Ok((kept, system))
}

/// The rank by equations: those of the holes between the first exponents if these settle it, otherwise those of all
/// exponents. A caller that has the field's tables calls `rank`, which asks `rank_by_runs` first.
pub fn rank_by_equations(alloc: Global, gf: &Gf, lost: &[u32], exponents: &[u32]) -> Result<usize>
    requires { IsStrictlyIncreasing exponents.now }
    ensures { IfOk result (λ n. n ≡ rank lost.now exponents.now) }
{
    let rising = Exponents { numbers: exponents };
    if determine(alloc, gf, lost, &rising)? {
        return Ok(lost.len());
    }
    Ok(eliminate(alloc, gf, lost, &rising, 0)?.1.rank())
}

/// The rank of the exponents' equations for these lost slices, which is how many exponents are kept. It equals the
/// number of lost slices exactly if the recovery slices of these exponents determine them.
pub fn rank(alloc: Global, gf: &Gf, lost: &[u32], exponents: &[u32]) -> Result<usize>
    requires { IsStrictlyIncreasing exponents.now }
    ensures rank { IfOk result (λ n. n ≡ rank lost.now exponents.now) }
    ensures most { IfOk result (λ n. n ≤ length lost.now) }
    ensures full { IfOk result (λ n. (n ≡ length lost.now) ↔ IsRepairable lost.now exponents.now) }
{
    match rank_by_runs(lost, exponents) {
        Some(rank) => Ok(rank),
        None => rank_by_equations(alloc, gf, lost, exponents),
    }
}
