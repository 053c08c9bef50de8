//! The inverse for exponents with holes between them. The equations of the holes (`par2_matrix`) relate the syndromes of a
//! window, too. With the syndromes of the kept exponents on the right-hand side, each multiplied by the coefficient of the
//! shifted locator at its exponent, they are a square system for the syndromes of the holes. The window then begins with a
//! run as long as slices are lost, and its locator gives the lost slices. The right-hand sides are numerators (see
//! `par2_transform`). So for L lost slices and g holes this takes about g x g x g products of words, and g x g products of
//! syndromes beside those of numerators and locator.

ghost use Rattle.std.specs.Prelude.{◌≡◌, ℕ, List, IfOk, IfSome, length, map, take};
ghost use Rattle.par2_spec.specs.Prelude.{lists_of};
ghost use Rattle.par2_solve.specs.BufferContents.{AreSolvedBy, AreSums, InvertsFirst, IsInverseOf, byte_lists, falling, from_origin, known_window, right_side};
ghost use Rattle.par2_transform.specs.Chirps.{words_at};

use crate::inverse::{Inverse, LOCATED, inverse_for_run, located_products, run_locator};
use crate::products::{Size, blank, borrowed, buffers_fit, fit_lists, products_of, source_at};
use par2_gf16::Gf;
use par2_matrix::{Exponents, Lost, Origin, buffer_at, hole_inverse, locator};
use par2_spec::Result;
use par2_transform::{Locator, Numerators};
use std::alloc::Global;

/// The inverse for exponents with holes between them, as factors that are applied one after the other.
#[derive(Drop)]
pub(crate) struct Filling {
    /// The right-hand sides of the holes' equations, as sums of the window's syndromes, the last number first. The
    /// sequence has the locator's coefficients, the highest first.
    pub(crate) equations: Numerators,
    /// The inverse of the matrix of the holes' coefficients in these equations.
    pub(crate) holes: Vec<Vec<u16>>,
    /// The origins of the syndromes of the window, in order.
    pub(crate) origins: Vec<Origin>,
    /// The locator of the lost slices for the run.
    pub(crate) locator: Locator,
}

// The coefficients of a polynomial below `z ^ count`, the highest first, as `Filling::equations` takes them.
fn falling(alloc: Global, p: &[u16], count: usize) -> Result<Vec<u16>>
    ensures { IfOk result (λ coefficients. coefficients.items ≡ falling p.now count) }
{
    let rising = (0..count).map(|i| p.get(i).copied().unwrap_or(0));
    let mut coefficients: Vec<u16> = rising.collect(alloc)?;
    coefficients.reverse();
    Ok(coefficients)
}

/// The inverse for the first exponents, as many as slices are lost, if they are a run or have few holes whose equations are
/// independent. None otherwise, and where there are holes and fewer slices are lost than `LOCATED`: then elimination takes
/// less time than the products of slices that holes need.
pub(crate) fn inverse_at_front(
    alloc: Global,
    gf: &Gf,
    lost: &Lost,
    exponents: &Exponents,
) -> Result<Option<Inverse>>
    ensures { IfOk result (λ found.
        IfSome found (InvertsFirst lost.now.numbers.now exponents.now.numbers.now)) }
{
    let Some(first) = exponents.first(lost.numbers.len()) else {
        return Ok(None);
    };
    let start = first.numbers[0];
    if (first.span() as usize) < first.numbers.len() {
        return Ok(Some(inverse_for_run(alloc, gf, lost, start)?));
    }
    let count = first.count_equations();
    let window = first.numbers.len() + count;
    // The transform has 2 ^ 16 points, for the window and as many sums as there are holes.
    if first.numbers.len() < LOCATED || !first.has_few_holes() || window + count > 65536 {
        return Ok(None);
    }
    let places = first.holes(alloc)?;
    let p = locator(alloc, gf, lost.numbers)?;
    let Some(inverse) = hole_inverse(alloc, gf, &p, &places, count)? else {
        return Ok(None);
    };
    let filling = Filling {
        equations: Numerators::new(alloc, gf, falling(alloc, &p, window)?, count)?,
        holes: inverse,
        origins: first.origins(alloc, &places)?,
        locator: run_locator(alloc, gf, lost, start)?,
    };
    Ok(Some(Inverse::Filled(filling)))
}

// The bytes of the syndrome with this origin, none if there is no such syndrome. `sources` are the syndromes of the
// exponents, `holes` those of the holes.
fn source_of<'a, 'b: 'a>(origin: Origin, sources: &[&'b [u8]], holes: &'a [Vec<u8>]) -> &'a [u8]
    ensures { result.now ≡ from_origin (byte_lists sources.now) (lists_of holes.now) origin }
{
    match origin {
        Origin::Exponent(j) if j < sources.len() => source_at(sources, j),
        Origin::Hole(q) if q < holes.len() => buffer_at(holes, q),
        _ => &[],
    }
}

impl Filling {
    // The syndromes of the window, the last number first. Those of the holes are empty.
    fn window<'b>(&self, alloc: Global, sources: &[&'b [u8]]) -> Result<Vec<&'b [u8]>>
        ensures { IfOk result (λ window. byte_lists window.items
            ≡ known_window self.now.origins.items (byte_lists sources.now)) }
    {
        let last_first = self.origins.iter().rev();
        let window = last_first.map(|origin| source_of(*origin, sources, &[]));
        window.collect(alloc)
    }

    // The right-hand sides of the holes' equations, of `size` bytes each. `sources` are the syndromes of the exponents.
    fn right_sides(
        &self,
        alloc: Global,
        sources: &[&[u8]],
        size: Size,
        room: usize,
    ) -> Result<Vec<Vec<u8>>>
        requires { length self.now.origins.items ≡ length self.now.equations.sequence.items }
        ensures { IfOk result (λ sums. AreSums size.bytes self.now.equations.count
            (right_side self.now (byte_lists sources.now)) (lists_of sums.items)) }
    {
        let window = self.window(alloc, sources)?;
        let mut sums = blank(alloc, self.equations.count, size.bytes)?;
        self.equations
            .add_sums(alloc, &window, size.bytes / 2, sums.as_mut_slice(), room)?;
        Ok(sums)
    }

    // The syndromes of the run, in order: each is that of an exponent (`sources`) or of a hole, as its origin says.
    fn run<'b, 'c: 'b>(
        &self,
        alloc: Global,
        sources: &[&'c [u8]],
        holes: &'b [Vec<u8>],
    ) -> Result<Vec<&'b [u8]>>
        ensures { IfOk result (λ run. byte_lists run.items ≡ map
            (from_origin (byte_lists sources.now) (lists_of holes.now))
            (take (length sources.now) self.now.origins.items)) }
    {
        let run = self.origins.iter().take(sources.len());
        run.map(|origin| source_of(*origin, sources, holes))
            .collect(alloc)
    }

    /// The product of the inverse and the syndromes of the kept exponents (`sources`), of `size` bytes each: for each
    /// lost slice a buffer. The inverse of the equations' matrix times their right-hand sides gives the holes'
    /// syndromes, and the locator solves the run. `room` is memory in bytes.
    pub(crate) fn products(
        &self,
        alloc: Global,
        sources: &[&[u8]],
        size: Size,
        room: usize,
    ) -> Result<Vec<Vec<u8>>>
        requires { IsInverseOf (length sources.now) (Inverse.Filled self.now) }
        ensures { IfOk result (λ sums. (exponents : List ℕ) → AreSolvedBy (Inverse.Filled self.now)
            size.bytes exponents (words_at (byte_lists sources.now)) (lists_of sums.items)) }
    {
        let right = self.right_sides(alloc, sources, size, room)?;
        let holes = products_of(alloc, &self.holes, &borrowed(alloc, &right)?, size)?;
        let run = self.run(alloc, sources, &holes)?;
        let sums = located_products(alloc, &self.locator, &run, size, room)?;
        buffers_fit(sources);
        buffers_fit(&run);
        fit_lists(&right);
        fit_lists(&holes);
        fit_lists(&sums);
        Ok(sums)
    }
}
