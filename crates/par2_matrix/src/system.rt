//! A system of equations: `offer` keeps those whose rows are independent, in reduced row echelon form, so that at full
//! rank the right-hand sides are the solution (`into_solution`).
ghost use Rattle.std.specs.Prelude.{◌≡◌, ◌≢◌, ◌%◌, ◌<◌, ◌≤◌, ◌↔◌, length, IsOk, IfOk, IfErr, Ok};
ghost use Rattle.par2_matrix.specs.Systems.{Equations, lists_of, rank, no_equations, CutDown, IsIndependent, IsDependent, IsUndetermined, OnlyZeroIsKilled, IsTheSolution};

use crate::elimination::{bytes_of_row, empty_lists, prepare, put_in};
use par2_gf16::Gf;
use par2_spec::Result;
use std::alloc::Global;
use std::marker::Model;

/// What became of an offered equation.
#[derive(Clone, Copy, Debug, PartialEq, Eq, Drop)]
pub enum Offer {
    /// It was kept: its row is linearly independent of the rows kept before.
    Kept,
    /// It was dropped: its row is a linear combination of the rows kept before. Whether its right-hand side is the same
    /// combination is not checked.
    Dependent,
}

/// Linear equations over the field, whose unknowns are buffers of the same even number of bytes. The words at each
/// position are a system of their own, with the same coefficients.
#[derive(Drop)]
pub struct System {
    bytes: usize,
    rank: usize,
    // In reduced row echelon form: for each unknown the equation that has its pivot there, or two empty lists. The
    // right-hand sides are lists of their own, because at full rank they are the solution.
    rows: Vec<Vec<u8>>,
    right_sides: Vec<Vec<u8>>,
}

impl Model for System {
    ghost use Rattle.par2_matrix.specs.Systems.{Equations};
    ghost use Rattle.par2_matrix.specs.Echelon.{IsReduced, echelon_of, system_of};

    ghost Value = { Equations };

    ghost view = { λ a. system_of (echelon_of a.bytes a.rank a.rows.items a.right_sides.items) };

    ghost invariant = { λ a.
        IsReduced (echelon_of a.bytes a.rank a.rows.items a.right_sides.items) };
}

impl System {
    /// A system without equations, for `columns` unknown buffers of `bytes` bytes each.
    pub fn new(alloc: Global, columns: usize, bytes: usize) -> Result<System>
        requires even { bytes % 2 ≡ 0 }
        ensures { IfOk result (λ system. system ≡ no_equations columns bytes) }
    {
        Ok(System {
            bytes,
            rank: 0,
            rows: empty_lists(alloc, columns)?,
            right_sides: empty_lists(alloc, columns)?,
        })
    }

    /// Takes the equation that the unknown buffers, combined by the elements of `row`, are `right`. It is kept if its
    /// row is linearly independent of the rows kept before. After an error the system is unchanged, and `right` is
    /// dropped.
    ///
    /// Fails only when memory runs out. It allocates a copy of the row, and stores `right` as it is.
    pub fn offer(&mut self, gf: &Gf, row: &[u16], right: Vec<u8>) -> Result<Offer>
        // The row has a coefficient for each unknown, and the right-hand side is as long as they are.
        requires row { length row.now ≡ self.old.columns }
        requires right { length right.items ≡ self.old.bytes }
        // An equation is kept only if its row is independent. It then cuts the solutions down by exactly this equation.
        ensures kept { result ≡ Ok Offer.Kept → CutDown self.old self.new row.now right.items }
        ensures independent { result ≡ Ok Offer.Kept → IsIndependent self.old row.now }
        // A dependent row kills the whole null space.
        ensures dependent { result ≡ Ok Offer.Dependent → IsDependent self.old row.now }
        // The shape never changes, and nothing else does unless the equation is kept.
        ensures columns { self.new.columns ≡ self.old.columns }
        ensures bytes { self.new.bytes ≡ self.old.bytes }
        ensures unchanged { result ≢ Ok Offer.Kept → self.new ≡ self.old }
    {
        let mut row = bytes_of_row(*self.rows.allocator(), row)?;
        let mut right = right;
        let Some(pivot) = prepare(gf, &self.rows, &self.right_sides, &mut row, &mut right) else {
            return Ok(Offer::Dependent);
        };
        put_in(gf, &mut self.rows, &mut self.right_sides, pivot, row, right);
        self.rank += 1;
        Ok(Offer::Kept)
    }

    /// The number of equations that were kept.
    pub fn rank(&self) -> usize
        ensures value { result ≡ rank self.now }
        ensures most { result ≤ self.now.columns }
        ensures full { (result ≡ self.now.columns) ↔ OnlyZeroIsKilled self.now }
        ensures below { result < self.now.columns → IsUndetermined self.now }
    {
        self.rank
    }

    /// The unknown buffers if the equations determine them, and otherwise the system. With unit vectors as right-hand sides,
    /// as in `par2_solve`, they are the rows of an inverse.
    pub fn into_solution(self) -> Result<Vec<Vec<u8>>, System>
        ensures when { IsOk result ↔ (rank self ≡ self.columns) }
        ensures ok { IfOk result (λ buffers. IsTheSolution self (lists_of buffers.items)) }
        ensures err { IfErr result (λ system. system ≡ self) }
    {
        if self.rank < self.rows.len() {
            return Err(self);
        }
        let System { right_sides, .. } = self;
        Ok(right_sides)
    }
}
