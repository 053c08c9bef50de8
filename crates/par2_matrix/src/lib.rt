//! Linear equations over the field of 65,536 elements. `System` solves them by Gauss-Jordan elimination, one equation at a
//! time, with buffers as unknowns and right-hand sides. The other modules have the equations that surviving exponents give
//! for lost slices: their rank, the holes between exponents, and the error locator.
//!
//! `par2_solve` and `par2_verify` use it, and it uses `par2_gf16`. It knows the numbers of slices and exponents, but no
//! bytes of slices, files or volumes.
#![tactic(auto)]

mod elimination;
mod exponents;
mod holes;
mod locators;
mod system;

pub use elimination::{buffer_at, bytes_of_row, element, fit_bytes, put_element, rows_of};
pub use exponents::{
    Exponents, Front, Lost, coefficients, eliminate, rank, rank_by_equations, rank_by_runs,
};
pub use holes::{Origin, hole_inverse};
pub use locators::{Factored, locator, scaled_quotient, with_factors};
pub use system::{Offer, System};
