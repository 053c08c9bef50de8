//! Recovery slices of many exponents, in about n log n products of slices instead of one product for each slice and
//! exponent; and the last step of a repair, by the error locator. Both use an additive FFT and its transpose on
//! subspaces of the field (Cantor 1989; Gao and Mateer 2010).
//!
//! `par2_create` and `par2_solve` use it, and it uses `par2_gf16`. It knows buffers of words, exponents and points,
//! but no files, packets or checksums. The theorems that it rests on are contracts of functions with empty bodies, as
//! `subspaces_vanish`.
#![tactic(auto, using(crate::proofs::LocatorLaws::locating))]

mod exponents;
mod fourier;
mod locator;
mod outputs;
mod recovery;
mod rows;
mod windows;

pub use locator::{Locator, Numerators};
pub use outputs::{Columns, Place, Places};
pub use recovery::{
    Transform, products_by_chirps, subspaces_vanish, sums_by_windows, whole_buffers,
};
