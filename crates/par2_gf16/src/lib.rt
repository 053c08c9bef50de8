//! Arithmetic in the field of 65,536 elements (Parity Volume Set Specification 2.0, "The Galois field"). An element is
//! a polynomial over bits: bit i is the coefficient of `x ^ i`. The sum of two elements is their exclusive or.
//!
//! All crates that compute recovery slices or lost slices use it. It knows elements, the constants of input slices, and
//! buffers of words, but no packets or files.
#![tactic(auto)]

mod factor;
mod lanes;
mod tables;
mod vectors;

pub use factor::Factor;
pub use tables::Gf;
pub use vectors::{WordVector, vectors_of};
