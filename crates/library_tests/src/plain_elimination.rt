//! Gauss-Jordan elimination over words, which shares no code with what it is compared with.

ghost use Rattle.std.specs.Prelude.{◌≡◌, ◌<◌, ◌≤◌};

use crate::plain_field::{power, product};
use std::process::Abort;

/// An equation's factors of four slices, and the two words of its right side.
pub(super) type Equation = [u16; 6];

fn scaled<const N: usize>(equation: &[u16; N], factor: u16) -> [u16; N] {
    let mut scaled = *equation;
    for number in scaled.iter_mut() {
        *number = product(*number, factor);
    }
    scaled
}

fn sum<const N: usize>(a: &[u16; N], b: &[u16; N]) -> [u16; N] {
    let mut sum = *a;
    for (number, other) in sum.iter_mut().zip(b.iter()) {
        *number ^= *other;
    }
    sum
}

// Removes an equation with a nonzero entry in this column, scaled to have 1 there.
fn take_pivot<const N: usize>(equations: &mut Vec<[u16; N]>, column: usize) -> Option<[u16; N]>
    requires { column < N }
{
    let at = equations.iter().position(|equation| equation[column] != 0)?;
    let equation = equations.swap_remove(at);
    Some(scaled(&equation, power(equation[column], 65534)))
}

// Makes this column 0 by subtracting multiples of an equation with 1 there.
fn clear<const N: usize>(equations: &mut [[u16; N]], pivot: &[u16; N], column: usize)
    requires { column < N }
{
    for equation in equations.iter_mut() {
        let multiple = scaled(pivot, equation[column]);
        *equation = sum(equation, &multiple);
    }
}

/// The independent equations among these, in reduced row echelon form. If there are as many as slices, equation `k`
/// gives slice `k`.
pub(super) fn eliminated<const N: usize>(
    rt: &(impl Abort + AllocGlobal),
    equations: Vec<[u16; N]>,
    slices: usize,
) -> Vec<[u16; N]>
    requires { slices ≤ N }
{
    let mut rest = equations;
    let mut reduced = Vec::new(rt.alloc());
    for column in 0..slices {
        if let Some(pivot) = take_pivot(&mut rest, column) {
            clear(rest.as_mut_slice(), &pivot, column);
            clear(reduced.as_mut_slice(), &pivot, column);
            reduced.push(pivot).expect(rt, "memory");
        }
    }
    reduced
}
