//! The rank of lost slices and exponents against a plain elimination, with and without runs of exponents that determine
//! it.

use crate::gf16::field;
use crate::plain_elimination::{Equation, eliminated};
use crate::plain_field::power;
use par2_gf16::Gf;
use recovery_calls::rank_of;
use std::process::Abort;

// Constants of slices: the first four, as PAR2 2.0 lists them, and one that is 2 to the power of 43,691, so that its
// cube equals the cube of 2.
const CONSTANTS: [(u32, u16); 5] = [(0, 2), (1, 4), (2, 16), (3, 128), (21844, 702)];

// At most four lost slices, and the exponents of the surviving recovery slices.
type Row = (&'static [u32], &'static [u32]);

const ROWS: &[Row] = &[
    // no slice is lost, or no recovery slice survives
    (&[], &[]),
    (&[], &[3, 5]),
    (&[0, 1], &[]),
    // close together, also far from exponent 0
    (&[0, 1, 2, 3], &[5, 7, 8]),
    (&[0, 3], &[65533, 65534]),
    (&[1, 2, 3], &[65533, 65535]),
    // a run as long as the number of lost slices, before a gap and after one
    (&[0, 2, 3], &[1, 2, 3, 40]),
    (&[0, 2, 3], &[1, 9, 10, 11]),
    (&[2], &[7, 21]),
    // more exponents than lost slices
    (&[0, 1], &[0, 1, 2, 3, 4, 5, 6]),
    (&[0, 1, 2], &[0, 2, 3, 5, 7, 9]),
    // holes between the first ones, with enough equations
    (&[0, 1, 2, 3], &[0, 1, 3, 4]),
    (&[0, 1, 2, 3], &[65530, 65532, 65534, 65535]),
    (&[1, 2, 3], &[0, 2, 3, 4]),
    (&[0, 1, 21844], &[0, 1, 3]),
    // holes whose equations are singular, also if an exponent after them determines the slices
    (&[0, 21844], &[0, 3]),
    (&[0, 21844], &[1, 4, 7]),
    (&[0, 21844], &[0, 3, 6, 7]),
    // every second exponent, and pairs with gaps
    (&[0, 1, 2, 3], &[0, 2, 4, 6, 8]),
    (&[0, 1, 2, 3], &[0, 2, 4]),
    (&[0, 1, 2, 3], &[0, 1, 40, 41, 80, 81]),
    (&[0, 1, 2, 3], &[0, 1, 40]),
    // a run that is one too short, and an exponent that adds nothing
    (&[0, 1, 2, 3], &[0, 1, 2, 65535]),
    (&[0, 1], &[0, 65535]),
    // the constants 2 and 16 have equal powers of 21,845
    (&[0, 2], &[0, 21845]),
    (&[0, 2], &[0, 21845, 43690]),
    (&[0, 2], &[0, 21845, 21846]),
    (&[0, 1, 2, 3], &[0, 1, 21845, 21846, 43690, 43691]),
    // lost slices that aren't in order, and a slice that is listed twice
    (&[3, 0, 1], &[4, 5, 6]),
    (&[2, 2], &[0, 1]),
];

// The constant of a slice, or 0 if it isn't listed above.
fn constant_of(slice: u32) -> u16 {
    let found = CONSTANTS.iter().find(|(k, _)| *k == slice);
    found.map_or(0, |(_, constant)| *constant)
}

// The factor of each lost slice in the equation of an exponent.
fn equation(lost: &[u32], exponent: u32) -> Equation {
    let mut equation = [0; 6];
    for (factor, k) in equation.iter_mut().zip(lost.iter()) {
        *factor = power(constant_of(*k), exponent);
    }
    equation
}

fn plain_rank(rt: &(impl Abort + AllocGlobal), row: &Row) -> usize {
    let mut equations = Vec::new(rt.alloc());
    for exponent in row.1 {
        equations
            .push(equation(row.0, *exponent))
            .expect(rt, "memory");
    }
    eliminated(rt, equations, 4).len()
}

fn found_rank(rt: &(impl Abort + AllocGlobal), gf: &Gf, row: &Row) -> usize {
    let rank = rank_of(rt.alloc(), gf, row.0, row.1).expect(
        rt,
        "numbers of slices and rising exponents",
    );
    rank.expect(rt, "memory")
}

#[test]
fn ranks_are_those_of_a_plain_elimination(rt: HostRuntime) {
    let gf = field(&rt);
    for (k, row) in ROWS.iter().enumerate() {
        assert!(rt;
            found_rank(&rt, &gf, row) == plain_rank(&rt, row),
            "row {k}"
        );
    }
}
