//! Lost slices of sets of many sizes, rebuilt by runs of exponents with holes between them. Rebuilt slices are as they
//! were, and the number of kept exponents is that of a plain elimination, or follows from the constants.

ghost use Rattle.std.specs.Prelude.{◌≡◌, ◌<◌, ◌≤◌};

use crate::calls::are_buffers;
use crate::gf16::field;
use crate::plain_elimination::eliminated;
use crate::plain_field::power;
use crate::transform::next_number;
use par2_folder::Folder;
use par2_gf16::Gf;
use par2_recovery::{RebuildFault, SetRecord, Survivors};
use recovery_calls::{folder_of, rebuilt, recovery_slices_of, set_of};
use std::process::Abort;

// A run of consecutive exponents: the first one, and their number.
type Run = (u32, u32);

// The slices of a set, one after the other, of `size` bytes each, which of them are lost, and the recovery slices of
// runs, each run with its first exponent.
#[derive(Drop)]
struct Scene {
    size: usize,
    bytes: Vec<u8>,
    are_lost: Vec<bool>,
    recovered: Vec<(u32, Vec<Vec<u8>>)>,
}

fn random_bytes(rt: &(impl Abort + AllocGlobal), count: usize) -> Vec<u8> {
    let mut bytes = vec![in rt.alloc(); 0u8; count].expect(rt, "memory");
    let mut number = 66;
    for byte in bytes.iter_mut() {
        number = next_number(number);
        *byte = number.to_be_bytes()[0];
    }
    bytes
}

// The file's record, with slices of `size` bytes.
fn record_of(rt: &(impl Abort + AllocGlobal), folder: &Folder, size: usize) -> SetRecord {
    let record = set_of(rt.alloc(), folder, &["a"], size as u64).expect(rt, "memory");
    let record = record.expect(rt, "a name and a size");
    record.expect(rt, "a record")
}

// The recovery slices of these runs over a file.
fn recovered_by(
    rt: &(impl Abort + AllocGlobal),
    gf: &Gf,
    bytes: &[u8],
    size: usize,
    runs: &[Run],
) -> Vec<(u32, Vec<Vec<u8>>)> {
    let folder = folder_of(rt.alloc(), &[("a", bytes)]).expect(rt, "memory");
    let record = record_of(rt, &folder, size);
    let mut recovered = Vec::new(rt.alloc());
    for (first, count) in runs {
        let slices = recovery_slices_of(rt.alloc(), gf, &record, &folder, *first, *count);
        let slices = slices.expect(rt, "memory").expect(rt, "recovery slices");
        recovered.push((*first, slices)).expect(rt, "memory");
    }
    recovered
}

fn scene_of(
    rt: &(impl Abort + AllocGlobal),
    gf: &Gf,
    size: usize,
    are_lost: Vec<bool>,
    runs: &[Run],
) -> Scene {
    let bytes = random_bytes(rt, are_lost.len().saturating_mul(size));
    let recovered = recovered_by(rt, gf, &bytes, size, runs);
    Scene {
        size,
        bytes,
        are_lost,
        recovered,
    }
}

// The slices, with None for each lost one.
fn known_of<'a>(rt: &(impl Abort + AllocGlobal), scene: &'a Scene) -> Vec<Option<&'a [u8]>> {
    let mut known = Vec::new(rt.alloc());
    let slices = scene.bytes.chunks(scene.size.max(1));
    for (slice, is_lost) in slices.zip(scene.are_lost.iter()) {
        known
            .push((!*is_lost).then_some(slice))
            .expect(rt, "memory");
    }
    known
}

// The lost slices as they were.
fn lost_of<'a>(rt: &(impl Abort + AllocGlobal), scene: &'a Scene) -> Vec<&'a [u8]> {
    let mut lost: Vec<&[u8]> = Vec::new(rt.alloc());
    let slices = scene.bytes.chunks(scene.size.max(1));
    for (slice, is_lost) in slices.zip(scene.are_lost.iter()) {
        if *is_lost {
            lost.push(slice).expect(rt, "memory");
        }
    }
    lost
}

fn add_run<'a>(
    rt: &(impl Abort + AllocGlobal),
    recovery: &mut Vec<(u32, &'a [u8])>,
    first: u32,
    slices: &'a [Vec<u8>],
) {
    for (exponent, slice) in (first..u32::MAX).zip(slices.iter()) {
        recovery
            .push((exponent, slice.as_slice()))
            .expect(rt, "memory");
    }
}

fn recovery_of<'a>(rt: &(impl Abort + AllocGlobal), scene: &'a Scene) -> Vec<(u32, &'a [u8])> {
    let mut recovery = Vec::new(rt.alloc());
    for run in &scene.recovered {
        add_run(rt, &mut recovery, run.0, &run.1);
    }
    recovery
}

fn answer(
    rt: &(impl Abort + AllocGlobal),
    gf: &Gf,
    scene: &Scene,
) -> Result<Vec<Vec<u8>>, RebuildFault> {
    let survivors = Survivors {
        slice: scene.size,
        known: known_of(rt, scene),
        recovery: recovery_of(rt, scene),
    };
    rebuilt(rt.alloc(), gf, &survivors).expect(rt, "fitting survivors")
}

// The number of kept exponents, or the number of lost slices if they are rebuilt. None if the rebuilt slices are
// wrong.
fn kept(rt: &(impl Abort + AllocGlobal), gf: &Gf, scene: &Scene) -> Option<usize> {
    let lost = lost_of(rt, scene);
    match answer(rt, gf, scene) {
        Ok(buffers) => are_buffers(&buffers, &lost).then_some(lost.len()),
        Err(RebuildFault::NotRepairable { missing, rank }) => {
            (missing == lost.len() && rank < missing).then_some(rank)
        }
        Err(RebuildFault::Memory) => None,
    }
}

// The number of slices and their size; the first lost slice, the step to the next, and how many there are; the runs,
// and the number of kept exponents.
type Row = (usize, usize, (usize, usize, usize), &'static [Run], usize);

const RUNS: &[Row] = &[
    // around the number of lost slices from which on no inverse is made
    (2304, 4, (1, 3, 767), &[(3, 767)], 767),
    (2304, 4, (0, 3, 768), &[(3, 800)], 768),
    (1600, 4, (1, 2, 800), &[(7, 799)], 799),
    // all slices of a set, with a power of 2 for their number, up to the last exponent
    (1024, 4, (0, 1, 1024), &[(64512, 1024)], 1024),
    (3000, 2, (0, 1, 3000), &[(0, 3000)], 3000),
];

const HOLES: &[Row] = &[
    // a volume in the middle is gone
    (600, 6, (2, 2, 200), &[(0, 63), (127, 200)], 200),
    (1600, 4, (1, 2, 800), &[(0, 127), (255, 700)], 800),
    (1536, 4, (1, 2, 768), &[(64636, 64), (64800, 704)], 768),
    // single recovery slices are gone, the last but one, too
    (1536, 4, (1, 2, 768), &[(7, 1), (9, 291), (301, 476)], 768),
    (1536, 4, (1, 2, 768), &[(0, 767), (768, 1)], 768),
];

const SINGULAR_HOLES: &[Row] = &[
    // The polynomial of these lost slices has zero coefficients at 121 and at 234, so a hole there leaves one equation
    // too few.
    (300, 4, (2, 1, 200), &[(5, 121), (127, 79)], 199),
    (300, 4, (2, 1, 200), &[(5, 121), (127, 80)], 200),
    (1800, 4, (175, 2, 800), &[(0, 234), (235, 567)], 800),
    // The power of 21,845 takes two values: that of 2 for 72 of these slices, and that of 4 for the others.
    (700, 4, (0, 5, 120), &[(0, 60), (21845, 60)], 108),
    (700, 4, (0, 5, 120), &[(0, 60), (21845, 72)], 120),
];

// Flags of slices: from `first` on, every `step`-th one, `count` in all.
fn lost_flags(
    rt: &(impl Abort + AllocGlobal),
    slices: usize,
    first: usize,
    step: usize,
    count: usize,
) -> Vec<bool> {
    let mut lost_flags = vec![in rt.alloc(); false; slices].expect(rt, "memory");
    for mark in lost_flags
        .iter_mut()
        .skip(first)
        .step_by(step.max(1))
        .take(count)
    {
        *mark = true;
    }
    lost_flags
}

fn scene_of_row(rt: &(impl Abort + AllocGlobal), gf: &Gf, row: &Row) -> Scene {
    let (slices, size, (first, step, count), runs, _) = *row;
    scene_of(
        rt,
        gf,
        size,
        lost_flags(rt, slices, first, step, count),
        runs,
    )
}

// The first row with another number of kept exponents, or wrong slices.
fn first_other(rt: &(impl Abort + AllocGlobal), rows: &[Row]) -> Option<usize> {
    let gf = field(rt);
    for (k, row) in rows.iter().enumerate() {
        if kept(rt, &gf, &scene_of_row(rt, &gf, row)) != Some(row.4) {
            return Some(k);
        }
    }
    None
}

#[test]
fn runs_of_exponents(rt: HostRuntime) {
    assert!(rt; first_other(&rt, RUNS).is_none());
}

#[test]
fn holes_between_exponents(rt: HostRuntime) {
    assert!(rt; first_other(&rt, HOLES).is_none());
}

#[test]
fn holes_whose_equations_are_singular(rt: HostRuntime) {
    assert!(rt; first_other(&rt, SINGULAR_HOLES).is_none());
}

// The most slices of a random set.
const FEW: usize = 40;

// The factors of slices in the equation of an exponent.
type Factors = [u16; FEW];

// Whether 2 to the power of `n` is the constant of a slice: `n` is coprime to 65,535.
fn is_coprime(n: u32) -> bool {
    n % 3 != 0 && n % 5 != 0 && n % 17 != 0 && n % 257 != 0
}

// The constants of the first slices.
fn constants() -> Factors {
    let mut constants = [0; FEW];
    let powers = (1..65535u32).filter(|n| is_coprime(*n));
    for (constant, n) in constants.iter_mut().zip(powers) {
        *constant = power(2, n);
    }
    constants
}

// The factors of the lost slices in the equation of an exponent.
fn factors(scene: &Scene, constants: &Factors, exponent: u32) -> Factors {
    let mut factors = [0; FEW];
    let all = constants.iter().zip(scene.are_lost.iter());
    let lost = all.filter(|(_, is_lost)| **is_lost);
    for (factor, (constant, _)) in factors.iter_mut().zip(lost) {
        *factor = power(*constant, exponent);
    }
    factors
}

// The number of kept exponents by a plain elimination.
fn plainly_kept(rt: &(impl Abort + AllocGlobal), scene: &Scene) -> usize {
    let constants = constants();
    let mut equations = Vec::new(rt.alloc());
    for (exponent, _) in recovery_of(rt, scene) {
        equations
            .push(factors(scene, &constants, exponent))
            .expect(rt, "memory");
    }
    eliminated(rt, equations, FEW).len()
}

// At most forty flags.
fn random_flags(rt: &(impl Abort + AllocGlobal), number: u64) -> Vec<bool> {
    let count = ((number >> 48) % 40) as u32 + 1;
    let bits = next_number(number);
    let mut lost_flags = Vec::new(rt.alloc());
    for k in 0..count {
        lost_flags
            .push((bits >> (k + 20)) & 1 == 1)
            .expect(rt, "memory");
    }
    lost_flags
}

// Three runs. Usually few exponents are missing between two of them; otherwise the next one begins 21,845 after the
// first.
fn random_runs(number: u64) -> [Run; 3] {
    let mut runs = [(0, 0); 3];
    let mut first = (number % 30000) as u32;
    let mut rest = number;
    for run in runs.iter_mut() {
        rest = next_number(rest);
        let count = ((rest >> 56) % 16) as u32 + 1;
        let few = ((rest >> 48) % 6) as u32 + 1;
        *run = (first, count);
        let is_far = (rest >> 40) % 4 == 0;
        first = first.saturating_add(if is_far { 21845 } else { count + few });
    }
    runs
}

// The next scene of a few slices, of at most four words.
fn random_scene(rt: &(impl Abort + AllocGlobal), gf: &Gf, number: u64) -> Scene {
    let size = 2 * ((number >> 45) % 4) as usize + 2;
    scene_of(rt, gf, size, random_flags(rt, number), &random_runs(number))
}

#[test]
fn random_sizes(rt: HostRuntime) {
    let gf = field(&rt);
    let mut number = 40;
    for k in 0..100 {
        number = next_number(number);
        let scene = random_scene(&rt, &gf, number);
        assert!(rt;
            kept(&rt, &gf, &scene) == Some(plainly_kept(&rt, &scene)),
            "scene {k}"
        );
    }
}
