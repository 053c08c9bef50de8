//! Systems of equations, solved as soon as the equations determine the unknown buffers.

ghost use Rattle.std.specs.Prelude.{◌≡◌, ◌*◌, ◌%◌, length, IfErr};

use crate::calls::are_buffers;
use crate::gf16::field;
use par2_gf16::Gf;
use par2_matrix::{Offer, System, bytes_of_row, element, put_element};
use std::process::Abort;

#[test]
fn rank_of_no_equations(rt: HostRuntime) {
    assert!(rt; no_equations(&rt, 2, 2).rank() == 0);
}

fn row_of(rt: &(impl Abort + AllocGlobal), elements: &[u16]) -> Vec<u8>
    ensures { length result.items ≡ 2 * length elements.now }
{
    bytes_of_row(rt.alloc(), elements).expect(rt, "memory")
}

#[test]
fn elements_of_a_row(rt: HostRuntime) {
    let mut row = row_of(&rt, &[0x0201, 0xff00, 7]);
    assert!(rt; row.as_slice() == [1, 2, 0, 0xff, 7, 0].as_slice());
    put_element(row.as_mut_slice(), 1, 0x1234);
    assert!(rt;
        row.as_slice() == [1, 2, 0x34, 0x12, 7, 0].as_slice() && element(&row, 1) == 0x1234
    );
}

// The factors of the unknown buffers and their sum, how the equation is taken, and the rank after it.
type Equation = (&'static [u16], &'static [u8], Offer, usize);

// The numbers of columns and of bytes, equations, and the solved buffers, or None if the equations don't determine
// them.
type Row = (
    usize,
    usize,
    &'static [Equation],
    Option<&'static [&'static [u8]]>,
);

const SYSTEMS: &[Row] = &[
    (
        2,
        2,
        &[
            (&[1, 1], &[3, 0], Offer::Kept, 1),
            (&[1, 1], &[3, 0], Offer::Dependent, 1),
        ],
        None,
    ),
    (
        2,
        2,
        &[
            (&[1, 1], &[3, 0], Offer::Kept, 1),
            (&[1, 1], &[3, 0], Offer::Dependent, 1),
            (&[2, 16], &[0x22, 0], Offer::Kept, 2),
        ],
        Some(&[&[1, 0], &[2, 0]]),
    ),
    // The first equation has its pivot in the second column, the next in the third.
    (
        3,
        4,
        &[
            (&[0, 2, 0], &[4, 0, 0, 0], Offer::Kept, 1),
            (&[0, 0, 1], &[5, 0, 7, 9], Offer::Kept, 2),
            (&[1, 1, 1], &[6, 0, 0, 1], Offer::Kept, 3),
        ],
        Some(&[&[1, 0, 7, 8], &[2, 0, 0, 0], &[5, 0, 7, 9]]),
    ),
    // No columns.
    (0, 2, &[(&[], &[7, 0], Offer::Dependent, 0)], Some(&[])),
    // No bytes.
    (
        2,
        0,
        &[
            (&[0, 0], &[], Offer::Dependent, 0),
            (&[2, 4], &[], Offer::Kept, 1),
            (&[0, 3], &[], Offer::Kept, 2),
        ],
        Some(&[&[], &[]]),
    ),
];

fn no_equations(rt: &(impl Abort + AllocGlobal), columns: usize, bytes: usize) -> System
    requires { bytes % 2 ≡ 0 }
    ensures columns { result.columns ≡ columns }
    ensures bytes { result.bytes ≡ bytes }
{
    System::new(rt.alloc(), columns, bytes).expect(rt, "memory")
}

fn offered(
    rt: &(impl Abort + AllocGlobal),
    gf: &Gf,
    system: &mut System,
    row: &[u16],
    right: &[u8],
) -> Offer
    requires row { length row.now ≡ system.old.columns }
    requires right { length right.now ≡ system.old.bytes }
    ensures columns { system.new.columns ≡ system.old.columns }
    ensures bytes { system.new.bytes ≡ system.old.bytes }
{
    let right = right.to_vec(rt.alloc()).expect(rt, "memory");
    system.offer(gf, row, right).expect(rt, "memory")
}

fn solution(system: System) -> Result<Vec<Vec<u8>>, System>
    ensures { IfErr result (λ same. same ≡ system) }
{
    system.into_solution()
}

fn is_taken(
    rt: &(impl Abort + AllocGlobal),
    gf: &Gf,
    system: &mut System,
    equation: &Equation,
) -> bool
    requires row { length (equation.now.0).now ≡ system.old.columns }
    requires right { length (equation.now.1).now ≡ system.old.bytes }
    ensures columns { system.new.columns ≡ system.old.columns }
    ensures bytes { system.new.bytes ≡ system.old.bytes }
{
    let (row, right, offer, rank) = *equation;
    offered(rt, gf, system, row, right) == offer && system.rank() == rank
}

// Whether the equations are solved as the row says, and no later than they can be.
fn is_as_reported(rt: &(impl Abort + AllocGlobal), gf: &Gf, row: &Row) -> bool {
    let (columns, bytes, equations, wanted) = *row;
    if bytes % 2 != 0 {
        return false;
    }
    let mut system = no_equations(rt, columns, bytes);
    for (k, equation) in equations.iter().enumerate() {
        if equation.0.len() != columns || equation.1.len() != bytes {
            return false;
        }
        if !is_taken(rt, gf, &mut system, equation) {
            return false;
        }
        system = match solution(system) {
            Ok(buffers) => return k + 1 == equations.len() && is_solution(&buffers, wanted),
            Err(system) => system,
        };
    }
    wanted.is_none()
}

fn is_solution(buffers: &[Vec<u8>], wanted: Option<&[&[u8]]>) -> bool {
    match wanted {
        Some(reported) => are_buffers(buffers, reported),
        None => false,
    }
}

#[test]
fn systems_are_solved(rt: HostRuntime) {
    let gf = field(&rt);
    for (k, row) in SYSTEMS.iter().enumerate() {
        assert!(rt; is_as_reported(&rt, &gf, row), "system {k}");
    }
}
