//! Recovery slices, each in a buffer of its own.

ghost use Rattle.std.specs.Prelude.{◌≡◌, ◌+◌, ◌%◌, ◌^◌, ◌≤◌, length, map, IfOk};
ghost use Rattle.std.specs.List.{range_with_len};
ghost use Rattle.par2_spec.specs.Prelude.{padded, recovery, lists_of};
ghost use Rattle.par2_inputs.specs.Records.{slices_of_records};
ghost use Rattle.par2_transform.specs.Chirps.{byte_lists};

use crate::SetRecord;
use par2_files::Folder;
use par2_gf16::Gf;
use par2_inputs::input_slices;
use par2_solve::{blank, numbers_from, write_recovery_slices};
use par2_transform::{Places, whole_buffers};
use std::alloc::{AllocError, Global};

/// The recovery slices of the `count` exponents from `first` on over slices of `size` bytes, each in a buffer of its
/// own. A shorter slice counts as padded with zeros. The slices are given as bytes; `recovery_slice` takes them from
/// files.
pub fn recovery_slices_over(
    alloc: Global,
    gf: &Gf,
    slices: &[&[u8]],
    size: usize,
    first: u32,
    count: u32,
) -> Result<Vec<Vec<u8>>, AllocError>
    requires slices { length slices.now ≤ 32768 }
    requires even { size % 2 ≡ 0 }
    requires exponents { first + count ≤ 2 ^ 32 }
    ensures { IfOk result (λ buffers. lists_of buffers.items ≡ map (recovery size
        (map (padded size) (byte_lists slices.now))) (range_with_len first count)) }
{
    let exponents = numbers_from(alloc, first, count)?;
    let places = whole_buffers(alloc, count as usize)?;
    let outputs = Places::new(&places, size / 2);
    let mut buffers = blank(alloc, count as usize, size)?;
    write_recovery_slices(
        alloc,
        gf,
        slices,
        &exponents,
        buffers.as_mut_slice(),
        &outputs,
    )?;
    Ok(buffers)
}

/// The recovery slice of exponent `e` over all slices of the set's files, which it takes from the folder: for each
/// word, the sum of the slices' words times powers of their constants. An absent file has no slices.
/// `slices_of_records` are the padded slices of the files, one file after the other.
pub fn recovery_slice(
    alloc: Global,
    gf: &Gf,
    set: &SetRecord,
    folder: &Folder,
    e: u32,
) -> Result<Vec<u8>, AllocError>
    requires size { 1 ≤ set.now.slice }
    requires even { set.now.slice % 2 ≡ 0 }
    requires slices { length (slices_of_records folder.now.files set.now.slice
        set.now.files.items) ≤ 32768 }
    ensures { let slices = slices_of_records folder.now.files set.now.slice set.now.files.items in
        IfOk result (λ bytes. bytes.items ≡ recovery set.now.slice slices e) }
{
    let slices = input_slices(alloc, &set.files, set.slice, folder)?;
    let size = set.slice as usize;
    let mut buffers = recovery_slices_over(alloc, gf, &slices, size, e, 1)?;
    Ok(buffers.remove(0))
}
