//! The bytes of volumes. Their packets are laid out first, with zeros for recovery slices and MD5s. The recovery slices
//! are computed in place, all at once, and the MD5s are filled in at the end.
#![tactic(auto)]

ghost use Rattle.std.specs.Prelude.{◌≡◌, ◌+◌, length, map, IfOk, OnOk, ◌≤◌};
ghost use Rattle.par2_spec.specs.Answers.{Appends};
ghost use Rattle.par2_spec.specs.Prelude.{lists_of};
ghost use Rattle.par2_create.specs.Outputs.{volume_file_name, AreFiles, blank_volume, volume_exponents, length_with, places_in, places_of, with_slices};

use par2_files::Name;
use par2_gf16::Gf;
use par2_inputs::{Parts, Volume, input_slices};
use par2_packets::{digest_recoveries, with_undigested};
use par2_solve::write_recovery_slices;
use par2_spec::Result;
use par2_transform::{Place, Places};
use std::alloc::Global;

// The bytes of a packet before its recovery slice: the header and the exponent.
const RECOVERY_HEAD: usize = 68;

// Appends the places of the recovery slices of volume `i`, from 0: buffer `i`, and the offset in bytes of each slice.
// `bytes` is that buffer, which only the contract uses.
fn append_places(
    places: &mut Vec<Place>,
    parts: &Parts,
    volume: &Volume,
    i: usize,
    bytes: &[u8],
) -> Result<()>
    requires { length bytes.now ≡ length_with parts.now volume.now.count }
    ensures { Appends (places_in parts.now (i, volume.now)) places.old places.new result }
{
    let packet = RECOVERY_HEAD + parts.slice as usize;
    for k in 0..volume.count {
        let at = parts.index.len() + k as usize * packet + RECOVERY_HEAD;
        places.push(Place { buffer: i, at })?;
    }
    Ok(())
}

// The bytes of a volume, the index and then its recovery packets, with zeros for their slices and MD5s.
fn blank_volume(alloc: Global, parts: &Parts, volume: &Volume) -> Result<Vec<u8>>
    requires { volume.now.first + volume.now.count ≤ 65536 }
    ensures { IfOk result (λ bytes. bytes.items ≡ blank_volume parts.now volume.now) }
{
    let size = parts.slice as usize;
    // The length saturates, because it only reserves memory.
    let len = (size + RECOVERY_HEAD).saturating_mul(volume.count as usize);
    let mut bytes = Vec::with_capacity(alloc, len.saturating_add(parts.index.len()))?;
    bytes.extend_from_slice(&parts.index)?;
    with_undigested(bytes, &parts.set_id, volume.first, volume.count, size)
}

// The bytes of all volumes, each in a buffer of its own, with zeros for their recovery slices and MD5s.
fn blank_volumes(alloc: Global, parts: &Parts) -> Result<Vec<Vec<u8>>>
    ensures { IfOk result (λ it. lists_of it.items ≡ map (blank_volume parts.now) parts.now.volumes.now) }
{
    let mut buffers = Vec::with_capacity(alloc, parts.volumes.len())?;
    for volume in parts.volumes {
        let bytes = blank_volume(alloc, parts, volume)?;
        buffers.push(bytes)?;
    }
    Ok(buffers)
}

// The places of the recovery slices of all volumes, in order. `buffers` has the bytes of the volumes.
fn places(alloc: Global, parts: &Parts, buffers: &[Vec<u8>]) -> Result<Vec<Place>>
    requires { lists_of buffers.now ≡ map (blank_volume parts.now) parts.now.volumes.now }
    ensures { IfOk result (λ places. places.items ≡ places_of parts.now parts.now.volumes.now) }
{
    let mut places = Vec::new(alloc);
    for i in 0..parts.volumes.len() {
        append_places(&mut places, parts, &parts.volumes[i], i, &buffers[i])?;
    }
    Ok(places)
}

// The exponents of all volumes' recovery slices, in order.
fn exponents_of(alloc: Global, parts: &Parts) -> Result<Vec<u32>>
    ensures { IfOk result (λ exponents. exponents.items ≡ volume_exponents parts.now.volumes.now) }
{
    let volumes = parts.volumes.iter();
    let exponents = volumes.flat_map(|volume| volume.first..volume.first + volume.count);
    exponents.collect(alloc)
}

// Writes the recovery slices of all volumes at their places in `out`, the buffers of the volumes.
fn write_slices(alloc: Global, parts: &Parts, out: &mut [Vec<u8>]) -> Result<()>
    requires { lists_of out.old ≡ map (blank_volume parts.now) parts.now.volumes.now }
    ensures { OnOk result (lists_of out.new ≡ map (with_slices parts.now) parts.now.volumes.now) }
{
    let inputs = input_slices(alloc, parts.files, parts.slice, parts.folder)?;
    let exponents = exponents_of(alloc, parts)?;
    let places = places(alloc, parts, out)?;
    let outputs = Places::new(&places, parts.slice as usize / 2);
    let gf = Gf::new(alloc)?;
    write_recovery_slices(alloc, &gf, &inputs, &exponents, out, &outputs)
}

// Fills in the MD5s of the recovery packets of a volume, which are the last of its bytes.
fn digest_volume(alloc: Global, bytes: &mut [u8], parts: &Parts, volume: &Volume) -> Result<()>
    requires { bytes.old ≡ with_slices parts.now volume.now }
    ensures { OnOk result (bytes.new ≡ volume_file_name parts.now volume.now) }
{
    let packets = &mut bytes[parts.index.len()..];
    let size = parts.slice as usize;
    digest_recoveries(alloc, packets, size, volume.count as usize)
}

// Takes the buffers of the volumes, fills in the MD5s, and returns the buffers with the names of the volumes.
fn digested(
    alloc: Global,
    parts: &Parts,
    buffers: &mut Vec<Vec<u8>>,
) -> Result<Vec<(Name, Vec<u8>)>>
    requires { lists_of buffers.old.items ≡ map (with_slices parts.now) parts.now.volumes.now }
    ensures { IfOk result (AreFiles parts.now parts.now.volumes.now) }
{
    let mut files = Vec::with_capacity(alloc, parts.volumes.len())?;
    for volume in parts.volumes {
        let mut bytes = buffers.remove(0);
        digest_volume(alloc, bytes.as_mut_slice(), parts, volume)?;
        files.push((volume.name.copied(), bytes))?;
    }
    Ok(files)
}

/// The volumes as files, in order: names with bytes. If there are none, no table of the field is made and no input is
/// read.
pub(crate) fn volume_files(alloc: Global, parts: &Parts) -> Result<Vec<(Name, Vec<u8>)>>
    ensures { IfOk result (AreFiles parts.now parts.now.volumes.now) }
{
    if parts.volumes.is_empty() {
        return Ok(Vec::new(alloc));
    }
    let mut buffers = blank_volumes(alloc, parts)?;
    write_slices(alloc, parts, buffers.as_mut_slice())?;
    digested(alloc, parts, &mut buffers)
}
