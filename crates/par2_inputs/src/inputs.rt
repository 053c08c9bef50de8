//! The input files, and why they can't be taken: `bad_name` and `no_duplicate` check their names, `inputs_in` looks
//! them up, and `files_fault` checks them before their MD5s are computed.
//!
//! Also the names of the outputs, and why they can't be taken. Volume i has up to 2^i recovery slices, whose
//! exponents follow those of volume i - 1.
#![tactic(auto, using(crate::proofs::Steps::inputs), unfolding(crate::specs::Causes::files_fault))]

ghost use Rattle.std.specs.Prelude.{◌≡◌, ◌≤◌, nat_lt, length, map, sum_by, IfOk, IfErr, OnOk, Some, None, ◌<◌, ◌+◌, ◌-◌, ◌++◌, ◌∷◌, ◌⊎◌, string_bytes, IsTrue, not, position, is_some, IfSome};
ghost use Rattle.std.specs.List.{list_any};
ghost use Rattle.par2_spec.specs.Prelude.{has, five_digits, files_of, FailsFor, is_par_name, slice_count, create_args_of, head_fault, bad_name, is_input_name};
ghost use Rattle.par2_slices.specs.Matching.{buffers_of};
ghost use Rattle.par2_spec.specs.Volumes as spec;
ghost use Rattle.par2_inputs.specs.Records.{input_file};
ghost use Rattle.par2_inputs.specs.Causes.{duplicate_input, files_fault, existing, long_name, volume_at, volumes_of, volume_names};

use par2_files::{Folder, Name};
use par2_slices::{MOST_SLICES, is_slice_size, slice_count};
use par2_spec::{CreateArgs, Fault, Result};
use std::alloc::Global;
use std::collections::BTreeSet;

/// An input: its name and its bytes.
#[derive(Clone, Copy)]
pub struct Input<'f> {
    pub name: &'f Name,
    pub bytes: &'f [u8],
}

// The argument as the name of an input, if it is one, which doesn't end in `.par2`.
fn input_name(word: &str) -> Option<Name>
    ensures variant { is_some result ≡ is_input_name word.now }
    ensures value { IfSome result (λ name. name ≡ word.now) }
{
    Name::new(word).ok().filter(|name| !name.is_par())
}

// The index, from 0, of the first argument that can't be the name of an input.
fn first_bad(words: &[String]) -> Option<usize>
    ensures place { result ≡ position (λ word. not (is_input_name (string_bytes word))) words.now }
    ensures fits { IfSome result (λ place. place < usize.MAX) }
{
    words.iter().position(|word| input_name(word).is_none())
}

/// The fault `BadName` with the place of the first argument, from 1, that can't be the name of an input. It takes no
/// memory.
pub fn bad_name(words: &[String]) -> Option<Fault>
    ensures { result ≡ bad_name (map string_bytes words.now) }
{
    match first_bad(words) {
        Some(place) => Some(Fault::BadName(place + 1)),
        None => None,
    }
}

/// The names of the inputs, in order, once `bad_name` has found no fault.
pub fn input_names(alloc: Global, words: &[String]) -> Result<Vec<Name>>
    requires { bad_name (map string_bytes words.now) ≡ None }
    ensures { IfOk result (λ names. names.items ≡ map string_bytes words.now) }
{
    let names = words.iter().filter_map(|word| input_name(word));
    names.collect(alloc)
}

/// Refuses an input that was named before, by `DuplicateInput` with its place, counted from 1.
pub fn no_duplicate(alloc: Global, names: &[Name]) -> Result<(), Fault>
    ensures refused { FailsFor (duplicate_input names.now) result }
    ensures accepted { IfOk result (λ _. duplicate_input names.now ≡ None) }
{
    let mut seen = BTreeSet::new(alloc);
    for i in 0..names.len() {
        if !seen.insert(&names[i])? {
            return Err(Fault::DuplicateInput(i + 1));
        }
    }
    Ok(())
}

/// The inputs of these names, in order. An absent file has no bytes.
pub fn inputs_in<'f>(alloc: Global, folder: &'f Folder, names: &'f [Name]) -> Result<Vec<Input<'f>>>
    ensures { IfOk result (λ all. map input_file all.items ≡ files_of folder.now.files names.now) }
{
    let inputs = names.iter().map(|name| Input {
        name,
        bytes: folder.bytes_of(name),
    });
    inputs.collect(alloc)
}

/// The bytes of each input, in order.
pub fn contents_of<'f>(alloc: Global, inputs: &[Input<'f>]) -> Result<Vec<&'f [u8]>>
    ensures { IfOk result (λ it. buffers_of it.items ≡ map (λ input. input.bytes.now) inputs.now) }
{
    inputs.iter().map(|input| input.bytes).collect(alloc)
}

// Whether the inputs have more than 32,768 slices of `size` bytes, the most that a set may have.
fn are_too_many(inputs: &[Input], size: u64) -> bool
    requires { 1 ≤ size }
    ensures { result ≡ nat_lt 32768 (sum_by (λ x. slice_count size (length x.bytes.now)) inputs.now) }
{
    let mut left = MOST_SLICES;
    for i in 0..inputs.len() {
        let count = slice_count(inputs[i].bytes.len() as u64, size);
        if count > left {
            return true;
        }
        left -= count;
    }
    false
}

/// The fault of the inputs' files, if there is one: for the first absent one, then for the first empty one, then for
/// too many slices of `size` bytes.
pub fn files_fault(folder: &Folder, inputs: &[Input], size: u64) -> Option<Fault>
    requires { 1 ≤ size }
    ensures { result ≡ files_fault folder.now.files size (map input_file inputs.now) }
{
    // Only an input without bytes is looked up again.
    let is_absent = |input: &Input| input.bytes.is_empty() && folder.get(input.name).is_none();
    if let Some(place) = inputs.iter().position(is_absent) {
        return Some(Fault::NoSuchFile(place + 1));
    }
    if let Some(place) = inputs.iter().position(|input| input.bytes.is_empty()) {
        return Some(Fault::EmptyFile(place + 1));
    }
    are_too_many(inputs, size).then_some(Fault::TooManySlices)
}

/// The name of the index, if the slice size, the exponents, the base and the number of inputs are valid. Otherwise it
/// returns the first fault of these (`head_fault`).
#[tactic(auto, unfolding(par2_spec::specs::Refusals::head_fault))]
pub fn index_name(args: &CreateArgs) -> Result<Name, Fault>
    ensures refused { IfErr result (λ fault. head_fault (create_args_of args.now) ≡ Some fault) }
    ensures accepted { IfOk result (λ _. head_fault (create_args_of args.now) ≡ None) }
    ensures name { IfOk result (λ name. name ≡ string_bytes args.now.base) }
{
    if !is_slice_size(args.slice) {
        return Err(Fault::BadSliceSize);
    }
    // All exponents are below 65,536.
    let (first, count) = (args.first, args.count);
    if count > 65536 || first > 65535 || first + count > 65536 {
        return Err(Fault::BadCount);
    }
    let base = Name::new(&args.base).ok();
    let name = base.filter(|name| name.is_par()).ok_or(Fault::BadBase)?;
    if args.inputs.is_empty() {
        return Err(Fault::NoInput);
    }
    Ok(name)
}

// The most volumes: 17 have room for 131,071 recovery slices, which is more than there are exponents.
const MOST_VOLUMES: u32 = 17;

/// A volume: its name, and the exponents of its recovery slices.
#[derive(Drop)]
pub struct Volume {
    pub name: Name,
    pub first: u32,
    pub count: u32,
}

// How many recovery slices the volumes before volume `i` have: 2^i - 1, because volume j has 2^j.
fn volumes_before(i: u32) -> u32
    requires { i ≤ 17 }
    ensures { result ≡ spec.volumes_before i }
{
    (1 << i) - 1
}

// Appends a number as five digits.
fn push_five_digits(string: &mut String, n: u32) -> Result<()>
    ensures { OnOk result (string_bytes string.new ≡ string_bytes string.old ++ five_digits n) }
{
    for power in [10000, 1000, 100, 10, 1] {
        string.push(char::from(b'0' + (n / power % 10) as u8))?;
    }
    Ok(())
}

// The name of a volume as a string: the base without `.par2`, then `.vol`, the first exponent, `+`, the number of its
// recovery slices, and `.par2`.
fn volume_file_name(alloc: Global, base: &str, first: u32, count: u32) -> Result<String>
    requires { IsTrue (is_par_name base.now) }
    ensures { IfOk result (λ string. string_bytes string ≡ spec.volume_name base.now first count) }
{
    let mut string = String::from_str(alloc, &base[..base.len() - 5])?;
    string.push_str(".vol")?;
    push_five_digits(&mut string, first)?;
    string.push_str("+")?;
    push_five_digits(&mut string, count)?;
    string.push_str(".par2")?;
    Ok(string)
}

// Volume `i`, from 0, of a create with `count` recovery slices from exponent `first` on.
fn volume_at(alloc: Global, base: &Name, first: u32, count: u32, i: u32) -> Result<Volume, Fault>
    // The base is the name of an index, and the exponents are below 65,536.
    requires base { IsTrue (is_par_name base.now) }
    requires exponents { first + count ≤ 65536 }
    // Volume `i` has a recovery slice.
    requires number { i ≤ 17 }
    requires some { spec.volumes_before i < count }
    // It fails only if the name has more than 255 bytes, or for lack of memory.
    ensures refused { IfErr result (λ fault. (fault ≡ Fault.Memory)
        ⊎ ((fault ≡ Fault.NameTooLong) × (255 < length (volume_at base.now first count i).name))) }
    ensures accepted { IfOk result (λ volume. length volume.name ≤ 255) }
    // It returns volume `i` of these recovery slices.
    ensures volume { IfOk result (λ volume. volume ≡ volume_at base.now first count i) }
{
    let before = volumes_before(i);
    let (first, count) = (first + before, (1 << i).min(count - before));
    let string = volume_file_name(alloc, base.as_str(), first, count)?;
    match Name::new(&string) {
        Ok(name) => Ok(Volume { name, first, count }),
        Err(_) => Err(Fault::NameTooLong),
    }
}

/// The volumes of a create with `count` recovery slices from exponent `first` on, in order. It returns `NameTooLong` if
/// a volume's name would have more than 255 bytes.
#[tactic(auto, using(crate::proofs::Steps::names))]
pub fn volumes(alloc: Global, base: &Name, first: u32, count: u32) -> Result<Vec<Volume>, Fault>
    requires base { IsTrue (is_par_name base.now) }
    requires exponents { first + count ≤ 65536 }
    ensures refused { FailsFor (long_name (volume_names (volumes_of base.now first count))) result }
    ensures short { OnOk result (long_name (volume_names (volumes_of base.now first count)) ≡ None) }
    ensures volumes { IfOk result (λ volumes. volumes.items ≡ volumes_of base.now first count) }
{
    let mut volumes = Vec::new(alloc);
    for i in 0..MOST_VOLUMES {
        if volumes_before(i) < count {
            volumes.push(volume_at(alloc, base, first, count, i)?)?;
        }
    }
    Ok(volumes)
}

// Whether the index `base` or a volume exists already.
fn is_there(folder: &Folder, base: &Name, volumes: &[Volume]) -> bool
    ensures { result ≡ list_any (has folder.now.files) (base.now ∷ volume_names volumes.now) }
{
    let mut volumes = volumes.iter();
    folder.get(base).is_some() || volumes.any(|volume| folder.get(&volume.name).is_some())
}

/// The fault `Exists`, if the index `base` or a volume exists already and may not be overwritten.
pub fn existing(folder: &Folder, overwrite: bool, base: &Name, volumes: &[Volume]) -> Option<Fault>
    ensures { result ≡ existing folder.now.files overwrite (base.now ∷ volume_names volumes.now) }
{
    (!overwrite && is_there(folder, base, volumes)).then_some(Fault::Exists)
}
