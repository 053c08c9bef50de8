//! The set of a base, and its targets: the files that it describes. `set_of` takes the Recovery Set ID of the base's
//! first packet, collects the packets with this ID, and reads the set from them: its Main, and the first description,
//! checksums or recovery slice of each key.
//!
//! Also the names of a set's targets and PAR2 files, and asides: the names to which a repair renames files of incomplete
//! targets before it writes the targets.

ghost use Rattle.std.specs.Prelude.{◌≡◌, ◌++◌, map, ok_or, IfOk, OnOk, ◌≤◌, length, List, filter, option_map, ◌==◌, nat_le, sum_by, IsTrue, Ok, Err, ◌⊎◌, ◌<◌, ◌+◌, ◌∷◌, [], None, Some, IfErr, if◌then◌else◌, ℕ};
ghost use Rattle.std.specs.BTreeMap.{get};
ghost use Rattle.par2_spec.specs.Prelude.{read_desc, all_some, packets_with, main_of, description_of, recovery_of, are_in_profile, target_of, IsSound, target_names, Lists, FailsFor, distinct, is_among, is_name, slice_count, FailsIn, aside, AreFew, taken_for, Folder as Files};
ghost use Rattle.std.specs.FinMap.{entries};
ghost use Rattle.std.specs.Iterator.{Drains, IsFinite};
ghost use Rattle.std.specs.List.Sorted.{IsStrictlyIncreasing};
ghost use Rattle.std.specs.List.{list_all, AllByRecursion};
ghost use Rattle.par2_packets.specs.PacketViews.{packet_view, remaining_packets};
ghost use Rattle.par2_sets.specs.SetReading.{are_own, own_files, set_packets, Returns, HasFirsts, count_cmp, set_exponents, set_recovery, set_from_packets, HoldsOwned, long_aside};
ghost use Rattle.par2_spec.specs.Sets as sets;
ghost use Rattle.par2_spec.specs.Repairs as repairs;
ghost use Rattle.par2_spec.specs.Folders as folders;
ghost use Rattle.par2_spec.specs.Names as names;

use itoa::Buffer;
use md5::{Digest, Md5};
use par2_files::{Folder, Name};
use par2_packets::{
    DescView, IfscView, MainView, Packet, Packets, Pair, read_desc, read_ifsc, read_main,
    read_recovery,
};
use par2_slices::{MOST_SLICES, is_slice_size, slice_count};
use par2_spec::repair_laws::aside_is_found;
use par2_spec::search_laws::set_is_sound;
use par2_spec::{Fault, Result};
use std::alloc::Global;
use std::collections::{BTreeMap, BTreeSet};
use std::marker::Model;

// Appends the packets with the Recovery Set ID `id` that `found` still returns: those of one file. Returns whether it
// returned any, and none with another ID.
fn add_packets<'a>(
    kept: &mut Vec<Packet<'a>>,
    id: &[u8; 16],
    found: &mut Packets<'a>,
) -> Result<bool>
    ensures added { let added = packets_with id.now (remaining_packets found.old) in
        OnOk result (map packet_view kept.new.items ≡ map packet_view kept.old.items ++ added) }
    ensures own { IfOk result (λ own. own ≡ are_own id.now (remaining_packets found.old)) }
{
    let (mut any, mut all) = (false, true);
    for packet in found {
        if packet.set_id == *id {
            kept.push(packet)?;
            any = true;
        } else {
            all = false;
        }
    }
    Ok(any && all)
}

// The packets with the Recovery Set ID `id`: those of the base, then those of each other `.par2` file, in the order of
// the names. The order matters, because the set takes the first packet of each key. Beside them the names of the `.par2`
// files that have packets, all of the set, in order. `in_bytes` keeps the MD5 of the longest packet from file to file,
// because the files repeat it.
fn packets_of<'a>(
    alloc: Global,
    folder: &'a Folder,
    base: &Name,
    id: &[u8; 16],
) -> Result<(Vec<Packet<'a>>, Vec<Name>)>
    ensures packets { let all = set_packets folder.now.files base.now id.now in
        IfOk result (λ found. map packet_view found.0.items ≡ all) }
    ensures own { IfOk result (λ it. it.1.items ≡ own_files folder.now.files id.now) }
{
    let mut names = folder.names()?;
    names.retain(|name| name.is_par());
    let (mut packets, mut own_files) = (Vec::new(alloc), Vec::new(alloc));
    let mut found = Packets::new(folder.bytes_of(base));
    let base_is_own = add_packets(&mut packets, id, &mut found)?;
    for name in &names {
        let is_own = if name == base {
            base_is_own
        } else {
            found = found.in_bytes(folder.bytes_of(name));
            add_packets(&mut packets, id, &mut found)?
        };
        if is_own {
            own_files.push(name.copied())?;
        }
    }
    Ok((packets, own_files))
}

// The first well-formed Main whose body has `id` as its MD5, as the Recovery Set ID of a set is defined. `packets` are
// those with this ID.
fn main_of<'a>(packets: &[Packet<'a>], id: &[u8; 16]) -> Option<MainView<'a>>
    ensures { result ≡ main_of id.now (map packet_view packets.now) }
{
    for packet in packets {
        if let Some(main) = read_main(packet)
            && Md5::digest(packet.body) == *id
        {
            return Some(main);
        }
    }
    None
}

// A map of the first value of each key of the entries. No other is kept, because each volume repeats most packets.
fn firsts<K: Ord + Drop, V: Drop, I: Iterator<Item = (K, V)>>(
    alloc: Global,
    entries: I,
) -> Result<BTreeMap<K, V>>
    requires { I.can_next entries × IsFinite (I.remaining entries) }
    ensures { IfOk result (λ firsts. (all : List (K × V))
        × Drains I.next_gives entries all × HasFirsts K.cmp all firsts) }
{
    let mut firsts = BTreeMap::new(alloc);
    for (key, value) in entries {
        if !firsts.contains_key(&key) {
            firsts.insert(key, value)?;
        }
    }
    Ok(firsts)
}

// The descriptions of the files of the Main, in its order. It returns `NoDescription` if a file has none. `Returns`:
// the result is that of the step of the definitions, or memory ran out.
fn descriptions<'a>(
    alloc: Global,
    packets: &[Packet<'a>],
    main: &MainView,
) -> Result<Vec<DescView<'a>>, Fault>
    ensures { let found = map (description_of (map packet_view packets.now)) main.now.ids in
        Returns (λ ds. ds.items) result (ok_or (all_some found) Fault.NoDescription) }
{
    let described = packets
        .iter()
        .filter_map(|packet| Some((read_desc(packet)?.id(), *packet)));
    let firsts = firsts(alloc, described)?;
    let mut descriptions = Vec::new(alloc);
    for k in 0..main.count() {
        let Some(description) = firsts.get(&main.id(k)).and_then(|packet| read_desc(packet)) else {
            return Err(Fault::NoDescription);
        };
        descriptions.push(description)?;
    }
    Ok(descriptions)
}

// The slice checksums of the described file, for slices of `s` bytes, from the first IFSC of each File ID with each
// number of slices. An empty file needs none. It returns `NoChecksums` if no IFSC has as many as the file has slices.
fn pairs_for(
    alloc: Global,
    firsts: &BTreeMap<([u8; 16], u64), IfscView>,
    s: u64,
    description: &DescView,
) -> Result<Vec<Pair>, Fault>
    requires { 1 ≤ s }
    ensures { let d = description.now in
        let found = get count_cmp firsts.now (d.id, slice_count s d.length) in
        let pairs = if d.length == 0 then Some [] else option_map (λ c. c.pairs) found in
        Returns (λ list. list.items) result (ok_or pairs Fault.NoChecksums) }
{
    if description.length() == 0 {
        return Ok(Vec::new(alloc));
    }
    let key = (description.id(), slice_count(description.length(), s));
    let Some(checksums) = firsts.get(&key) else {
        return Err(Fault::NoChecksums);
    };
    let mut pairs = Vec::with_capacity(alloc, checksums.count())?;
    for k in 0..checksums.count() {
        pairs.push(checksums.pair(k))?;
    }
    Ok(pairs)
}

// For each exponent below 65,536 its first recovery slice of `s` bytes, in the order of the exponents.
fn recovery_of<'a>(alloc: Global, packets: &[Packet<'a>], s: u64) -> Result<Vec<(u32, &'a [u8])>>
    ensures value { let all = recovery_of (map packet_view packets.now) s in
        IfOk result (λ recovery. set_recovery recovery.items ≡ entries all) }
    ensures rising { IfOk result (λ recovery. IsStrictlyIncreasing (set_exponents recovery.items)) }
{
    let found = packets.iter().filter_map(|packet| {
        let recovery = read_recovery(packet)?;
        let fits = recovery.exponent() < 65536 && recovery.bytes().len() as u64 == s;
        fits.then_some(recovery)
    });
    let slices = found.map(|recovery| (recovery.exponent(), recovery.bytes()));
    firsts(alloc, slices)?.into_iter().collect(alloc)
}

/// A file that a set describes.
#[derive(Drop)]
pub struct Target {
    name: Name,
    length: u64,
    md5: [u8; 16],
    pairs: Vec<Pair>,
}

impl Model for Target {
    ghost use Rattle.par2_spec.specs.Sets.{Target as Described};

    ghost Value = { Described };

    ghost view = { λ t. record { name = t.name; length = t.length; md5 = t.md5; pairs = t.pairs.items } };
}

impl Target {
    /// The name that the set has for the file.
    pub fn name(&self) -> &Name
        ensures { result.now ≡ self.now.name }
    {
        &self.name
    }

    /// How many bytes the file has.
    pub fn length(&self) -> u64
        ensures { result ≡ self.now.length }
    {
        self.length
    }

    /// The MD5 of the file, with which a repair compares the files that it writes.
    pub fn md5(&self) -> [u8; 16]
        ensures { result ≡ self.now.md5 }
    {
        self.md5
    }

    /// The checksums of its slices, in order.
    pub fn pairs(&self) -> &[Pair]
        ensures { result.now ≡ self.now.pairs }
    {
        &self.pairs
    }
}

// The targets of the descriptions, in order, with slices of `s` bytes. It returns `NoChecksums` if a target has none.
// The map has the number of slices in its keys, because an IFSC with another number than the file has slices must not
// hide a later one that fits.
fn targets_of(
    alloc: Global,
    packets: &[Packet],
    s: u64,
    descriptions: &[DescView],
) -> Result<Vec<Target>, Fault>
    requires size { 1 ≤ s }
    requires names { IsTrue (list_all (λ d. is_name d.name) descriptions.now) }
    ensures { let all = map (target_of (map packet_view packets.now) s) descriptions.now in
        Returns (λ ts. ts.items) result (ok_or (all_some all) Fault.NoChecksums) }
{
    let found = packets.iter().filter_map(|packet| {
        let ifsc = read_ifsc(packet)?;
        Some(((ifsc.id(), ifsc.count() as u64), ifsc))
    });
    let checksums = firsts(alloc, found)?;
    let mut targets = Vec::new(alloc);
    for description in descriptions {
        let Some(name) = Name::from_bytes(description.name_bytes()) else {
            unreachable!()
        };
        targets.push(Target {
            name,
            length: description.length(),
            md5: description.md5(),
            pairs: pairs_for(alloc, &checksums, s, description)?,
        })?;
    }
    Ok(targets)
}

// Whether the files have no more than 32,768 slices of `s` bytes, as many as there are constants for slices.
fn have_few_slices(s: u64, descriptions: &[DescView]) -> bool
    requires { 1 ≤ s }
    ensures { result ≡ nat_le (sum_by (λ d. slice_count s d.length) descriptions.now) 32768 }
{
    let mut left = MOST_SLICES;
    for description in descriptions {
        let count = slice_count(description.length(), s);
        if count > left {
            return false;
        }
        left -= count;
    }
    true
}

// Whether the files are in the profile: at most 32,768 slices of `s` bytes, and valid, distinct names.
fn are_in_profile(alloc: Global, s: u64, descriptions: &[DescView]) -> Result<bool>
    requires { 1 ≤ s }
    ensures { IfOk result (λ b. b ≡ are_in_profile s descriptions.now) }
{
    let mut all = descriptions.iter();
    let have_names = all.all(|described| Name::from_bytes(described.name_bytes()).is_some());
    if !have_few_slices(s, descriptions) || !have_names {
        return Ok(false);
    }
    let names = descriptions.iter().map(|described| described.name_bytes());
    let distinct = names.collect::<BTreeSet<&[u8]>>(alloc)?;
    Ok(distinct.len() == descriptions.len())
}

/// The set of a base. Its recovery slices borrow from the folder. `IsReadSet`: the exponents increase, and the set is
/// sound, as `IsSound` of `par2_spec` defines it.
#[derive(Drop)]
pub struct ParSet<'a> {
    id: [u8; 16],
    slice_size: u64,
    targets: Vec<Target>,
    recovery: Vec<(u32, &'a [u8])>,
}

impl<'a> Model for ParSet<'a> {
    ghost use Rattle.par2_spec.specs.Sets as sets;
    ghost use Rattle.par2_sets.specs.SetReading.{set_code};
    ghost use Rattle.par2_sets.specs.SetReading.{IsReadSet, set_view};

    ghost Value = { sets.ParSet };

    ghost coded = { set_code };

    ghost view = { λ p. set_view p.id p.slice_size p.targets.items p.recovery.items };

    ghost invariant = { λ p. IsReadSet p.id p.slice_size p.targets.items p.recovery.items };
}

impl<'a> ParSet<'a> {
    /// The Recovery Set ID.
    pub fn id(&self) -> [u8; 16]
        ensures { result ≡ self.now.id }
    {
        self.id
    }

    /// How many bytes a slice has.
    pub fn slice_size(&self) -> u64
        ensures value { result ≡ self.now.slice_size }
        ensures sound { IsSound self.now }
    {
        self.slice_size
    }

    /// The files that it describes, in the order of the Main. Their slices are numbered in this order.
    pub fn targets(&self) -> &[Target]
        ensures value { result.now ≡ self.now.targets }
        ensures sound { IsSound self.now }
    {
        &self.targets
    }

    /// The surviving recovery slices with their exponents, strictly increasing.
    pub fn recovery(&self) -> &[(u32, &'a [u8])]
        ensures value { set_recovery result.now ≡ entries self.now.recovery }
        ensures rising { IsStrictlyIncreasing (set_exponents result.now) }
        ensures sizes { AllByRecursion (λ r. length r.1 ≡ self.now.slice_size) (set_recovery result.now) }
    {
        &self.recovery
    }
}

// The set that these packets describe, all of which have the Recovery Set ID `id`. It returns the fault of the first
// step that fails: no Main, a slice size or names outside the profile, or a file without description or checksums.
fn set_in<'a>(alloc: Global, id: [u8; 16], packets: &[Packet<'a>]) -> Result<ParSet<'a>, Fault>
    requires { IfOk (set_from_packets id (map packet_view packets.now)) IsSound }
    ensures { Returns (λ set. set) result (set_from_packets id (map packet_view packets.now)) }
{
    let Some(main) = main_of(packets, &id) else {
        return Err(Fault::NoMain);
    };
    let slice_size = main.slice_size();
    if !is_slice_size(slice_size) {
        return Err(Fault::BadSet);
    }
    let described = descriptions(alloc, packets, &main)?;
    if !are_in_profile(alloc, slice_size, &described)? {
        return Err(Fault::BadSet);
    }
    Ok(ParSet {
        id,
        slice_size,
        targets: targets_of(alloc, packets, slice_size, &described)?,
        recovery: recovery_of(alloc, packets, slice_size)?,
    })
}

/// A set, and the files that a purge may remove.
#[derive(Drop)]
pub struct ReadSet<'a> {
    pub set: ParSet<'a>,
    /// The names of the `.par2` files that have packets, all of the set, in order.
    pub own_files: Vec<Name>,
}

/// The set that the packets of the base and of the other `.par2` files describe, or the fault of the first part that is
/// absent or wrong. Its Recovery Set ID is that of the base's first packet, and packets of other sets are ignored. A
/// base that isn't in the folder has no packets.
#[tactic(auto, unfolding(par2_spec::specs::Sets::set_of, par2_spec::specs::Sets::read_set))]
pub fn set_of<'a>(alloc: Global, folder: &'a Folder, base: &Name) -> Result<ReadSet<'a>, Fault>
    ensures refused { FailsIn (sets.set_of folder.now.files base.now) result }
    ensures read { IfOk result (λ read. sets.set_of folder.now.files base.now ≡ Ok read.set) }
    ensures sound { IfOk result (λ read. IsSound read.set) }
    ensures own { IfOk result (λ r. r.own_files.items ≡ own_files folder.now.files r.set.id) }
{
    // For the prover: the set is sound.
    set_is_sound();
    let Some(first) = Packets::new(folder.bytes_of(base)).next() else {
        return Err(Fault::NoPackets);
    };
    let (packets, own_files) = packets_of(alloc, folder, base, &first.set_id)?;
    let set = set_in(alloc, first.set_id, &packets)?;
    Ok(ReadSet { set, own_files })
}

/// The names of the set's PAR2 files, in order, which a purge removes. `own` has the files that `set_of` found to have
/// packets of the set alone. Targets among them are left out, so that a purge keeps them.
pub fn par_files(alloc: Global, set: &ParSet, own: &[Name]) -> Result<Vec<Name>>
    ensures { (files : Files) → own.now ≡ own_files files set.now.id
        → Lists (repairs.par_files files set.now) result }
{
    let targets = target_names(alloc, set)?;
    let removed = own.iter().filter(|name| !targets.contains(*name));
    removed.map(|name| name.copied()).collect(alloc)
}

// A tree of the names of the set's targets. `HoldsOwned`: it has exactly these.
fn target_names(alloc: Global, set: &ParSet) -> Result<BTreeSet<Name>>
    ensures { IfOk result (λ names. HoldsOwned names (target_names set.now)) }
{
    let names = set.targets().iter().map(|target| target.name().copied());
    names.collect(alloc)
}

// The name NAME.n, from which `aside` tries n = 1, 2 and so on. It returns `NameTooLong` above 255 bytes.
fn numbered(alloc: Global, name: &Name, n: usize) -> Result<Name, Fault>
    ensures refused { let long = 255 < length (names.numbered name.now n) in
        IfErr result (λ fault. (fault ≡ Fault.Memory) ⊎ ((fault ≡ Fault.NameTooLong) × long)) }
    ensures name { IfOk result (λ other. other ≡ names.numbered name.now n) }
{
    let mut string = String::from_str(alloc, name.as_str())?;
    string.push_str(".")?;
    string.push_str(Buffer::new().format(n))?;
    Name::new(&string).or(Err(Fault::NameTooLong))
}

// Whether the name is in the folder or a target's, so that it can't be an aside.
fn is_taken(folder: &Folder, targets: &BTreeSet<Name>, name: &Name) -> bool
    ensures { (all : List (List ℕ)) → HoldsOwned targets.now all
        → result ≡ is_among (folders.names folder.now.files ++ all) name.now }
{
    folder.get(name).is_some() || targets.contains(name)
}

// The aside of a name: NAME.n with the least n from 1 on that isn't taken. `most` is one more than there are taken
// names, so one of the numbers up to it is free. `long_aside`: it returns `NameTooLong` if the aside is too long.
fn aside(
    alloc: Global,
    folder: &Folder,
    set: &ParSet,
    targets: &BTreeSet<Name>,
    most: usize,
    name: &Name,
) -> Result<Name, Fault>
    requires targets { HoldsOwned targets.now (target_names set.now) }
    requires most { most ≡ length (taken_for folder.now.files set.now) + 1 }
    ensures refused { FailsFor (long_aside folder.now.files set.now (name.now ∷ [])) result }
    ensures aside { IfOk result (λ other. other ≡ aside folder.now.files set.now name.now) }
{
    // For the prover: one of these numbers is free.
    aside_is_found();
    // For the prover: names in the folder and of targets are valid, so a name that is too long isn't taken.
    let _ = folder.vacant();
    let _ = set.targets();
    for n in 1..=most {
        let other = numbered(alloc, name, n)?;
        if !is_taken(folder, targets, &other) {
            return Ok(other);
        }
    }
    unreachable!()
}

/// The asides of these names, in order: each is NAME.n with the least number n from 1 on that is neither in the folder
/// nor a target's. It returns `NameTooLong` if one has more than 255 bytes. `AreFew`: the numbers fit in 64 bits.
pub fn asides(
    alloc: Global,
    folder: &Folder,
    set: &ParSet,
    names: &[Name],
) -> Result<Vec<Name>, Fault>
    ensures refused { FailsFor (long_aside folder.now.files set.now names.now) result }
    ensures short { IfOk result (λ _. long_aside folder.now.files set.now names.now ≡ None) }
    ensures names { Lists (map (aside folder.now.files set.now) names.now) result }
    ensures few { IfOk result (λ _. AreFew folder.now.files set.now) }
{
    let targets = target_names(alloc, set)?;
    // One number more than there are names to avoid.
    let most = folder.len() + set.targets().len() + 1;
    let mut asides = Vec::new(alloc);
    for name in names {
        asides.push(aside(alloc, folder, set, &targets, most, name)?)?;
    }
    Ok(asides)
}
