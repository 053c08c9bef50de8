//! Packets: the expected bytes were made by another program that knows only the format.

ghost use Rattle.std.specs.Prelude.{◌≡◌, ◌+◌, ◌%◌, ◌<◌, ◌≤◌, ◌∷◌, [], length};

use crate::set_packets::{add_checksums, add_description, add_main, id_of};
use par2_packets::{
    DescView, DuplicateId, FileRecord, Kind, Packet, Packets, append_creator, append_recovery,
    digest_recoveries, file_id, read_desc, read_ifsc, read_main, read_recovery, sort_ids,
    with_undigested,
};
use std::process::Abort;

// The index of a set of one file `a`, which holds `abcdefgh`, with slices of 4 bytes: packets of 92, 124, 120 and 84
// bytes.
const INDEX: &str = "\
    5041523200504b545c000000000000004cd23884179378ff925dc53505c95cef928bb4f8f1f1fc2c0cfd4bd6f7bac6d4\
    50415220322e30004d61696e0000000004000000000000000100000049830025b4d9c6d52da05e68abd2edda50415232\
    00504b547c000000000000000ddb0420a8212f39a2be66057e62b0b8928bb4f8f1f1fc2c0cfd4bd6f7bac6d450415220\
    322e300046696c654465736349830025b4d9c6d52da05e68abd2eddae8dc4081b13434b45189a720b77b6818e8dc4081\
    b13434b45189a720b77b68180800000000000000610000005041523200504b547800000000000000da1bf18b2f9782ae\
    3ab69231cfb5b185928bb4f8f1f1fc2c0cfd4bd6f7bac6d450415220322e3000494653430000000049830025b4d9c6d5\
    2da05e68abd2eddae2fc714c4727ee9395f324cd2e7f331f11cd82ed1f7690ebdd9b4caf8fab49ca1757bf27b57b3308\
    5041523200504b54540000000000000079b67cfeb3a0a2d031a37161b250550e928bb4f8f1f1fc2c0cfd4bd6f7bac6d4\
    50415220322e300043726561746f72007061723220756e646f2070726f66696c65203100";

// Its recovery slices of exponents 0, 1 and 2, of 72 bytes each.
const RECOVERY_0: &str = "\
    5041523200504b544800000000000000cf4cfcb35939bee552c288c03cdc79a8928bb4f8f1f1fc2c0cfd4bd6f7bac6d4\
    50415220322e300052656376536c6963000000000404040c";

const RECOVERY_1: &str = "\
    5041523200504b544800000000000000f917231e9df95da2d2c803f7a0411504928bb4f8f1f1fc2c0cfd4bd6f7bac6d4\
    50415220322e300052656376536c6963010000005d4d5179";

const RECOVERY_2: &str = "\
    5041523200504b544800000000000000b6cd9871d4215dc769f0aec2f2bad020928bb4f8f1f1fc2c0cfd4bd6f7bac6d4\
    50415220322e300052656376536c696302000000e59fcd67";

// The two files that par2cmdline 0.8.1 creates with `par2 create -s16 -c2 -n1 fox.par2 fox.txt`, where `fox.txt` is the
// output of `echo 'The quick brown fox jumps over the lazy dog.'`.
const FOX_INDEX: &str = "\
    5041523200504b545c00000000000000bdfb4b1b0d67675761cb62d3b344ee6cb258a65e5880a8cdb4c26e63b5d37bc0\
    50415220322e30004d61696e000000001000000000000000010000002acbaf522d9017e90936e66a1f28977750415232\
    00504b548000000000000000b4142cecde78efce3e76a4b3ec262628b258a65e5880a8cdb4c26e63b5d37bc050415220\
    322e300046696c65446573632acbaf522d9017e90936e66a1f2897770d7006cd055e94cf614587e1d2ae0c8e0d7006cd\
    055e94cf614587e1d2ae0c8e2d00000000000000666f782e747874005041523200504b548c00000000000000ab1e70ae\
    cba41038d1b824d7e9c3548cb258a65e5880a8cdb4c26e63b5d37bc050415220322e300049465343000000002acbaf52\
    2d9017e90936e66a1f289777b0e45b65d9e1d88169c40dc47605e2d97c2a1bc8eb95d2042eb0a424541098f42607590a\
    84d40c98570ad74ff3e83cd034e48967ab1fc30fc76348845041523200504b5468000000000000005ee62f1c446950b5\
    f68e674d3ae8a011b258a65e5880a8cdb4c26e63b5d37bc050415220322e300043726561746f72004372656174656420\
    62792070617232636d646c696e652076657273696f6e20302e382e312e000000";

const FOX_VOLUME: &str = "\
    5041523200504b54540000000000000012a9a018b8d858b6ddacbdeed2ea641ab258a65e5880a8cdb4c26e63b5d37bc0\
    50415220322e300052656376536c6963000000005a623d6c7a7a7d337c6f6a2a00054e545041523200504b545c000000\
    00000000bdfb4b1b0d67675761cb62d3b344ee6cb258a65e5880a8cdb4c26e63b5d37bc050415220322e30004d61696e\
    000000001000000000000000010000002acbaf522d9017e90936e66a1f2897775041523200504b548000000000000000\
    b4142cecde78efce3e76a4b3ec262628b258a65e5880a8cdb4c26e63b5d37bc050415220322e300046696c6544657363\
    2acbaf522d9017e90936e66a1f2897770d7006cd055e94cf614587e1d2ae0c8e0d7006cd055e94cf614587e1d2ae0c8e\
    2d00000000000000666f782e747874005041523200504b548c00000000000000ab1e70aecba41038d1b824d7e9c3548c\
    b258a65e5880a8cdb4c26e63b5d37bc050415220322e300049465343000000002acbaf522d9017e90936e66a1f289777\
    b0e45b65d9e1d88169c40dc47605e2d97c2a1bc8eb95d2042eb0a424541098f42607590a84d40c98570ad74ff3e83cd0\
    34e48967ab1fc30fc76348845041523200504b545400000000000000db2344a31dc7eee1a909ceb784bd9d3cb258a65e\
    5880a8cdb4c26e63b5d37bc050415220322e300052656376536c696301000000814b106360f9eb30605715ebe1375780\
    5041523200504b545c00000000000000bdfb4b1b0d67675761cb62d3b344ee6cb258a65e5880a8cdb4c26e63b5d37bc0\
    50415220322e30004d61696e000000001000000000000000010000002acbaf522d9017e90936e66a1f28977750415232\
    00504b548000000000000000b4142cecde78efce3e76a4b3ec262628b258a65e5880a8cdb4c26e63b5d37bc050415220\
    322e300046696c65446573632acbaf522d9017e90936e66a1f2897770d7006cd055e94cf614587e1d2ae0c8e0d7006cd\
    055e94cf614587e1d2ae0c8e2d00000000000000666f782e747874005041523200504b548c00000000000000ab1e70ae\
    cba41038d1b824d7e9c3548cb258a65e5880a8cdb4c26e63b5d37bc050415220322e300049465343000000002acbaf52\
    2d9017e90936e66a1f289777b0e45b65d9e1d88169c40dc47605e2d97c2a1bc8eb95d2042eb0a424541098f42607590a\
    84d40c98570ad74ff3e83cd034e48967ab1fc30fc76348845041523200504b5468000000000000005ee62f1c446950b5\
    f68e674d3ae8a011b258a65e5880a8cdb4c26e63b5d37bc050415220322e300043726561746f72004372656174656420\
    62792070617232636d646c696e652076657273696f6e20302e382e312e000000";

// The bytes of these hexadecimal strings, one after the other.
fn decoded(rt: &(impl Abort + AllocGlobal), buffers: &[&str]) -> Vec<u8> {
    let whole = buffers.concat(rt.alloc()).expect(rt, "memory");
    hex::decode(rt.alloc(), &whole).expect(rt, "hexadecimal digits")
}

fn kinds_of(rt: &(impl Abort + AllocGlobal), bytes: &[u8]) -> Vec<Kind> {
    let mut kinds = Vec::new(rt.alloc());
    for packet in Packets::new(bytes) {
        kinds.push(packet.kind).expect(rt, "memory");
    }
    kinds
}

fn exponents_of(rt: &(impl Abort + AllocGlobal), bytes: &[u8]) -> Vec<u32> {
    let mut exponents = Vec::new(rt.alloc());
    for packet in Packets::new(bytes) {
        if let Some(recovery) = read_recovery(&packet) {
            exponents.push(recovery.exponent()).expect(rt, "memory");
        }
    }
    exponents
}

fn has_exponents(rt: &(impl Abort + AllocGlobal), bytes: &[u8], exponents: &[u32]) -> bool {
    exponents_of(rt, bytes).as_slice() == exponents
}

fn packet(kind: Kind, body: &[u8]) -> Packet<'_> {
    Packet {
        set_id: [0; 16],
        kind,
        body,
    }
}

// The header of a packet that claims this length, with a wrong digest.
fn false_head(rt: &(impl Abort + AllocGlobal), claim: u64) -> Vec<u8> {
    [b"PAR2\0PKT".as_slice(), &claim.to_le_bytes(), &[7; 48]]
        .concat(rt.alloc())
        .expect(rt, "memory")
}

// A record with only this File ID.
fn record(rt: &(impl Abort + AllocGlobal), id: &[u8; 16]) -> FileRecord {
    FileRecord {
        id: *id,
        md5: [0; 16],
        md5_16k: [0; 16],
        length: 0,
        name: String::new(rt.alloc()),
        pairs: Vec::new(rt.alloc()),
    }
}

const DIGEST_OF_A: &[u8; 16] = b"\xe8\xdc\x40\x81\xb1\x34\x34\xb4\x51\x89\xa7\x20\xb7\x7b\x68\x18";

const PAIRS_OF_A: &[([u8; 16], u32)] = &[
    (
        *b"\xe2\xfc\x71\x4c\x47\x27\xee\x93\x95\xf3\x24\xcd\x2e\x7f\x33\x1f",
        0xed82cd11,
    ),
    (
        *b"\x1f\x76\x90\xeb\xdd\x9b\x4c\xaf\x8f\xab\x49\xca\x17\x57\xbf\x27",
        0x08337bb5,
    ),
];

// The record of the file `a`.
fn record_of_a(rt: &(impl Abort + AllocGlobal)) -> FileRecord {
    FileRecord {
        id: file_id(DIGEST_OF_A, 8, "a"),
        md5: *DIGEST_OF_A,
        md5_16k: *DIGEST_OF_A,
        length: 8,
        name: String::from_str(rt.alloc(), "a").expect(rt, "memory"),
        pairs: Vec::from_slice(rt.alloc(), PAIRS_OF_A).expect(rt, "memory"),
    }
}

// Hexadecimal strings, which of their bytes are left, the byte in which a bit is flipped, and the types of the packets
// there.
type Kinds = (
    &'static [&'static str],
    usize,
    Option<usize>,
    &'static [Kind],
);

const KINDS: &[Kinds] = &[
    // A volume with one recovery slice, and one cut short.
    (
        &[INDEX, RECOVERY_0],
        492,
        None,
        &[
            Kind::Main,
            Kind::FileDesc,
            Kind::Ifsc,
            Kind::Creator,
            Kind::Recovery,
        ],
    ),
    (
        &[INDEX, RECOVERY_0],
        491,
        None,
        &[Kind::Main, Kind::FileDesc, Kind::Ifsc, Kind::Creator],
    ),
    // The first byte of the Creator's body.
    (
        &[INDEX, RECOVERY_0],
        492,
        Some(400),
        &[Kind::Main, Kind::FileDesc, Kind::Ifsc, Kind::Recovery],
    ),
    (
        &[FOX_INDEX],
        464,
        None,
        &[Kind::Main, Kind::FileDesc, Kind::Ifsc, Kind::Creator],
    ),
    (
        &[FOX_VOLUME],
        992,
        None,
        &[
            Kind::Recovery,
            Kind::Main,
            Kind::FileDesc,
            Kind::Ifsc,
            Kind::Recovery,
            Kind::Main,
            Kind::FileDesc,
            Kind::Ifsc,
            Kind::Creator,
        ],
    ),
];

// The bytes of a row.
fn altered(rt: &(impl Abort + AllocGlobal), row: &Kinds) -> Vec<u8> {
    let mut bytes = decoded(rt, row.0);
    bytes.truncate(row.1);
    if let Some(at) = row.2
        && let Some(byte) = bytes.get_mut(at)
    {
        *byte ^= 1;
    }
    bytes
}

fn has_kinds(rt: &(impl Abort + AllocGlobal), row: &Kinds) -> bool {
    let bytes = altered(rt, row);
    bytes.len() == row.1 && kinds_of(rt, &bytes).as_slice() == row.3
}

#[test]
fn kinds_of_packets(rt: HostRuntime) {
    for (k, row) in KINDS.iter().enumerate() {
        assert!(rt; has_kinds(&rt, row), "row {k}");
    }
}

fn add_creator(rt: &(impl Abort + AllocGlobal), out: &mut Vec<u8>, id: &[u8; 16]) {
    append_creator(rt.alloc(), out, id).expect(rt, "memory");
}

// The index of a set of this file, with slices of 4 bytes.
fn written_index(rt: &(impl Abort + AllocGlobal), file: &FileRecord) -> Vec<u8> {
    let id = id_of(4, file);
    let mut bytes = Vec::new(rt.alloc());
    add_main(rt, &mut bytes, 4, file);
    add_description(rt, &mut bytes, &id, file);
    add_checksums(rt, &mut bytes, &id, file);
    add_creator(rt, &mut bytes, &id);
    bytes
}

fn add_recovery(
    rt: &(impl Abort + AllocGlobal),
    out: &mut Vec<u8>,
    id: &[u8; 16],
    e: u32,
    slice: &[u8],
)
    requires { length slice.now % 4 ≡ 0 }
{
    append_recovery(rt.alloc(), out, id, e, slice).expect(rt, "memory");
}

// The index of a set of this file, and after it the recovery slices from an exponent on.
fn written_volume(
    rt: &(impl Abort + AllocGlobal),
    file: &FileRecord,
    first: u32,
    slices: &[&[u8]],
) -> Vec<u8> {
    let mut bytes = written_index(rt, file);
    let mut e = first;
    for slice in slices {
        assert!(rt; slice.len() % 4 == 0);
        add_recovery(rt, &mut bytes, &id_of(4, file), e, slice);
        e = e.wrapping_add(1);
    }
    bytes
}

// An exponent, the recovery slices from it on, their volume, and its length.
const VOLUMES: &[(u32, &[&[u8]], &[&str], usize)] = &[
    (0, &[], &[INDEX], 420),
    (0, &[b"\x04\x04\x04\x0c"], &[INDEX, RECOVERY_0], 492),
    (
        1,
        &[b"\x5d\x4d\x51\x79", b"\xe5\x9f\xcd\x67"],
        &[INDEX, RECOVERY_1, RECOVERY_2],
        564,
    ),
];

#[test]
fn volumes_are_written(rt: HostRuntime) {
    let file = record_of_a(&rt);
    for (first, slices, buffers, len) in VOLUMES {
        let volume = written_volume(&rt, &file, *first, slices);
        assert!(rt;
            volume.len() == *len && volume == decoded(&rt, buffers),
            "from {first}"
        );
    }
}

#[test]
fn greatest_exponent(rt: HostRuntime) {
    let mut bytes = Vec::new(rt.alloc());
    add_recovery(&rt, &mut bytes, &[7; 16], u32::MAX, b"abcd");
    assert!(rt; has_exponents(&rt, &bytes, &[u32::MAX]));
}

// If the packet is the Main: whether the set has only this file.
fn main_agrees(packet: &Packet<'_>, file: &FileRecord) -> bool {
    match read_main(packet) {
        Some(main) => main.slice_size() == 4 && main.count() == 1 && main.id(0) == file.id,
        None => true,
    }
}

// If the packet is a File Description: whether it is of this file.
fn desc_agrees(packet: &Packet<'_>, file: &FileRecord) -> bool {
    let Some(desc) = read_desc(packet) else {
        return true;
    };
    let digests_agree = desc.md5() == file.md5 && desc.md5_16k() == file.md5_16k;
    let name_agrees = desc.name_bytes() == file.name.as_bytes();
    digests_agree && name_agrees && desc.id() == file.id && desc.length() == file.length
}

// If the packet has slice checksums: whether they are of this file.
fn ifsc_agrees(packet: &Packet<'_>, file: &FileRecord) -> bool {
    let Some(ifsc) = read_ifsc(packet) else {
        return true;
    };
    let pairs_agree = file
        .pairs
        .iter()
        .enumerate()
        .all(|(k, pair)| k < ifsc.count() && ifsc.pair(k) == *pair);
    ifsc.id() == file.id && ifsc.count() == file.pairs.len() && pairs_agree
}

// If the packet has a recovery slice: whether it is the first one.
fn recovery_agrees(packet: &Packet<'_>) -> bool {
    match read_recovery(packet) {
        Some(slice) => slice.exponent() == 0 && slice.bytes() == b"\x04\x04\x04\x0c".as_slice(),
        None => true,
    }
}

// Whether the packet belongs in the volume of this file.
fn agrees(packet: &Packet<'_>, file: &FileRecord) -> bool {
    main_agrees(packet, file)
        && desc_agrees(packet, file)
        && ifsc_agrees(packet, file)
        && recovery_agrees(packet)
}

fn all_agree(bytes: &[u8], file: &FileRecord) -> bool {
    for packet in Packets::new(bytes) {
        if !agrees(&packet, file) {
            return false;
        }
    }
    true
}

#[test]
fn bodies_of_a_volume(rt: HostRuntime) {
    assert!(rt; all_agree(&decoded(&rt, &[INDEX, RECOVERY_0]), &record_of_a(&rt)));
}

// The recovery slices of exponents 1 and 0, between false headers that claim this length.
fn slices_between_heads(rt: &(impl Abort + AllocGlobal), claim: u64) -> Vec<u8> {
    let head = false_head(rt, claim);
    [
        b"PAR2\0PKPAR2\0PKT".as_slice(),
        &head,
        &decoded(rt, &[RECOVERY_1]),
        &head,
        &decoded(rt, &[RECOVERY_0]),
        &head,
    ]
    .concat(rt.alloc())
    .expect(rt, "memory")
}

#[test]
fn packets_between_other_bytes(rt: HostRuntime) {
    for claim in [68, 144, 1_000_000, u64::MAX - 3] {
        assert!(rt;
            has_exponents(&rt, &slices_between_heads(&rt, claim), &[1, 0]),
            "at {claim}"
        );
    }
}

// The recovery slice of exponent 2, and a header after it.
fn head_at_the_end(rt: &(impl Abort + AllocGlobal)) -> Vec<u8> {
    [decoded(rt, &[RECOVERY_2]).as_slice(), &false_head(rt, 64)]
        .concat(rt.alloc())
        .expect(rt, "memory")
}

#[test]
fn heads_at_the_end(rt: HostRuntime) {
    let mut bytes = head_at_the_end(&rt);
    // The last header is cut at every byte.
    for _ in 0..64 {
        assert!(rt; has_exponents(&rt, &bytes, &[2]));
        bytes.pop();
    }
}

// The recovery slices of exponents 0 to 9, in packets of 72 bytes each.
fn ten_in_line(rt: &(impl Abort + AllocGlobal)) -> Vec<u8> {
    let mut bytes = Vec::new(rt.alloc());
    for e in 0..10 {
        add_recovery(rt, &mut bytes, &[7; 16], e, b"abcd");
    }
    bytes
}

#[test]
fn false_digest_in_line(rt: HostRuntime) {
    let mut bytes = ten_in_line(&rt);
    if let Some(byte) = bytes.get_mut(4 * 72 + 16) {
        *byte ^= 1;
    }
    assert!(rt; has_exponents(&rt, &bytes, &[0, 1, 2, 3, 5, 6, 7, 8, 9]));
}

#[test]
fn eighth_in_line_is_cut(rt: HostRuntime) {
    let mut bytes = ten_in_line(&rt);
    bytes.truncate(8 * 72 - 1);
    assert!(rt; has_exponents(&rt, &bytes, &[0, 1, 2, 3, 4, 5, 6]));
}

#[test]
fn two_lengths_in_line(rt: HostRuntime) {
    let mut bytes = ten_in_line(&rt);
    for e in 10..14 {
        add_recovery(&rt, &mut bytes, &[7; 16], e, b"abcdefgh");
    }
    add_recovery(&rt, &mut bytes, &[7; 16], 14, b"abcd");
    let exponents = [0, 1, 2, 3, 4, 5, 6, 7, 8, 9, 10, 11, 12, 13, 14];
    assert!(rt; has_exponents(&rt, &bytes, &exponents));
}

// Recovery packets of exponents 0 to 9 with this slice, each followed by a File Description and a Main.
fn ten_among_others(rt: &(impl Abort + AllocGlobal), slice: &[u8]) -> Vec<u8>
    requires { length slice.now % 4 ≡ 0 }
{
    let file = record_of_a(rt);
    let mut bytes = Vec::new(rt.alloc());
    for e in 0..10 {
        add_recovery(rt, &mut bytes, &[7; 16], e, slice);
        add_description(rt, &mut bytes, &[7; 16], &file);
        add_main(rt, &mut bytes, 4, &file);
    }
    bytes
}

// Whether all of them are found except for one whose slice is damaged.
fn has_all_but_fifth(rt: &(impl Abort + AllocGlobal), slice: &[u8]) -> bool
    requires { length slice.now % 4 ≡ 0 }
{
    let mut bytes = ten_among_others(rt, slice);
    let fifth = bytes.len() / 10 * 4;
    if let Some(byte) = bytes.get_mut(fifth + 70) {
        *byte ^= 1;
    }
    has_exponents(rt, &bytes, &[0, 1, 2, 3, 5, 6, 7, 8, 9]) && kinds_of(rt, &bytes).len() == 29
}

#[test]
fn false_digest_among_others(rt: HostRuntime) {
    assert!(rt; has_all_but_fifth(&rt, b"abcdefgh"));
    // These slices are longer than the packets between them, so eight packets are found ahead.
    assert!(rt; has_all_but_fifth(&rt, &[7; 1280]));
}

// The number of files that a Main with this body lists, or None if it isn't a Main.
fn count_listed(body: &[u8]) -> Option<usize> {
    match read_main(&packet(Kind::Main, body)) {
        Some(main) => Some(main.count()),
        None => None,
    }
}

const MAINS: &[(&[u8], Option<usize>)] = &[
    (b"\x04\0\0\0\0\0\0\0\x01\0\0\0sixteen bytes id", Some(1)),
    (b"\x04\0\0\0\0\0\0\0\0\0\0\0sixteen bytes id", Some(0)),
    (b"\x04\0\0\0\0\0\0\0\xff\xff\xff\xffsixteen bytes id", None),
];

#[test]
fn main_without_room_for_its_claim(rt: HostRuntime) {
    for (body, count) in MAINS {
        assert!(rt; count_listed(body) == *count);
    }
}

fn read_by(body: &[u8]) -> [bool; 4] {
    [
        read_main(&packet(Kind::Main, body)).is_some(),
        read_desc(&packet(Kind::FileDesc, body)).is_some(),
        read_ifsc(&packet(Kind::Ifsc, body)).is_some(),
        read_recovery(&packet(Kind::Recovery, body)).is_some(),
    ]
}

const ZEROS: &[u8; 76] = &[0; 76];

// Which of the four readers accept a body of zeros of this length.
const READERS: &[(usize, [bool; 4])] = &[
    (0, [false, false, false, false]),
    (3, [false, false, false, false]),
    (4, [false, false, false, true]),
    (11, [false, false, false, true]),
    (12, [true, false, false, true]),
    (16, [false, false, true, true]),
    (28, [true, false, false, true]),
    (36, [false, false, true, true]),
    (55, [false, false, false, true]),
    (56, [false, true, true, true]),
    (76, [true, true, true, true]),
];

#[test]
fn bodies_of_each_length(rt: HostRuntime) {
    for (len, read) in READERS {
        assert!(rt;
            ZEROS.get(..*len).is_some_and(|body| read_by(body) == *read),
            "at {len}"
        );
    }
}

// Whether one of the four readers accepts the packet.
fn is_read(packet: &Packet<'_>) -> bool {
    read_main(packet).is_some()
        || read_desc(packet).is_some()
        || read_ifsc(packet).is_some()
        || read_recovery(packet).is_some()
}

#[test]
fn packets_of_other_kinds(rt: HostRuntime) {
    let kind = Kind::Other(*b"PAR 2.0\0Other\0\0\0");
    assert!(rt; !is_read(&packet(kind, b"\x04\0\0\0\0\0\0\0\0\0\0\0")));
}

// Records with these File IDs.
fn records(rt: &(impl Abort + AllocGlobal), ids: &[[u8; 16]]) -> Vec<FileRecord> {
    let mut files = Vec::new(rt.alloc());
    for id in ids {
        files.push(record(rt, id)).expect(rt, "memory");
    }
    files
}

fn sorted(files: &mut [FileRecord]) -> Result<(), DuplicateId> {
    sort_ids(files)
}

const HIGH: &[u8; 16] = b"\0\0\0\0\0\0\0\0\0\0\0\0\0\0\0\x01";

const LOW: &[u8; 16] = b"\xff\0\0\0\0\0\0\0\0\0\0\0\0\0\0\0";

fn have_ids(files: &[FileRecord], ids: &[&[u8; 16]]) -> bool {
    for (file, id) in files.iter().zip(ids.iter()) {
        if file.id != **id {
            return false;
        }
    }
    files.len() == ids.len()
}

#[test]
fn identifiers_rise_as_little_endian_numbers(rt: HostRuntime) {
    let mut files = records(&rt, &[*HIGH, *LOW]);
    assert!(rt; sorted(&mut files) == Ok(()) && have_ids(&files, &[LOW, HIGH]));
}

#[test]
fn none_and_two_records_with_one_identifier(rt: HostRuntime) {
    assert!(rt; sorted(&mut []) == Ok(()));
    let mut files = records(&rt, &[[9; 16], [1; 16], [9; 16]]);
    assert!(rt; sorted(&mut files) == Err(DuplicateId) && files.len() == 3);
}

// Whether the packet is as in the index of par2cmdline.
fn is_of_fox(packet: &Packet<'_>) -> bool {
    match packet.kind {
        Kind::Main => read_main(packet).is_some_and(|main| main.slice_size() == 16
            && main.count() == 1),
        Kind::FileDesc => read_desc(packet).is_some_and(|desc| is_fox(&desc)),
        Kind::Ifsc => read_ifsc(packet).is_some_and(|ifsc| ifsc.count() == 3),
        _ => true,
    }
}

fn is_fox(desc: &DescView<'_>) -> bool {
    let id = file_id(&desc.md5_16k(), 45, "fox.txt");
    desc.length() == 45 && desc.name_bytes() == b"fox.txt".as_slice() && desc.id() == id
}

#[test]
fn index_of_par2cmdline(rt: HostRuntime) {
    assert!(rt; Packets::new(&decoded(&rt, &[FOX_INDEX])).all(|packet| is_of_fox(&packet)));
}

#[test]
fn volume_of_par2cmdline(rt: HostRuntime) {
    assert!(rt; has_exponents(&rt, &decoded(&rt, &[FOX_VOLUME]), &[0, 1]));
}
