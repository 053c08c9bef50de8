//! Views of packet bodies, which read the fields in place. The `read_` function of a kind checks the body of a packet
//! and returns the view. Fields are read by `block`, sixteen bytes, and by `u64_at` and `u32_at`, little-endian numbers.

ghost use Rattle.std.specs.Prelude.{◌≡◌, ◌<◌, Some, length, slice_get, ◌+◌, ◌≤◌};
ghost use Rattle.par2_spec.specs.Packets as packets;

use crate::record::Pair;
use crate::scan::Packet;
use byteorder::{ByteOrder, LittleEndian};
use par2_spec::Kind;
use std::marker::Model;

/// A view of the body of a Main packet.
#[derive(Drop)]
pub struct MainView<'a> {
    body: &'a [u8],
}

impl<'a> Model for MainView<'a> {
    ghost use Rattle.std.specs.Prelude.{◌+◌, ◌*◌, ◌≤◌, length};
    ghost use Rattle.par2_spec.specs.Packets.{MainBody, u32_at};
    ghost use Rattle.par2_packets.specs.PacketViews.{main_said};

    ghost Value = { MainBody };

    ghost view = { λ main. main_said main.body.now };

    ghost invariant = { λ main. 12 + 16 * u32_at 8 main.body.now ≤ length main.body.now };
}

impl<'a> MainView<'a> {
    /// The slice size in bytes.
    pub fn slice_size(&self) -> u64
        ensures { result ≡ self.now.slice_size }
    {
        u64_at(self.body, 0)
    }

    /// The number of files in the recovery set, which are those that recovery slices are computed from.
    pub fn count(&self) -> usize
        ensures { result ≡ length self.now.ids }
    {
        u32_at(self.body, 8) as usize
    }

    /// The File ID of file `k` of the recovery set, from 0.
    pub fn id(&self, k: usize) -> [u8; 16]
        requires { k < length self.now.ids }
        ensures { slice_get self.now.ids k ≡ Some result }
    {
        block(self.body, 12 + 16 * k)
    }
}

/// A view of the body of a FileDesc packet.
#[derive(Drop)]
pub struct DescView<'a> {
    body: &'a [u8],
}

impl<'a> Model for DescView<'a> {
    ghost use Rattle.std.specs.Prelude.{◌≤◌, length};
    ghost use Rattle.par2_spec.specs.Packets.{DescBody};
    ghost use Rattle.par2_packets.specs.PacketViews.{desc_said};

    ghost Value = { DescBody };

    ghost view = { λ desc. desc_said desc.body.now };

    ghost invariant = { λ desc. 56 ≤ length desc.body.now };
}

impl<'a> DescView<'a> {
    /// The File ID of the file that the packet describes.
    pub fn id(&self) -> [u8; 16]
        ensures { result ≡ self.now.id }
    {
        block(self.body, 0)
    }

    /// The MD5 of the file.
    pub fn md5(&self) -> [u8; 16]
        ensures { result ≡ self.now.md5 }
    {
        block(self.body, 16)
    }

    /// The MD5 of its first 16,384 bytes, or of all if it is shorter. Only tests call it: reading a set computes no File ID.
    pub fn md5_16k(&self) -> [u8; 16]
        ensures { result ≡ self.now.md5_16k }
    {
        block(self.body, 32)
    }

    /// The length of the file in bytes.
    pub fn length(&self) -> u64
        ensures { result ≡ self.now.length }
    {
        u64_at(self.body, 48)
    }

    /// The name without trailing NULs. It need not be UTF-8.
    pub fn name_bytes(&self) -> &'a [u8]
        ensures { result.now ≡ self.now.name }
    {
        let (_, name) = self.body.split_at(56);
        stripped(name)
    }
}

/// A view of the body of an IFSC packet.
#[derive(Drop)]
pub struct IfscView<'a> {
    body: &'a [u8],
}

impl<'a> Model for IfscView<'a> {
    ghost use Rattle.std.specs.Prelude.{◌≤◌, length};
    ghost use Rattle.par2_spec.specs.Packets.{IfscBody};
    ghost use Rattle.par2_packets.specs.PacketViews.{ifsc_said};

    ghost Value = { IfscBody };

    ghost view = { λ ifsc. ifsc_said ifsc.body.now };

    ghost invariant = { λ ifsc. 16 ≤ length ifsc.body.now };
}

impl<'a> IfscView<'a> {
    /// The File ID of the file whose slices have these checksums.
    pub fn id(&self) -> [u8; 16]
        ensures { result ≡ self.now.id }
    {
        let body = self.body;
        block(body, 0)
    }

    /// The number of slices that have checksums here.
    pub fn count(&self) -> usize
        ensures { result ≡ length self.now.pairs }
    {
        (self.body.len() - 16) / 20
    }

    /// The checksums of slice `k`, from 0.
    pub fn pair(&self, k: usize) -> Pair
        requires { k < length self.now.pairs }
        ensures { slice_get self.now.pairs k ≡ Some result }
    {
        let body = self.body;
        let at = 16 + 20 * k;
        (block(body, at), u32_at(body, at + 16))
    }
}

/// A view of the body of a RecvSlic packet.
#[derive(Drop)]
pub struct RecoveryView<'a> {
    body: &'a [u8],
}

impl<'a> Model for RecoveryView<'a> {
    ghost use Rattle.std.specs.Prelude.{◌≤◌, length, drop};
    ghost use Rattle.par2_spec.specs.Packets.{RecoveryBody, u32_at};

    ghost Value = { RecoveryBody };

    ghost view = { λ r. record { exponent = u32_at 0 r.body.now; bytes = drop 4 r.body.now } };

    ghost invariant = { λ recovery. 4 ≤ length recovery.body.now };
}

impl<'a> RecoveryView<'a> {
    /// The exponent of the recovery slice.
    pub fn exponent(&self) -> u32
        ensures { result ≡ self.now.exponent }
    {
        u32_at(self.body, 0)
    }

    /// The recovery slice.
    pub fn bytes(&self) -> &'a [u8]
        ensures { result.now ≡ self.now.bytes }
    {
        &self.body[4..]
    }
}

// The bytes without trailing NULs, with which a FileDesc pads the name.
fn stripped(bytes: &[u8]) -> &[u8]
    ensures { result.now ≡ packets.without_end_zeros bytes.now }
{
    let mut len = bytes.len();
    while len > 0 && bytes[len - 1] == 0 {
        len -= 1;
    }
    &bytes[..len]
}

/// Reads a Main packet: `None` for another kind, and for a malformed body, such as one that claims more files than
/// it lists.
#[tactic(auto, unfolding(par2_spec::specs::Packets::read_main))]
pub fn read_main<'a>(packet: &Packet<'a>) -> Option<MainView<'a>>
    ensures { result ≡ packets.read_main packet.now.kind packet.now.body.now }
{
    let body = packet.body;
    if packet.kind != Kind::Main || body.len() < 12 || (body.len() - 12) % 16 != 0 {
        return None;
    }
    if u32_at(body, 8) as usize > (body.len() - 12) / 16 {
        return None;
    }
    Some(MainView { body })
}

/// Reads a FileDesc packet: `None` for another kind, and for a body that is too short for the fields before the name.
#[tactic(auto, unfolding(par2_spec::specs::Packets::read_desc))]
pub fn read_desc<'a>(packet: &Packet<'a>) -> Option<DescView<'a>>
    ensures { result ≡ packets.read_desc packet.now.kind packet.now.body.now }
{
    let body = packet.body;
    if packet.kind != Kind::FileDesc || body.len() < 56 {
        return None;
    }
    Some(DescView { body })
}

/// Reads an IFSC packet: `None` for another kind, and for a body that isn't a File ID and 20 bytes for each slice.
#[tactic(auto, unfolding(par2_spec::specs::Packets::read_ifsc))]
pub fn read_ifsc<'a>(packet: &Packet<'a>) -> Option<IfscView<'a>>
    ensures { result ≡ packets.read_ifsc packet.now.kind packet.now.body.now }
{
    let body = packet.body;
    if packet.kind != Kind::Ifsc || body.len() < 16 || (body.len() - 16) % 20 != 0 {
        return None;
    }
    Some(IfscView { body })
}

/// Reads a RecvSlic packet: `None` for another kind, and for a body that is too short for the exponent.
#[tactic(auto, unfolding(par2_spec::specs::Packets::read_recovery))]
pub fn read_recovery<'a>(packet: &Packet<'a>) -> Option<RecoveryView<'a>>
    ensures { result ≡ packets.read_recovery packet.now.kind packet.now.body.now }
{
    let body = packet.body;
    if packet.kind != Kind::Recovery || body.len() < 4 {
        return None;
    }
    Some(RecoveryView { body })
}

/// The sixteen bytes from position `at` on.
pub fn block(bytes: &[u8], at: usize) -> [u8; 16]
    requires { at + 16 ≤ length bytes.now }
    ensures { result ≡ packets.bytes_at at 16 bytes.now }
{
    let mut block = [0; 16];
    block.copy_from_slice(&bytes[at..at + 16]);
    block
}

/// The little-endian number in the eight bytes from position `at` on.
#[tactic(auto, unfolding(par2_spec::specs::Packets::u64_at))]
pub fn u64_at(bytes: &[u8], at: usize) -> u64
    requires { at + 8 ≤ length bytes.now }
    ensures { result ≡ packets.u64_at at bytes.now }
{
    LittleEndian::read_u64(&bytes[at..at + 8])
}

/// The little-endian number in the four bytes from position `at` on.
#[tactic(auto, unfolding(par2_spec::specs::Packets::u32_at))]
pub fn u32_at(bytes: &[u8], at: usize) -> u32
    requires { at + 4 ≤ length bytes.now }
    ensures { result ≡ packets.u32_at at bytes.now }
{
    LittleEndian::read_u32(&bytes[at..at + 4])
}
