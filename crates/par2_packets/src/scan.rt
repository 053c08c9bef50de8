//! Scanning bytes for packets: the iterator `Packets` returns the accepted packets of a file. It is created anew for
//! each further file of a set by `in_bytes`.

ghost use Rattle.std.specs.Prelude.{◌≡◌, [], ◌∷◌, is_some, IfSome, MatchOption};
ghost use Rattle.std.specs.Iterator.{YieldsFirstBy, item_count};
ghost use Rattle.par2_spec.specs.Packets as packets;
ghost use Rattle.par2_packets.specs.PacketViews.{packet_view, remaining_packets, rest_of};

use crate::append::kind_of;
use crate::cursor::{Cursor, MAGIC, claimed_length};
use crate::views::block;
use memchr::memmem::Finder;
use par2_spec::Kind;

/// A packet. Its body is borrowed from the bytes that it was found in.
#[derive(Clone, Copy, Drop)]
pub struct Packet<'a> {
    /// The Recovery Set ID.
    pub set_id: [u8; 16],
    pub kind: Kind,
    pub body: &'a [u8],
}

// The packet at the cursor, which doesn't move, if one is accepted there: the claimed length fits and the MD5 is right.
#[tactic(auto, unfolding(par2_spec::specs::Packets::first_packet))]
fn packet_at<'a>(cursor: &mut Cursor<'a>) -> Option<Packet<'a>>
    ensures begins { is_some result ≡ packets.begins_with_packet (rest_of cursor.old) }
    ensures first { IfSome result (λ p. packet_view p ≡ packets.first_packet (rest_of cursor.old)) }
    ensures kept { rest_of cursor.new ≡ rest_of cursor.old }
{
    let bytes = cursor.rest();
    let len = claimed_length(bytes)?;
    if cursor.digest(len) != block(bytes, 16) {
        return None;
    }
    Some(Packet {
        set_id: block(bytes, 32),
        kind: kind_of(block(bytes, 48)),
        body: &bytes[64..len],
    })
}

// The next accepted packet, or `None` at the end of the bytes. The cursor moves past it.
fn next_packet<'a>(cursor: &mut Cursor<'a>) -> Option<Packet<'a>>
    ensures { let found = packets.accepted (rest_of cursor.old) in
        let others = packets.accepted (rest_of cursor.new) in
        MatchOption result ((found ≡ []) × (others ≡ []))
        (λ packet. found ≡ packet_view packet ∷ others) }
{
    let finder = Finder::new(MAGIC);
    while let Some(place) = finder.find(cursor.rest()) {
        cursor.advance(place);
        if let Some(packet) = packet_at(cursor) {
            cursor.advance(64 + packet.body.len());
            return Some(packet);
        }
        cursor.advance(1);
    }
    None
}

/// The accepted packets in bytes, in order: those with the magic, a claimed length that is a multiple of 4, at least
/// 64 and within the bytes, and the right MD5. Anything between them is skipped. After a packet with a false MD5 the
/// scan continues at the next byte, so its claimed length hides no packet.
///
/// It takes a search for the magic and one MD5 of each packet. Packets of one length are digested side by side, even
/// with others between them. A false packet also costs the MD5 of its claimed length, so an adversary's n bytes can
/// cost the MD5 of up to n * n / 32 bytes.
#[derive(Clone, Copy, Drop)]
pub struct Packets<'a> {
    cursor: Cursor<'a>,
}

impl<'a> Packets<'a> {
    /// Scans these bytes. Neither this nor the iterator allocates.
    pub fn new(bytes: &'a [u8]) -> Packets<'a>
        ensures { remaining_packets result ≡ packets.accepted bytes.now }
    {
        Packets {
            cursor: Cursor::new(bytes),
        }
    }

    /// Scans another file of the same set. Each volume repeats packets of the index file. So the longest packet that
    /// was digested alone so far isn't digested again when it is repeated: its bytes are compared.
    pub fn in_bytes(&self, bytes: &'a [u8]) -> Packets<'a>
        ensures { remaining_packets result ≡ packets.accepted bytes.now }
    {
        Packets {
            cursor: self.cursor.in_bytes(bytes),
        }
    }
}

impl<'a> Iterator for Packets<'a> {
    type Item = Packet<'a>;

    ghost next_gives = { YieldsFirstBy packet_view remaining_packets };

    ghost remaining = { item_count remaining_packets };

    fn next(&mut self) -> Option<Packet<'a>> {
        next_packet(&mut self.cursor)
    }
}
