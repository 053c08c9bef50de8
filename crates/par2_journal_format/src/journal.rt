//! The parts of a journal: owned as `decode` reads them, and borrowed as `encode` and `finish_both` write them. A law
//! about its bytes is the contract of a function that does nothing.

ghost use Rattle.std.specs.Prelude.{◌≡◌, ◌≤◌, ◌+◌, ℕ, List, length};
ghost use Rattle.par2_spec.specs.Prelude.{Journal as Defined, Spells};
ghost use Rattle.par2_spec.specs.Journals as journals;

use par2_files::Changes;
use par2_spec::Version;

/// A decoded journal.
#[derive(Drop)]
pub struct Journal {
    pub version: Version,
    /// The fingerprint of the folder; in a halfway journal, of the folder before the command.
    pub fingerprint: [u8; 16],
    /// How many entries are undos. The others are redos.
    pub cursor: usize,
    /// The oldest first.
    pub entries: Vec<Changes>,
    /// The halfway command, if there is one.
    pub halfway: Option<HalfwayPart>,
}

/// A command that a stop left halfway.
#[derive(Drop)]
pub struct HalfwayPart {
    /// The fingerprint after each change of the command.
    pub fingerprints: Vec<[u8; 16]>,
    /// The changes that take the command back, in order.
    pub back: Changes,
}

/// The parts from which a settled journal of version 2 is written. It borrows them.
#[derive(Drop)]
pub struct JournalView<'a> {
    pub fingerprint: [u8; 16],
    pub cursor: usize,
    pub entries: &'a [Changes],
    /// Entries after those in `entries`.
    pub newer: &'a [Changes],
    ghost within: { cursor ≤ length entries.now + length newer.now },
}

/// The borrowed parts of a [`HalfwayPart`].
#[derive(Drop)]
pub struct HalfwayPartView<'a> {
    pub fingerprints: &'a [[u8; 16]],
    pub back: &'a Changes,
    ghost some: { 1 ≤ length back.now },
    ghost each: { length fingerprints.now ≡ length back.now },
}

// The first eight bytes of a journal, which say its version.
pub(crate) fn heading(version: Version) -> &'static [u8]
    ensures { result.now ≡ journals.heading version }
{
    match version {
        Version::One => b"P2UNDO1\n".as_slice(),
        Version::Two => b"P2UNDO2\n".as_slice(),
    }
}

/// Bytes spell at most one journal.
pub fn one_reading()
    ensures { (bytes : List ℕ) (a b : Defined) → Spells bytes a → Spells bytes b → a ≡ b }
{}
