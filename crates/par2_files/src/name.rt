//! File names, stored inline.
ghost use Rattle.std.specs.Prelude.{◌≡◌, ◌↔◌, ◌==◌, ◌≤◌, ◌&&◌, ◌||◌, nat_le, length, is_some, IfOk, IfSome, IsOk, IsTrue, Ok, Some, None, nat_eq, refl, codes};
ghost use Rattle.std.specs.Ordering.{nat_cmp};
ghost use Rattle.std.specs.Cmp.{on_equiv, on_total, on_po, on_per, partial_equiv_from_equiv};
ghost use Rattle.std.specs.Cmp.Lexicographic.{pointwise, slice_cmp, nat_list_eq_equiv, nat_list_cmp_total, texts_po, texts_ties};
ghost use Rattle.std.specs.List.{starts_with};
ghost use Rattle.par2_spec.specs.Prelude.{is_name, is_par_name};

use arrayvec::ArrayString;
use std::cmp::Ordering;
use std::marker::Model;
use thiserror::Error;

/// The name of a file: 1 to 255 bytes of UTF-8, without `/` and zero bytes, neither `.` nor `..`, and not
/// beginning with `.par2undo`. Names are ordered by their bytes.
#[derive(Debug, Drop)]
pub struct Name {
    string: ArrayString<255>,
}

impl Model for Name {
    ghost use Rattle.std.specs.Prelude.{ℕ, List, IsTrue};
    ghost use Rattle.par2_spec.specs.Names.{is_name};

    ghost Value = { List ℕ };

    ghost view = { λ n. n.string.bytes };

    ghost invariant = { λ n. IsTrue (is_name n.string.bytes) };
}

/// The string is not the name of a file: see [`Name`].
#[derive(Debug, Error, Clone, Copy)]
#[error("the text is no name of a file")]
pub struct BadName;

// Whether the length is 1 to 255 bytes.
fn has_length(bytes: &[u8]) -> bool
    ensures { result ≡ (nat_le 1 (length bytes.now) && nat_le (length bytes.now) 255) }
{
    !bytes.is_empty() && bytes.len() <= 255
}

/// Whether the bytes begin with `.par2undo`, the prefix of the journal's files. Such a file isn't one of the folder.
pub fn is_reserved(bytes: &[u8]) -> bool
    ensures { result ≡ starts_with nat_eq bytes.now (codes ".par2undo") }
{
    bytes.starts_with(b".par2undo")
}

// Whether the string is a name.
fn is_name(string: &str) -> bool
    ensures name { result ≡ is_name string.now }
    ensures fits { IsTrue result → length string.now ≤ 255 }
{
    let bytes = string.as_bytes();
    if !has_length(bytes) || bytes.contains(&b'/') || bytes.contains(&0) {
        return false;
    }
    if string == "." || string == ".." {
        return false;
    }
    !is_reserved(bytes)
}

impl Name {
    /// The string as a name.
    pub fn new(string: &str) -> Result<Name, BadName>
        ensures variant { IsOk result ↔ IsTrue (is_name string.now) }
        ensures ok { IfOk result (λ name. name ≡ string.now) }
    {
        if is_name(string)
            && let Ok(string) = ArrayString::from(string)
        {
            return Ok(Name { string });
        }
        Err(BadName)
    }

    /// The bytes as a name, if they are one: for the names in packets and in a journal, which needn't be UTF-8.
    pub fn from_bytes(bytes: &[u8]) -> Option<Name>
        ensures variant { is_some result ≡ is_name bytes.now }
        ensures value { IfSome result (λ name. name ≡ bytes.now) }
    {
        let Ok(string) = str::from_utf8(bytes) else {
            return None;
        };
        Name::new(string).ok()
    }

    /// The name as a string, without `/` and NUL.
    pub fn as_str(&self) -> &str
        ensures bytes { result.now ≡ self.now }
        ensures name { IsTrue (is_name self.now) }
    {
        self.string.as_str()
    }

    /// Whether the name ends in `.par2`, ignoring ASCII case. Packets are sought in files with such names, and an input
    /// of a create can't have one.
    pub fn is_par(&self) -> bool
        ensures { result ≡ is_par_name self.now }
    {
        let bytes = self.as_str().as_bytes();
        let ending = &bytes[bytes.len().saturating_sub(5)..];
        ending.eq_ignore_ascii_case(b".par2")
    }

    /// A copy of the name. It doesn't allocate.
    pub fn copied(&self) -> Name
        ensures { result ≡ self.now }
    {
        Name {
            string: self.string,
        }
    }
}

impl PartialEq for Name {
    ghost eq = { λ s t. pointwise nat_eq s t };

    ghost laws = { on_per (λ s. s) (partial_equiv_from_equiv nat_list_eq_equiv) };

    fn eq(&self, other: &Self) -> bool {
        self.as_str() == other.as_str()
    }
}

impl Eq for Name {
    ghost laws = { on_equiv (λ s. s) nat_list_eq_equiv };
}

impl PartialOrd for Name {
    ghost partial_cmp = { λ s t. Some (slice_cmp nat_cmp s t) };

    ghost laws = { on_po (λ s. s) texts_po };

    fn partial_cmp(&self, other: &Self) -> Option<Ordering> {
        Some(self.cmp(other))
    }
}

impl Ord for Name {
    ghost cmp = { λ s t. slice_cmp nat_cmp s t };

    ghost total = { on_total (λ s. s) nat_list_cmp_total };

    ghost matches_partial_cmp = { λ s t. refl };

    ghost matches_eq = { λ s t. texts_ties s t };

    fn cmp(&self, other: &Self) -> Ordering {
        self.as_str().cmp(other.as_str())
    }
}
