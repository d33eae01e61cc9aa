//! Names of variables, arrays, monitors and labels.
ghost use Rattle.std.specs.Prelude.{◌≡◌, ◌↔◌, ◌≤◌, true, false, IsTrue, IfSome, IfNone, take, length};
ghost use Rattle.std.specs.List.{list_all};
ghost use Rattle.stride_isa.specs.Names.{starts_name, continues_name, is_name};

use crate::limits::NAME_LIMIT;
use std::marker::Model;

/// A name: 1 to 32 bytes, a letter or `_` and then letters, digits and `_`. Contracts see its bytes.
#[derive(Debug, Drop)]
pub struct Name {
    bytes: [u8; NAME_LIMIT],
    len: usize,
}

impl Model for Name {
    ghost use Rattle.std.specs.Prelude.{◌≡◌, ◌≤◌, ℕ, List, true, take};
    ghost use Rattle.stride_isa.specs.Limits.{name_limit};
    ghost use Rattle.stride_isa.specs.Names.{is_name};

    ghost Value = { List ℕ };

    ghost view = { λ n. take n.len n.bytes };

    ghost invariant = { λ n. (n.len ≤ name_limit) × (is_name (take n.len n.bytes) ≡ true) };
}

fn starts(byte: u8) -> bool
    ensures { result ≡ starts_name byte }
{
    byte.is_ascii_alphabetic() || byte == b'_'
}

fn continues(byte: u8) -> bool
    ensures { result ≡ continues_name byte }
{
    byte.is_ascii_alphanumeric() || byte == b'_'
}

fn all_continue(bytes: &[u8]) -> bool
    ensures { result ≡ list_all continues_name bytes.now }
{
    bytes.iter().all(|byte| continues(*byte))
}

fn spells_name(bytes: &[u8]) -> bool
    ensures { result ≡ is_name bytes.now }
{
    if bytes.is_empty() || bytes.len() > NAME_LIMIT {
        return false;
    }
    starts(bytes[0]) && all_continue(bytes)
}

impl Name {
    /// The name that these bytes spell, or `None` exactly where they are no name.
    pub fn of(bytes: &[u8]) -> Option<Name>
        ensures name { IfSome result (λ name. name ≡ bytes.now) }
        ensures spelled { IfSome result (λ _. is_name bytes.now ≡ true) }
        ensures none { IfNone result (is_name bytes.now ≡ false) }
    {
        if !spells_name(bytes) {
            return None;
        }
        let mut kept = [0; NAME_LIMIT];
        let (front, _) = kept.split_at_mut(bytes.len());
        front.copy_from_slice(bytes);
        Some(Name {
            bytes: kept,
            len: bytes.len(),
        })
    }

    /// The bytes of the name.
    pub fn as_slice(&self) -> &[u8]
        ensures bytes { result.now ≡ self.now }
        ensures spelled { is_name self.now ≡ true }
    {
        self.bytes.split_at(self.len).0
    }
}
