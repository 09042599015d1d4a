ghost use Rattle.std.specs.Prelude.{◌≡◌, ◌↔◌, IsTrue, IsSome, IfSome};
ghost use Rattle.std.specs.List.{list_all};
ghost use Rattle.net_names.specs.Name.{is_name, is_name_byte};

use std::hash::{Hash, Hasher};
use std::marker::Model;

/// The most bytes of a name: one less than the kernel's IFNAMSIZ.
const MAX_LEN: usize = 15;

/// The name of a link or a socket: 1 to 15 bytes of `A-Z a-z 0-9 _ . -`.
#[derive(Clone, Copy, Debug)]
pub struct Name {
    buffer: [u8; MAX_LEN],
    len: u8,
}

impl Model for Name {
    ghost use Rattle.std.specs.Prelude.{◌≡◌, ◌≤◌, ◌-◌, ◌++◌, List, ℕ, take, drop, replicate, length, true};
    ghost use Rattle.net_names.specs.Name.{is_name, padded_back};

    ghost Value = { List ℕ };

    ghost view = { λ name. take name.len name.buffer };

    ghost invariant = { λ name. (length name.buffer ≡ 15) × (name.len ≤ 15) ×
        (is_name (take name.len name.buffer) ≡ true) ×
        (drop name.len name.buffer ≡ replicate (15 - name.len) 0) };

    ghost inverse = { λ bytes. record {
      buffer = bytes ++ replicate (15 - length bytes) 0;
      len = length bytes;
    } };

    ghost inverse_ok = { λ name h. λ i. record {
      buffer = (padded_back name.buffer name.len h.0 h.1 h.3).0 i;
      len = (padded_back name.buffer name.len h.0 h.1 h.3).1 i;
    } };
}

impl PartialEq for Name {
    ghost use Rattle.std.proofs.Common.{rules};
    ghost use Rattle.std.specs.Cmp.Rules.{comparing};
    ghost use Rattle.std.specs.Str.{bytes_eq};

    ghost eq = { bytes_eq };

    ghost laws = { Prim.search (comparing, rules) };

    fn eq(&self, other: &Name) -> bool {
        self.as_bytes() == other.as_bytes()
    }
}

impl Eq for Name {
    ghost use Rattle.std.proofs.Common.{rules};
    ghost use Rattle.std.specs.Cmp.Rules.{comparing};

    ghost laws = { Prim.search (comparing, rules) };
}

impl Hash for Name {
    ghost use Rattle.std.proofs.Common.{rules};
    ghost use Rattle.std.specs.Cmp.Rules.{hashing};
    ghost use Rattle.std.specs.Hash as fed;

    ghost hash_input = { fed.slice fed.u8 };

    ghost respects_eq = { Prim.search (hashing, rules) };

    fn hash<H: Hasher>(&self, state: &mut H) {
        self.as_bytes().hash(state);
    }
}

fn is_name_byte(byte: u8) -> bool
    ensures { result ≡ is_name_byte byte }
{
    byte.is_ascii_alphanumeric() || matches!(byte, b'_' | b'.' | b'-')
}

fn are_name_bytes(bytes: &[u8]) -> bool
    ensures { result ≡ list_all is_name_byte bytes.now }
{
    bytes.iter().all(|byte| is_name_byte(*byte))
}

impl Name {
    /// The name of these bytes, where they have the form of one.
    pub fn from_bytes(bytes: &[u8]) -> Option<Name>
        ensures form { IsSome result ↔ IsTrue (is_name bytes.now) }
        ensures bytes { IfSome result (λ name. name ≡ bytes.now) }
    {
        if bytes.is_empty() || bytes.len() > MAX_LEN || !are_name_bytes(bytes) {
            return None;
        }
        let mut buffer = [0; MAX_LEN];
        buffer[..bytes.len()].copy_from_slice(bytes);
        Some(Name {
            buffer,
            len: bytes.len() as u8,
        })
    }

    pub fn as_bytes(&self) -> &[u8]
        ensures bytes { result.now ≡ self.now }
        ensures form { IsTrue (is_name result.now) }
    {
        &self.buffer[..self.len as usize]
    }
}
