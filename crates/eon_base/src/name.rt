//! Names of nodes, fibres, groups, formats and services.
ghost use Rattle.std.specs.Prelude.{◌≡◌, ℕ, ◌-◌, ◌≤◌, List, ◌++◌, length, replicate, position, not, IsTrue, IfOk, Some, nat_eq, refl};
ghost use Rattle.std.specs.Result.{result_ok, result_err};
ghost use Rattle.std.specs.Ordering.{nat_cmp};
ghost use Rattle.std.specs.Hash as fed;
ghost use Rattle.std.specs.Cmp.Lexicographic.{pointwise, slice_cmp, nat_list_eq_equiv, nat_list_cmp_total, texts_ties, texts_po};
ghost use Rattle.std.specs.Cmp.{partial_equiv_from_equiv};
ghost use Rattle.std.specs.Cmp.Rules.{hashing};
ghost use Rattle.std.proofs.Common.{rules};
ghost use Rattle.eon_model.specs.Names.{is_name, is_name_byte};
ghost use Rattle.eon_base.specs.Names.{name_of, name_fault};

use std::cmp::Ordering;
use std::hash::{Hash, Hasher};
use std::marker::Model;

/// The greatest number of bytes of a name.
const MAX_LEN: usize = 32;

/// A name: 1 to 32 bytes of `a-z A-Z 0-9 _ - .`. A contract sees it as its bytes. Names are equal, in
/// order and hashed by their bytes.
#[derive(Clone, Copy, Debug)]
pub struct Name {
    bytes: [u8; MAX_LEN],
    len: u8,
}

impl Model for Name {
    ghost use Rattle.std.specs.Prelude.{ℕ, ◌-◌, List, ◌++◌, length, take, replicate};

    ghost Value = { List ℕ };

    ghost use Rattle.eon_base.specs.Padded.{IsPadded, padded_back};

    ghost view = { λ n. take n.len n.bytes };

    ghost invariant = { λ n. IsPadded n.bytes n.len };

    ghost inverse = { λ l. record { bytes = l ++ replicate (32 - length l) 0; len = length l } };

    ghost inverse_ok = { λ n h. λ i. record { bytes = (padded_back n.bytes n.len h).0 i; len = (padded_back n.bytes n.len h).1 i } };
}

/// Why bytes are no name.
#[derive(Clone, Copy, Debug, PartialEq, Eq)]
pub enum NameFault {
    /// There is no byte.
    Empty,
    /// There are more than 32 bytes.
    Long { len: usize },
    /// The first byte that no name has.
    BadByte { at: usize },
}

fn is_name_byte(byte: u8) -> bool
    ensures { result ≡ is_name_byte byte }
{
    matches!(byte, b'a'..=b'z' | b'A'..=b'Z' | b'0'..=b'9' | b'_' | b'-' | b'.')
}

// The place of the first byte that no name has.
fn bad_byte(bytes: &[u8]) -> Option<usize>
    ensures { result ≡ position (λ b. not (is_name_byte b)) bytes.now }
{
    bytes.iter().position(|byte| !is_name_byte(*byte))
}

// The bytes, and zeros after them.
fn padded(bytes: &[u8]) -> [u8; MAX_LEN]
    requires { length bytes.now ≤ 32 }
    ensures { result ≡ bytes.now ++ replicate (32 - length bytes.now) 0 }
{
    let mut place = [0; MAX_LEN];
    place[..bytes.len()].copy_from_slice(bytes);
    place
}

impl Name {
    /// The name that the bytes are; else what keeps them from being one: `Empty`, then `Long`, then
    /// the place of the first `BadByte`.
    pub fn read(bytes: &[u8]) -> Result<Name, NameFault>
        ensures name { IfOk result (λ name. name ≡ bytes.now) }
        ensures valid { IfOk result (λ name. IsTrue (is_name name)) }
        ensures value { result_ok result ≡ name_of bytes.now }
        ensures fault { result_err result ≡ name_fault bytes.now }
    {
        if bytes.is_empty() {
            return Err(NameFault::Empty);
        }
        let len = bytes.len();
        if len > MAX_LEN {
            return Err(NameFault::Long { len });
        }
        match bad_byte(bytes) {
            Some(at) => Err(NameFault::BadByte { at }),
            None => Ok(Name {
                bytes: padded(bytes),
                len: len as u8,
            }),
        }
    }

    /// The bytes of the name.
    pub fn bytes(&self) -> &[u8]
        ensures value { result.now ≡ self.now }
        ensures name { IsTrue (is_name self.now) }
    {
        &self.bytes[..usize::from(self.len)]
    }
}

impl PartialEq for Name {
    ghost eq = { pointwise nat_eq };

    ghost laws = { partial_equiv_from_equiv nat_list_eq_equiv };

    fn eq(&self, other: &Name) -> bool {
        self.bytes() == other.bytes()
    }
}

impl Eq for Name {
    ghost laws = { nat_list_eq_equiv };
}

impl PartialOrd for Name {
    ghost partial_cmp = { λ x y. Some (slice_cmp nat_cmp x y) };

    ghost laws = { texts_po };

    fn partial_cmp(&self, other: &Name) -> Option<Ordering> {
        Some(self.cmp(other))
    }
}

impl Ord for Name {
    ghost cmp = { slice_cmp nat_cmp };

    ghost total = { nat_list_cmp_total };

    ghost matches_partial_cmp = { λ x y. refl };

    ghost matches_eq = { texts_ties };

    fn cmp(&self, other: &Name) -> Ordering {
        self.bytes().cmp(other.bytes())
    }
}

impl Hash for Name {
    ghost hash_input = { fed.slice fed.u8 };

    ghost respects_eq = { Prim.search (hashing, rules) };

    fn hash<H: Hasher>(&self, state: &mut H) {
        self.bytes().hash(state);
    }
}
