//! Sets of node numbers, of fibre numbers and of risk numbers, one bit for each number.

ghost use Rattle.std.specs.Prelude.{◌≡◌, ℕ, ◌==◌, ◌+◌, ◌/◌, ◌<◌, ◌^◌, not, length, slice_set, slice_index, bit_or};
ghost use Rattle.std.specs.List.{list_any};
ghost use Rattle.std.specs.FinSet as set;
ghost use Rattle.eon_model.specs.Sets.{meets as sets_meet};
ghost use Rattle.net_graph.specs.Words.{has_bit, with_bit, words_meet as some_common_bit};

use std::marker::Model;

/// Bits in one word.
const WORD: u16 = 64;

/// Whether this bit of the words is 1.
fn bit_is_set(words: &[u64], bit: u16) -> bool
    requires { bit / 64 < length words.now }
    ensures { result ≡ has_bit words.now bit }
{
    (words[(bit / WORD) as usize] >> (bit % WORD)) & 1 == 1
}

/// Makes this bit of the words 1.
fn set_bit(words: &mut [u64], bit: u16)
    requires { bit / 64 < length words.old }
    ensures { words.new ≡ with_bit words.old bit }
{
    words[(bit / WORD) as usize] |= 1 << (bit % WORD);
}

/// Whether some bit is 1 in both.
fn words_meet(a: &[u64], b: &[u64]) -> bool
    ensures common { result ≡ some_common_bit a.now b.now }
    ensures in_range { (j : ℕ) → slice_index a.now j < 2 ^ 64 }
{
    a.iter().zip(b.iter()).any(|(x, y)| x & y != 0)
}

/// Makes each bit 1 that is 1 in the other words.
fn join_words(words: &mut [u64], more: &[u64])
    requires { length words.old ≡ length more.now }
    ensures joined { (j : ℕ) → j < length words.old → slice_index words.new j ≡ bit_or (slice_index words.old j) (slice_index more.now j) }
    ensures len { length words.new ≡ length words.old }
{
    for i in 0..words.len() {
        words[i] |= more[i];
    }
}

/// A set of node numbers, each below 64.
#[derive(Debug, Drop)]
pub struct NodeSet {
    words: [u64; 1],
}

impl Model for NodeSet {
    ghost use Rattle.std.specs.Prelude.{◌≡◌, length};
    ghost use Rattle.eon_model.specs.Sets.{NumberSet, set_code};
    ghost use Rattle.net_graph.specs.Words.{bits_in};

    ghost Value = { NumberSet };

    ghost coded = { set_code };

    ghost view = { λ s. bits_in 64 s.words };

    ghost invariant = { λ s. length s.words ≡ 1 };
}

impl NodeSet {
    /// The set of no node.
    pub fn empty() -> NodeSet
        ensures { result ≡ set.empty }
    {
        NodeSet { words: [0; 1] }
    }

    /// Whether the node is in the set.
    pub fn has(&self, node: u8) -> bool
        requires { node < 64 }
        ensures { result ≡ set.contains self.now node }
    {
        bit_is_set(&self.words, node as u16)
    }

    /// The same set once more.
    pub fn copy(&self) -> NodeSet
        ensures { result ≡ self.now }
    {
        NodeSet { words: self.words }
    }

    /// The set with this node in it.
    pub fn with(mut self, node: u8) -> NodeSet
        requires { node < 64 }
        ensures { result ≡ set.insert self node }
    {
        set_bit(&mut self.words, node as u16);
        self
    }
}

/// A set of fibre numbers, each below 128.
#[derive(Debug, Drop)]
pub struct FibreSet {
    words: [u64; 2],
}

impl Model for FibreSet {
    ghost use Rattle.std.specs.Prelude.{◌≡◌, length};
    ghost use Rattle.eon_model.specs.Sets.{NumberSet, set_code};
    ghost use Rattle.net_graph.specs.Words.{bits_in};

    ghost Value = { NumberSet };

    ghost coded = { set_code };

    ghost view = { λ s. bits_in 128 s.words };

    ghost invariant = { λ s. length s.words ≡ 2 };
}

impl FibreSet {
    /// The set of no fibre.
    pub fn empty() -> FibreSet
        ensures { result ≡ set.empty }
    {
        FibreSet { words: [0; 2] }
    }

    /// Whether the fibre is in the set.
    pub fn has(&self, fibre: u8) -> bool
        requires { fibre < 128 }
        ensures { result ≡ set.contains self.now fibre }
    {
        bit_is_set(&self.words, fibre as u16)
    }

    /// The same set once more.
    pub fn copy(&self) -> FibreSet
        ensures { result ≡ self.now }
    {
        FibreSet { words: self.words }
    }

    /// The set with this fibre in it.
    pub fn with(mut self, fibre: u8) -> FibreSet
        requires { fibre < 128 }
        ensures { result ≡ set.insert self fibre }
    {
        set_bit(&mut self.words, fibre as u16);
        self
    }

    /// Whether both sets have a common member.
    pub fn meets(&self, other: &FibreSet) -> bool
        ensures { result ≡ sets_meet self.now other.now }
    {
        words_meet(&self.words, &other.words)
    }
}

/// A set of risk numbers, each below 256.
#[derive(Debug, Drop)]
pub struct RiskSet {
    words: [u64; 4],
}

impl Model for RiskSet {
    ghost use Rattle.std.specs.Prelude.{◌≡◌, length};
    ghost use Rattle.eon_model.specs.Sets.{NumberSet, set_code};
    ghost use Rattle.net_graph.specs.Words.{bits_in};

    ghost Value = { NumberSet };

    ghost coded = { set_code };

    ghost view = { λ s. bits_in 256 s.words };

    ghost invariant = { λ s. length s.words ≡ 4 };
}

impl RiskSet {
    /// The set of no risk.
    pub fn empty() -> RiskSet
        ensures { result ≡ set.empty }
    {
        RiskSet { words: [0; 4] }
    }

    /// Whether the risk is in the set.
    pub fn has(&self, risk: u16) -> bool
        requires { risk < 256 }
        ensures { result ≡ set.contains self.now risk }
    {
        bit_is_set(&self.words, risk)
    }

    /// The set with this risk in it.
    pub fn with(mut self, risk: u16) -> RiskSet
        requires { risk < 256 }
        ensures { result ≡ set.insert self risk }
    {
        set_bit(&mut self.words, risk);
        self
    }

    /// The same set once more.
    pub fn copy(&self) -> RiskSet
        ensures { result ≡ self.now }
    {
        RiskSet { words: self.words }
    }

    // Puts the risk into the set.
    pub(crate) fn add(&mut self, risk: u16)
        requires { risk < 256 }
        ensures { self.new ≡ set.insert self.old risk }
    {
        set_bit(&mut self.words, risk);
    }

    // Puts all members of the other set into this one.
    pub(crate) fn join(&mut self, other: &RiskSet)
        ensures { self.new ≡ set.union self.old other.now }
    {
        join_words(&mut self.words, &other.words);
    }

    /// Whether both sets have a common member.
    pub fn meets(&self, other: &RiskSet) -> bool
        ensures { result ≡ sets_meet self.now other.now }
    {
        words_meet(&self.words, &other.words)
    }
}
