//! The fields of an event's bytes, one after the other.
ghost use Rattle.std.specs.Prelude.{◌≡◌, ℕ, ◌+◌, ◌≤◌, not, nat_lt, List, length, take, drop, position, IfOk};
ghost use Rattle.eon_model.specs.EventFault.{NameField, NodeField, RateField, CentreField, FlagField, CountField, SlotField, DigestField, FieldAt};
ghost use Rattle.std.specs.Int.{w16, w32, from_be_bytes, cast_signed};
ghost use Rattle.eon_model.specs.CommandText.{is_rate, is_centre};
ghost use Rattle.flex_grid.specs.Makes.{slot_of};
ghost use Rattle.leg_state.specs.Parts.{AreFibreNumbers};
ghost use Rattle.journal_record.specs.Reading.{field_at, fibres_at, one_byte, name_in, rate_in, centre_in, class_in, class_of_flag, slot_in, whole_in};
ghost use Rattle.journal_record.specs.Given.{Leaves, fault_told};

use crate::fault::EventFault;
use eon_base::name::Name;
use eon_model::Class;
use flex_grid::slot::Slot;
use leg_state::FibreNumbers;

/// The bytes of a digest.
pub const DIGEST_BYTES: usize = 32;

#[tactic(auto, using(crate::proofs::FieldSteps::two_of))]
fn two(bytes: &[u8]) -> u16
    requires { length bytes.now ≡ 2 }
    ensures { result ≡ from_be_bytes w16 bytes.now }
{
    u16::from_be_bytes([bytes[0], bytes[1]])
}

#[tactic(auto, using(crate::proofs::FieldSteps::two_of))]
fn signed(bytes: &[u8]) -> i16
    requires { length bytes.now ≡ 2 }
    ensures { result ≡ cast_signed w16 (from_be_bytes w16 bytes.now) }
{
    i16::from_be_bytes([bytes[0], bytes[1]])
}

#[tactic(auto, using(crate::proofs::FieldSteps::four_of))]
fn four(bytes: &[u8]) -> u32
    requires { length bytes.now ≡ 4 }
    ensures { result ≡ from_be_bytes w32 bytes.now }
{
    u32::from_be_bytes([bytes[0], bytes[1], bytes[2], bytes[3]])
}

fn is_rate(rate: u32) -> bool
    ensures { result ≡ is_rate rate }
{
    1 <= rate && rate <= 60000
}

fn is_centre(n: i16) -> bool
    ensures { result ≡ is_centre n }
{
    -4096 <= n && n <= 4095
}

fn class_of(flag: u8) -> Class
    ensures { result ≡ class_of_flag flag }
{
    match flag {
        0 => Class::Bare,
        1 => Class::Shared,
        _ => Class::Dual,
    }
}

// The slot of these bytes, if they are in range.
fn slot_of(bytes: &[u8]) -> Option<Slot>
    requires { length bytes.now ≡ 4 }
    ensures value { result ≡ slot_of (slot_in bytes.now).n (slot_in bytes.now).m }
{
    Slot::make(signed(&bytes[..2]), two(&bytes[2..]))
}

fn digest_of(bytes: &[u8]) -> [u8; DIGEST_BYTES]
    requires { length bytes.now ≡ 32 }
    ensures { result ≡ bytes.now }
{
    let mut digest = [0; DIGEST_BYTES];
    digest.copy_from_slice(bytes);
    digest
}

// The first `most` bytes, or as many as there are.
fn front(most: usize, bytes: &[u8]) -> &[u8]
    ensures { result.now ≡ take most bytes.now }
{
    if bytes.len() < most {
        bytes
    } else {
        &bytes[..most]
    }
}

// The place of the first number that no fibre has.
fn first_unknown(fibres: &[u8]) -> Option<usize>
    ensures { result ≡ position (λ b. not (nat_lt b 128)) fibres.now }
{
    fibres.iter().position(|fibre| *fibre >= 128)
}

/// The bytes that are still to be read, and the offset of the first of them. Each call reads a field. After an
/// `Err` nothing is known of them.
#[derive(Drop)]
pub struct Fields<'a> {
    pub rest: &'a [u8],
    pub at: usize,
}

impl<'a> Fields<'a> {
    // Goes over so many bytes, which are there.
    fn step(&mut self, size: usize)
        requires there { size ≤ length self.old.rest.now }
        requires near { self.old.at ≤ 1000 }
        ensures rest { self.new.rest.now ≡ drop size self.old.rest.now }
        ensures at { self.new.at ≡ self.old.at + size }
    {
        self.rest = &self.rest[size..];
        self.at += size;
    }

    // The field that begins here is out of its range.
    fn refused(&self) -> EventFault
        requires { self.now.at ≤ 1000 }
        ensures { fault_told result ≡ FieldAt self.now.at }
    {
        EventFault::Field { at: self.at as u16 }
    }

    /// A byte with the length of a name, and the name.
    #[tactic(auto, using(crate::proofs::FieldSteps::name_is), unfolding(crate::specs::Reading::field_at))]
    pub fn name(&mut self) -> Result<Name, EventFault>
        requires { self.old.at ≤ 900 }
        ensures value { Leaves (λ x. x) result self.new.at self.new.rest.now (field_at NameField name_in self.old.at self.old.rest.now) }
        ensures near { IfOk result (λ x. self.new.at ≤ self.old.at + 33) }
    {
        let Some((count, others)) = self.rest.split_first() else {
            return Err(EventFault::Short);
        };
        let len = usize::from(*count);
        if others.len() < len {
            return Err(EventFault::Short);
        }
        let Ok(name) = Name::read(&others[..len]) else {
            return Err(self.refused());
        };
        self.step(1 + len);
        Ok(name)
    }

    /// A node's number.
    #[tactic(auto, unfolding(crate::specs::Reading::field_at))]
    pub fn node(&mut self) -> Result<u8, EventFault>
        requires { self.old.at ≤ 900 }
        ensures value { Leaves (λ x. x) result self.new.at self.new.rest.now (field_at NodeField one_byte self.old.at self.old.rest.now) }
        ensures near { IfOk result (λ x. self.new.at ≤ self.old.at + 1) }
    {
        let Some(node) = self.rest.first() else {
            return Err(EventFault::Short);
        };
        if *node >= 64 {
            return Err(self.refused());
        }
        self.step(1);
        Ok(*node)
    }

    /// A rate in Gbit/s.
    #[tactic(auto, unfolding(crate::specs::Reading::field_at))]
    pub fn rate(&mut self) -> Result<u32, EventFault>
        requires { self.old.at ≤ 900 }
        ensures value { Leaves (λ x. x) result self.new.at self.new.rest.now (field_at RateField rate_in self.old.at self.old.rest.now) }
        ensures near { IfOk result (λ x. self.new.at ≤ self.old.at + 4) }
    {
        if self.rest.len() < 4 {
            return Err(EventFault::Short);
        }
        let rate = four(&self.rest[..4]);
        if !is_rate(rate) {
            return Err(self.refused());
        }
        self.step(4);
        Ok(rate)
    }

    /// A centre in units of 6.25 GHz.
    #[tactic(auto, unfolding(crate::specs::Reading::field_at))]
    pub fn centre(&mut self) -> Result<i16, EventFault>
        requires { self.old.at ≤ 900 }
        ensures value { Leaves (λ x. x) result self.new.at self.new.rest.now (field_at CentreField centre_in self.old.at self.old.rest.now) }
        ensures near { IfOk result (λ x. self.new.at ≤ self.old.at + 2) }
    {
        if self.rest.len() < 2 {
            return Err(EventFault::Short);
        }
        let n = signed(&self.rest[..2]);
        if !is_centre(n) {
            return Err(self.refused());
        }
        self.step(2);
        Ok(n)
    }

    /// A class by its flag.
    #[tactic(auto, unfolding(crate::specs::Reading::field_at))]
    pub fn class(&mut self) -> Result<Class, EventFault>
        requires { self.old.at ≤ 900 }
        ensures value { Leaves (λ x. x) result self.new.at self.new.rest.now (field_at FlagField class_in self.old.at self.old.rest.now) }
        ensures near { IfOk result (λ x. self.new.at ≤ self.old.at + 1) }
    {
        let Some(flag) = self.rest.first() else {
            return Err(EventFault::Short);
        };
        if *flag >= 3 {
            return Err(self.refused());
        }
        self.step(1);
        Ok(class_of(*flag))
    }

    /// The count of a path's fibres.
    #[tactic(auto, unfolding(crate::specs::Reading::field_at))]
    pub fn count(&mut self) -> Result<u8, EventFault>
        requires { self.old.at ≤ 900 }
        ensures value { Leaves (λ x. x) result self.new.at self.new.rest.now (field_at CountField one_byte self.old.at self.old.rest.now) }
        ensures near { IfOk result (λ x. self.new.at ≤ self.old.at + 1) }
        ensures few { IfOk result (λ count. count ≤ 63) }
    {
        let Some(count) = self.rest.first() else {
            return Err(EventFault::Short);
        };
        if *count == 0 || *count >= 64 {
            return Err(self.refused());
        }
        self.step(1);
        Ok(*count)
    }

    /// So many fibres.
    #[tactic(auto, unfolding(crate::specs::Reading::fibres_at))]
    pub fn fibres(&mut self, count: u8) -> Result<FibreNumbers, EventFault>
        requires near { self.old.at ≤ 900 }
        requires few { count ≤ 63 }
        ensures value { Leaves (λ x. x) result self.new.at self.new.rest.now (fibres_at count self.old.at self.old.rest.now) }
        ensures near { IfOk result (λ x. self.new.at ≤ self.old.at + 63) }
    {
        let count = usize::from(count);
        let there = front(count, self.rest);
        if let Some(i) = first_unknown(there) {
            return Err(EventFault::Field {
                at: (self.at + i) as u16,
            });
        }
        if self.rest.len() < count {
            return Err(EventFault::Short);
        }
        let fibres = FibreNumbers::make(there);
        self.step(count);
        Ok(fibres)
    }

    /// A slot.
    #[tactic(auto, unfolding(crate::specs::Reading::field_at))]
    pub fn slot(&mut self) -> Result<Slot, EventFault>
        requires { self.old.at ≤ 900 }
        ensures value { Leaves (λ x. x) result self.new.at self.new.rest.now (field_at SlotField slot_in self.old.at self.old.rest.now) }
        ensures near { IfOk result (λ x. self.new.at ≤ self.old.at + 4) }
    {
        if self.rest.len() < 4 {
            return Err(EventFault::Short);
        }
        let Some(slot) = slot_of(&self.rest[..4]) else {
            return Err(self.refused());
        };
        self.step(4);
        Ok(slot)
    }

    /// A digest.
    #[tactic(auto, unfolding(crate::specs::Reading::field_at))]
    pub fn digest(&mut self) -> Result<[u8; DIGEST_BYTES], EventFault>
        requires { self.old.at ≤ 900 }
        ensures value { Leaves (λ x. x) result self.new.at self.new.rest.now (field_at DigestField whole_in self.old.at self.old.rest.now) }
    {
        if self.rest.len() < DIGEST_BYTES {
            return Err(EventFault::Short);
        }
        let digest = digest_of(&self.rest[..DIGEST_BYTES]);
        self.step(DIGEST_BYTES);
        Ok(digest)
    }
}
