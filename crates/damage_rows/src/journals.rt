//! Journals that are cut short, or changed in one byte or a few.

use crate::call::Ended;
use crate::networks::with_byte;
use crate::states::{State, replayed};
use crate::tally::Tally;
use std::alloc::{AllocError, Global};

/// The code of a journal that is refused.
const REFUSED: u8 = 5;

/// Where the digest of the network begins.
const DIGEST: usize = 8;

/// Where the first gate stands, behind the digest.
const FIRST_GATE: usize = 40;

/// Where the event stands, counted from its gate: behind the gate, its length and its number.
const EVENT: usize = 7;

/// A journal: its bytes, where its gates stand, the last one too, and the states behind none, one, and so on, of its events.
#[derive(Drop)]
pub(crate) struct Kept {
    pub(crate) bytes: Vec<u8>,
    pub(crate) gates: Vec<usize>,
    pub(crate) states: Vec<State>,
}

/// The last of these gates below this place, or the first one where none is.
fn gate_below(gates: &[usize], place: usize) -> usize {
    let mut last = FIRST_GATE;
    for gate in gates {
        if *gate < place {
            last = *gate;
        }
    }
    last
}

/// Whether it was refused at this place with this word.
fn is_refused(alloc: Global, ended: &Ended, at: usize, word: &str) -> Result<bool, AllocError> {
    let told = format!(in alloc; "journal {at} {word}\n")?;
    Ok(ended.is(REFUSED, told.as_bytes()))
}

/// These bytes in digits.
fn push_digits(text: &mut Vec<u8>, bytes: &[u8]) -> Result<(), AllocError> {
    for byte in bytes {
        text.push(digit(*byte >> 4))?;
        text.push(digit(*byte & 15))?;
    }
    Ok(())
}

/// The digit of a number below 16.
fn digit(number: u8) -> u8 {
    if number < 10 {
        b'0'.saturating_add(number)
    } else {
        b'a'.saturating_add(number.saturating_sub(10))
    }
}

/// The digest in the head of a journal.
fn digest_of(journal: &[u8]) -> &[u8] {
    journal.get(DIGEST..FIRST_GATE).unwrap_or(&[])
}

/// Whether it was refused as the journal of another network: this digest, where that one was to be.
fn is_other(alloc: Global, ended: &Ended, kept: &[u8], own: &[u8]) -> Result<bool, AllocError> {
    let mut told = b"journal other ".to_vec(alloc)?;
    push_digits(&mut told, kept)?;
    told.push(b' ')?;
    push_digits(&mut told, own)?;
    told.push(b'\n')?;
    Ok(ended.is(REFUSED, told.as_slice()))
}

impl Kept {
    /// What `replay` comes to over these bytes in place of the journal's, on the network of its first state.
    fn replayed(&self, alloc: Global, journal: Vec<u8>) -> Result<Ended, AllocError> {
        let net = match self.states.first() {
            Some(state) => state.net.as_slice(),
            None => &[],
        };
        replayed(alloc, net, journal)
    }

    /// Whether it came to the state behind so many events.
    fn is_state(&self, ended: &Ended, events: usize) -> bool {
        match self.states.get(events) {
            Some(state) => ended.is(0, state.told.as_slice()),
            None => false,
        }
    }

    /// Whether it came to the state behind all events.
    fn is_whole(&self, ended: &Ended) -> bool {
        self.is_state(ended, self.gates.len().saturating_sub(1))
    }

    /// Whether the journal cut to this length came out as it has to.
    fn is_right_cut(&self, alloc: Global, len: usize, ended: &Ended) -> Result<bool, AllocError> {
        if len < FIRST_GATE {
            return is_refused(alloc, ended, len, "head");
        }
        if len == self.bytes.len() {
            return Ok(self.is_whole(ended));
        }
        is_refused(
            alloc,
            ended,
            gate_below(self.gates.as_slice(), len),
            "record",
        )
    }

    /// Tries the journal cut to each length, its own one too.
    pub(crate) fn try_cuts(&self, alloc: Global, tally: &mut Tally) -> Result<(), AllocError> {
        for len in 0..=self.bytes.len() {
            let cut = self
                .bytes
                .iter()
                .copied()
                .take(len)
                .collect::<Vec<u8>>(alloc)?;
            let ended = self.replayed(alloc, cut)?;
            let is_right = self.is_right_cut(alloc, len, &ended)?;
            tally.note(len as u64, 0, is_right, ended)?;
        }
        Ok(())
    }

    /// Whether the journal came out as it has to with a gate that has another value. Another one than 1 ends it there; the last
    /// gate opens no record.
    fn is_right_gate(
        &self,
        alloc: Global,
        gate: usize,
        events: usize,
        value: u8,
        ended: &Ended,
    ) -> Result<bool, AllocError> {
        if value == 1 {
            return is_refused(alloc, ended, gate, "record");
        }
        Ok(self.is_state(ended, events))
    }

    /// Whether an event with another byte came out as it may: it is none, or it cannot follow, or a later one cannot, or all do.
    fn is_right_event(
        &self,
        alloc: Global,
        gate: usize,
        ended: &Ended,
    ) -> Result<bool, AllocError> {
        if ended.code == 0 {
            return self.tells_all(alloc, ended);
        }
        if is_refused(alloc, ended, gate, "record")? {
            return Ok(true);
        }
        for later in &self.gates {
            if gate <= *later && is_refused(alloc, ended, *later, "event")? {
                return Ok(true);
            }
        }
        Ok(false)
    }

    /// Whether it was told that all events stand.
    fn tells_all(&self, alloc: Global, ended: &Ended) -> Result<bool, AllocError> {
        let told = format!(in alloc; "replay {}\n", self.gates.len().saturating_sub(1))?;
        Ok(ended.written.starts_with(told.as_bytes()))
    }

    /// Whether the journal came out as it has to with another byte at this place.
    fn is_right_change(
        &self,
        alloc: Global,
        at: usize,
        value: u8,
        changed: &[u8],
        ended: &Ended,
    ) -> Result<bool, AllocError> {
        if at < DIGEST {
            return is_refused(alloc, ended, at, "head");
        }
        if at < FIRST_GATE {
            return is_other(
                alloc,
                ended,
                digest_of(changed),
                digest_of(self.bytes.as_slice()),
            );
        }
        if let Some(events) = self.gates.iter().position(|gate| *gate == at) {
            return self.is_right_gate(alloc, at, events, value, ended);
        }
        let gate = gate_below(self.gates.as_slice(), at);
        if at < gate.saturating_add(EVENT) {
            return is_refused(alloc, ended, gate, "record");
        }
        self.is_right_event(alloc, gate, ended)
    }

    /// Tries the journal with this value in the place of each byte.
    fn try_value(&self, alloc: Global, value: u8, tally: &mut Tally) -> Result<(), AllocError> {
        for (at, byte) in self.bytes.iter().enumerate() {
            let changed = with_byte(alloc, self.bytes.as_slice(), at, value)?;
            let ended = self.replayed(alloc, changed.as_slice().to_vec(alloc)?)?;
            let is_right = if *byte == value {
                self.is_whole(&ended)
            } else {
                self.is_right_change(alloc, at, value, changed.as_slice(), &ended)?
            };
            tally.note(at as u64, u64::from(value), is_right, ended)?;
        }
        Ok(())
    }

    /// Tries the journal with each of these values in the place of each byte.
    pub(crate) fn try_values(
        &self,
        alloc: Global,
        values: &[u8],
        tally: &mut Tally,
    ) -> Result<(), AllocError> {
        for value in values {
            self.try_value(alloc, *value, tally)?;
        }
        Ok(())
    }

    /// Tries the journal with these bytes from this place on: it has to be refused at a place with a word.
    pub(crate) fn try_patched(
        &self,
        alloc: Global,
        from: usize,
        bytes: &[u8],
        at: usize,
        word: &str,
        tally: &mut Tally,
    ) -> Result<(), AllocError> {
        let mut patched = self.bytes.as_slice().to_vec(alloc)?;
        for (i, byte) in bytes.iter().enumerate() {
            if let Some(place) = patched.get_mut(from.saturating_add(i)) {
                *place = *byte;
            }
        }
        let ended = self.replayed(alloc, patched)?;
        let is_right = is_refused(alloc, &ended, at, word)?;
        tally.note(from as u64, 0, is_right, ended)
    }
}
