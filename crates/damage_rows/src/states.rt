//! The states that a journal can be left in, one behind each of its events.

use crate::call::{Ended, Scene, Trouble, run};
use std::alloc::{AllocError, Global};
use std::{fs, io};

/// A state: the network that the journal stands for then, and what `replay` tells of it.
#[derive(Drop)]
pub(crate) struct State {
    pub(crate) net: Vec<u8>,
    pub(crate) told: Vec<u8>,
}

/// The state of this line: the names of both files.
fn state_of(rt: &HostRuntime, line: &str) -> io::Result<Option<State>> {
    match line.split_once(' ') {
        Some((net, told)) => Ok(Some(State {
            net: fs::read(rt, net)?,
            told: fs::read(rt, told)?,
        })),
        None => Ok(None),
    }
}

/// The states of this file, one a line, the first one first.
pub(crate) fn states_of(rt: &HostRuntime, name: &str) -> io::Result<Vec<State>> {
    let text = fs::read_to_string(rt, name)?;
    let mut states = Vec::new(rt.alloc());
    for line in text.lines() {
        if let Some(state) = state_of(rt, line)? {
            states.push(state)?;
        }
    }
    Ok(states)
}

/// What `replay` comes to over this network and this journal.
pub(crate) fn replayed(alloc: Global, net: &[u8], journal: Vec<u8>) -> Result<Ended, AllocError> {
    let mut scene = Scene::new(alloc, &["replay", "N", "J"])?;
    scene.add_file(alloc, "N", net.to_vec(alloc)?)?;
    scene.journal = journal;
    run(alloc, &scene, Trouble::Nothing)
}

/// Whether the journal is in this state.
fn is_in(alloc: Global, state: &State, journal: &[u8]) -> Result<bool, AllocError> {
    let ended = replayed(alloc, state.net.as_slice(), journal.to_vec(alloc)?)?;
    Ok(ended.is(0, state.told.as_slice()))
}

/// Whether the journal is in the state of this number or in the next one, and in no other.
pub(crate) fn is_at_or_next(
    alloc: Global,
    states: &[State],
    number: usize,
    journal: &[u8],
) -> Result<bool, AllocError> {
    let mut found: u64 = 0;
    let mut is_there = false;
    for (i, state) in states.iter().enumerate() {
        if is_in(alloc, state, journal)? {
            found = found.saturating_add(1);
            is_there = i == number || i == number.saturating_add(1);
        }
    }
    Ok(is_there && found == 1)
}
