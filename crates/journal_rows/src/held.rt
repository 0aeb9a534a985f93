//! Disks in memory.

use crate::bytes::OWN;
use crate::opened::{Found, found_on};
use eon_disk::MemDisk;
use std::alloc::{AllocError, Global};

/// Room for the calls of a case.
const ROOM: usize = 2000;

/// A disk of these bytes, which stops at this call.
pub(crate) fn disk_of(
    alloc: Global,
    bytes: Vec<u8>,
    stop: Option<u64>,
) -> Result<MemDisk, AllocError> {
    MemDisk::new(alloc, bytes, ROOM, Vec::new(alloc), stop)
}

/// What the network whose digest has this byte finds in a journal of these bytes.
pub(crate) fn found_by(alloc: Global, own: u8, bytes: Vec<u8>) -> Result<Found, AllocError> {
    let mut disk = disk_of(alloc, bytes, None)?;
    Ok(found_on(&mut disk, own))
}

/// What is found in a journal of these bytes.
pub(crate) fn found_in(alloc: Global, bytes: Vec<u8>) -> Result<Found, AllocError> {
    found_by(alloc, OWN, bytes)
}
