//! The head of a journal, and the network that the journal is bound to.
ghost use Rattle.std.specs.Prelude.{◌≡◌, ◌≢◌, ◌≤◌, ◌+◌, None, codes, length, take, ℕ, List, IfOk, IfSome, OnOk};
ghost use Rattle.eon_model.specs.Disk.{LeavesOnly};
ghost use Rattle.eon_model.specs.Journal.{kept_digest, bound_by};
ghost use Rattle.eon_model.specs.JournalFault.{first_difference, head_fault, IsKept};
ghost use Rattle.eon_outside.specs.Faults.{Counts};
ghost use Rattle.journal_record.specs.Told.{event_told};
ghost use Rattle.plan_journal.specs.Faults.{counted_if, open_failed};
ghost use Rattle.plan_journal.specs.Moments.{IsDurable, OnlyReads};
ghost use Rattle.plan_journal.specs.Opened.{IsHead, IsExamined};

use crate::fault::OpenFault;
use crate::place::Place;
use crate::walk::{Walked, walk_record};
use eon_disk::{Disk, DiskFailed};
use journal_record::Event;

/// The bytes that each journal begins with.
pub(crate) const MARK: &[u8; 8] = b"EONJRNL1";

/// The bytes of a digest.
pub(crate) const DIGEST_BYTES: usize = 32;

/// The bytes of a head.
pub(crate) const HEAD_BYTES: usize = 40;

/// A journal whose head was examined: it belongs to the network, and may have at most `limit` bytes.
#[derive(Drop)]
pub struct Head {
    pub(crate) limit: u32,
    ghost least: { 4096 ≤ limit },
}

// The first place where the bytes are not those that are wanted.
fn first_difference(wanted: &[u8], bytes: &[u8]) -> Option<usize>
    ensures { result ≡ first_difference 0 wanted.now bytes.now }
{
    for i in 0..wanted.len() {
        if i >= bytes.len() {
            return Some(i);
        }
        if bytes[i] != wanted[i] {
            return Some(i);
        }
    }
    None
}

// The first byte of the head that is wrong or missing, of bytes that are as many as a head has, or all that there are.
fn head_fault(bytes: &[u8]) -> Option<u64>
    ensures { result ≡ head_fault bytes.now }
{
    if let Some(i) = first_difference(MARK, bytes) {
        return Some(i as u64);
    }
    if bytes.len() < HEAD_BYTES {
        return Some(bytes.len() as u64);
    }
    None
}

// The digest in a head.
fn digest_in(head: &[u8]) -> [u8; DIGEST_BYTES]
    requires { length head.now ≡ 40 }
    ensures { result ≡ kept_digest head.now }
{
    let mut digest = [0; DIGEST_BYTES];
    digest.copy_from_slice(&head[8..]);
    digest
}

// Reads the digest that is kept in the head.
fn read_head<D: Disk>(disk: &mut D) -> Result<[u8; DIGEST_BYTES], OpenFault>
    ensures told { IfSome (D.now disk.old) (λ bytes. IsHead bytes result) }
    ensures reads { OnlyReads D.now D.images D.clock D.images_since disk.old disk.new }
    ensures counts { D.faults disk.new ≡ counted_if (open_failed result) (D.faults disk.old) }
    ensures asked { D.asked disk.new ≡ D.asked disk.old }
{
    let mut bytes = [0; HEAD_BYTES];
    let count = match disk.read_at(0, &mut bytes) {
        Ok(count) => count,
        Err(DiskFailed) => return Err(OpenFault::Disk),
    };
    match head_fault(&bytes[..count]) {
        Some(at) => Err(OpenFault::BadHead { at }),
        None => Ok(digest_in(&bytes[..count])),
    }
}

// Makes this the digest that the journal is bound to behind an event.
fn bind(bound: &mut [u8; DIGEST_BYTES], event: &Event)
    ensures { bound.new ≡ bound_by bound.old (event_told event.now) }
{
    if let Event::Bind { digest } = event {
        bound.copy_from_slice(digest);
    }
}

// The digest that the journal is bound to, whose head keeps this one.
fn bound_to<D: Disk>(
    disk: &mut D,
    limit: u32,
    kept: [u8; DIGEST_BYTES],
) -> Result<[u8; DIGEST_BYTES], DiskFailed>
    requires { 4096 ≤ limit }
    ensures told { IfSome (D.now disk.old) (λ bytes. head_fault bytes ≡ None → kept ≡ kept_digest bytes → IfOk result (λ bound. IsKept bytes limit bound)) }
    ensures reads { OnlyReads D.now D.images D.clock D.images_since disk.old disk.new }
    ensures counts { Counts (D.faults disk.old) (D.faults disk.new) result }
    ensures asked { D.asked disk.new ≡ D.asked disk.old }
{
    let mut place = Place::first(limit);
    let mut bound = kept;
    loop {
        let walked = match walk_record(disk, place) {
            Ok(walked) => walked,
            Err(DiskFailed) => return Err(DiskFailed),
        };
        match walked {
            Walked::Record { event, taken } => {
                bind(&mut bound, &event);
                place = place.after(taken);
            }
            Walked::Gate { gate: _ } => return Ok(bound),
            Walked::Bad => return Ok(bound),
        }
    }
}

/// Examines the head of the journal that a disk has, and which network the journal is bound to. The journal may have at
/// most `limit` bytes, and `own` is the digest of the network's text. It begins with a sync, so that from then on a crash
/// leaves what is read.
pub fn examine<D: Disk>(
    disk: &mut D,
    limit: u32,
    own: &[u8; DIGEST_BYTES],
) -> Result<Head, OpenFault>
    requires { 4096 ≤ limit }
    ensures told { IfSome (D.now disk.old) (λ bytes. IsExamined bytes limit own.now result) }
    ensures limit { IfOk result (λ head. head.limit ≡ limit) }
    ensures reads { OnlyReads D.now D.images D.clock D.images_since disk.old disk.new }
    ensures durable { OnOk result (IsDurable (D.now disk.new) (D.images disk.new)) }
    ensures counts { D.faults disk.new ≡ counted_if (open_failed result) (D.faults disk.old) }
    ensures asked { D.asked disk.new ≡ D.asked disk.old }
{
    match disk.sync() {
        Ok(()) => {}
        Err(DiskFailed) => return Err(OpenFault::Disk),
    }
    let kept = match read_head(disk) {
        Ok(kept) => kept,
        Err(fault) => return Err(fault),
    };
    let bound = match bound_to(disk, limit, kept) {
        Ok(bound) => bound,
        Err(DiskFailed) => return Err(OpenFault::Disk),
    };
    if bound != *own {
        return Err(OpenFault::Other {
            kept: bound,
            own: *own,
        });
    }
    Ok(Head { limit })
}
