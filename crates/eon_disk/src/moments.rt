//! What is pending on a disk at each moment, kept for contracts alone.
ghost use Rattle.std.specs.Prelude.{◌≡◌, [], length};
ghost use Rattle.std.specs.Borrow.{ftrue};
ghost use Rattle.eon_model.specs.DiskImages.{settled, after_write, after_cut};
ghost use Rattle.eon_disk.specs.Track.{Track, no_track, track_of, next_track, track_after};

use std::marker::Model;

/// What is pending on a disk, and what was at each moment before. It takes no memory: only clauses see it.
#[derive(Drop)]
pub struct Moments {
    pub ghost track: { Track },
}

impl Model for Moments {
    ghost also_owns = { λ _. ftrue };
}

impl Moments {
    /// The moments of a disk that begins with these bytes.
    pub(crate) fn of(bytes: &[u8]) -> Moments
        ensures { result.track ≡ track_of bytes.now }
    {
        let mut moments = Moments::new();
        moments.note(&[], bytes);
        moments
    }

    /// So many bytes were written at an offset.
    pub(crate) fn wrote(&mut self, at: u64, count: u64)
        ensures { self.new.track ≡ next_track (after_write at count self.old.track.pending) self.old.track }
    {
        self.note(&[at, count], &[]);
    }

    /// The bytes were cut to a length.
    pub(crate) fn cut(&mut self, len: u64)
        ensures { self.new.track ≡ next_track (after_cut len self.old.track.pending) self.old.track }
    {
        self.note(&[len], &[]);
    }

    /// These bytes were synced.
    pub(crate) fn synced(&mut self, bytes: &[u8])
        ensures { self.new.track ≡ next_track (settled bytes.now) self.old.track }
    {
        self.note(&[0, 0, 0], bytes);
    }

    // The moments of a disk without bytes.
    fn new() -> Moments
        ensures { result.track ≡ no_track }
    {
        Moments {}
    }

    // One moment more: the step that these numbers tell, with the bytes as read.
    fn note(&mut self, _step: &[u64], _bytes: &[u8])
        ensures { self.new.track ≡ track_after _step.now _bytes.now self.old.track }
    {}
}
