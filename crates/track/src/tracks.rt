// Tracks: records one after another, each with its difference from the stamp before it.
ghost use Rattle.std.specs.Prelude.{◌≡◌, ◌+◌, ◌^◌, ◌<◌, ◌≤◌, length, IfOk, OnErr};
ghost use Rattle.fault.specs.Faults.{Given};
ghost use Rattle.track.specs.Tracks.{view_entry, entry_at, record_span, piece_of, entries_of, counted, Taken};

use crate::records::Record;
use fault::{Fault, Part, Reader, Span};

// The latest stamp, in milliseconds: 2^38 - 1.
pub const TIME_LIMIT: u64 = 274_877_906_943;

// A record and how many milliseconds after the last stamp it came.
#[derive(Clone, Copy)]
pub struct Entry<'a> {
    pub difference: u64,
    pub record: Record<'a>,
}

impl<'a> Entry<'a> {
    // Takes an entry off a reader, after the stamp `last`. In line for `Entries::next`.
    #[inline(always)]
    pub fn read(reader: &mut Reader<'a>, last: u64) -> Result<Entry<'a>, Fault>
        ensures is { Given view_entry (λ s bs. entry_at s last bs) reader.old reader.new result }
        ensures taken { IfOk result (λ e. Taken last reader.old.rest.now (view_entry e) reader.new.rest.now) }
        ensures kept { OnErr result (reader.new ≡ reader.old) }
    {
        let mut left = *reader;
        let difference = number::read(&mut left)?;
        if last.saturating_add(difference) > TIME_LIMIT {
            return Err(Fault::StampPastLimit(reader.place()));
        }
        let record = Record::read(&mut left)?;
        *reader = left;
        Ok(Entry { difference, record })
    }
}

// A track of a bundle: its number, the offset of its end in the bundle, and its bytes.
#[derive(Clone, Copy)]
pub struct Track<'a> {
    pub number: u8,
    pub end: usize,
    pub bytes: &'a [u8],
}

impl<'a> Track<'a> {
    // Checks every record, and answers how many there are.
    pub fn check(&self) -> Result<usize, Fault>
        ensures { result ≡ counted (entries_of (piece_of self.now)) }
    {
        let mut records = 0;
        for entry in self.entries() {
            entry?;
            records += 1;
        }
        Ok(records)
    }

    // The stretch of the bundle that this track is, at a record of it.
    pub fn span(&self, record: usize) -> Span
        ensures { result ≡ record_span self.now.end self.now.number «record» }
    {
        Span {
            end: self.end,
            part: Part::Record {
                track: self.number,
                record,
            },
        }
    }
}

// What is left of a track, how many records were read of it, and the stamp of the last of them. A step
// changes all three; what it gives is said in entries.rt, by definitions that name this struct.
#[derive(Drop)]
pub struct Entries<'a> {
    pub(crate) left: Track<'a>,
    pub(crate) read: usize,
    pub(crate) stamp: u64,
    ghost room: { read + length left.bytes.now < 2 ^ 64 },
}
