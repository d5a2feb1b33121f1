// The text that `list` prints: a bundle's one fault, or its records and what was counted.
#![tactic(auto)]

ghost use Rattle.std.specs.Prelude.{◌≡◌, ◌<◌, ◌≤◌, length, take, IfOk, Some, Err};
ghost use Rattle.std.specs.List.{flat_map};
ghost use Rattle.std.specs.Str.{IsAscii};
ghost use Rattle.std.specs.String.{string_bytes};
ghost use Rattle.fault.specs.declared.Fault.{Fault as FaultOf};
ghost use Rattle.fault.specs.Faults.{field_text};
ghost use Rattle.track.specs.Records.{view};
ghost use Rattle.track.specs.Tracks.{piece_of};
ghost use Rattle.bundle.specs.Bundles.{contents, bundle_of};
ghost use Rattle.listing.specs.declared.Stop.TheVariants.{Faulty, NoMemory};
ghost use Rattle.listing.specs.Listed.{Listed, AllListed, Whole};
ghost use Rattle.listing.specs.Text.{fault_text, plain, hex_digit, shown, name_text, fields_text, line_words, count_words, head_words, listing_text};

use bundle::bundles::Bundle;
use fault::Fault;
use std::alloc::{AllocError, Global};
use std::fmt::Display;
use std::{fmt, str};
use text::Decimal;
use track::records::Record;
use track::tracks::Track;

// Why a listing stopped: at a fault, or for want of memory. Its two `From` name a variant each, as
// `?` and the contracts need.
enum Stop {
    Faulty(Fault),
    NoMemory(AllocError),
}

impl From<Fault> for Stop {
    ghost from_gives = { λ f r. r ≡ Faulty f };

    fn from(fault: Fault) -> Stop {
        Stop::Faulty(fault)
    }
}

impl From<AllocError> for Stop {
    ghost from_gives = { λ e r. r ≡ NoMemory e };

    fn from(error: AllocError) -> Stop {
        Stop::NoMemory(error)
    }
}

// A byte that is shown as itself.
fn is_plain(byte: u8) -> bool
    ensures { result ≡ plain byte }
{
    matches!(byte, b' '..=b'~') && !matches!(byte, b'"' | b'\\')
}

// A hexadecimal digit.
fn hex_digit(n: u8) -> u8
    requires { n < 16 }
    ensures { result ≡ hex_digit n }
{
    if n < 10 { b'0' + n } else { b'A' + (n - 10) }
}

// How many bytes of a name are turned into text at once: a call of the writer for each byte takes four
// times as long.
const PIECE: usize = 32;

// The text of a piece of a name: each byte itself, or its hexadecimal digits where it would not be seen.
// Answers how much of `text` it takes.
fn show(piece: &[u8], text: &mut [u8; 4 * PIECE]) -> usize
    requires { length piece.now ≤ 32 }
    ensures bound { result ≤ 128 }
    ensures is { take result text.new ≡ flat_map shown piece.now }
    ensures ascii { IsAscii (take result text.new) }
{
    let mut len = 0;
    for byte in piece {
        if is_plain(*byte) {
            text[len] = *byte;
            len += 1;
        } else {
            let digits = [b'\\', b'x', hex_digit(*byte / 16), hex_digit(*byte % 16)];
            text[len..len + 4].copy_from_slice(&digits);
            len += 4;
        }
    }
    len
}

// A name in quotes, after a space.
#[derive(Clone, Copy)]
struct Name<'a>(&'a [u8]);

impl fmt::Display for Name<'_> {
    ghost output = { λ n. Some (name_text n.0.now) };

    fn fmt<W: fmt::Write>(&self, f: &mut fmt::Formatter<W>) -> fmt::Result {
        f.write_str(" \"")?;
        let mut text = [0; 4 * PIECE];
        for piece in self.0.chunks(PIECE) {
            let len = show(piece, &mut text);
            let Ok(shown) = str::from_utf8(&text[..len]) else {
                unreachable()
            };
            f.write_str(shown)?;
        }
        f.write_str("\"")
    }
}

// A number after a space. What makes up a line calls `fmt` of its parts: a `write!` for each of them
// saves and restores the formatter's options, and takes a fifth longer in all.
#[derive(Clone, Copy)]
struct Field(u64);

impl fmt::Display for Field {
    ghost output = { λ n. Some (field_text n.0) };

    fn fmt<W: fmt::Write>(&self, f: &mut fmt::Formatter<W>) -> fmt::Result {
        f.write_str(" ")?;
        Decimal(self.0).fmt(f)
    }
}

// The fields of a record, each after a space.
#[derive(Clone, Copy)]
struct Fields<'a>(&'a Record<'a>);

impl fmt::Display for Fields<'_> {
    ghost output = { λ r. Some (fields_text (view r.0.now)) };

    fn fmt<W: fmt::Write>(&self, f: &mut fmt::Formatter<W>) -> fmt::Result {
        match *self.0 {
            Record::Enrol {
                number,
                wake_hold,
                name,
            } => {
                Field(number).fmt(f)?;
                Field(wake_hold).fmt(f)?;
                Name(name).fmt(f)
            }
            Record::Event {
                number: first,
                millis: second,
            }
            | Record::Load {
                cause: first,
                status: second,
            } => {
                Field(first).fmt(f)?;
                Field(second).fmt(f)
            }
            Record::Stay { number }
            | Record::Relax { number }
            | Record::Write { sleep: number }
            | Record::Autosleep { sleep: number } => Field(number).fmt(f),
            Record::Tick | Record::Read | Record::Step | Record::Round | Record::Unknown { .. } =>
                Ok(()),
        }
    }
}

// A record with its stamp and its track.
#[derive(Clone, Copy)]
struct Line<'a> {
    stamp: u64,
    track: u8,
    record: &'a Record<'a>,
}

impl fmt::Display for Line<'_> {
    ghost output = { λ l. Some (line_words l.stamp l.track (view l.«record».now)) };

    fn fmt<W: fmt::Write>(&self, f: &mut fmt::Formatter<W>) -> fmt::Result {
        Decimal(self.stamp).fmt(f)?;
        Field(u64::from(self.track)).fmt(f)?;
        f.write_str(" ")?;
        self.record.kind().fmt(f)?;
        Fields(self.record).fmt(f)
    }
}

// How many records a track has.
#[derive(Clone, Copy)]
struct Count {
    track: u8,
    records: usize,
}

impl fmt::Display for Count {
    ghost output = { λ c. Some (count_words c.track c.records) };

    fn fmt<W: fmt::Write>(&self, f: &mut fmt::Formatter<W>) -> fmt::Result {
        let Count { track, records } = *self;
        write!(f, "track {track} records {records}")
    }
}

// The header of a bundle.
#[derive(Clone, Copy)]
struct Head<'a>(&'a Bundle<'a>);

impl fmt::Display for Head<'_> {
    ghost output = { λ h. Some (head_words (contents h.0.now)) };

    #[tactic(auto, unfolding(bundle::specs::Bundles::contents))]
    fn fmt<W: fmt::Write>(&self, f: &mut fmt::Formatter<W>) -> fmt::Result {
        let Bundle {
            platform,
            clock,
            ..
        } = *self.0;
        let tracks = self.0.track_count();
        write!(f, "platform {platform} clock {clock} tracks {tracks}")
    }
}

// Appends the lines of a track and its count.
fn push_track(out: &mut String, track: &Track) -> Result<(), Stop>
    ensures { Listed (piece_of track.now) (string_bytes out.old) (string_bytes out.new) result }
{
    let mut records = 0;
    for entry in track.entries() {
        let (stamp, entry) = entry?;
        let line = Line {
            stamp,
            track: track.number,
            record: &entry.record,
        };
        writeln!(out, "{line}")?;
        records += 1;
    }
    let count = Count {
        track: track.number,
        records,
    };
    writeln!(out, "{count}")?;
    Ok(())
}

// Appends each track.
fn push_tracks(out: &mut String, bundle: &Bundle) -> Result<(), Stop>
    ensures { AllListed (contents «bundle».now).pieces (string_bytes out.old) (string_bytes out.new) result }
{
    for track in bundle.tracks() {
        push_track(out, track)?;
    }
    Ok(())
}

// The listing of a bundle that has no fault.
#[tactic(auto, unfolding(crate::specs::Text::listing_text))]
fn list_bundle(heap: Global, bytes: &[u8]) -> Result<String, Stop>
    ensures { Whole bytes.now result }
{
    let bundle = Bundle::read(bytes)?;
    let mut out = String::new(heap);
    writeln!(out, "{}", Head(&bundle))?;
    push_tracks(&mut out, &bundle)?;
    Ok(out)
}

// The text that `list` prints for a bundle: the line of its one fault, or its header and the
// records and count of each track. A fault is no error here: it is listed.
#[tactic(auto, unfolding(crate::specs::Text::listing_text))]
pub fn listing(heap: Global, bytes: &[u8]) -> Result<Vec<u8>, AllocError>
    ensures whole { IfOk result (λ v. v.items ≡ listing_text bytes.now) }
    ensures fault { IfOk result (λ v. (f : FaultOf) → bundle_of bytes.now ≡ Err f → v.items ≡ fault_text f) }
{
    match list_bundle(heap, bytes) {
        Ok(out) => Ok(out.into_bytes()),
        Err(Stop::Faulty(fault)) => Ok(format!(in heap; "{fault}\n")?.into_bytes()),
        Err(Stop::NoMemory(error)) => Err(error),
    }
}
