// Bundles: a header and its tracks, all checked before anything is used.
ghost use Rattle.std.specs.Prelude.{◌≡◌, ℕ, ◌+◌, ◌-◌, ◌*◌, ◌^◌, ◌<◌, ◌≤◌, [], map, length, IfOk, IfSome, Some, Ok, Err, sum, MatchOption, slice_index_or};
ghost use Rattle.fault.specs.Faults.{Given, Says};
ghost use Rattle.track.specs.Records.{numbers_at};
ghost use Rattle.track.specs.Tracks.{piece_of};
ghost use Rattle.bundle.specs.Kinds.{platform_at, clock_at};
ghost use Rattle.bundle.specs.Items.{items};
ghost use Rattle.bundle.specs.Numbered.{Numbered};
ghost use Rattle.bundle.specs.Words.{platform_name, clock_name};
ghost use Rattle.bundle.specs.Bundles.{value_at, contents, piece, pieces_at, pieces_from, header_at, bundle_of, faultless, EachHasOneList, Kinded};

use crate::tracks::Tracks;
use fault::{Fault, Part, Place, Reader};
use std::fmt;
use track::tracks::Track;

// The longest bundle, in bytes.
pub const BUNDLE_LIMIT: usize = 60_000;

// The most tracks of a bundle.
pub const TRACK_LIMIT: usize = 8;

// A header number that stands for nothing.
#[derive(Clone, Copy, PartialEq, Eq, Debug)]
pub struct UnknownValue(pub u64);

// The sleep platform that a job ran on.
#[derive(Clone, Copy, PartialEq, Eq, Debug)]
pub enum PlatformKind {
    Idle,
    Firmware,
}

impl TryFrom<u64> for PlatformKind {
    type Error = UnknownValue;

    ghost try_from_gives = { λ n r. r ≡ platform_at n };

    fn try_from(number: u64) -> Result<PlatformKind, UnknownValue> {
        match number {
            1 => Ok(PlatformKind::Idle),
            2 => Ok(PlatformKind::Firmware),
            _ => Err(UnknownValue(number)),
        }
    }
}

// The word of a platform.
impl fmt::Display for PlatformKind {
    ghost output = { λ p. Some (platform_name p) };

    fn fmt<W: fmt::Write>(&self, f: &mut fmt::Formatter<W>) -> fmt::Result {
        f.write_str(match self {
            PlatformKind::Idle => "idle",
            PlatformKind::Firmware => "firmware",
        })
    }
}

// The clock that a job was timed by. Its impls are like the platform's, with its own names: one for
// both would take a table of numbers, words and values for each, and be no plainer.
#[derive(Clone, Copy, PartialEq, Eq, Debug)]
pub enum ClockKind {
    Track,
    Tick,
}

impl TryFrom<u64> for ClockKind {
    type Error = UnknownValue;

    ghost try_from_gives = { λ n r. r ≡ clock_at n };

    fn try_from(number: u64) -> Result<ClockKind, UnknownValue> {
        match number {
            1 => Ok(ClockKind::Track),
            2 => Ok(ClockKind::Tick),
            _ => Err(UnknownValue(number)),
        }
    }
}

// The word of a clock.
impl fmt::Display for ClockKind {
    ghost output = { λ c. Some (clock_name c) };

    fn fmt<W: fmt::Write>(&self, f: &mut fmt::Formatter<W>) -> fmt::Result {
        f.write_str(match self {
            ClockKind::Track => "track",
            ClockKind::Tick => "tick",
        })
    }
}

// A bundle with no fault.
#[derive(Clone, Copy)]
pub struct Bundle<'a> {
    pub platform: PlatformKind,
    pub clock: ClockKind,
    tracks: Tracks<'a>,
}

// Takes a header number off a reader, which has to lie between `low` and `high`. Two numbers and no
// `RangeInclusive`: of that the contract would have to ask that nothing was taken off it.
fn read_value(reader: &mut Reader, low: u64, high: u64) -> Result<u64, Fault>
    ensures is { Given (λ n. n) (λ s bs. value_at s low high bs) reader.old reader.new result }
    ensures bound { IfOk result (λ n. n ≤ high) }
{
    let place = reader.place();
    let number = number::read(reader)?;
    if !(low..=high).contains(&number) {
        return Err(Fault::HeaderValue(place));
    }
    Ok(number)
}

// Takes a header number off a reader, and answers what it stands for. It tests by the type where
// `read_value` tests by two bounds.
fn read_kind<T: TryFrom<u64, Error = UnknownValue>>(reader: &mut Reader) -> Result<T, Fault>
    ensures { Kinded T.try_from_gives reader.old reader.new result }
{
    let place = reader.place();
    T::try_from(number::read(reader)?).map_err(|_| Fault::HeaderValue(place))
}

// Takes as many lengths off a reader as there is room for.
#[tactic(auto, using(crate::proofs::LengthReading::lengths_none))]
fn read_lengths(reader: &mut Reader, lengths: &mut [u64]) -> Result<(), Fault>
    ensures is { Given (λ _. lengths.new) (λ s bs. numbers_at s (length lengths.old) bs) reader.old reader.new result }
    ensures small { IfOk result (λ _. sum lengths.new ≤ length lengths.new * 2 ^ 42) }
{
    for length in lengths {
        *length = number::read(reader)?;
    }
    Ok(())
}

// The sum of the lengths.
fn total(lengths: &[u64]) -> u64
    requires { sum lengths.now < 2 ^ 64 }
    ensures { result ≡ sum lengths.now }
{
    lengths.iter().sum()
}

// The tracks of these lengths that `body` is, which begins at the offset `start`.
fn cut<'a>(start: usize, lengths: &[u64], body: &'a [u8]) -> Tracks<'a>
    requires few { length lengths.now ≤ 8 }
    requires whole { sum lengths.now ≡ length body.now }
    requires within { start + length body.now < 2 ^ 64 }
    ensures { map piece_of (items result) ≡ pieces_at 0 start lengths.now body.now }
{
    let mut left = body;
    let mut end = start;
    let mut tracks = Tracks::new();
    for (number, length) in lengths.iter().enumerate() {
        let (bytes, rest) = left.split_at(*length as usize);
        end += bytes.len();
        left = rest;
        tracks.push(Track {
            number: number as u8,
            end,
            bytes,
        });
    }
    tracks
}

// Takes the lengths of `count` tracks off a reader, and cuts the tracks out of what follows. There is no
// heap: the lengths stand in an array.
fn read_tracks<'a>(reader: &mut Reader<'a>, count: usize) -> Result<Tracks<'a>, Fault>
    requires { count ≤ 8 }
    ensures { Says (λ ts. map piece_of (items ts)) (pieces_from reader.old.span count reader.old.rest.now) result }
{
    let mut room = [0; TRACK_LIMIT];
    let lengths = &mut room[..count];
    read_lengths(reader, lengths)?;
    if total(lengths) != reader.rest.len() as u64 {
        return Err(Fault::LengthsMismatch(reader.place()));
    }
    Ok(cut(reader.place().offset, lengths, reader.rest))
}

// Takes a header off a reader, and cuts the tracks out of what follows.
#[tactic(auto, unfolding(crate::specs::Bundles::contents))]
fn read_header<'a>(reader: &mut Reader<'a>) -> Result<Bundle<'a>, Fault>
    ensures { Says contents (header_at reader.old.span reader.old.rest.now) result }
{
    read_value(reader, 1, 1)?;
    let platform = read_kind(reader)?;
    let clock = read_kind(reader)?;
    read_value(reader, 0, 0)?;
    let count = read_value(reader, 1, TRACK_LIMIT as u64)? as usize;
    Ok(Bundle {
        platform,
        clock,
        tracks: read_tracks(reader, count)?,
    })
}

impl<'a> Bundle<'a> {
    // Reads a whole bundle and checks it: the header first, and then each track.
    #[tactic(auto, unfolding(crate::specs::Bundles::bundle_of, crate::specs::Bundles::header_of))]
    pub fn read(bytes: &'a [u8]) -> Result<Bundle<'a>, Fault>
        ensures is { Says contents (bundle_of bytes.now) result }
        ensures one_list { IfOk result (λ b. EachHasOneList (contents b).pieces) }
    {
        if bytes.len() > BUNDLE_LIMIT {
            return Err(Fault::TooLong(Place {
                offset: BUNDLE_LIMIT,
                part: Part::Header,
            }));
        }
        let mut reader = Reader::new(Part::Header, bytes);
        let bundle = read_header(&mut reader)?;
        bundle.check_tracks()?;
        Ok(bundle)
    }

    // The first fault of the tracks, if there is one.
    fn check_tracks(&self) -> Result<(), Fault>
        ensures { Says (λ _. contents self.now) (faultless (contents self.now).pieces (contents self.now)) result }
    {
        for track in self.tracks() {
            track.check()?;
        }
        Ok(())
    }

    // The tracks, in their order.
    #[tactic(auto, unfolding(crate::specs::Bundles::contents))]
    pub fn tracks(&self) -> &[Track<'a>]
        ensures is { map piece_of result.now ≡ (contents self.now).pieces }
        ensures numbered { Numbered (length result.now) result.now }
    {
        self.tracks.as_slice()
    }

    // How many tracks there are.
    pub fn track_count(&self) -> usize
        ensures { result ≡ length (contents self.now).pieces }
    {
        self.tracks().len()
    }

    // The track with this number, or none.
    #[tactic(auto, using(crate::proofs::Numbering::numbered_at))]
    pub fn track(&self, number: usize) -> Option<Track<'a>>
        ensures is { MatchOption result (length (contents self.now).pieces ≤ number) (λ t. (number < length (contents self.now).pieces) × (piece_of t ≡ slice_index_or (contents self.now).pieces number (piece 0 0 []))) }
        ensures numbered { IfSome result (λ t. t.number ≡ number) }
    {
        self.tracks().get(number).copied()
    }
}
