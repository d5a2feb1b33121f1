// Why a bundle is refused, and where: the one fault enum that all layers carry by `?`. What reads
// knows where it reads. And why something is not packed.
#![tactic(auto)]

ghost use Rattle.std.specs.Prelude.{◌≡◌, ◌+◌, ◌^◌, ◌<◌, length, Some};
ghost use Rattle.fault.specs.Faults.{place_of, numbers_of, fault_words, refusal_numbers, room_for, reader_of, TakesFront};

use std::fmt;

// The part of a bundle in which a fault lies.
#[derive(Clone, Copy, PartialEq, Eq, Debug)]
pub enum Part {
    Header,
    Record { track: u8, record: usize },
}

// The offset in the bundle of the number or text at fault, and the part that it belongs to.
#[derive(Clone, Copy, PartialEq, Eq, Debug)]
pub struct Place {
    pub offset: usize,
    pub part: Part,
}

#[derive(Clone, Copy, PartialEq, Eq, Debug)]
pub enum Fault {
    // a number that the end of its part cuts off
    CutOff(Place),
    // a number whose sixth group goes on
    TooManyGroups(Place),
    // a number whose last group is 0 though others stand before it
    NotShortest(Place),
    // a kind that is none of the eleven
    UnknownKind(Place),
    // a name that the end of the track cuts off
    TextCutOff(Place),
    // a stamp above the time limit
    StampPastLimit(Place),
    // a header number that is none of its values
    HeaderValue(Place),
    // track lengths whose sum is not what follows the header
    LengthsMismatch(Place),
    // a bundle above 60,000 bytes
    TooLong(Place),
}

// A fault as the numbers of its printed line.
#[derive(Clone, Copy, PartialEq, Eq, Debug)]
pub struct FaultNumbers {
    pub layer: u64,
    pub cause: u64,
    pub place: u64,
    pub track: u64,
    pub record: u64,
}

impl From<Fault> for FaultNumbers {
    ghost from_gives = { λ f r. r ≡ numbers_of f };

    fn from(fault: Fault) -> FaultNumbers {
        let (layer, cause, at) = match fault {
            Fault::CutOff(at) => (1, 1, at),
            Fault::TooManyGroups(at) => (1, 2, at),
            Fault::NotShortest(at) => (1, 3, at),
            Fault::UnknownKind(at) => (2, 4, at),
            Fault::TextCutOff(at) => (2, 5, at),
            Fault::StampPastLimit(at) => (3, 6, at),
            Fault::HeaderValue(at) => (4, 7, at),
            Fault::LengthsMismatch(at) => (4, 8, at),
            Fault::TooLong(at) => (4, 9, at),
        };
        let (track, record) = match at.part {
            Part::Header => (255, 0),
            Part::Record { track, record } => (u64::from(track), record as u64),
        };
        FaultNumbers {
            layer,
            cause,
            place: at.offset as u64,
            track,
            record,
        }
    }
}

// The one line that is printed for a fault.
impl fmt::Display for Fault {
    ghost output = { λ f. Some (fault_words f) };

    fn fmt<W: fmt::Write>(&self, f: &mut fmt::Formatter<W>) -> fmt::Result {
        let FaultNumbers {
            layer,
            cause,
            place,
            track,
            record,
        } = FaultNumbers::from(*self);
        write!(f, "fault {layer} {cause} {place} {track} {record}")
    }
}

// A stretch of the bundle: the offset of its end, and the part that it belongs to.
#[derive(Clone, Copy, PartialEq, Eq, Debug)]
pub struct Span {
    pub end: usize,
    pub part: Part,
}

// A reader of a stretch, with what is still unread of it.
#[derive(Clone, Copy)]
pub struct Reader<'a> {
    pub span: Span,
    pub rest: &'a [u8],
}

impl<'a> Reader<'a> {
    // A reader of all the bytes of a part that begins at offset 0.
    pub fn new(part: Part, bytes: &'a [u8]) -> Reader<'a>
        ensures { result ≡ reader_of part bytes.entry }
    {
        Reader {
            span: Span {
                end: bytes.len(),
                part,
            },
            rest: bytes,
        }
    }

    // Where the unread bytes begin.
    pub fn place(&self) -> Place
        ensures is { result ≡ place_of self.now.span self.now.rest.now }
        ensures fits { result.offset + length self.now.rest.now < 2 ^ 64 }
    {
        Place {
            offset: self.span.end.saturating_sub(self.rest.len()),
            part: self.span.part,
        }
    }

    // Takes `len` bytes off, or none where fewer are left.
    pub fn take(&mut self, len: u64) -> Option<&'a [u8]>
        ensures { TakesFront len self.old self.new result }
    {
        let len = usize::try_from(len).ok()?;
        let (front, rest) = self.rest.split_at_checked(len)?;
        self.rest = rest;
        Some(front)
    }
}

// Why something is not packed.
#[derive(Clone, Copy, PartialEq, Eq, Debug)]
pub enum Refusal {
    // an unknown kind, a number of 2^42 or more, a name above 60,000 bytes or a stamp past the limit
    Unfit,
    // a slice that is too short; a list may need more bytes than a usize counts
    Short { needed: u128 },
}

// A refusal as its code and its value: the bytes needed, or 0.
#[derive(Clone, Copy, PartialEq, Eq, Debug)]
pub struct RefusalNumbers {
    pub code: u8,
    pub value: u128,
}

impl From<Refusal> for RefusalNumbers {
    ghost from_gives = { λ f r. r ≡ refusal_numbers f };

    fn from(refusal: Refusal) -> RefusalNumbers {
        match refusal {
            Refusal::Unfit => RefusalNumbers { code: 32, value: 0 },
            Refusal::Short { needed } => RefusalNumbers {
                code: 33,
                value: needed,
            },
        }
    }
}

// Refuses what may not be packed, which has no number of bytes, and what `out` has no room for.
pub fn room(needed: Option<u128>, out: &[u8]) -> Result<(), Refusal>
    ensures { result ≡ room_for needed (length out.now) }
{
    let needed = needed.ok_or(Refusal::Unfit)?;
    if (out.len() as u128) < needed {
        return Err(Refusal::Short { needed });
    }
    Ok(())
}
