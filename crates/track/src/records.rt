// Records: a kind and its fields.
ghost use Rattle.std.specs.Prelude.{◌≡◌, ◌<◌, ◌≤◌, ◌∷◌, true, length, IfOk, Some, Ok, Err};
ghost use Rattle.fault.specs.Faults.{Given};
ghost use Rattle.track.specs.Records.{shape, kind_of, view, text_at, fields_at, record_at};
ghost use Rattle.track.specs.Words.{kind_name};

use arrayvec::ArrayVec;
use fault::{Fault, Reader};
use std::fmt;

// What a record calls for.
#[derive(Clone, Copy, PartialEq, Eq, Debug)]
pub enum Kind {
    Enrol,
    Event,
    Stay,
    Relax,
    Tick,
    Read,
    Write,
    Step,
    Autosleep,
    Round,
    Load,
    // a number that stands for no kind
    Unknown(u64),
}

impl Kind {
    // The number of a kind. No `From`: `kind.number()` says what it is, and `u64::from(kind)` would not.
    pub fn number(self) -> u64
        ensures { result ≡ (shape self).number }
    {
        match self {
            Kind::Enrol => 1,
            Kind::Event => 3,
            Kind::Stay => 4,
            Kind::Relax => 5,
            Kind::Tick => 8,
            Kind::Read => 9,
            Kind::Write => 10,
            Kind::Step => 11,
            Kind::Autosleep => 12,
            Kind::Round => 13,
            Kind::Load => 14,
            Kind::Unknown(number) => number,
        }
    }
}

// The kind that a number stands for.
impl From<u64> for Kind {
    ghost from_gives = { λ n k. k ≡ kind_of n };

    fn from(number: u64) -> Kind {
        match number {
            1 => Kind::Enrol,
            3 => Kind::Event,
            4 => Kind::Stay,
            5 => Kind::Relax,
            8 => Kind::Tick,
            9 => Kind::Read,
            10 => Kind::Write,
            11 => Kind::Step,
            12 => Kind::Autosleep,
            13 => Kind::Round,
            14 => Kind::Load,
            _ => Kind::Unknown(number),
        }
    }
}

// The word of a kind.
impl fmt::Display for Kind {
    ghost output = { λ k. Some (kind_name k) };

    fn fmt<W: fmt::Write>(&self, f: &mut fmt::Formatter<W>) -> fmt::Result {
        f.write_str(match self {
            Kind::Enrol => "enrol",
            Kind::Event => "event",
            Kind::Stay => "stay",
            Kind::Relax => "relax",
            Kind::Tick => "tick",
            Kind::Read => "read",
            Kind::Write => "write",
            Kind::Step => "step",
            Kind::Autosleep => "autosleep",
            Kind::Round => "round",
            Kind::Load => "load",
            Kind::Unknown(_) => "unknown",
        })
    }
}

// A record with its fields. What it names need not be there: that is for the calls to refuse.
#[derive(Clone, Copy)]
pub enum Record<'a> {
    Enrol {
        number: u64,
        wake_hold: u64,
        name: &'a [u8],
    },
    Event {
        number: u64,
        millis: u64,
    },
    Stay {
        number: u64,
    },
    Relax {
        number: u64,
    },
    Tick,
    Read,
    Write {
        sleep: u64,
    },
    Step,
    Autosleep {
        sleep: u64,
    },
    Round,
    Load {
        cause: u64,
        status: u64,
    },
    Unknown {
        kind: u64,
    },
}

impl<'a> Record<'a> {
    // Takes a kind and its fields off a reader. In line for `Entries::next`.
    #[inline(always)]
    pub(crate) fn read(reader: &mut Reader<'a>) -> Result<Record<'a>, Fault>
        ensures { Given view record_at reader.old reader.new result }
    {
        let place = reader.place();
        match Kind::from(number::read(reader)?) {
            Kind::Enrol => read_enrol(reader),
            Kind::Event => Ok(Record::Event {
                number: number::read(reader)?,
                millis: number::read(reader)?,
            }),
            Kind::Stay => Ok(Record::Stay {
                number: number::read(reader)?,
            }),
            Kind::Relax => Ok(Record::Relax {
                number: number::read(reader)?,
            }),
            Kind::Tick => Ok(Record::Tick),
            Kind::Read => Ok(Record::Read),
            Kind::Write => Ok(Record::Write {
                sleep: number::read(reader)?,
            }),
            Kind::Step => Ok(Record::Step),
            Kind::Autosleep => Ok(Record::Autosleep {
                sleep: number::read(reader)?,
            }),
            Kind::Round => Ok(Record::Round),
            Kind::Load => Ok(Record::Load {
                cause: number::read(reader)?,
                status: number::read(reader)?,
            }),
            Kind::Unknown(_) => Err(Fault::UnknownKind(place)),
        }
    }

    // The kind of a record. No `From`: `record.kind()` says what it is.
    pub fn kind(&self) -> Kind
        ensures { result ≡ (view self.now).kind }
    {
        match self {
            Record::Enrol { .. } => Kind::Enrol,
            Record::Event { .. } => Kind::Event,
            Record::Stay { .. } => Kind::Stay,
            Record::Relax { .. } => Kind::Relax,
            Record::Tick => Kind::Tick,
            Record::Read => Kind::Read,
            Record::Write { .. } => Kind::Write,
            Record::Step => Kind::Step,
            Record::Autosleep { .. } => Kind::Autosleep,
            Record::Round => Kind::Round,
            Record::Load { .. } => Kind::Load,
            Record::Unknown { kind } => Kind::Unknown(*kind),
        }
    }

    // The numbers of a record in the order of the format, the kind's first. Inlined, so that the list
    // is built where it is used and not copied there.
    #[inline(always)]
    pub(crate) fn numbers(&self) -> ArrayVec<u64, 4>
        ensures { result.items ≡ (shape (view self.now).kind).number ∷ (view self.now).fields }
    {
        let mut numbers = ArrayVec::new();
        numbers.push(self.kind().number());
        match *self {
            Record::Enrol {
                number,
                wake_hold,
                name,
            } => {
                numbers.push(number);
                numbers.push(wake_hold);
                numbers.push(name.len() as u64);
            }
            Record::Event {
                number: first,
                millis: second,
            }
            | Record::Load {
                cause: first,
                status: second,
            } => {
                numbers.push(first);
                numbers.push(second);
            }
            Record::Stay { number: only }
            | Record::Relax { number: only }
            | Record::Write { sleep: only }
            | Record::Autosleep { sleep: only } => numbers.push(only),
            Record::Tick | Record::Read | Record::Step | Record::Round | Record::Unknown { .. } =>
                (),
        }
        numbers
    }

    // The name of an enrol; no other kind has a text.
    pub(crate) fn text(&self) -> &'a [u8]
        ensures { result.now ≡ (view self.now).text }
    {
        match *self {
            Record::Enrol { name, .. } => name,
            _ => &[],
        }
    }
}

// Takes a text of `len` bytes off a reader.
fn read_text<'a>(reader: &mut Reader<'a>, len: u64) -> Result<&'a [u8], Fault>
    ensures is { Given (λ t. t.now) (λ s bs. text_at s len bs) reader.old reader.new result }
    ensures long { IfOk result (λ t. length t.now ≡ len) }
{
    let place = reader.place();
    reader.take(len).ok_or(Fault::TextCutOff(place))
}

fn read_enrol<'a>(reader: &mut Reader<'a>) -> Result<Record<'a>, Fault>
    ensures { Given view (λ s bs. fields_at s bs Kind.Enrol) reader.old reader.new result }
{
    let number = number::read(reader)?;
    let wake_hold = number::read(reader)?;
    let len = number::read(reader)?;
    Ok(Record::Enrol {
        number,
        wake_hold,
        name: read_text(reader, len)?,
    })
}
