// The kinds of cases.
use anyhow::{Context, anyhow};
use bundle::bundles::Bundle;
use fault::{Part, Reader, Refusal};
use std::alloc::Global;
use std::fmt::Write;
use std::fs;
use track::records::Record;
use track::tracks::{Entry, Track};
use track::{packing, tracks};

// Whether the case of a line holds. The words are the tests' data: a match on them is plainer than a
// table of functions.
pub(crate) fn holds(rt: &HostRuntime, line: &str) -> anyhow::Result<bool> {
    let (way, rest) = line
        .split_once(' ')
        .context("a case is a word and what it is about")?;
    match way {
        "list" => lists(rt, rest),
        "job" => runs(rt, rest),
        "number" => packs(rt, rest),
        "unfit" => is_unfit(rest),
        "short" => is_short(rest),
        "refused" => is_refused(rt.alloc(), rest),
        _ => Err(anyhow!("no such kind of case")),
    }
}

// The path of a file of a case.
fn path(rt: &HostRuntime, name: &str, kind: &str) -> anyhow::Result<String> {
    Ok(format!(in rt.alloc(); "{name}.{kind}")?)
}

// A file of a case.
fn file(rt: &HostRuntime, name: &str, kind: &str) -> anyhow::Result<Vec<u8>> {
    Ok(fs::read(rt, path(rt, name, kind)?.as_str())?)
}

fn lists(rt: &HostRuntime, name: &str) -> anyhow::Result<bool> {
    let bytes = file(rt, name, "bundle")?;
    let wanted = file(rt, name, "list")?;
    let text = listing::listing(rt.alloc(), &bytes)?;
    Ok(text == wanted && packs_again(rt.alloc(), &bytes)?)
}

// The entries of a track that has no fault.
fn entries<'a>(heap: Global, track: &Track<'a>) -> anyhow::Result<Vec<Entry<'a>>> {
    let mut all = Vec::new(heap);
    for entry in track.entries() {
        let Ok((_, entry)) = entry else {
            return Err(anyhow!("a track that was checked has a fault"));
        };
        all.push(entry)?;
    }
    Ok(all)
}

// Whether each track packs again to its bytes; a bundle with a fault has none.
fn packs_again(heap: Global, bytes: &[u8]) -> anyhow::Result<bool> {
    let Ok(bundle) = Bundle::read(bytes) else {
        return Ok(true);
    };
    for track in bundle.tracks() {
        let all = entries(heap, track)?;
        let mut out = vec![in heap; 0u8; track.bytes.len()]?;
        let packed = packing::pack_track(&all, &mut out);
        if packed != Ok(out.len()) || out.as_slice() != track.bytes {
            return Ok(false);
        }
    }
    Ok(true)
}

// The first word of a line, and what follows it; `wanted` says what is missing where it has one word alone.
fn first_word<'a>(line: &'a str, wanted: &'static str) -> anyhow::Result<(&'a str, &'a str)> {
    line.split_once(' ').context(wanted)
}

// The three numbers that a line begins with: its words are counted before one of them is read.
fn three_numbers(line: &str) -> anyhow::Result<(u64, u64, u64)> {
    let wanted = "a line has too few words";
    let (first, rest) = first_word(line, wanted)?;
    let (second, rest) = first_word(rest, wanted)?;
    let (third, _) = first_word(rest, wanted)?;
    Ok((
        first.parse::<u64>()?,
        second.parse::<u64>()?,
        third.parse::<u64>()?,
    ))
}

// Whether the lines of this track among the first of `text` have the stamps and kinds of its entries.
fn matches_lines(text: &str, records: usize, track: &Track) -> anyhow::Result<bool> {
    let mut entries = track.entries();
    for line in text.lines().take(records) {
        let (wanted, number, kind) = three_numbers(line)?;
        if number == u64::from(track.number) {
            let Some(Ok((stamp, entry))) = entries.next() else {
                return Ok(false);
            };
            if wanted != stamp || kind != entry.record.kind().number() {
                return Ok(false);
            }
        }
    }
    Ok(entries.next().is_none())
}

fn runs(rt: &HostRuntime, name: &str) -> anyhow::Result<bool> {
    let bytes = file(rt, name, "bundle")?;
    let text = fs::read_to_string(rt, path(rt, name, "out")?.as_str())?;
    let Ok(bundle) = Bundle::read(&bytes) else {
        return Ok(false);
    };
    Ok(same_records(&bundle, text.as_str())? && packs_again(rt.alloc(), &bytes)?)
}

// Whether the first lines of `text`, one for each record, are those of the bundle's tracks. The
// records are counted in a loop, since a `sum` would have to be bounded.
fn same_records(bundle: &Bundle, text: &str) -> anyhow::Result<bool> {
    let mut records = 0usize;
    for track in bundle.tracks() {
        records = records.saturating_add(track.entries().count());
    }
    for track in bundle.tracks() {
        if !matches_lines(text, records, track)? {
            return Ok(false);
        }
    }
    Ok(true)
}

fn packs(rt: &HostRuntime, rest: &str) -> anyhow::Result<bool> {
    let (number, wanted) = first_word(rest, "a number and its bytes")?;
    let number = number.parse::<u64>()?;
    let mut out = [0xEE; 8];
    let Ok(len) = number::write(number, &mut out) else {
        return Ok(false);
    };
    let mut shown = String::new(rt.alloc());
    for byte in &out[0..len] {
        write!(shown, "{byte:02X}")?;
    }
    let mut reader = Reader::new(Part::Header, &out[..len]);
    let again = number::read(&mut reader);
    Ok(shown.as_str() == wanted && again == Ok(number) && reader.rest.is_empty() && out[7] == 0xEE)
}

fn is_unfit(rest: &str) -> anyhow::Result<bool> {
    let mut out = [0xEE; 8];
    let refused = number::write(rest.parse::<u64>()?, &mut out);
    Ok(refused == Err(Refusal::Unfit) && out == [0xEE; 8])
}

// A length above that of the slice is no case, whatever its number is.
fn is_short(rest: &str) -> anyhow::Result<bool> {
    let wanted = "a number, a length and the bytes needed";
    let (number, rest) = first_word(rest, wanted)?;
    let (len, needed) = first_word(rest, wanted)?;
    let len = len.parse::<usize>()?;
    let needed = needed.parse::<u128>()?;
    let mut out = [0xEE; 8];
    if len > out.len() {
        return Ok(false);
    }
    let refused = number::write(number.parse::<u64>()?, &mut out[..len]);
    Ok(refused == Err(Refusal::Short { needed }) && out == [0xEE; 8])
}

// A record that may not be packed, or a tick; its words are the tests' data too.
fn refused_record<'a>(what: &str, long: &'a [u8]) -> Record<'a> {
    match what {
        "unknown kind" => Record::Unknown { kind: 1 },
        "wide number" => Record::Stay { number: 1 << 42 },
        "long name" => Record::Enrol {
            number: 0,
            wake_hold: 0,
            name: long,
        },
        _ => Record::Tick,
    }
}

// Whether a record that may not be packed is refused, and leaves every byte. Its words are the tests'
// data.
fn is_refused(heap: Global, what: &str) -> anyhow::Result<bool> {
    let long = vec![in heap; b'a'; 60_001]?;
    let record = refused_record(what, &long);
    let last = match what {
        "late stamp" => tracks::TIME_LIMIT,
        "last stamp past the limit" => u64::MAX - 1,
        _ => 0,
    };
    let mut out = vec![in heap; 0xEEu8; 70_000]?;
    let refused = packing::pack(
        last,
        &Entry {
            difference: 1,
            record,
        },
        &mut out,
    );
    Ok(refused == Err(Refusal::Unfit) && out.iter().all(|byte| *byte == 0xEE))
}
