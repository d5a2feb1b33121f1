// Packing: one record after a last stamp, or a list of records as a track.
ghost use Rattle.std.specs.Prelude.{◌≡◌, ℕ, ◌+◌, ◌*◌, ◌^◌, ◌<◌, ◌≤◌, ⊤, List, map, length, take, drop, IfSome, IfOk, Ok};
ghost use Rattle.std.specs.List.{flat_map, AllByRecursion};
ghost use Rattle.fault.specs.declared.Span.{Span as Stretch};
ghost use Rattle.number.specs.Numbers.{encode};
ghost use Rattle.number.specs.Packed.{Packed, Needs, Put};
ghost use Rattle.track.specs.Records.{view, record_bytes, Fits};
ghost use Rattle.track.specs.Tracks.{view_entry, entry_at, track_of, entry_bytes, packed_track, FitsAfter, AllFit};

use crate::records::{Kind, Record};
use crate::tracks::{Entry, TIME_LIMIT};
use fault::Refusal;

// The longest name that is packed, in bytes.
pub const NAME_LIMIT: usize = 60_000;

// How many bytes the numbers take, one after another, or none where one of them may not be packed.
fn packed_len_all(ns: &[u64]) -> Option<usize>
    requires { length ns.now ≤ 4 }
    ensures is { Needs (AllByRecursion (λ n. n < 2 ^ 42) ns.now) (flat_map encode ns.now) result }
    ensures bound { IfSome result (λ k. k ≤ 24) }
{
    let mut len = 0;
    for n in ns {
        if *n >= number::NUMBER_END {
            return None;
        }
        len += number::packed_len(*n);
    }
    Some(len)
}

impl Record<'_> {
    // How many bytes a record takes, or none where it may not be packed: that needs a known kind,
    // numbers below 2^42 and a name within its limit. Inlined, so that its numbers are not copied.
    #[inline(always)]
    fn packed_len(&self) -> Option<usize>
        ensures is { Needs (Fits (view self.now)) (record_bytes (view self.now)) result }
        ensures bound { IfSome result (λ k. k ≤ 60024) }
    {
        if let Kind::Unknown(_) = self.kind() {
            return None;
        }
        let numbers = packed_len_all(&self.numbers())?;
        let text = self.text();
        if text.len() > NAME_LIMIT {
            return None;
        }
        Some(numbers + text.len())
    }
}

// How many bytes an entry takes after the stamp `last`, or none where it may not be packed there.
// Inlined, so that the answer does not go through memory.
#[inline(always)]
fn entry_len(last: u64, entry: &Entry) -> Option<u128>
    ensures is { Needs (FitsAfter last (view_entry entry.now)) (entry_bytes (view_entry entry.now)) result }
    ensures bound { IfSome result (λ k. k ≤ 60030) }
{
    if last.saturating_add(entry.difference) > TIME_LIMIT {
        return None;
    }
    let record = entry.record.packed_len()?;
    Some((number::packed_len(entry.difference) + record) as u128)
}

// What is packed as bytes of its own.
trait Packable {
    ghost bytes: { Self → List ℕ };

    ghost fits: { Self → Type 0 };

    // Writes it at the start of `out`, where there is room for it, and answers how many bytes it takes.
    fn put(&self, out: &mut [u8]) -> usize
        requires fits { fits self.now }
        requires room { length (bytes self.now) ≤ length out.old }
        ensures { Put (bytes self.now) out.old out.new result };
}

// Writes one after another, where there is room for all, and answers how many bytes they take, which
// is also where the next is written.
#[tactic(auto, using(number::proofs::Puts::put_room, number::proofs::Puts::put_turn))]
fn put_all<T: Packable>(items: &[T], out: &mut [u8]) -> usize
    requires fits { AllByRecursion T.fits items.now }
    requires room { length (flat_map T.bytes items.now) ≤ length out.old }
    ensures { Put (flat_map T.bytes items.now) out.old out.new result }
{
    let mut at = 0;
    for item in items {
        at += item.put(&mut out[at..]);
    }
    at
}

impl Packable for &[u8] {
    ghost bytes = { λ t. t.now };

    ghost fits = { λ _. ⊤ };

    fn put(&self, out: &mut [u8]) -> usize {
        out[..self.len()].copy_from_slice(self);
        self.len()
    }
}

impl Packable for u64 {
    ghost bytes = { encode };

    ghost fits = { λ n. n < 2 ^ 42 };

    // Nothing is refused here: the number is small enough, and there is room for it. What writes
    // without a test asks something of its caller, and so is not public.
    fn put(&self, out: &mut [u8]) -> usize {
        match number::write(*self, out) {
            Ok(len) => len,
            Err(_) => unreachable(),
        }
    }
}

impl Packable for Record<'_> {
    ghost bytes = { λ r. record_bytes (view r) };

    ghost fits = { λ r. Fits (view r) };

    fn put(&self, out: &mut [u8]) -> usize {
        let at = put_all(&self.numbers(), out);
        at + self.text().put(&mut out[at..])
    }
}

impl Packable for Entry<'_> {
    ghost bytes = { λ e. entry_bytes (view_entry e) };

    ghost fits = { λ e. FitsAfter 0 (view_entry e) };

    fn put(&self, out: &mut [u8]) -> usize {
        let at = self.difference.put(out);
        at + self.record.put(&mut out[at..])
    }
}

// Packs an entry after the stamp `last` at the start of `out`, and answers how many bytes it takes.
#[tactic(auto, using(crate::proofs::TrackLaws::record_read_back))]
pub fn pack(last: u64, entry: &Entry, out: &mut [u8]) -> Result<usize, Refusal>
    ensures packed { Packed (FitsAfter last (view_entry entry.now)) (entry_bytes (view_entry entry.now)) out.old out.new result }
    ensures read_back { IfOk result (λ k. (s : Stretch) → entry_at s last out.new ≡ Ok (view_entry entry.now, drop k out.old)) }
{
    fault::room(entry_len(last, entry), out)?;
    Ok(entry.put(out))
}

// How many bytes the entries take as a track, or none where one of them may not be packed.
#[tactic(auto, using(crate::proofs::ListPacking::measured_end))]
fn track_len(entries: &[Entry]) -> Option<u128>
    ensures { Needs (AllFit 0 (map view_entry entries.now)) (packed_track entries.now) result }
{
    let mut last = 0;
    let mut len = 0;
    for entry in entries {
        len += entry_len(last, entry)?;
        last += entry.difference;
    }
    Some(len)
}

// Packs the entries as a track, record by record from stamp 0 on, at the start of `out`, and
// answers how many bytes they take.
#[tactic(auto, using(crate::proofs::TrackLaws::track_read_back, crate::proofs::ListPacking::each_fits, crate::proofs::ListPacking::packed_each))]
pub fn pack_track(entries: &[Entry], out: &mut [u8]) -> Result<usize, Refusal>
    ensures packed { Packed (AllFit 0 (map view_entry entries.now)) (packed_track entries.now) out.old out.new result }
    ensures read_back { IfOk result (λ k. (end track : ℕ) → track_of end track (take k out.new) ≡ Ok (map view_entry entries.now)) }
{
    fault::room(track_len(entries), out)?;
    Ok(put_all(entries, out))
}
