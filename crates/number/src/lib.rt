// Numbers below 2^42 as groups of seven bits, low group first, bit 7 set in all but the last; at
// most six groups, in the shortest form.
#![tactic(auto)]

ghost use Rattle.std.specs.Prelude.{◌≡◌, ◌+◌, ◌-◌, ◌*◌, ◌/◌, ◌%◌, ◌^◌, ◌<◌, ◌≤◌, ◌++◌, length, drop, IfOk, Ok, Err, OnErr};
ghost use Rattle.fault.specs.Faults.{Given, Says};
ghost use Rattle.number.specs.Numbers.{decode, flawed, number_at, encode, Bytes, NumberReadBack, NumberOnePacking, NumberExamples};
ghost use Rattle.number.specs.Packed.{Packed};

use fault::{Fault, Place, Reader, Refusal};

// Every number of a bundle is below this. Numbers stay `u64` all the same: a type of their own would
// ask more of those who pack.
pub const NUMBER_END: u64 = 1 << 42;

// The most groups of a number.
const GROUP_LIMIT: usize = 6;

// What is wrong with a number.
#[derive(Clone, Copy, PartialEq, Eq, Debug)]
pub enum Flaw {
    CutOff,
    TooManyGroups,
    NotShortest,
}

impl Flaw {
    // The fault of the number that begins at a place. No `From`: it would have to take a pair.
    fn at(self, place: Place) -> Fault
        ensures { result ≡ flawed self place }
    {
        match self {
            Flaw::CutOff => Fault::CutOff(place),
            Flaw::TooManyGroups => Fault::TooManyGroups(place),
            Flaw::NotShortest => Fault::NotShortest(place),
        }
    }
}

// Takes the groups of a number off `bytes`. The loop over the groups after the first goes to the
// end of the slice or to the sixth: a loop of six turns would be unrolled, and then be too large
// to be inlined where numbers are read.
#[tactic(auto, using(crate::proofs::NumberReading::kept_zero, crate::proofs::NumberReading::kept_out, crate::proofs::NumberReading::other_at, crate::proofs::NumberReading::length_others))]
fn read_groups(bytes: &[u8]) -> Result<(u64, &[u8]), Flaw>
    ensures is { Says (λ v. (v.0, v.1.now)) (decode bytes.now) result }
    ensures bound { IfOk result (λ v. v.0 < 2 ^ 42) }
    ensures whole { IfOk result (λ v. bytes.now ≡ encode v.0 ++ v.1.now) }
    ensures shorter { IfOk result (λ v. length v.1.now < length bytes.now) }
    ensures bytes { Bytes bytes.now }
{
    let [first, rest @ ..] = bytes else {
        return Err(Flaw::CutOff);
    };
    if *first < 128 {
        return Ok((u64::from(*first), rest));
    }
    let mut value = u64::from(*first & 127);
    let others = &rest[..rest.len().min(GROUP_LIMIT - 1)];
    for (i, group) in others.iter().enumerate() {
        value |= u64::from(*group & 127) << ((i + 1) * 7);
        if *group < 128 {
            if *group == 0 {
                return Err(Flaw::NotShortest);
            }
            return Ok((value, &rest[i + 1..]));
        }
    }
    if bytes.len() < GROUP_LIMIT {
        Err(Flaw::CutOff)
    } else {
        Err(Flaw::TooManyGroups)
    }
}

// Takes a number off a reader. A fault leaves the reader where it was. The place is made at a fault
// alone: made before, for a `map_err`, it costs a tenth of the time of a number of one group.
pub fn read(reader: &mut Reader) -> Result<u64, Fault>
    ensures is { Given (λ n. n) number_at reader.old reader.new result }
    ensures bound { IfOk result (λ n. n < 2 ^ 42) }
    ensures whole { IfOk result (λ n. reader.old.rest.now ≡ encode n ++ reader.new.rest.now) }
    ensures shorter { IfOk result (λ _. length reader.new.rest.now < length reader.old.rest.now) }
    ensures kept { OnErr result (reader.new ≡ reader.old) }
    ensures bytes { Bytes reader.old.rest.now }
{
    match read_groups(reader.rest) {
        Ok((number, rest)) => {
            reader.rest = rest;
            Ok(number)
        }
        Err(flaw) => Err(flaw.at(reader.place())),
    }
}

// How many groups a number takes, by the zeros before its highest bit: one for each seven bits, and
// six from 2^42 on, where it is not packed. A table of the type that is asked for: a division takes
// more time, and so does a test where short and long numbers stand mixed.
const GROUPS: [usize; 64] = [
    6, 6, 6, 6, 6, 6, 6, 6, 6, 6, 6, 6, 6, 6, 6, 6, 6, 6, 6, 6, 6, 6, 6, 6, 6, 6, 6, 6, 6, 5, 5, 5,
    5, 5, 5, 5, 4, 4, 4, 4, 4, 4, 4, 3, 3, 3, 3, 3, 3, 3, 2, 2, 2, 2, 2, 2, 2, 1, 1, 1, 1, 1, 1, 1,
];

// How many bytes `n` takes; of a number of 2^42 or more, which is not packed, six.
#[tactic(auto, using(crate::proofs::NumberLaws::groups_at))]
pub fn packed_len(n: u64) -> usize
    ensures is { result ≡ length (encode n) }
    ensures bound { result ≤ 6 }
{
    let zeros = 63 - (n | 1).ilog2() as usize;
    GROUPS[zeros]
}

// Writes `n` into a slice of just the bytes that it takes.
fn put(n: u64, out: &mut [u8])
    requires small { n < 2 ^ 42 }
    requires room { length out.old ≡ length (encode n) }
    ensures { out.new ≡ encode n }
{
    let mut left = n;
    for byte in out.iter_mut() {
        if left < 128 {
            *byte = left as u8;
            return;
        }
        *byte = (left % 128) as u8 + 128;
        left /= 128;
    }
}

// Packs `n` at the start of `out`, and answers how many bytes it takes. Most numbers have one
// group: these take the short way.
#[tactic(auto, using(crate::proofs::NumberLaws::number_read_back, crate::proofs::NumberLaws::encode_one, crate::proofs::NumberLaws::put_one))]
pub fn write(n: u64, out: &mut [u8]) -> Result<usize, Refusal>
    ensures packed { Packed (n < 2 ^ 42) (encode n) out.old out.new result }
    ensures read_back { IfOk result (λ k. decode out.new ≡ Ok (n, drop k out.old)) }
{
    if n < 128 {
        fault::room(Some(1), out)?;
        out[0] = n as u8;
        return Ok(1);
    }
    let len = packed_len(n);
    fault::room((n < NUMBER_END).then_some(len as u128), out)?;
    put(n, &mut out[..len]);
    Ok(len)
}

// A number below 2^42 is read back from its packing, whatever follows.
#[tactic(auto, using(crate::proofs::NumberLaws::number_read_back))]
pub fn number_is_read_back()
    ensures { NumberReadBack }
{}

// What is read is the one packing of its number.
pub fn number_has_one_packing()
    ensures { NumberOnePacking }
{}

// 200 packs as C8 01, and 80 00 is not the shortest form.
#[tactic(auto, using(crate::proofs::NumberLaws::number_examples))]
pub fn number_examples()
    ensures { NumberExamples }
{}
