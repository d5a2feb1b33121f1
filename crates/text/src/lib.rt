// Decimal numbers as text.
#![tactic(auto)]

ghost use Rattle.std.specs.Prelude.{◌≡◌, ◌+◌, ◌<◌, ◌≤◌, ◌++◌, length, Some, is_ok, if◌then◌else◌, decimal};

use itoa::Buffer;
use std::alloc::AllocError;
use std::fmt;

// How many digits `n` has. Zero has no logarithm, and one digit.
pub fn decimal_len(n: u64) -> usize
    ensures value { result ≡ length (decimal n) }
    ensures some { 0 < result }
    ensures bound { result ≤ 20 }
{
    n.checked_ilog10().unwrap_or(0) as usize + 1
}

// Appends the digits of `n`. Where there is no memory for them, `out` stays as it was.
pub fn push_number(out: &mut Vec<u8>, n: u64) -> Result<(), AllocError>
    ensures { out.new.items ≡ (if is_ok result then out.old.items ++ decimal n else out.old.items) }
{
    out.extend_from_slice(Buffer::new().format(n).as_bytes())
}

// A number that displays as its digits: `{n}` of the number itself looks at its width and sign first,
// and takes half as long again.
#[derive(Clone, Copy, PartialEq, Eq, Debug)]
pub struct Decimal(pub u64);

impl fmt::Display for Decimal {
    ghost output = { λ d. Some (decimal d.0) };

    fn fmt<W: fmt::Write>(&self, f: &mut fmt::Formatter<W>) -> fmt::Result {
        f.write_str(Buffer::new().format(self.0))
    }
}
