// Lists the bundle on standard input: its one fault, or its records.
#![tactic(auto)]

use bundle::bundles::BUNDLE_LIMIT;
use std::io;
use std::io::{Read, Write};

// One byte more than a bundle may have is enough to know that it is too long.
const MOST_READ: u64 = BUNDLE_LIMIT as u64 + 1;

fn main(rt: HostRuntime) -> io::Result<()> {
    let mut bytes = Vec::new(rt.alloc());
    rt.stdin().take(MOST_READ).read_to_end(&mut bytes)?;
    let text = listing::listing(rt.alloc(), &bytes)?;
    rt.stdout().write_all(&text)
}
