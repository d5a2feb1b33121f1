// The entries of a track, one after another.
ghost use Rattle.std.specs.Iterator.{at_most};
ghost use Rattle.track.specs.Stepping.{Begins, Steps, unread};

use crate::tracks::{Entries, Entry, Track};
use fault::{Fault, Reader};

impl<'a> Track<'a> {
    // The entries in their order, each with its stamp, to the end or to the first fault.
    pub fn entries(&self) -> Entries<'a>
        ensures { Begins self.now result }
    {
        Entries {
            left: *self,
            read: 0,
            stamp: 0,
        }
    }
}

impl<'a> Iterator for Entries<'a> {
    type Item = Result<(u64, Entry<'a>), Fault>;

    ghost next_gives = { Steps };

    ghost remaining = { λ s. at_most (unread s) };

    // In line with the two functions that it reads by: a loop then has the entry in registers. A call
    // hands it over in memory, and a check of short records takes half as long again.
    #[inline(always)]
    fn next(&mut self) -> Option<Result<(u64, Entry<'a>), Fault>> {
        if self.left.bytes.is_empty() {
            return None;
        }
        let mut reader = Reader {
            span: self.left.span(self.read),
            rest: self.left.bytes,
        };
        // Both ends move on, and so there is no `?`.
        match Entry::read(&mut reader, self.stamp) {
            Ok(entry) => {
                self.left.bytes = reader.rest;
                self.read += 1;
                self.stamp += entry.difference;
                Some(Ok((self.stamp, entry)))
            }
            Err(fault) => {
                self.left.bytes = &[];
                Some(Err(fault))
            }
        }
    }
}
