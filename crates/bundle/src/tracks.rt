// The tracks of a bundle.
ghost use Rattle.bundle.specs.Numbered.{Numbered};
ghost use Rattle.std.specs.Prelude.{◌≡◌, ◌+◌, ◌<◌, ◌≤◌, [], ◌∷◌, ◌++◌, length, take};

use crate::bundles::TRACK_LIMIT;
use track::tracks::Track;

// Up to eight tracks, the first `count` of `all`. There is no heap to hold them, and an `ArrayVec`
// could not be copied; nor could a struct that borrows and has a model.
#[derive(Clone, Copy)]
pub(crate) struct Tracks<'a> {
    all: [Track<'a>; TRACK_LIMIT],
    count: usize,
    ghost few: { count ≤ 8 },
    ghost room: { length all ≡ 8 },
    ghost numbered: { Numbered count (take count all) },
}

impl<'a> Tracks<'a> {
    pub(crate) fn new() -> Tracks<'a>
        ensures { result.count ≡ 0 }
    {
        let none = Track {
            number: 0,
            end: 0,
            bytes: &[],
        };
        Tracks {
            all: [none; TRACK_LIMIT],
            count: 0,
        }
    }

    pub(crate) fn push(&mut self, track: Track<'a>)
        requires room { self.old.count < 8 }
        requires next { track.number ≡ self.old.count }
        ensures count { self.new.count ≡ self.old.count + 1 }
        ensures is { take self.new.count self.new.all ≡ take self.old.count self.old.all ++ track.entry ∷ [] }
    {
        self.all[self.count] = track;
        self.count += 1;
    }

    pub(crate) fn as_slice(&self) -> &[Track<'a>]
        ensures is { result.now ≡ take self.now.count self.now.all }
        ensures numbered { Numbered (length result.now) result.now }
    {
        &self.all[..self.count]
    }
}
