// What was read so far, in buffers of fixed length.
ghost use Rattle.std.specs.Prelude.{◌≤◌, length};
ghost use Rattle.case_reader.specs.Limits.{most_case_operations, Fits};

use crate::limits::{LINE_ROOM, MOST_CASE_BYTES, WORDS_ROOM};
use operation::layout::{Lengths, Settings, Spaces};

// For the bytes of a space, or for their labels.
pub type Room = [u8; MOST_CASE_BYTES];

// What the lines of a case said. No space is longer than its room, and there is room for the words of the operations.
// Words and line are arrays beside how much of them is used: `Reader` and `Stage` are `Copy`, and an `ArrayVec` is not.
#[derive(Clone, Copy)]
pub struct Buffers {
    pub settings: Settings,
    pub lengths: Lengths,
    pub budget: u32,
    pub memory: Spaces<Room>,
    pub labels: Spaces<Room>,
    pub words: [u64; WORDS_ROOM],
    pub operations: usize,
    pub ghost fits: { Fits lengths },
    pub ghost few: { operations ≤ most_case_operations },
}

// The unfinished line, as much of it as there is room for.
#[derive(Clone, Copy)]
pub struct Line {
    pub bytes: [u8; LINE_ROOM],
    pub used: usize,
    pub ghost room: { used ≤ length bytes },
}
