// The limits of a case, and the rooms that follow from them.
use case_frame::LONGEST_FRAME;
use operation::layout::WORDS_PER_OPERATION;

// Operations of a list.
pub(crate) const MOST_CASE_OPERATIONS: usize = 512;

// Bytes of a space.
pub const MOST_CASE_BYTES: usize = 4096;

// Words of the log.
pub const LOG_WORDS: usize = 1024;

// The first operation of a run.
pub const START_INDEX: u64 = 0;

// For the counts of secret bytes of a space: a word for each 64 bytes, and the total.
pub const COUNTS_ROOM: usize = MOST_CASE_BYTES / 64 + 1;

// For the words of the list.
pub(crate) const WORDS_ROOM: usize = WORDS_PER_OPERATION * MOST_CASE_OPERATIONS;

// A line that fills it is longer than any frame.
pub(crate) const LINE_ROOM: usize = LONGEST_FRAME + 1;
