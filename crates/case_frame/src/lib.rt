// A line of a case as a frame.
#![tactic(auto)]

ghost use Rattle.std.specs.Prelude.{◌≡◌, ◌≤◌, length};
ghost use Rattle.operation.specs.Layout.{words_per_operation};
ghost use Rattle.case_frame.specs.Frames.{bytes_length, operation_length, opening_of, bytes_frame_of, operation_of, frame_by, frame_of, numbers_of, numbers_on, bytes_on, words_on};

use case_hexadecimal::{BYTE_DIGITS, NUMBER_DIGITS, WORD_DIGITS, all_digits, number};
use operation::layout::{Lengths, Settings, WORDS_PER_OPERATION, Wordsizes};

// Where the parts of frame 01 lie, behind its kind, and the digits of its line.
const ORDER_COLUMN: usize = BYTE_DIGITS;

const ADDRESS_SIZE_COLUMN: usize = ORDER_COLUMN + BYTE_DIGITS;

const UNIQUE_COLUMN: usize = ADDRESS_SIZE_COLUMN + BYTE_DIGITS;

const REGISTER_COLUMN: usize = UNIQUE_COLUMN + NUMBER_DIGITS;

const RAM_COLUMN: usize = REGISTER_COLUMN + NUMBER_DIGITS;

const BUDGET_COLUMN: usize = RAM_COLUMN + NUMBER_DIGITS;

const UNIQUE_WORDSIZE_COLUMN: usize = BUDGET_COLUMN + NUMBER_DIGITS;

const REGISTER_WORDSIZE_COLUMN: usize = UNIQUE_WORDSIZE_COLUMN + BYTE_DIGITS;

const RAM_WORDSIZE_COLUMN: usize = REGISTER_WORDSIZE_COLUMN + BYTE_DIGITS;

const OPENING_LENGTH: usize = RAM_WORDSIZE_COLUMN + BYTE_DIGITS;

// Those of frames 02 and 03, the bytes that one can have, and the digits of a line with one byte and with the most.
const SPACE_COLUMN: usize = BYTE_DIGITS;

const OFFSET_COLUMN: usize = SPACE_COLUMN + BYTE_DIGITS;

pub const BYTES_COLUMN: usize = OFFSET_COLUMN + NUMBER_DIGITS;

const MOST_FRAME_BYTES: usize = 32;

const SHORTEST_BYTES: usize = BYTES_COLUMN + BYTE_DIGITS;

const LONGEST_BYTES: usize = BYTES_COLUMN + BYTE_DIGITS * MOST_FRAME_BYTES;

// Those of frame 04.
const WORDS_COLUMN: usize = BYTE_DIGITS;

const OPERATION_LENGTH: usize = WORDS_COLUMN + WORD_DIGITS * WORDS_PER_OPERATION;

// The digits of the longest line that is a frame. A constant calls no `max`.
pub const LONGEST_FRAME: usize = if OPERATION_LENGTH < LONGEST_BYTES {
    LONGEST_BYTES
} else {
    OPERATION_LENGTH
};

// Where the bytes of a line go: into the memory, or into its labels.
#[derive(Clone, Copy)]
pub enum Target {
    Memory,
    Labels,
}

// What a line stands for: frame 01, frames 02 and 03, or frame 04.
#[derive(Drop)]
pub enum Frame {
    Opening {
        settings: Settings,
        lengths: Lengths,
        budget: u32,
    },
    Bytes {
        target: Target,
        space: u64,
        offset: u64,
        count: usize,
    },
    Operation,
}

// The frame of a line without its newline; a bad line has none.
#[tactic(auto, using(std::proofs::lemmas::Bool::Decides::nat_tests), unfolding(crate::specs::Frames::frame_of))]
pub fn frame_of(s: &[u8]) -> Option<Frame>
    ensures answer { result ≡ frame_of s.now }
    ensures numbers { numbers_of result ≡ numbers_on s.now }
{
    if s.len() < BYTE_DIGITS || !all_digits(s) {
        return None;
    }
    frame_by(number(s, 0, BYTE_DIGITS), s)
}

#[tactic(auto, using(std::proofs::lemmas::Bool::Decides::nat_tests), unfolding(crate::specs::Frames::frame_by))]
fn frame_by(kind: u64, s: &[u8]) -> Option<Frame>
    ensures { result ≡ frame_by kind s.now }
{
    match kind {
        // The kinds by number: a line holds them, and they are read here alone.
        1 => opening_of(s),
        2 => bytes_frame_of(Target::Memory, s),
        3 => bytes_frame_of(Target::Labels, s),
        4 => operation_of(s),
        _ => None,
    }
}

#[tactic(auto, using(std::proofs::lemmas::Bool::Decides::nat_tests), unfolding(crate::specs::Frames::opening_of))]
fn opening_of(s: &[u8]) -> Option<Frame>
    ensures { result ≡ opening_of s.now }
{
    if s.len() != OPENING_LENGTH {
        return None;
    }
    let settings = Settings {
        order: number(s, ORDER_COLUMN, BYTE_DIGITS),
        address_size: number(s, ADDRESS_SIZE_COLUMN, BYTE_DIGITS),
        wordsizes: Wordsizes {
            unique: number(s, UNIQUE_WORDSIZE_COLUMN, BYTE_DIGITS),
            register: number(s, REGISTER_WORDSIZE_COLUMN, BYTE_DIGITS),
            ram: number(s, RAM_WORDSIZE_COLUMN, BYTE_DIGITS),
        },
    };
    let lengths = Lengths {
        unique: number(s, UNIQUE_COLUMN, NUMBER_DIGITS),
        register: number(s, REGISTER_COLUMN, NUMBER_DIGITS),
        ram: number(s, RAM_COLUMN, NUMBER_DIGITS),
    };
    let budget = number(s, BUDGET_COLUMN, NUMBER_DIGITS) as u32;
    Some(Frame::Opening {
        settings,
        lengths,
        budget,
    })
}

#[tactic(auto, using(std::proofs::lemmas::Bool::Decides::nat_tests), unfolding(crate::specs::Frames::bytes_frame_of))]
fn bytes_frame_of(target: Target, s: &[u8]) -> Option<Frame>
    ensures { result ≡ bytes_frame_of target s.now }
{
    let n = s.len();
    if n < SHORTEST_BYTES || LONGEST_BYTES < n || n % BYTE_DIGITS != 0 {
        return None;
    }
    Some(Frame::Bytes {
        target,
        space: number(s, SPACE_COLUMN, BYTE_DIGITS),
        offset: number(s, OFFSET_COLUMN, NUMBER_DIGITS),
        count: (n - BYTES_COLUMN) / BYTE_DIGITS,
    })
}

#[tactic(auto, using(std::proofs::lemmas::Bool::Decides::nat_tests), unfolding(crate::specs::Frames::operation_of))]
fn operation_of(s: &[u8]) -> Option<Frame>
    ensures { result ≡ operation_of s.now }
{
    (s.len() == OPERATION_LENGTH).then_some(Frame::Operation)
}

// Stores the bytes of a 02 line, or the labels of a 03 line.
pub fn store_bytes(s: &[u8], to: &mut [u8])
    requires { bytes_length (length to.old) ≤ length s.now }
    ensures { to.new ≡ bytes_on (length to.old) s.now }
{
    for (i, byte) in to.iter_mut().enumerate() {
        *byte = number(s, BYTES_COLUMN + BYTE_DIGITS * i, BYTE_DIGITS) as u8;
    }
}

// Stores the words of a 04 line.
pub fn store_words(s: &[u8], to: &mut [u64])
    requires { (operation_length ≤ length s.now) × (length to.old ≡ words_per_operation) }
    ensures { to.new ≡ words_on s.now }
{
    for (k, word) in to.iter_mut().enumerate() {
        *word = number(s, WORDS_COLUMN + WORD_DIGITS * k, WORD_DIGITS);
    }
}
