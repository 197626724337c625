// Settings and lengths of a call, and how operations lie in their words.
ghost use Rattle.std.specs.Prelude.{◌≡◌, ◌+◌, ◌*◌, ◌<◌, ◌≤◌, length};
ghost use Rattle.word.specs.Sum.{digit};
ghost use Rattle.arithmetic.specs.Opcodes.{most_inputs};
ghost use Rattle.operation.specs.Layout.{by_space, wordsize_of, words_per_operation, operation_count, word_at, head_byte, spare_at, opcode_at, absent, described_by, varnode_at};

use arithmetic::opcodes::MOST_INPUTS;
pub use arithmetic::opcodes::{INPUT0, INPUT1, INPUT2, OUTPUT};

// Words to an operation: the head, then the offset of the output and those of the inputs.
pub const WORDS_PER_OPERATION: usize = MOST_INPUTS as usize + 2;

// Bytes of the head that are used: the opcode, then the descriptor of the output and those of the inputs.
const HEAD_BYTES: u64 = MOST_INPUTS as u64 + 2;

// Numbers of the address spaces. They stay numbers: lists and the C interface hold them, and definitions and theorems speak of them.
pub const ABSENT: u64 = 0;

pub const CONSTANT: u64 = 1;

pub const UNIQUE: u64 = 2;

pub const REGISTER: u64 = 3;

pub const RAM: u64 = 4;

// A number of bytes at an offset of an address space; of CONSTANT the offset is the value.
#[derive(Clone, Copy)]
pub struct Varnode {
    pub space: u64,
    pub offset: u64,
    pub size: u64,
}

// One thing for each address space with bytes: its length, its wordsize, its buffer.
#[derive(Clone, Copy, PartialEq, Eq)]
pub struct Spaces<T> {
    pub unique: T,
    pub register: T,
    pub ram: T,
}

pub type Lengths = Spaces<u64>;

// How many bytes a pointer into each space counts as one.
pub type Wordsizes = Spaces<u64>;

// Byte order, 0 little or 1 big, address size and wordsizes. Numbers, as they are lent: a call refuses what is out of range.
#[derive(Clone, Copy)]
pub struct Settings {
    pub order: u64,
    pub address_size: u64,
    pub wordsizes: Wordsizes,
}

// One of three numbers, by the number of the space that it is for; 0 for any other space. Register stands first for speed
// (docs/DECISIONS.md).
pub(crate) fn by_space(space: u64, unique: u64, register: u64, ram: u64) -> u64
    ensures { result ≡ by_space space unique register ram }
{
    match space {
        REGISTER => register,
        UNIQUE => unique,
        RAM => ram,
        _ => 0,
    }
}

// The wordsize of a space, by its number.
pub fn wordsize_of(wordsizes: Wordsizes, space: u64) -> u64
    ensures { result ≡ wordsize_of wordsizes space }
{
    by_space(space, wordsizes.unique, wordsizes.register, wordsizes.ram)
}

// n, the number of operations of a list; also the index of its end.
#[tactic(auto, unfolding(crate::specs::Layout::operation_count))]
pub fn operation_count(list: &[u64]) -> usize
    ensures { result ≡ operation_count list.now }
{
    list.len() / WORDS_PER_OPERATION
}

// Word k of operation i.
#[tactic(auto, unfolding(crate::specs::Layout::word_at))]
pub(crate) fn word_at(list: &[u64], i: usize, k: usize) -> u64
    requires { words_per_operation * i + k < length list.now }
    ensures { result ≡ word_at list.now i k }
{
    list[WORDS_PER_OPERATION * i + k]
}

// Byte k of a word, from the least significant.
fn byte(w: u64, k: u8) -> u64
    requires { k < 8 }
    ensures { result ≡ digit 256 w k }
{
    (w >> (8 * u64::from(k))) % 256
}

// Byte k of the head of operation i.
#[tactic(auto, unfolding(crate::specs::Layout::head_byte))]
pub(crate) fn head_byte(list: &[u64], i: usize, k: u8) -> u64
    requires { (words_per_operation * i < length list.now) × (k < 8) }
    ensures { result ≡ head_byte list.now i k }
{
    byte(word_at(list, i, 0), k)
}

// The number that the spare bytes of the head make.
#[tactic(auto, unfolding(crate::specs::Layout::spare_at))]
pub(crate) fn spare_at(list: &[u64], i: usize) -> u64
    requires { words_per_operation * i < length list.now }
    ensures { result ≡ spare_at list.now i }
{
    word_at(list, i, 0) >> (8 * HEAD_BYTES)
}

// Byte 0 is the opcode.
#[tactic(auto, unfolding(crate::specs::Layout::opcode_at))]
pub fn opcode_at(list: &[u64], i: usize) -> u64
    requires { words_per_operation * i < length list.now }
    ensures { result ≡ opcode_at list.now i }
{
    head_byte(list, i, 0)
}

// No varnode.
#[tactic(auto, unfolding(crate::specs::Layout::absent))]
pub fn absent() -> Varnode
    ensures { result ≡ absent }
{
    Varnode {
        space: ABSENT,
        offset: 0,
        size: 0,
    }
}

// A descriptor is space * 16 + size.
#[tactic(auto, unfolding(crate::specs::Layout::described_by))]
pub fn described_by(descriptor: u64, offset: u64) -> Varnode
    ensures { result ≡ described_by descriptor offset }
{
    Varnode {
        space: descriptor / 16,
        offset,
        size: descriptor % 16,
    }
}

// The varnode at a place of operation i.
#[tactic(auto, unfolding(crate::specs::Layout::varnode_at, crate::specs::Layout::descriptor_at, crate::specs::Layout::offset_at))]
pub fn varnode_at(list: &[u64], i: usize, place: u8) -> Varnode
    requires { (words_per_operation * i + words_per_operation ≤ length list.now) × (place ≤ most_inputs) }
    ensures { result ≡ varnode_at list.now i place }
{
    described_by(
        head_byte(list, i, place + 1),
        word_at(list, i, place as usize + 1),
    )
}
