// Which operands the opcodes take.
ghost use Rattle.std.specs.Prelude.{◌≡◌, ◌+◌, cond, eqb};
ghost use Rattle.word.specs.Sum.{digit};
ghost use Rattle.arithmetic.specs.Operands.{divides, sizes_agree};

use super::opcodes::*;
use integer::boolean::pick;

// The sentences of rule 25, in the definition's order. COPY, INT_2COMP, INT_NEGATE and shifts: input0 = output.
const SIZE_KEPT: u64 = 1 << COPY
    | 1 << INT_2COMP
    | 1 << INT_NEGATE
    | 1 << INT_LEFT
    | 1 << INT_RIGHT
    | 1 << INT_SRIGHT;

// Addition, subtraction, multiplication, divisions, remainders, INT_XOR, INT_AND, INT_OR: all three equal.
const SIZES_EQUAL: u64 = 1 << INT_ADD
    | 1 << INT_SUB
    | 1 << INT_XOR
    | 1 << INT_AND
    | 1 << INT_OR
    | 1 << INT_MULT
    | 1 << INT_DIV
    | 1 << INT_REM
    | 1 << INT_SDIV
    | 1 << INT_SREM;

// Comparisons and the three carries: inputs equal, output 1.
const COMPARISONS: u64 = 1 << INT_EQUAL
    | 1 << INT_NOTEQUAL
    | 1 << INT_LESS
    | 1 << INT_SLESS
    | 1 << INT_LESSEQUAL
    | 1 << INT_SLESSEQUAL
    | 1 << INT_CARRY
    | 1 << INT_SCARRY
    | 1 << INT_SBORROW;

// Extensions: output larger than input0.
const EXTENSIONS: u64 = 1 << INT_ZEXT | 1 << INT_SEXT;

// BOOL_XOR, BOOL_AND, BOOL_OR: all 1.
const BOOLEANS: u64 = 1 << BOOL_XOR | 1 << BOOL_AND | 1 << BOOL_OR;

// BOOL_NEGATE: both 1.
const NEGATED: u64 = 1 << BOOL_NEGATE;

// PIECE: inputs add up to output.
const JOINED: u64 = 1 << PIECE;

// LOAD and STORE: the pointer has the address size.
const POINTERS: u64 = 1 << LOAD | 1 << STORE;

// BRANCHIND, CALLIND, RETURN: input0 has the address size.
const INDIRECT: u64 = 1 << BRANCHIND | 1 << CALLIND | 1 << RETURN;

// CBRANCH: the condition has size 1.
const CONDITIONS: u64 = 1 << CBRANCH;

// BRANCH, CALL, SUBPIECE and POPCOUNT: free.
const SIZES_FREE: u64 = 1 << BRANCH | 1 << CALL | 1 << SUBPIECE | 1 << POPCOUNT;

// The operation divides by input1.
#[tactic(auto, unfolding(crate::specs::Operands::divides))]
pub fn is_division(opcode: u64) -> bool
    ensures { result ≡ divides opcode }
{
    (INT_DIV <= opcode) & (opcode <= INT_SREM)
}

// Rule 25 SIZE, a line for each of its sentences, the last one first. The two that most operations fall under are told by a
// branch; the others are tests without one.
pub fn sizes_agree(address_size: u64, opcode: u64, size: u64, size0: u64, size1: u64) -> bool
    ensures { result ≡ sizes_agree address_size opcode size size0 size1 }
{
    if has_bit(SIZE_KEPT, opcode) {
        size0 == size
    } else if has_bit(SIZES_EQUAL, opcode) {
        (size0 == size) & (size1 == size)
    } else {
        let free = has_bit(SIZES_FREE, opcode);
        let condition = sentence(CONDITIONS, opcode, size1 == 1, free);
        let indirect = sentence(INDIRECT, opcode, size0 == address_size, condition);
        let pointer = sentence(POINTERS, opcode, size1 == address_size, indirect);
        let joined = sentence(JOINED, opcode, add_up(size0, size1, size), pointer);
        let negated = sentence(NEGATED, opcode, (size0 == 1) & (size == 1), joined);
        let boolean = sentence(
            BOOLEANS,
            opcode,
            (size0 == 1) & (size1 == 1) & (size == 1),
            negated,
        );
        let extended = sentence(EXTENSIONS, opcode, size0 < size, boolean);
        sentence(
            COMPARISONS,
            opcode,
            (size1 == size0) & (size == 1),
            extended,
        )
    }
}

// What a sentence asks of the opcodes of its set, and the sentences after it of any other.
fn sentence(set: u64, opcode: u64, asked: bool, rest: bool) -> bool
    ensures { result ≡ cond (eqb (digit 2 set opcode) 1) asked rest }
{
    pick(has_bit(set, opcode), asked, rest)
}

// size0 + size1 = size, where the sum does not wrap.
fn add_up(size0: u64, size1: u64, size: u64) -> bool
    ensures { result ≡ eqb (size0 + size1) size }
{
    size0.checked_add(size1) == Some(size)
}
