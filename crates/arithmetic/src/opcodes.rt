// The opcodes: their names, and which varnodes each has. A set of opcodes is a word: the bit that counts 2^opcode is 1. A table would be
// built anew at every look-up.
ghost use Rattle.std.specs.Prelude.{◌≡◌, eqb};
ghost use Rattle.word.specs.Sum.{digit};
ghost use Rattle.arithmetic.specs.Opcodes.{has_place};

// The operations, by the names of p-code.
#[derive(Clone, Copy, PartialEq, Eq)]
pub enum Opcode {
    Copy = 1,
    Load,
    Store,
    Branch,
    CBranch,
    BranchInd,
    Call,
    CallInd,
    Return,
    Piece,
    SubPiece,
    PopCount,
    IntEqual,
    IntNotEqual,
    IntLess,
    IntSLess,
    IntLessEqual,
    IntSLessEqual,
    IntZExt,
    IntSExt,
    IntAdd,
    IntSub,
    IntCarry,
    IntSCarry,
    IntSBorrow,
    IntTwoComp,
    IntNegate,
    IntXor,
    IntAnd,
    IntOr,
    IntLeft,
    IntRight,
    IntSRight,
    IntMult,
    IntDiv,
    IntRem,
    IntSDiv,
    IntSRem,
    BoolNegate,
    BoolXor,
    BoolAnd,
    BoolOr,
}

// Each opcode as the number that a list of operations holds, for patterns and tests: code that runs asks by these, since a conversion to the
// enum would be one more test of each operation.
pub const COPY: u64 = Opcode::Copy as u64;

pub const LOAD: u64 = Opcode::Load as u64;

pub const STORE: u64 = Opcode::Store as u64;

pub const BRANCH: u64 = Opcode::Branch as u64;

pub const CBRANCH: u64 = Opcode::CBranch as u64;

pub const BRANCHIND: u64 = Opcode::BranchInd as u64;

pub const CALL: u64 = Opcode::Call as u64;

pub const CALLIND: u64 = Opcode::CallInd as u64;

pub const RETURN: u64 = Opcode::Return as u64;

pub const PIECE: u64 = Opcode::Piece as u64;

pub const SUBPIECE: u64 = Opcode::SubPiece as u64;

pub const POPCOUNT: u64 = Opcode::PopCount as u64;

pub const INT_EQUAL: u64 = Opcode::IntEqual as u64;

pub const INT_NOTEQUAL: u64 = Opcode::IntNotEqual as u64;

pub const INT_LESS: u64 = Opcode::IntLess as u64;

pub const INT_SLESS: u64 = Opcode::IntSLess as u64;

pub const INT_LESSEQUAL: u64 = Opcode::IntLessEqual as u64;

pub const INT_SLESSEQUAL: u64 = Opcode::IntSLessEqual as u64;

pub const INT_ZEXT: u64 = Opcode::IntZExt as u64;

pub const INT_SEXT: u64 = Opcode::IntSExt as u64;

pub const INT_ADD: u64 = Opcode::IntAdd as u64;

pub const INT_SUB: u64 = Opcode::IntSub as u64;

pub const INT_CARRY: u64 = Opcode::IntCarry as u64;

pub const INT_SCARRY: u64 = Opcode::IntSCarry as u64;

pub const INT_SBORROW: u64 = Opcode::IntSBorrow as u64;

pub const INT_2COMP: u64 = Opcode::IntTwoComp as u64;

pub const INT_NEGATE: u64 = Opcode::IntNegate as u64;

pub const INT_XOR: u64 = Opcode::IntXor as u64;

pub const INT_AND: u64 = Opcode::IntAnd as u64;

pub const INT_OR: u64 = Opcode::IntOr as u64;

pub const INT_LEFT: u64 = Opcode::IntLeft as u64;

pub const INT_RIGHT: u64 = Opcode::IntRight as u64;

pub const INT_SRIGHT: u64 = Opcode::IntSRight as u64;

pub const INT_MULT: u64 = Opcode::IntMult as u64;

pub const INT_DIV: u64 = Opcode::IntDiv as u64;

pub const INT_REM: u64 = Opcode::IntRem as u64;

pub const INT_SDIV: u64 = Opcode::IntSDiv as u64;

pub const INT_SREM: u64 = Opcode::IntSRem as u64;

pub const BOOL_NEGATE: u64 = Opcode::BoolNegate as u64;

pub const BOOL_XOR: u64 = Opcode::BoolXor as u64;

pub const BOOL_AND: u64 = Opcode::BoolAnd as u64;

pub const BOOL_OR: u64 = Opcode::BoolOr as u64;

// The places of an operation's varnodes.
pub const OUTPUT: u8 = 0;

pub const INPUT0: u8 = 1;

pub const INPUT1: u8 = 2;

pub const INPUT2: u8 = 3;

// The inputs that an operation can have.
pub const MOST_INPUTS: u8 = 3;

// The integer operations: the first, and the last.
pub const FIRST_INTEGER: u64 = PIECE;

pub const LAST_INTEGER: u64 = BOOL_OR;

// The last opcode.
pub const LAST_OPCODE: u64 = LAST_INTEGER;

// All opcodes, and the integer operations.
const ALL: u64 = (2 << LAST_OPCODE) - (1 << COPY);

const INTEGER: u64 = (2 << LAST_INTEGER) - (1 << FIRST_INTEGER);

// The operations that have a varnode at a place.
const WITH_OUTPUT: u64 = 1 << COPY | 1 << LOAD | INTEGER;

const WITH_INPUT0: u64 = ALL;

const WITH_INPUT1: u64 = ALL & !WITHOUT_INPUT1;

const WITHOUT_INPUT1: u64 = 1 << COPY
    | 1 << BRANCH
    | 1 << BRANCHIND
    | 1 << CALL
    | 1 << CALLIND
    | 1 << RETURN
    | 1 << POPCOUNT
    | 1 << INT_ZEXT
    | 1 << INT_SEXT
    | 1 << INT_2COMP
    | 1 << INT_NEGATE
    | 1 << BOOL_NEGATE;

const WITH_INPUT2: u64 = 1 << STORE;

// An opcode is in a set.
pub(crate) fn has_bit(set: u64, opcode: u64) -> bool
    ensures { result ≡ eqb (digit 2 set opcode) 1 }
{
    opcode < 64 && (set >> opcode) % 2 == 1
}

// The operation has a varnode at a place.
pub fn has_place(opcode: u64, place: u8) -> bool
    ensures { result ≡ has_place opcode place }
{
    match place {
        OUTPUT => has_bit(WITH_OUTPUT, opcode),
        INPUT0 => has_bit(WITH_INPUT0, opcode),
        INPUT1 => has_bit(WITH_INPUT1, opcode),
        INPUT2 => has_bit(WITH_INPUT2, opcode),
        _ => false,
    }
}
