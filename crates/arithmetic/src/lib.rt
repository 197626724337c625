// The values of the integer operations, by opcode.
#![tactic(auto)]

ghost use Rattle.std.specs.Prelude.{◌≡◌};
ghost use Rattle.arithmetic.specs.Operands.{Operands};
ghost use Rattle.arithmetic.specs.Result.{lookup, integer_results, result_of};

use integer::{boolean, signed, unsigned};
use opcodes::*;
use word::size::{Size, largest};

pub mod opcodes;
pub mod operands;

// The value of the output of an operation: `size` bytes of output, inputs of size0 and size1 bytes with the values a and b. A family of
// operations has a function of its own.
pub fn value(opcode: u64, size: u64, size0: u64, size1: u64, a: u64, b: u64) -> u64
    requires { Operands opcode size size0 size1 a b }
    ensures { result ≡ result_of opcode size size0 size1 a b }
{
    integer_value(opcode, size, size0, size1, a, b)
}

// The integer operations.
#[tactic(auto, unfolding(crate::specs::Result::lookup, crate::specs::Result::integer_results))]
fn integer_value(opcode: u64, size: u64, size0: u64, size1: u64, a: u64, b: u64) -> u64
    requires { Operands opcode size size0 size1 a b }
    ensures { result ≡ lookup opcode (integer_results size size0 size1 a b) }
{
    let output = Size { bytes: size };
    let input0 = Size { bytes: size0 };
    match opcode {
        PIECE => unsigned::piece(size1, a, b),
        SUBPIECE => unsigned::subpiece(size, a, b),
        POPCOUNT => unsigned::popcount(size0, a),
        INT_EQUAL => u64::from(a == b),
        INT_NOTEQUAL => u64::from(a != b),
        INT_LESS => u64::from(a < b),
        INT_SLESS => u64::from(signed::less(input0, a, b)),
        INT_LESSEQUAL => u64::from(a <= b),
        INT_SLESSEQUAL => u64::from(signed::less_equal(input0, a, b)),
        INT_ZEXT => a,
        INT_SEXT => signed::extend(output, input0, a),
        INT_ADD => unsigned::add(size, a, b),
        INT_SUB => unsigned::sub(size, a, b),
        INT_CARRY => u64::from(unsigned::carry(input0, a, b)),
        INT_SCARRY => u64::from(signed::carry(input0, a, b)),
        INT_SBORROW => u64::from(signed::borrow(input0, a, b)),
        INT_2COMP => unsigned::sub(size, 0, a),
        INT_NEGATE => largest(output) - a,
        INT_XOR => a ^ b,
        INT_AND => a & b,
        INT_OR => a | b,
        INT_LEFT => unsigned::left(size, a, b),
        INT_RIGHT => unsigned::right(size, a, b),
        INT_SRIGHT => signed::right(output, a, b),
        INT_MULT => unsigned::mult(size, a, b),
        INT_DIV => a / b,
        INT_REM => a % b,
        INT_SDIV => signed::div(output, a, b),
        INT_SREM => signed::rem(output, a, b),
        BOOL_NEGATE => u64::from(a == 0),
        BOOL_XOR => boolean::xor(a, b),
        BOOL_AND => boolean::and(a, b),
        BOOL_OR => boolean::or(a, b),
        _ => 0,
    }
}
