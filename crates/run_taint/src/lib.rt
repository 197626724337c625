// What an operation must find public, and the labels that it writes.
#![tactic(auto)]

ghost use Rattle.std.specs.Prelude.{◌≡◌, cond, ℕ, ◌+◌, ◌*◌, ◌-◌, ◌^◌, ◌≤◌, ◌<◌, ltb, length};
ghost use Rattle.word.specs.Sum.{digit};
ghost use Rattle.arithmetic.specs.Opcodes.{first_integer, member};
ghost use Rattle.operation.specs.Layout.{words_per_operation, operation_count, opcode_at};
ghost use Rattle.machine.specs.Memory.{Memory, lengths_of};
ghost use Rattle.machine.specs.Lent.{held};
ghost use Rattle.machine.specs.Effect.{operation_at, pointee};
ghost use Rattle.machine.specs.Conditions.{has_secret, leaks, destination_bytes, moving};
ghost use Rattle.run_memory.specs.Placed.{Placed};
ghost use Rattle.run_plan.specs.Valid.{Valid};
ghost use Rattle.run_taint.specs.Taint.{Readable, MovesBytes, LabelWord, MovedWord, WordOf, source_of};

use arithmetic::opcodes::{
    CBRANCH, FIRST_INTEGER, INT_SEXT, INT_ZEXT, LOAD, PIECE, STORE, SUBPIECE,
};
use arithmetic::operands::is_division;
use integer::unsigned::{piece, subpiece};
use operation::layout::{
    INPUT0, INPUT1, INPUT2, OUTPUT, Spaces, Varnode, absent, opcode_at, varnode_at,
};
use operation::rules::{accesses, jumps};
use run_memory::labels::{each_label, has_secret, labels_at, ordered};
use run_memory::space::are_bytes;

// LEAK: a byte that must be public is secret. Of a division both operands must be public, of any other integer operation none, and below them
// at most one varnode.
pub fn leaks_at(list: &[u64], labels: Spaces<&[u8]>, i: usize) -> bool
    requires { Valid (lengths_of (held labels)) list.now × (i < operation_count list.now) }
    ensures { result ≡ leaks (held labels.entry) (operation_at list.now i) }
{
    let opcode = opcode_at(list, i);
    if opcode < FIRST_INTEGER {
        return has_secret(labels, sink_at(list, i));
    }
    if is_division(opcode) {
        let secret_dividend = has_secret(labels, varnode_at(list, i, INPUT0));
        let secret_divisor = has_secret(labels, varnode_at(list, i, INPUT1));
        return secret_dividend | secret_divisor;
    }
    false
}

// The varnode that must be public, of an operation below the integer ones: input0 of an exit, input1 of LOAD, STORE and CBRANCH; else an
// absent one.
fn sink_at(list: &[u64], i: usize) -> Varnode
    requires { (words_per_operation * i + words_per_operation ≤ length list.now) × (opcode_at list.now i < first_integer) }
    ensures leak { (labels : Memory) → has_secret labels result ≡ leaks labels (operation_at list.now i) }
    ensures place { (labels : Memory) → Valid (lengths_of labels) list.now → i < operation_count list.now → Placed labels result }
{
    let opcode = opcode_at(list, i);
    if accesses(opcode) | (opcode == CBRANCH) {
        return varnode_at(list, i, INPUT1);
    }
    if jumps(opcode) {
        return varnode_at(list, i, INPUT0);
    }
    absent()
}

// The bytes at a byte offset, in the space that input0 names.
fn pointee_at(list: &[u64], i: usize, offset: u64, size: u64) -> Varnode
    requires { words_per_operation * i + words_per_operation ≤ length list.now }
    ensures { result ≡ pointee (operation_at list.now i) offset size }
{
    let input0 = varnode_at(list, i, INPUT0);
    Varnode {
        space: input0.offset,
        offset,
        size,
    }
}

// What operation i writes to; an absent varnode for branches.
pub fn target_at(list: &[u64], i: usize, offset: u64) -> Varnode
    requires { words_per_operation * i + words_per_operation ≤ length list.now }
    ensures { result ≡ destination_bytes (operation_at list.now i) offset }
{
    if opcode_at(list, i) == STORE {
        let input2 = varnode_at(list, i, INPUT2);
        return pointee_at(list, i, offset, input2.size);
    }
    varnode_at(list, i, OUTPUT)
}

// The labels that operation i writes to its target, as the number that they make in little order. COPY, LOAD and STORE, which are all that write
// below the integer operations, keep bytes in their places, in either order; PIECE, SUBPIECE, INT_ZEXT and INT_SEXT move them by significance; of any
// other operation all bytes become secret if a byte of an input is.
pub fn labels_written(big: bool, list: &[u64], labels: Spaces<&[u8]>, i: usize, offset: u64) -> u64
    requires { Readable (held labels) list.now i offset }
    ensures { LabelWord big (held labels.entry) (operation_at list.now i) offset result }
{
    are_bytes(labels);
    let opcode = opcode_at(list, i);
    if opcode < FIRST_INTEGER {
        let source = source_at(list, i, offset);
        return labels_at(labels, source);
    }
    if moves(opcode) {
        let output = varnode_at(list, i, OUTPUT);
        let word = moved_word(big, list, labels, i);
        return ordered(big, output.size, word);
    }
    let first = has_secret(labels, varnode_at(list, i, INPUT0));
    let second = has_secret(labels, varnode_at(list, i, INPUT1));
    each_label(u64::from(first | second))
}

// What COPY, LOAD and STORE read: input0, the bytes loaded, or input2.
fn source_at(list: &[u64], i: usize, offset: u64) -> Varnode
    requires { words_per_operation * i + words_per_operation ≤ length list.now }
    ensures { result ≡ source_of (operation_at list.now i) offset }
{
    let opcode = opcode_at(list, i);
    if opcode == LOAD {
        let output = varnode_at(list, i, OUTPUT);
        return pointee_at(list, i, offset, output.size);
    }
    if opcode == STORE {
        return varnode_at(list, i, INPUT2);
    }
    varnode_at(list, i, INPUT0)
}

// Of the integer operations PIECE, SUBPIECE, INT_ZEXT and INT_SEXT move bytes.
fn moves(opcode: u64) -> bool
    requires { first_integer ≤ opcode }
    ensures { result ≡ member opcode moving }
{
    (opcode == PIECE) | (opcode == SUBPIECE) | (opcode == INT_ZEXT) | (opcode == INT_SEXT)
}

// The labels that these four write, as the number that they make by significance; what it has above the output is free. The value goes the
// same way, but for the fill of INT_SEXT: a label is no sign.
fn moved_word(big: bool, list: &[u64], labels: Spaces<&[u8]>, i: usize) -> u64
    requires { MovesBytes (held labels) list.now i }
    ensures { MovedWord big (held labels.entry) (operation_at list.now i) result }
{
    let opcode = opcode_at(list, i);
    let output = varnode_at(list, i, OUTPUT);
    let input0 = varnode_at(list, i, INPUT0);
    let input1 = varnode_at(list, i, INPUT1);
    let a = labels_of(big, labels, input0);
    match opcode {
        PIECE => piece(input1.size, a, labels_of(big, labels, input1)),
        SUBPIECE => subpiece(output.size, a, input1.offset),
        INT_SEXT => extended_word(input0.size, a),
        _ => a,
    }
}

// The labels of a varnode as the number that they make by significance.
fn labels_of(big: bool, labels: Spaces<&[u8]>, v: Varnode) -> u64
    requires { Placed (held labels) v × (1 ≤ v.size) }
    ensures { WordOf big (held labels.entry) v result }
{
    are_bytes(labels);
    ordered(big, v.size, labels_at(labels, v))
}

// INT_SEXT of a label word: the top label in each byte above.
fn extended_word(size0: u64, a: u64) -> u64
    requires { (1 ≤ size0) × (size0 < 8) × (a < 256 ^ size0) }
    ensures { (k : ℕ) → k < 8 → digit 256 result k ≡ cond (ltb k size0) (digit 256 a k) (digit 256 a (size0 - 1)) }
{
    let top = a >> (8 * (size0 - 1));
    (each_label(top) << (8 * size0)) + a
}
