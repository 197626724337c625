// What an operation is to do, from shared slices and numbers alone: opcode dispatch, BOUNDS and ZERO.
#![tactic(auto)]

ghost use Rattle.std.specs.Prelude.{◌≡◌, ◌+◌, ◌*◌, ◌<◌, ◌≤◌, true, length, if◌then◌else◌, nat_lt, None};
ghost use Rattle.operation.specs.Layout.{wordsize_of, words_per_operation, operation_count};
ghost use Rattle.operation.specs.Rules.{accesses, branches};
ghost use Rattle.validation.specs.Verdict.{most_operations, most_bytes, settings_in_range};
ghost use Rattle.machine.specs.Program.{program_of};
ghost use Rattle.machine.specs.Memory.{lengths_of, value_at};
ghost use Rattle.machine.specs.Lent.{held};
ghost use Rattle.machine.specs.Effect.{operation_at, byte_offset};
ghost use Rattle.machine.specs.Conditions.{operand1};
ghost use Rattle.run_plan.specs.Plans.{control, failure, class_of, move_plan, branch_plan, data_plan, planned, Movable, Addressable, Branching, Computable};
ghost use Rattle.run_plan.specs.Valid.{Valid};

use arithmetic::opcodes::{CBRANCH, FIRST_INTEGER, LOAD};
use arithmetic::operands::is_division;
use arithmetic::value;
use integer::boolean::pick;
use operation::layout::{
    INPUT0, INPUT1, INPUT2, OUTPUT, RAM, Settings, Spaces, Varnode, absent, opcode_at, varnode_at,
    wordsize_of,
};
use operation::report::Ending;
use operation::rules::{accesses, branches, jumps, length_of};
use run_memory::space::{are_bytes, lengths_of};
use run_memory::varnode::value_at;
use word::size::within;

// stop: EXIT with `value`, BOUNDS or ZERO; with none the run goes on at `next`. log: the low part of the log word that is to be written.
// The target, which may be absent, gets the value.
#[derive(Clone, Copy)]
pub struct Plan {
    pub stop: Option<Ending>,
    pub next: usize,
    pub log: Option<u64>,
    pub target: Varnode,
    pub value: u64,
}

impl Plan {
    // BOUNDS or ZERO, which end the run before the operation counts.
    pub fn failure(self) -> Option<Ending>
        ensures { result ≡ failure self.stop }
    {
        match self.stop {
            Some(Ending::Exit) => None,
            stop => stop,
        }
    }
}

// A plan that writes nothing to memory.
fn control(stop: Option<Ending>, next: usize, log: Option<u64>, value: u64) -> Plan
    ensures { result ≡ control stop next log value }
{
    Plan {
        stop,
        next,
        log,
        target: absent(),
        value,
    }
}

// A plan that writes a value and goes on at the next operation.
fn writes(i: usize, log: Option<u64>, target: Varnode, value: u64) -> Plan
    requires { i < most_operations }
    ensures { result ≡ record { stop = None; next = i + 1; log = log; target = target; value = value } }
{
    Plan {
        stop: None,
        next: i + 1,
        log,
        target,
        value,
    }
}

// BRANCH, CALL and, by its condition, CBRANCH.
fn branch_at(list: &[u64], i: usize, condition: u64) -> Plan
    requires { (words_per_operation * i + words_per_operation ≤ length list.now) × (i < most_operations) × Branching (operation_at list.now i) }
    ensures { result ≡ branch_plan (operation_at list.now i) i condition }
{
    let conditional = opcode_at(list, i) == CBRANCH;
    let input0 = varnode_at(list, i, INPUT0);
    if conditional & (condition == 0) {
        return control(None, i + 1, Some(0), 0);
    }
    let log = conditional.then_some(1);
    if input0.space == RAM {
        return control(Some(Ending::Exit), i, log, input0.offset);
    }
    let next = (i as u64).wrapping_add(input0.offset);
    control(None, next as usize, log, 0)
}

// All operations but LOAD, STORE, BRANCH, CBRANCH and CALL, on the values a of input0 and b of input1. The first test tells most
// operations from COPY and the exits.
fn data_at(list: &[u64], i: usize, a: u64, b: u64) -> Plan
    requires { (words_per_operation * i + words_per_operation ≤ length list.now) × (i < most_operations) × Computable (operation_at list.now i) a b }
    ensures { result ≡ data_plan (operation_at list.now i) i a b }
{
    let opcode = opcode_at(list, i);
    let output = varnode_at(list, i, OUTPUT);
    if opcode < FIRST_INTEGER {
        if jumps(opcode) {
            return control(Some(Ending::Exit), i, None, a);
        }
        return writes(i, None, output, a);
    }
    if is_division(opcode) & (b == 0) {
        return control(Some(Ending::Zero), i, None, 0);
    }
    let input0 = varnode_at(list, i, INPUT0);
    let input1 = varnode_at(list, i, INPUT1);
    let x = value(opcode, output.size, input0.size, input1.size, a, b);
    writes(i, None, output, x)
}

// The byte offset of a pointer into a space of `length` bytes. A pointer past the space counts as the space's length, which is past it
// too: so no product is large. docs/DECISIONS.md has the other ways that were measured.
pub fn offset_in(settings: Settings, space: u64, length: u64, pointer: u64) -> u64
    requires { (length ≤ most_bytes) × (wordsize_of settings.wordsizes space ≤ 8) }
    ensures { result ≡ (if nat_lt pointer length then pointer else length) * wordsize_of settings.wordsizes space }
{
    let near = pointer.min(length);
    near * wordsize_of(settings.wordsizes, space)
}

// LOAD and STORE at a pointer: one read and one write, from or to the bytes at its byte offset.
fn move_at(settings: Settings, list: &[u64], memory: Spaces<&[u8]>, i: usize, pointer: u64) -> Plan
    requires { (words_per_operation * i + words_per_operation ≤ length list.now) × (i < most_operations)
        × Movable (held memory) (operation_at list.now i)
        × Addressable settings (held memory) (operation_at list.now i) }
    ensures { result ≡ move_plan (program_of settings list.now) (held memory.entry)
        (operation_at list.now i) i (byte_offset settings (operation_at list.now i) pointer) }
{
    let big = settings.order == 1;
    let loads = opcode_at(list, i) == LOAD;
    let output = varnode_at(list, i, OUTPUT);
    let input0 = varnode_at(list, i, INPUT0);
    let input2 = varnode_at(list, i, INPUT2);
    let moved = pick(loads, output, input2);
    let space = input0.offset;
    let lengths = lengths_of(memory);
    let length = length_of(lengths, space);
    let offset = offset_in(settings, space, length, pointer);
    if !within(offset, moved.size, length) {
        return control(Some(Ending::Bounds), i, None, 0);
    }
    let pointee = Varnode {
        space,
        offset,
        size: moved.size,
    };
    let from = pick(loads, pointee, input2);
    let x = value_at(big, memory, from);
    let to = pick(loads, output, pointee);
    writes(i, Some(offset), to, x)
}

// The plan of operation i. Input1 is read for every operation: it is the pointer, the condition or the second operand, and 0 if absent.
pub fn plan_at(settings: Settings, list: &[u64], memory: Spaces<&[u8]>, i: usize) -> Plan
    requires { Valid (lengths_of (held memory)) list.now × (i < operation_count list.now)
        × (settings_in_range settings ≡ true) }
    ensures { result ≡ planned (program_of settings list.now) (held memory.entry)
        (operation_at list.now i) i
        (value_at settings (held memory.entry) (operation_at list.now i).input0)
        (operand1 (program_of settings list.now) (held memory.entry) (operation_at list.now i)) }
{
    are_bytes(memory);
    let big = settings.order == 1;
    let opcode = opcode_at(list, i);
    let input1 = varnode_at(list, i, INPUT1);
    let b = value_at(big, memory, input1);
    match class_of(opcode) {
        Class::Access => move_at(settings, list, memory, i, b),
        Class::Branch => branch_at(list, i, b),
        Class::Data => {
            let input0 = varnode_at(list, i, INPUT0);
            let a = value_at(big, memory, input0);
            data_at(list, i, a, b)
        }
    }
}

// LOAD and STORE; BRANCH, CBRANCH and CALL; all others.
#[derive(Clone, Copy)]
enum Class {
    Access,
    Branch,
    Data,
}

// One test tells most opcodes.
fn class_of(opcode: u64) -> Class
    ensures { result ≡ class_of opcode }
{
    if FIRST_INTEGER <= opcode {
        return Class::Data;
    }
    if accesses(opcode) {
        return Class::Access;
    }
    if branches(opcode) {
        return Class::Branch;
    }
    Class::Data
}
