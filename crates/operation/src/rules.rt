// The rules 21 and 23 to 26: tests that an operation breaks them. Rule 22 is decode's.
ghost use Rattle.std.specs.Prelude.{◌≡◌, ◌*◌, ◌<◌, ◌≤◌, length};
ghost use Rattle.operation.specs.Layout.{words_per_operation};
ghost use Rattle.operation.specs.Rules.{breaks_head, accesses, branches, jumps, names_space, is_destination, breaks_place, length_of, beyond, breaks_range, breaks_size};
ghost use Rattle.operation.specs.Rules.{target_outside, breaks_target};

use super::layout::{
    ABSENT, CONSTANT, INPUT0, INPUT1, Lengths, OUTPUT, RAM, UNIQUE, Varnode, by_space, opcode_at,
    spare_at,
};
use arithmetic::opcodes::{
    BRANCH, BRANCHIND, CALL, CALLIND, CBRANCH, LAST_OPCODE, LOAD, RETURN, STORE, SUBPIECE,
};
use arithmetic::operands::sizes_agree;
use word::size::{holds, within};

// 21 HEAD.
#[tactic(auto, unfolding(crate::specs::Rules::breaks_head))]
pub fn breaks_head(list: &[u64], i: usize) -> bool
    requires { words_per_operation * i < length list.now }
    ensures { result ≡ breaks_head list.now i }
{
    let opcode = opcode_at(list, i);
    !((1 <= opcode) & (opcode <= LAST_OPCODE)) | (spare_at(list, i) != 0)
}

// The classes of opcodes, a test a line: with `matches!` or `||` the loops of a run take one instruction in a hundred more.

#[tactic(auto, unfolding(crate::specs::Rules::accesses, arithmetic::specs::Opcodes::member))]
pub fn accesses(opcode: u64) -> bool
    ensures { result ≡ accesses opcode }
{
    if opcode == LOAD {
        return true;
    }
    opcode == STORE
}

#[tactic(auto, unfolding(crate::specs::Rules::branches, arithmetic::specs::Opcodes::member))]
pub fn branches(opcode: u64) -> bool
    ensures { result ≡ branches opcode }
{
    if opcode == BRANCH {
        return true;
    }
    if opcode == CBRANCH {
        return true;
    }
    opcode == CALL
}

#[tactic(auto, unfolding(crate::specs::Rules::jumps, arithmetic::specs::Opcodes::member))]
pub fn jumps(opcode: u64) -> bool
    ensures { result ≡ jumps opcode }
{
    if opcode == BRANCHIND {
        return true;
    }
    if opcode == CALLIND {
        return true;
    }
    opcode == RETURN
}

// 23 PLACE, of the varnode at a place.
#[tactic(auto, unfolding(crate::specs::Rules::breaks_place))]
pub fn breaks_place(opcode: u64, place: u8, v: Varnode) -> bool
    ensures { result ≡ breaks_place opcode place v }
{
    match place {
        OUTPUT => v.space == CONSTANT,
        INPUT0 => breaks_input0_place(opcode, v),
        INPUT1 => (opcode == SUBPIECE) & (v.space != CONSTANT),
        _ => false,
    }
}

// The same of input0.
#[tactic(auto, unfolding(crate::specs::Rules::breaks_place))]
fn breaks_input0_place(opcode: u64, v: Varnode) -> bool
    ensures { result ≡ breaks_place opcode 1 v }
{
    if accesses(opcode) {
        !names_space(v)
    } else {
        branches(opcode) & !is_destination(v)
    }
}

// A constant 2, 3 or 4.
#[tactic(auto, unfolding(crate::specs::Rules::names_space))]
fn names_space(v: Varnode) -> bool
    ensures { result ≡ names_space v }
{
    (v.space == CONSTANT) & (UNIQUE <= v.offset) & (v.offset <= RAM)
}

// In space 1 or 4.
#[tactic(auto, unfolding(crate::specs::Rules::is_destination))]
fn is_destination(v: Varnode) -> bool
    ensures { result ≡ is_destination v }
{
    matches!(v.space, CONSTANT | RAM)
}

// The length of a space, by its number; no other number has bytes. It stands beside `wordsize_of`, since each is the definition of its name.
pub fn length_of(lengths: Lengths, space: u64) -> u64
    ensures { result ≡ length_of lengths space }
{
    by_space(space, lengths.unique, lengths.register, lengths.ram)
}

// A varnode past its space, or a constant that its size does not hold.
#[tactic(auto, unfolding(crate::specs::Rules::beyond))]
fn beyond(lengths: Lengths, v: Varnode) -> bool
    ensures { result ≡ beyond lengths v }
{
    match v.space {
        ABSENT => false,
        CONSTANT => !holds(v.size, v.offset),
        space => !within(v.offset, v.size, length_of(lengths, space)),
    }
}

// 24 RANGE, of the varnode at a place; branch destinations are exempt.
#[tactic(auto, unfolding(crate::specs::Rules::breaks_range))]
pub fn breaks_range(lengths: Lengths, opcode: u64, place: u8, v: Varnode) -> bool
    ensures { result ≡ breaks_range lengths opcode place v }
{
    let exempt = (place == INPUT0) & branches(opcode);
    !exempt && beyond(lengths, v)
}

// 25 SIZE.
#[tactic(auto, unfolding(crate::specs::Rules::breaks_size))]
pub fn breaks_size(address_size: u64, opcode: u64, size: u64, size0: u64, size1: u64) -> bool
    ensures { result ≡ breaks_size address_size opcode size size0 size1 }
{
    !sizes_agree(address_size, opcode, size, size0, size1)
}

// A target from index i by a signed 64-bit number: forward up to n, or back down to 0. Two comparisons of words: the sum as a signed
// number would have to be proved to fit first.
fn target_outside(n: u64, i: u64, offset: u64) -> bool
    requires { i ≤ n }
    ensures { result ≡ target_outside n i offset }
{
    if offset < 1 << 63 {
        n - i < offset
    } else {
        i <= u64::MAX - offset
    }
}

// 26 TARGET, of the destination of operation i.
#[tactic(auto, unfolding(crate::specs::Rules::breaks_target))]
pub fn breaks_target(n: u64, i: u64, opcode: u64, v: Varnode) -> bool
    requires { i ≤ n }
    ensures { result ≡ breaks_target n i opcode v }
{
    let relative = branches(opcode) & (v.space == CONSTANT);
    relative && target_outside(n, i, v.offset)
}
