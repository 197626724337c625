// What is wrong with a call of the C interface, the lowest fault first.
#![tactic(auto)]

ghost use Rattle.std.specs.Prelude.{◌≡◌};
ghost use Rattle.operation.specs.Numbers.{answer_of};
ghost use Rattle.undrelvoa_faults.specs.Faults.{sizes_present, value_fault, gather_fault, scatter_fault, length_fault, report_fault, place_fault};

use arithmetic::opcodes::{FIRST_INTEGER, LAST_INTEGER, has_place};
use arithmetic::operands::{is_division, sizes_agree};
use operation::layout::INPUT1;
use operation::report::{REPORT_NUMBERS, Refusal};
use word::size::{holds, is_size, within};

// No integer operation looks at the address size.
const NO_ADDRESS: u64 = 0;

// Words of the settings: byte order, address size, wordsizes of unique, register and ram.
const SETTINGS_WORDS: usize = 5;

// Words of a place: space, offset, number of bytes.
pub const PLACE_WORDS: usize = 3;

// undrelvoa_value
#[tactic(auto, unfolding(crate::specs::Faults::value_fault))]
pub fn of_value(
    opcode: u64,
    size: u64,
    size0: u64,
    size1: u64,
    a: u64,
    b: u64,
    room: usize,
) -> Result<(), Refusal>
    ensures { answer_of result ≡ value_fault opcode size size0 size1 a b room }
{
    Refusal::Length.unless(room != 0)?;
    Refusal::Head.unless((FIRST_INTEGER <= opcode) & (opcode <= LAST_INTEGER))?;
    Refusal::Shape.unless(sizes_present(opcode, size, size0, size1))?;
    Refusal::Range.unless(holds(size0, a) & holds(size1, b))?;
    Refusal::Size.unless(sizes_agree(NO_ADDRESS, opcode, size, size0, size1))?;
    Refusal::Zero.unless(!(is_division(opcode) & (b == 0)))
}

// undrelvoa_gather
#[tactic(auto, unfolding(crate::specs::Faults::gather_fault))]
pub fn of_gather(
    order: u64,
    length: usize,
    offset: u64,
    size: u64,
    room: usize,
) -> Result<(), Refusal>
    ensures { answer_of result ≡ gather_fault order length offset size room }
{
    Refusal::Setting.unless(order <= 1)?;
    Refusal::Length.unless(room != 0)?;
    Refusal::Shape.unless(is_size(size))?;
    Refusal::Range.unless(within(offset, size, length as u64))
}

// undrelvoa_scatter
#[tactic(auto, unfolding(crate::specs::Faults::scatter_fault))]
pub fn of_scatter(
    order: u64,
    length: usize,
    offset: u64,
    size: u64,
    value: u64,
) -> Result<(), Refusal>
    ensures { answer_of result ≡ scatter_fault order length offset size value }
{
    Refusal::Setting.unless(order <= 1)?;
    Refusal::Shape.unless(is_size(size))?;
    Refusal::Range.unless(within(offset, size, length as u64) & holds(size, value))
}

// undrelvoa_validate, the runs and the steps
#[tactic(auto, unfolding(crate::specs::Faults::length_fault))]
pub fn of_lengths(settings: usize, report: usize) -> Result<(), Refusal>
    ensures { answer_of result ≡ length_fault settings report }
{
    Refusal::Length.unless((settings == SETTINGS_WORDS) & (REPORT_NUMBERS <= report))
}

// undrelvoa_count_secrets. It and the next are alike, but each meets the definition of its own call.
#[tactic(auto, unfolding(crate::specs::Faults::report_fault))]
pub fn of_report(report: usize) -> Result<(), Refusal>
    ensures { answer_of result ≡ report_fault report }
{
    Refusal::Length.unless(REPORT_NUMBERS <= report)
}

// undrelvoa_show
#[tactic(auto, unfolding(crate::specs::Faults::place_fault))]
pub fn of_place(place: usize) -> Result<(), Refusal>
    ensures { answer_of result ≡ place_fault place }
{
    Refusal::Length.unless(PLACE_WORDS <= place)
}

// An operation without an input1 has size1 = 0.
#[tactic(auto, unfolding(crate::specs::Faults::sizes_present))]
fn sizes_present(opcode: u64, size: u64, size0: u64, size1: u64) -> bool
    ensures { result ≡ sizes_present opcode size size0 size1 }
{
    let present1 = if has_place(opcode, INPUT1) {
        is_size(size1)
    } else {
        size1 == 0
    };
    is_size(size) & is_size(size0) & present1
}
