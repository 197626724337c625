// The papers' judge: the verdict on a list of operations.
#![tactic(auto)]

ghost use Rattle.std.specs.Prelude.{◌≡◌, ◌+◌, ◌*◌, ◌<◌, ◌≤◌, length};
ghost use Rattle.operation.specs.Layout.{words_per_operation, operation_count};
ghost use Rattle.operation.specs.Numbers.{answer_of};
ghost use Rattle.validation.specs.Verdict.{wordsizes_in_range, settings_in_range, lengths_in_range, size_or_target, lowest_rule, found, reported, malformed, verdict, refusal_report};

use arithmetic::opcodes::MOST_INPUTS;
use operation::decode::decode_at;
use operation::layout::{
    INPUT0, INPUT1, Lengths, OUTPUT, Settings, WORDS_PER_OPERATION, Wordsizes, opcode_at,
    operation_count, varnode_at,
};
use operation::report::{Refusal, Refused, Report};
use operation::rules::{breaks_head, breaks_place, breaks_range, breaks_size, breaks_target};
use word::size::is_size;

// Operations in a list, and bytes of a space, at most.
const MOST_OPERATIONS: usize = 4096;

const MOST_BYTES: u64 = 65536;

// The verdict on a list.
#[tactic(auto, unfolding(crate::specs::Verdict::refusal_report))]
pub fn verdict(settings: Settings, lengths: Lengths, list: &[u64]) -> Report
    ensures { result ≡ verdict settings lengths list.now }
{
    match judge(settings, lengths, list) {
        Ok(()) => refusal_report(0, operation_count(list) as u64),
        Err(refused) => refused.into(),
    }
}

// Settings and lengths, then the operations.
#[tactic(auto, unfolding(crate::specs::Verdict::verdict))]
fn judge(settings: Settings, lengths: Lengths, list: &[u64]) -> Result<(), Refused>
    ensures { reported result (operation_count list.now) ≡ verdict settings lengths list.now }
{
    Refusal::Setting.unless(settings_in_range(settings))?;
    Refusal::Length.unless(lengths_in_range(lengths, list))?;
    first_malformed(settings.address_size, lengths, list)
}

// The report of a call in which nothing ran.
#[tactic(auto, unfolding(crate::specs::Verdict::refusal_report))]
pub fn refusal_report(ending: u64, index: u64) -> Report
    ensures { result ≡ refusal_report ending index }
{
    Report {
        ending,
        index,
        executed: 0,
        logged: 0,
        value: 0,
    }
}

// 10 SETTING: byte order, A or a wordsize out of range.
#[tactic(auto, unfolding(crate::specs::Verdict::settings_in_range))]
pub fn settings_in_range(settings: Settings) -> bool
    ensures { result ≡ settings_in_range settings }
{
    (settings.order <= 1) & is_size(settings.address_size) & wordsizes_in_range(settings.wordsizes)
}

// Each wordsize is 1 to 8.
#[tactic(auto, unfolding(crate::specs::Verdict::wordsizes_in_range, word::specs::Word::is_size))]
fn wordsizes_in_range(wordsizes: Wordsizes) -> bool
    ensures { result ≡ wordsizes_in_range wordsizes }
{
    is_size(wordsizes.unique) & is_size(wordsizes.register) & is_size(wordsizes.ram)
}

// 11 LENGTH: word count not a multiple of an operation's, too many operations, a space too long.
#[tactic(auto, unfolding(crate::specs::Verdict::lengths_in_range))]
pub fn lengths_in_range(lengths: Lengths, list: &[u64]) -> bool
    ensures { result ≡ lengths_in_range lengths list.now }
{
    (list.len() % WORDS_PER_OPERATION == 0)
        & (operation_count(list) <= MOST_OPERATIONS)
        & (lengths.unique <= MOST_BYTES)
        & (lengths.register <= MOST_BYTES)
        & (lengths.ram <= MOST_BYTES)
}

// The first operation in list order that breaks a rule, with the lowest rule that it breaks.
pub fn first_malformed(address_size: u64, lengths: Lengths, list: &[u64]) -> Result<(), Refused>
    ensures { found result (operation_count list.now) ≡ malformed address_size lengths list.now }
{
    for i in 0..operation_count(list) {
        if let Err(why) = keeps_rules(address_size, lengths, list, i) {
            return Err(Refused {
                why,
                index: i as u64,
            });
        }
    }
    Ok(())
}

// The lowest rule that operation i breaks. Rule 22 is left at once, since no later place can break a lower one; 23 and 24 wait until
// every place has passed 22.
fn keeps_rules(address_size: u64, lengths: Lengths, list: &[u64], i: usize) -> Result<(), Refusal>
    requires { words_per_operation * i + words_per_operation ≤ length list.now }
    ensures { answer_of result ≡ lowest_rule address_size lengths list.now i }
{
    if breaks_head(list, i) {
        return Err(Refusal::Head);
    }
    let opcode = opcode_at(list, i);
    let mut misplaced = false;
    let mut outside = false;
    for place in OUTPUT..=MOST_INPUTS {
        let Some(v) = decode_at(list, i, place) else {
            return Err(Refusal::Shape);
        };
        misplaced |= breaks_place(opcode, place, v);
        outside |= breaks_range(lengths, opcode, place, v);
    }
    if misplaced {
        return Err(Refusal::Place);
    }
    if outside {
        return Err(Refusal::Range);
    }
    keeps_size_and_target(address_size, list, i)
}

// 25 and 26, the rules on the operation as a whole.
#[tactic(auto, unfolding(crate::specs::Verdict::size_or_target, operation::specs::Layout::operation_count))]
fn keeps_size_and_target(address_size: u64, list: &[u64], i: usize) -> Result<(), Refusal>
    requires { words_per_operation * i + words_per_operation ≤ length list.now }
    ensures { answer_of result ≡ size_or_target address_size list.now i }
{
    let opcode = opcode_at(list, i);
    let output = varnode_at(list, i, OUTPUT);
    let input0 = varnode_at(list, i, INPUT0);
    let input1 = varnode_at(list, i, INPUT1);
    if breaks_size(address_size, opcode, output.size, input0.size, input1.size) {
        return Err(Refusal::Size);
    }
    if breaks_target(operation_count(list) as u64, i as u64, opcode, input0) {
        return Err(Refusal::Target);
    }
    Ok(())
}
