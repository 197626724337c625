// The speculative run: each CBRANCH tries the way not taken.
#![tactic(auto)]

ghost use Rattle.std.specs.Prelude.{◌≡◌, ◌+◌, ◌*◌, ◌<◌, ◌≤◌, true, false, length, ◌==◌, MatchOption};
ghost use Rattle.operation.specs.Numbers.{ending_number};
ghost use Rattle.secret_counts.specs.Moved.{low_bit};
ghost use Rattle.operation.specs.Layout.{words_per_operation, operation_count};
ghost use Rattle.validation.specs.Verdict.{most_operations, settings_in_range};
ghost use Rattle.machine.specs.Program.{program_of};
ghost use Rattle.machine.specs.Memory.{lengths_of};
ghost use Rattle.machine.specs.Lent.{lent, SameBuffers};
ghost use Rattle.machine.specs.Calls.{outcome_of, labelled_outcome};
ghost use Rattle.machine.specs.Counts.{counts_fit};
ghost use Rattle.machine.specs.MovedCounts.{MovedSpaces};
ghost use Rattle.speculation.specs.Speculation.{journal_words, speculate};
ghost use Rattle.run_plan.specs.Valid.{Valid};
ghost use Rattle.run_execution.specs.Loops.{position};
ghost use Rattle.run_window.specs.Windows.{Spared};
ghost use Rattle.run_speculative.specs.Ways.{opens_window, other_index, ending_ahead, answer_after};

use arithmetic::opcodes::CBRANCH;
use integer::boolean::pick;
use operation::layout::{CONSTANT, INPUT0, Settings, Spaces, opcode_at, varnode_at};
use operation::report::{Ending, Report, run_report};
use run_labelled::{run_any, turn};
use run_memory::space::reading;
use run_window::open_window;

// A run from operation `start`. Without a window it is one turn, as long as the budget; else a turn is one operation with its window.
pub fn speculate_from(
    settings: Settings,
    list: &[u64],
    memory: &mut Spaces<&mut [u8]>,
    labels: &mut Spaces<&mut [u8]>,
    counts: &mut Spaces<&mut [u64]>,
    log: &mut [u64],
    journal: &mut [u64],
    start: usize,
    budget: u64,
    window: u64,
) -> Report
    requires { Valid (lengths_of (lent memory.old)) list.now × (start ≤ operation_count list.now)
        × (lengths_of (lent labels.old) ≡ lengths_of (lent memory.old))
        × (settings_in_range settings ≡ true) × (journal_words window ≤ length journal.old)
        × (counts_fit (lengths_of (lent labels.old)) (lengths_of (lent counts.old)) ≡ true) }
    ensures same { SameBuffers memory.old memory.new × SameBuffers labels.old labels.new × SameBuffers counts.old counts.new }
    ensures outcome { labelled_outcome result (lent memory.new) (lent labels.new) log.new
        ≡ outcome_of log.old (speculate (program_of settings list.now) window budget (position start 0 0 log.old) (lent labels.old) (lent memory.old)) }
    ensures journal { Spared window journal.old journal.new }
    ensures counts { MovedSpaces low_bit (lent labels.old) (lent labels.new) (lent counts.old) (lent counts.new) }
{
    let most = turn(window != 0, budget);
    let mut i = start;
    let mut k: usize = 0;
    let mut executed: u64 = 0;
    loop {
        let done = speculate_at(
            settings, list, memory, labels, counts, log, journal, i, k, most, window,
        );
        i = done.index as usize;
        k = done.logged as usize;
        executed = executed + done.executed;
        if !((done.ending == Ending::Budget as u64) & (executed < budget)) {
            return run_report(done.ending, i, executed, k, done.value);
        }
    }
}

// One turn, and the window that it opens.
fn speculate_at(
    settings: Settings,
    list: &[u64],
    memory: &mut Spaces<&mut [u8]>,
    labels: &mut Spaces<&mut [u8]>,
    counts: &mut Spaces<&mut [u64]>,
    log: &mut [u64],
    journal: &mut [u64],
    i: usize,
    k: usize,
    most: u64,
    window: u64,
) -> Report
    requires { Valid (lengths_of (lent memory.old)) list.now × (i ≤ operation_count list.now) × (k ≤ length log.old)
        × (lengths_of (lent labels.old) ≡ lengths_of (lent memory.old))
        × (settings_in_range settings ≡ true) × ((window == 0) ≡ false → most ≤ 1) × (journal_words window ≤ length journal.old)
        × (counts_fit (lengths_of (lent labels.old)) (lengths_of (lent counts.old)) ≡ true) }
    ensures same { SameBuffers memory.old memory.new × SameBuffers labels.old labels.new × SameBuffers counts.old counts.new }
    ensures outcome { labelled_outcome result (lent memory.new) (lent labels.new) log.new
        ≡ outcome_of log.old (speculate (program_of settings list.now) window most (position i k 0 log.old) (lent labels.old) (lent memory.old)) }
    ensures journal { Spared window journal.old journal.new }
    ensures counts { MovedSpaces low_bit (lent labels.old) (lent labels.new) (lent counts.old) (lent counts.new) }
{
    // What the buffers hold are bytes, as `reading` says.
    let _bytes = reading(memory);
    let done = run_any(
        true, settings, list, memory, labels, counts, log, i, k, most,
    );
    if !opens_window(list, i, window, done) {
        return done;
    }
    let other = other_index(list, i, done.index);
    let went = open_window(
        settings,
        list,
        memory,
        labels,
        counts,
        log,
        journal,
        other,
        done.logged as usize,
        window,
    );
    answer_after(i, done, went)
}

// A turn opens a window if it was a CBRANCH that was executed, unless its other way leaves the list.
fn opens_window(list: &[u64], i: usize, window: u64, done: Report) -> bool
    requires { (window == 0) ≡ false → (done.executed == 0) ≡ false → (words_per_operation * i + words_per_operation ≤ length list.now) × (i < most_operations) }
    ensures { result ≡ opens_window list.now i window done }
{
    if (window == 0) | (done.executed == 0) {
        return false;
    }
    let destination = varnode_at(list, i, INPUT0);
    let leaves = (done.index == i as u64 + 1) & (destination.space != CONSTANT);
    (opcode_at(list, i) == CBRANCH) & !leaves
}

// The way that a CBRANCH does not take, by the index where it goes on or, to exit, stays.
fn other_index(list: &[u64], i: usize, next: u64) -> usize
    requires { (words_per_operation * i + words_per_operation ≤ length list.now) × (i < most_operations) }
    ensures { result ≡ other_index list.now i next }
{
    let destination = varnode_at(list, i, INPUT0);
    let target = (i as u64).wrapping_add(destination.offset);
    let following = i as u64 + 1;
    pick(next == following, target, following) as usize
}

// What a CBRANCH and its window answer: LEAK inside is LEAK AHEAD, and it or LOG inside ends the run at the CBRANCH, not counted.
fn answer_after(i: usize, done: Report, went: Report) -> Report
    ensures { result ≡ answer_after i done went }
{
    let logged = went.logged as usize;
    if let Some(ahead) = ending_ahead(went.ending) {
        return run_report(ahead.number(), i, 0, logged, 0);
    }
    Report {
        logged: went.logged,
        ..done
    }
}

// How the run ends by a window that ended so; None where the window closed.
#[tactic(auto, unfolding(crate::specs::Ways::ending_ahead))]
fn ending_ahead(ending: u64) -> Option<Ending>
    ensures { MatchOption result (ending_ahead ending ≡ 0) (λ ahead. (ending_ahead ending ≡ ending_number ahead) × (0 < ending_number ahead)) }
{
    const LEAK: u64 = Ending::Leak as u64;
    const LOG: u64 = Ending::Log as u64;
    match ending {
        LEAK => Some(Ending::LeakAhead),
        LOG => Some(Ending::Log),
        _ => None,
    }
}
