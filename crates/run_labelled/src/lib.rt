// Both runs. A turn looks for LEAK, runs operations by the plain loop, and marks what was written. A labelled run gives each turn one
// operation; a plain run is one turn with the whole budget. The plain loop and the turn have one caller each, so that the compiler inlines them.
#![tactic(auto)]

ghost use Rattle.std.specs.Prelude.{◌≡◌, true, cond, not, ◌&&◌, ◌+◌, ◌*◌, ◌≤◌, ◌<◌, eqb, ltb, length};
ghost use Rattle.secret_counts.specs.Moved.{low_bit};
ghost use Rattle.operation.specs.Layout.{words_per_operation, operation_count, opcode_at};
ghost use Rattle.operation.specs.Rules.{accesses};
ghost use Rattle.validation.specs.Verdict.{settings_in_range};
ghost use Rattle.machine.specs.Program.{program_of, big_endian};
ghost use Rattle.machine.specs.Memory.{lengths_of};
ghost use Rattle.machine.specs.Lent.{lent, SameBuffers};
ghost use Rattle.machine.specs.Effect.{operation_at};
ghost use Rattle.machine.specs.Run.{run};
ghost use Rattle.machine.specs.Calls.{outcome_of, labelled_outcome};
ghost use Rattle.machine.specs.Counts.{counts_fit};
ghost use Rattle.machine.specs.MovedCounts.{MovedSpaces};
ghost use Rattle.machine.specs.Conditions.{leaks, labels_after};
ghost use Rattle.run_plan.specs.Valid.{Valid};
ghost use Rattle.run_execution.specs.Loops.{position};
ghost use Rattle.run_labelled.specs.Turns.{Fitting, Countable, turn_of, completes, offset_logged, Markable};

use operation::layout::{ABSENT, Settings, Spaces, opcode_at, operation_count};
use operation::report::{Ending, Report, run_report};
use operation::rules::accesses;
use run_execution::{INDEX_WEIGHT, run_from};
use run_memory::labels::mark;
use run_memory::space::reading;
use run_taint::{labels_written, leaks_at, target_at};

// A run from operation `start`, with the first `from` words of the log written before. `labelled` is a flag and no step that is passed in, since
// the contract says by it which labels and counts there are. The buffers are lent on from locals: so the compiler, which has the turns here,
// keeps pointers and lengths in registers, and need not read them behind a reference at each operation.
pub fn run_any(
    labelled: bool,
    settings: Settings,
    list: &[u64],
    memory: &mut Spaces<&mut [u8]>,
    labels: &mut Spaces<&mut [u8]>,
    counts: &mut Spaces<&mut [u64]>,
    log: &mut [u64],
    start: usize,
    from: usize,
    budget: u64,
) -> Report
    requires { Valid (lengths_of (lent memory.old)) list.now × (start ≤ operation_count list.now) × (from ≤ length log.old)
        × Fitting labelled (lent labels.old) (lent memory.old)
        × (settings_in_range settings ≡ true)
        × Countable labelled (lent labels.old) (lent counts.old) }
    ensures same { SameBuffers memory.old memory.new × SameBuffers labels.old labels.new × SameBuffers counts.old counts.new }
    ensures outcome { labelled_outcome result (lent memory.new) (lent labels.new) log.new
        ≡ outcome_of log.old (run (program_of settings list.now) budget (position start from 0 log.old) (lent labels.old) (lent memory.old)) }
    ensures counts { MovedSpaces low_bit (lent labels.old) (lent labels.new) (lent counts.old) (lent counts.new) }
{
    run_turns(
        labelled,
        settings,
        list,
        &mut Spaces {
            unique: &mut *memory.unique,
            register: &mut *memory.register,
            ram: &mut *memory.ram,
        },
        &mut Spaces {
            unique: &mut *labels.unique,
            register: &mut *labels.register,
            ram: &mut *labels.ram,
        },
        &mut Spaces {
            unique: &mut *counts.unique,
            register: &mut *counts.register,
            ram: &mut *counts.ram,
        },
        log,
        start,
        from,
        budget,
    )
}

// The turns of a run.
fn run_turns(
    labelled: bool,
    settings: Settings,
    list: &[u64],
    memory: &mut Spaces<&mut [u8]>,
    labels: &mut Spaces<&mut [u8]>,
    counts: &mut Spaces<&mut [u64]>,
    log: &mut [u64],
    start: usize,
    from: usize,
    budget: u64,
) -> Report
    requires { Valid (lengths_of (lent memory.old)) list.now × (start ≤ operation_count list.now) × (from ≤ length log.old)
        × Fitting labelled (lent labels.old) (lent memory.old)
        × (settings_in_range settings ≡ true)
        × Countable labelled (lent labels.old) (lent counts.old) }
    ensures same { SameBuffers memory.old memory.new × SameBuffers labels.old labels.new × SameBuffers counts.old counts.new }
    ensures outcome { labelled_outcome result (lent memory.new) (lent labels.new) log.new
        ≡ outcome_of log.old (run (program_of settings list.now) budget (position start from 0 log.old) (lent labels.old) (lent memory.old)) }
    ensures counts { MovedSpaces low_bit (lent labels.old) (lent labels.new) (lent counts.old) (lent counts.new) }
{
    let most = turn(labelled, budget);
    let mut i = start;
    let mut k = from;
    let mut executed: u64 = 0;
    loop {
        let done = step_at(
            labelled, settings, list, memory, labels, counts, log, i, k, most,
        );
        i = done.index as usize;
        k = done.logged as usize;
        executed = executed + done.executed;
        if !((done.ending == Ending::Budget as u64) & (executed < budget)) {
            return run_report(done.ending, i, executed, k, done.value);
        }
    }
}

// The budget of a turn, one operation or all of them. It is the same for each: a run goes on only with budget left.
#[tactic(auto, unfolding(crate::specs::Turns::turn_of))]
pub fn turn(labelled: bool, budget: u64) -> u64
    ensures { result ≡ turn_of labelled budget }
{
    if labelled & (0 < budget) { 1 } else { budget }
}

// One turn, of at most one operation if it is labelled: LEAK, the operations, their labels.
fn step_at(
    labelled: bool,
    settings: Settings,
    list: &[u64],
    memory: &mut Spaces<&mut [u8]>,
    labels: &mut Spaces<&mut [u8]>,
    counts: &mut Spaces<&mut [u64]>,
    log: &mut [u64],
    i: usize,
    k: usize,
    most: u64,
) -> Report
    requires { Valid (lengths_of (lent memory.old)) list.now × (i ≤ operation_count list.now) × (k ≤ length log.old)
        × Fitting labelled (lent labels.old) (lent memory.old)
        × (labelled ≡ true → most ≤ 1) × (settings_in_range settings ≡ true)
        × Countable labelled (lent labels.old) (lent counts.old) }
    ensures same { SameBuffers memory.old memory.new × SameBuffers labels.old labels.new × SameBuffers counts.old counts.new }
    ensures outcome { labelled_outcome result (lent memory.new) (lent labels.new) log.new
        ≡ outcome_of log.old (run (program_of settings list.now) most (position i k 0 log.old) (lent labels.old) (lent memory.old)) }
    ensures counts { MovedSpaces low_bit (lent labels.old) (lent labels.new) (lent counts.old) (lent counts.new) }
{
    // What the buffers hold are bytes, as `reading` says.
    let _bytes = reading(memory);
    let leak = leaks_within(labelled, list, labels, i, most);
    if leak {
        return run_report(Ending::Leak as u64, i, 0, k, 0);
    }
    let done = run_from(settings, list, memory, log, i, k, most);
    let completed = completes(labelled, done.executed, done.ending);
    mark_after(completed, settings, list, labels, counts, log, i, k);
    done
}

// LEAK at operation i, where a labelled turn has an operation to run.
fn leaks_within(
    labelled: bool,
    list: &[u64],
    labels: &Spaces<&mut [u8]>,
    i: usize,
    most: u64,
) -> bool
    requires { (labelled ≡ true → Valid (lengths_of (lent labels.now)) list.now) × (i ≤ operation_count list.now) }
    ensures { result ≡ labelled && not (eqb most 0) && ltb i (operation_count list.now)
        && leaks (lent labels.now) (operation_at list.now i) }
{
    let asked = labelled & (most != 0) & (i < operation_count(list));
    if asked {
        return leaks_at(list, reading(labels), i);
    }
    false
}

// A labelled operation was executed, and the run did not exit by it.
#[tactic(auto, unfolding(crate::specs::Turns::completes))]
fn completes(labelled: bool, executed: u64, ending: u64) -> bool
    ensures { result ≡ completes labelled executed ending }
{
    labelled & ((executed != 0) & (ending != Ending::Exit as u64))
}

// The labels after operation i, if it was completed. Its log word, at k, holds the byte offset of LOAD and STORE.
fn mark_after(
    completed: bool,
    settings: Settings,
    list: &[u64],
    labels: &mut Spaces<&mut [u8]>,
    counts: &mut Spaces<&mut [u64]>,
    log: &[u64],
    i: usize,
    k: usize,
)
    requires { completed ≡ true → Markable (lent labels.old) list.now log.now i k
        × (counts_fit (lengths_of (lent labels.old)) (lengths_of (lent counts.old)) ≡ true) }
    ensures same { SameBuffers labels.old labels.new × SameBuffers counts.old counts.new }
    ensures labels { lent labels.new
        ≡ cond completed
        (labels_after (big_endian settings) (lent labels.old) (operation_at list.now i)
        (offset_logged (operation_at list.now i) log.now k))
        (lent labels.old) }
    ensures counts { MovedSpaces low_bit (lent labels.old) (lent labels.new) (lent counts.old) (lent counts.new) }
{
    if completed {
        let offset = logged_offset(list, log, i, k);
        let target = target_at(list, i, offset);
        if target.space != ABSENT {
            let big = settings.order == 1;
            let word = labels_written(big, list, reading(labels), i, offset);
            mark(labels, counts, target, word);
        }
    }
}

// The byte offset of LOAD and STORE, by the log word at k; 0 for all others.
fn logged_offset(list: &[u64], log: &[u64], i: usize, k: usize) -> u64
    requires { (words_per_operation * i + words_per_operation ≤ length list.now) × (accesses (opcode_at list.now i) ≡ true → k < length log.now) }
    ensures { result ≡ offset_logged (operation_at list.now i) log.now k }
{
    if accesses(opcode_at(list, i)) {
        return log[k] % INDEX_WEIGHT;
    }
    0
}
