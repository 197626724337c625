// A window: the way not taken, run and undone.
#![tactic(auto)]

ghost use Rattle.std.specs.Prelude.{◌≡◌, true, ℕ, ◌+◌, ◌-◌, ◌≤◌, ◌<◌, length, get_or};
ghost use Rattle.secret_counts.specs.Moved.{low_bit};
ghost use Rattle.operation.specs.Layout.{operation_count};
ghost use Rattle.validation.specs.Verdict.{settings_in_range};
ghost use Rattle.machine.specs.Program.{program_of};
ghost use Rattle.machine.specs.Memory.{lengths_of};
ghost use Rattle.machine.specs.Lent.{lent, SameBuffers};
ghost use Rattle.machine.specs.Run.{run};
ghost use Rattle.machine.specs.Calls.{outcome_of, labelled_outcome};
ghost use Rattle.machine.specs.Counts.{counts_fit};
ghost use Rattle.machine.specs.MovedCounts.{MovedSpaces};
ghost use Rattle.speculation.specs.Window.{ahead, window_mark};
ghost use Rattle.speculation.specs.Speculation.{journal_words};
ghost use Rattle.run_plan.specs.Valid.{Valid};
ghost use Rattle.run_execution.specs.Loops.{position};
ghost use Rattle.run_window.specs.Windows.{Spared, Saved, words_marked, window_outcome};

use operation::layout::{Settings, Spaces};
use operation::report::{Ending, Report, run_report};
use run_journal::{save, undo};
use run_labelled::run_any;
use run_memory::space::{are_words, reading};

// A window log word has this added.
const WINDOW_MARK: u64 = 9223372036854775808;

// The window from operation `start`, with the first `from` words of the log written before: it is run and undone, and its words are marked.
pub fn open_window(
    settings: Settings,
    list: &[u64],
    memory: &mut Spaces<&mut [u8]>,
    labels: &mut Spaces<&mut [u8]>,
    counts: &mut Spaces<&mut [u64]>,
    log: &mut [u64],
    journal: &mut [u64],
    start: usize,
    from: usize,
    window: u64,
) -> Report
    requires { Valid (lengths_of (lent memory.old)) list.now × (start ≤ operation_count list.now) × (from ≤ length log.old)
        × (lengths_of (lent labels.old) ≡ lengths_of (lent memory.old))
        × (settings_in_range settings ≡ true) × (0 < window) × (journal_words window ≤ length journal.old)
        × (counts_fit (lengths_of (lent labels.old)) (lengths_of (lent counts.old)) ≡ true) }
    ensures same { SameBuffers memory.old memory.new × SameBuffers labels.old labels.new × SameBuffers counts.old counts.new }
    ensures outcome { labelled_outcome result (lent memory.new) (lent labels.new) log.new
        ≡ window_outcome from log.old (lent labels.old) (lent memory.old)
        (ahead (program_of settings list.now) window start (length log.old - from) (lent labels.old) (lent memory.old)) }
    ensures journal { Spared window journal.old journal.new }
    ensures counts { lent counts.new ≡ lent counts.old }
{
    // Counts are given back as they were, since they are words before and after.
    are_words(counts);
    let went = run_saved(
        settings, list, memory, labels, counts, log, journal, start, from, window,
    );
    undo(memory, labels, counts, journal, went.executed as usize);
    are_words(counts);
    mark_words(log, from, went.logged as usize);
    went
}

// The labelled run of a window; it leaves in the journal what undoes it.
fn run_saved(
    settings: Settings,
    list: &[u64],
    memory: &mut Spaces<&mut [u8]>,
    labels: &mut Spaces<&mut [u8]>,
    counts: &mut Spaces<&mut [u64]>,
    log: &mut [u64],
    journal: &mut [u64],
    start: usize,
    from: usize,
    window: u64,
) -> Report
    requires { Valid (lengths_of (lent memory.old)) list.now × (start ≤ operation_count list.now) × (from ≤ length log.old)
        × (lengths_of (lent labels.old) ≡ lengths_of (lent memory.old))
        × (settings_in_range settings ≡ true) × (0 < window) × (journal_words window ≤ length journal.old)
        × (counts_fit (lengths_of (lent labels.old)) (lengths_of (lent counts.old)) ≡ true) }
    ensures same { SameBuffers memory.old memory.new × SameBuffers labels.old labels.new × SameBuffers counts.old counts.new }
    ensures outcome { labelled_outcome result (lent memory.new) (lent labels.new) log.new
        ≡ outcome_of log.old (run (program_of settings list.now) window (position start from 0 log.old) (lent labels.old) (lent memory.old)) }
    ensures saved { Saved window journal.old (lent labels.old) (lent memory.old) result.executed journal.new (lent labels.new) (lent memory.new) }
    ensures counts { MovedSpaces low_bit (lent labels.old) (lent labels.new) (lent counts.old) (lent counts.new) }
{
    let mut i = start;
    let mut k = from;
    let mut executed: u64 = 0;
    loop {
        save(
            settings,
            list,
            reading(memory),
            reading(labels),
            journal,
            i,
            executed as usize,
        );
        let done = run_any(true, settings, list, memory, labels, counts, log, i, k, 1);
        i = done.index as usize;
        k = done.logged as usize;
        executed = executed + done.executed;
        if !((done.ending == Ending::Budget as u64) & (executed < window)) {
            return run_report(done.ending, i, executed, k, done.value);
        }
    }
}

// Marks the log words from one place up to another.
fn mark_words(log: &mut [u64], from: usize, to: usize)
    requires { (from ≤ to) × (to ≤ length log.old) × ((j : ℕ) → j < to - from → get_or log.old (from + j) 0 < window_mark) }
    ensures { log.new ≡ words_marked log.old from to }
{
    for k in from..to {
        log[k] += WINDOW_MARK;
    }
}
