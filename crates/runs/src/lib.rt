// The runs with their refusals: crates/interpreter has them as public calls.
#![tactic(auto)]

ghost use Rattle.machine.specs.Lent.{held, lent, SameBuffers};
ghost use Rattle.runs.specs.Promises.{RunPromise, LabelledRunPromise, SpeculativeRunPromise, CountingPromise};

use operation::layout::{Settings, Spaces};
use operation::report::Report;
use run_journal::clear;
use run_labelled::run_any;
use run_memory::space::{are_words, lengths_of, reading, words_of};
use run_refusal::{
    counting_refusal, counts_fit, labelled_refusal, plain_refusal, speculative_refusal,
};
use run_speculative::speculate_from;
use secret_counts::fill;
use validation::refusal_report;

// A run of at most `budget` operations, from operation `start`, without labels: the papers' plain run.
pub fn run(
    settings: Settings,
    list: &[u64],
    start: u64,
    budget: u32,
    memory: &mut Spaces<&mut [u8]>,
    log: &mut [u64],
) -> Report
    ensures same { SameBuffers memory.old memory.new }
    ensures promise { RunPromise settings list.now start budget (lent memory.old) log.old (lent memory.new) log.new result }
{
    if let Err(refused) = plain_refusal(settings, list, start, reading(memory)) {
        return refused.into();
    }
    let mut no_labels: Spaces<&mut [u8]> = Spaces {
        unique: &mut [],
        register: &mut [],
        ram: &mut [],
    };
    let mut no_counts: Spaces<&mut [u64]> = Spaces {
        unique: &mut [],
        register: &mut [],
        ram: &mut [],
    };
    run_any(
        false,
        settings,
        list,
        memory,
        &mut no_labels,
        &mut no_counts,
        log,
        start as usize,
        0,
        budget as u64,
    )
}

// A run with a label for each byte of each space, 0 public or 1 secret, and counts of the secret bytes: the papers' labelled run.
pub fn labelled_run(
    settings: Settings,
    list: &[u64],
    start: u64,
    budget: u32,
    memory: &mut Spaces<&mut [u8]>,
    labels: &mut Spaces<&mut [u8]>,
    counts: &mut Spaces<&mut [u64]>,
    log: &mut [u64],
) -> Report
    ensures same { SameBuffers memory.old memory.new × SameBuffers labels.old labels.new × SameBuffers counts.old counts.new }
    ensures promise { LabelledRunPromise settings list.now start budget (lent memory.old) (lent labels.old) (lent counts.old) log.old
        (lent memory.new) (lent labels.new) (lent counts.new) log.new result }
{
    let bytes = reading(memory);
    let marks = reading(labels);
    let fitting = counts_fit(lengths_of(bytes), words_of(counts));
    if let Err(refused) = labelled_refusal(settings, list, start, fitting, bytes, marks) {
        return refused.into();
    }
    are_words(counts);
    let ran = run_any(
        true,
        settings,
        list,
        memory,
        labels,
        counts,
        log,
        start as usize,
        0,
        budget as u64,
    );
    are_words(counts);
    ran
}

// A labelled run in which each CBRANCH first tries the way not taken, for at most `window` operations: paper 02's run with a window.
pub fn speculative_run(
    settings: Settings,
    list: &[u64],
    start: u64,
    budget: u32,
    window: u64,
    memory: &mut Spaces<&mut [u8]>,
    labels: &mut Spaces<&mut [u8]>,
    counts: &mut Spaces<&mut [u64]>,
    log: &mut [u64],
    journal: &mut [u64],
) -> Report
    ensures same { SameBuffers memory.old memory.new × SameBuffers labels.old labels.new × SameBuffers counts.old counts.new }
    ensures promise { SpeculativeRunPromise settings list.now start budget window (lent memory.old) (lent labels.old) (lent counts.old)
        log.old journal.old (lent memory.new) (lent labels.new) (lent counts.new) log.new journal.new result }
{
    let bytes = reading(memory);
    let marks = reading(labels);
    let fitting = counts_fit(lengths_of(bytes), words_of(counts));
    let refusal = speculative_refusal(
        settings,
        list,
        start,
        window,
        journal.len(),
        fitting,
        bytes,
        marks,
    );
    if let Err(refused) = refusal {
        return refused.into();
    }
    are_words(counts);
    let ran = speculate_from(
        settings,
        list,
        memory,
        labels,
        counts,
        log,
        journal,
        start as usize,
        budget as u64,
        window,
    );
    are_words(counts);
    clear(journal, window as usize);
    ran
}

// Fills the counts of secret bytes from the labels.
pub fn count_secrets(labels: Spaces<&[u8]>, counts: &mut Spaces<&mut [u64]>) -> Report
    ensures same { SameBuffers counts.old counts.new }
    ensures promise { CountingPromise (held labels.entry) (lent counts.old) (lent counts.new) result }
{
    if let Err(refused) = counting_refusal(labels, words_of(counts)) {
        return refused.into();
    }
    fill(labels.unique, counts.unique);
    fill(labels.register, counts.register);
    fill(labels.ram, counts.ram);
    refusal_report(0, 0)
}
