// What is refused before anything runs.
#![tactic(auto)]

ghost use Rattle.std.specs.Prelude.{◌≡◌, true, cond, not, ◌&&◌, []};
ghost use Rattle.validation.specs.Verdict.{lengths_in_range, refusal_report, reported};
ghost use Rattle.machine.specs.Memory.{lengths_of};
ghost use Rattle.machine.specs.Lent.{held};
ghost use Rattle.machine.specs.Calls.{same_lengths, all_labels, labels_in_range, refusal};
ghost use Rattle.machine.specs.Counts.{counts_fit};
ghost use Rattle.speculation.specs.Speculation.{speculative_refusal};

use operation::layout::{Lengths, Settings, Spaces, operation_count};
use operation::report::{Refusal, Refused};
use run_memory::space::lengths_of;
use secret_counts::count_words;
use validation::{first_malformed, lengths_in_range, settings_in_range};

// The largest window.
const MOST_AHEAD: u64 = 64;

// Words of the journal to an operation of the window.
const JOURNAL_WORDS: u64 = 4;

// The refusals of a plain run.
pub fn plain_refusal(
    settings: Settings,
    list: &[u64],
    start: u64,
    memory: Spaces<&[u8]>,
) -> Result<(), Refused>
    ensures { reported result 0 ≡ refusal settings (lengths_of (held memory.entry)) list.now start true true }
{
    refusal(settings, lengths_of(memory), list, start, true, true)
}

// The refusals of a labelled run; `lent` says that no other buffer calls for 11.
#[tactic(auto, unfolding(machine::specs::Calls::same_lengths))]
pub fn labelled_refusal(
    settings: Settings,
    list: &[u64],
    start: u64,
    lent: bool,
    memory: Spaces<&[u8]>,
    labels: Spaces<&[u8]>,
) -> Result<(), Refused>
    ensures { reported result 0 ≡ refusal settings (lengths_of (held memory.entry)) list.now start
        (same_lengths (lengths_of (held labels.entry))
        (lengths_of (held memory.entry)) && lent)
        (labels_in_range (held labels.entry)) }
{
    let lengths = lengths_of(memory);
    let fitting = lengths_of(labels) == lengths;
    let valid = labels_in_range(labels);
    refusal(settings, lengths, list, start, fitting & lent, valid)
}

// The refusals of a speculative run with a journal of `words` words; `lent` says that no other buffer calls for 11.
#[tactic(auto, unfolding(speculation::specs::Speculation::speculative_refusal, speculation::specs::Speculation::most_ahead, speculation::specs::Speculation::journal_words))]
pub fn speculative_refusal(
    settings: Settings,
    list: &[u64],
    start: u64,
    window: u64,
    words: usize,
    lent: bool,
    memory: Spaces<&[u8]>,
    labels: Spaces<&[u8]>,
) -> Result<(), Refused>
    ensures { reported result 0 ≡ speculative_refusal settings (lengths_of (held memory.entry)) list.now start
        window words
        (same_lengths (lengths_of (held labels.entry))
        (lengths_of (held memory.entry)) && lent)
        (labels_in_range (held labels.entry)) }
{
    Refusal::Setting.unless(window <= MOST_AHEAD)?;
    let needed = JOURNAL_WORDS * window;
    labelled_refusal(
        settings,
        list,
        start,
        (needed <= words as u64) & lent,
        memory,
        labels,
    )
}

// 11 LENGTH, for counts: each space has as many as it needs.
#[tactic(auto, unfolding(machine::specs::Counts::counts_fit))]
pub fn counts_fit(lengths: Lengths, words: Lengths) -> bool
    ensures { result ≡ counts_fit lengths words }
{
    (count_words(lengths.unique) <= words.unique)
        & (count_words(lengths.register) <= words.register)
        & (count_words(lengths.ram) <= words.ram)
}

// The refusals of filling counts: 11 for more labels than the largest space has bytes, or for counts that are too short; then 12.
pub fn counting_refusal(labels: Spaces<&[u8]>, words: Lengths) -> Result<(), Refused>
    ensures { reported result 0 ≡ cond (not (lengths_in_range (lengths_of (held labels.entry)) []
        && counts_fit (lengths_of (held labels.entry)) words)) (refusal_report 11 0)
        (cond (not (labels_in_range (held labels.entry))) (refusal_report 12 0) (refusal_report 0 0)) }
{
    let lengths = lengths_of(labels);
    let fitting = counts_fit(lengths, words);
    Refusal::Length.unless(lengths_in_range(lengths, &[]) & fitting)?;
    Refusal::Label.unless(labels_in_range(labels))?;
    Ok(())
}

// The refusals in their order. `fitting` says that no labels and no other lent buffer call for 11, `valid` that no label calls for 12.
#[tactic(auto, unfolding(machine::specs::Calls::refusal))]
fn refusal(
    settings: Settings,
    lengths: Lengths,
    list: &[u64],
    start: u64,
    fitting: bool,
    valid: bool,
) -> Result<(), Refused>
    ensures { reported result 0 ≡ refusal settings lengths list.now start fitting valid }
{
    Refusal::Setting.unless(settings_in_range(settings))?;
    Refusal::Length.unless(lengths_in_range(lengths, list) & fitting)?;
    Refusal::Label.unless(valid)?;
    first_malformed(settings.address_size, lengths, list)?;
    Refusal::Start.unless(start <= operation_count(list) as u64)?;
    Ok(())
}

// 12 LABEL: a label not 0 or 1.
#[tactic(auto, unfolding(machine::specs::Calls::labels_in_range))]
fn labels_in_range(labels: Spaces<&[u8]>) -> bool
    ensures { result ≡ labels_in_range (held labels.entry) }
{
    all_labels(labels.unique) & all_labels(labels.register) & all_labels(labels.ram)
}

// Each label is 0 or 1: so the largest is. A loop that left at the first other one would take one label at a time.
fn all_labels(labels: &[u8]) -> bool
    ensures { result ≡ all_labels labels.now }
{
    let mut most = 0;
    for label in labels {
        most = most.max(*label);
    }
    most <= 1
}
