// The public calls. None asks anything of its caller: the validator and the runs answer bad input by number, and show by an
// empty part.
#![tactic(auto)]

ghost use Rattle.std.specs.Prelude.{◌≡◌};
ghost use Rattle.validation.specs.Verdict.{verdict};
ghost use Rattle.machine.specs.Lent.{lent, SameBuffers};
ghost use Rattle.runs.specs.Promises.{RunPromise, LabelledRunPromise};
ghost use Rattle.show.specs.Show.{view, shown};

use operation::layout::{Lengths, Settings, Spaces, Varnode};
use operation::report::Report;
pub use runs::{count_secrets, labelled_run, run, speculative_run};

// The verdict on a list of operations, for spaces of these lengths: the papers' judge.
pub fn validate(settings: Settings, lengths: Lengths, list: &[u64]) -> Report
    ensures { result ≡ verdict settings lengths list.now }
{
    validation::verdict(settings, lengths, list)
}

// The plain run with budget 1.
pub fn step(
    settings: Settings,
    list: &[u64],
    start: u64,
    memory: &mut Spaces<&mut [u8]>,
    log: &mut [u64],
) -> Report
    ensures same { SameBuffers memory.old memory.new }
    ensures promise { RunPromise settings list.now start 1 (lent memory.old) log.old (lent memory.new) log.new result }
{
    run(settings, list, start, 1, memory, log)
}

// The labelled run with budget 1.
pub fn labelled_step(
    settings: Settings,
    list: &[u64],
    start: u64,
    memory: &mut Spaces<&mut [u8]>,
    labels: &mut Spaces<&mut [u8]>,
    counts: &mut Spaces<&mut [u64]>,
    log: &mut [u64],
) -> Report
    ensures same { SameBuffers memory.old memory.new × SameBuffers labels.old labels.new × SameBuffers counts.old counts.new }
    ensures promise { LabelledRunPromise settings list.now start 1 (lent memory.old) (lent labels.old) (lent counts.old) log.old
        (lent memory.new) (lent labels.new) (lent counts.new) log.new result }
{
    labelled_run(settings, list, start, 1, memory, labels, counts, log)
}

// The bytes of a varnode, as that very part of its space; an empty part where it has none.
pub fn show<'a>(memory: Spaces<&'a [u8]>, v: Varnode) -> &'a [u8]
    ensures { view result ≡ shown memory.entry.unique memory.entry.register memory.entry.ram v.space v.offset v.size }
{
    show::show(memory, v)
}
