// The plain loop: plan, then apply.
#![tactic(auto)]

ghost use Rattle.std.specs.Prelude.{◌≡◌, true, cond, ◌+◌, ◌≤◌, ◌<◌, length, set, is_some, unwrap_or};
ghost use Rattle.operation.specs.Layout.{operation_count};
ghost use Rattle.validation.specs.Verdict.{most_operations, most_bytes, settings_in_range};
ghost use Rattle.machine.specs.Program.{program_of};
ghost use Rattle.machine.specs.Memory.{lengths_of};
ghost use Rattle.machine.specs.Lent.{lent, SameBuffers};
ghost use Rattle.machine.specs.Run.{log_word, run};
ghost use Rattle.machine.specs.Calls.{unlabelled, outcome_of, plain_outcome};
ghost use Rattle.run_plan.specs.Valid.{Valid};
ghost use Rattle.run_execution.specs.Loops.{position};

use operation::layout::{Settings, Spaces, operation_count};
use operation::report::{Ending, Report, run_report};
use run_memory::space::reading;
use run_memory::varnode::write;
use run_plan::plan_at;

// A run from operation `start`, with the first `from` words of the log written before.
pub fn run_from(
    settings: Settings,
    list: &[u64],
    memory: &mut Spaces<&mut [u8]>,
    log: &mut [u64],
    start: usize,
    from: usize,
    budget: u64,
) -> Report
    requires { Valid (lengths_of (lent memory.old)) list.now × (start ≤ operation_count list.now) × (from ≤ length log.old)
        × (settings_in_range settings ≡ true) }
    ensures same { SameBuffers memory.old memory.new }
    ensures outcome { plain_outcome result (lent memory.new) log.new
        ≡ outcome_of log.old (run (program_of settings list.now) budget (position start from 0 log.old) unlabelled
        (lent memory.old)) }
{
    let big = settings.order == 1;
    let count = operation_count(list);
    let mut i = start;
    let mut k = from;
    let mut executed: u64 = 0;
    loop {
        if i == count {
            return run_report(Ending::End as u64, i, executed, k, 0);
        }
        if executed == budget {
            return run_report(Ending::Budget as u64, i, executed, k, 0);
        }
        let p = plan_at(settings, list, reading(memory), i);
        let full = p.log.is_some() & (log.len() <= k);
        if p.stop.is_some() {
            if let Some(why) = p.failure() {
                return run_report(why.number(), i, executed, k, 0);
            }
            if full {
                return run_report(Ending::Log as u64, i, executed, k, 0);
            }
            k = push(log, k, i, p.log);
            return run_report(Ending::Exit as u64, i, executed + 1, k, p.value);
        }
        if full {
            return run_report(Ending::Log as u64, i, executed, k, 0);
        }
        k = push(log, k, i, p.log);
        executed += 1;
        write(big, memory, p.target, p.value);
        i = p.next;
    }
}

// A log word is its operation's index times this, and a low part.
pub const INDEX_WEIGHT: u64 = 4294967296;

// The log word of operation i with a low part.
fn log_word(i: usize, low: u64) -> u64
    requires { (i < most_operations) × (low ≤ most_bytes) }
    ensures { result ≡ log_word i low }
{
    (i as u64) * INDEX_WEIGHT + low
}

// Writes the log word of operation i at k, if one is due; the place of the next word.
fn push(log: &mut [u64], k: usize, i: usize, low: Option<u64>) -> usize
    requires { (i < most_operations) × (unwrap_or low 0 ≤ most_bytes) × (is_some low ≡ true → k < length log.old) }
    ensures { (result ≡ cond (is_some low) (k + 1) k)
        × (log.new ≡ cond (is_some low) (set log.old k (log_word i (unwrap_or low 0))) log.old) }
{
    let Some(low) = low else {
        return k;
    };
    log[k] = log_word(i, low);
    k + 1
}
