// The labelled run of a case, and what is printed of it.
#![tactic(auto)]

ghost use Rattle.std.specs.Prelude.{◌+◌, ◌≤◌, replicate};
ghost use Rattle.machine.specs.Memory.{lengths_of};
ghost use Rattle.machine.specs.Lent.{lent, SameBuffers};
ghost use Rattle.machine.specs.Calls.{labelled_run};
ghost use Rattle.arrayvec.specs.ArrayVec.{array_vec_len};
ghost use Rattle.case_printing.specs.Appended.{Appended};
ghost use Rattle.case_printing.specs.Outcome.{outcome_text};
ghost use Rattle.case_reader.specs.Limits.{log_words, start_index, Fits};
ghost use Rattle.case_printing.specs.Room.{output_room};

use arrayvec::ArrayVec;
use case_printing::outcome::put_outcome;
use case_reader::limits::{COUNTS_ROOM, LOG_WORDS, START_INDEX};
use interpreter::labelled_run;
use operation::layout::{Settings, Spaces};
use run_memory::space::reading;

// Prints what the labelled run leaves.
pub fn print_run<const N: usize>(
    settings: Settings,
    list: &[u64],
    budget: u32,
    memory: &mut Spaces<&mut [u8]>,
    labels: &mut Spaces<&mut [u8]>,
    out: &mut ArrayVec<u8, N>,
)
    requires fits { Fits (lengths_of (lent memory.old)) }
    requires fits_2 { Fits (lengths_of (lent labels.old)) }
    requires output_room_in_bounds { array_vec_len out.old + output_room ≤ N }
    ensures same { SameBuffers memory.old memory.new × SameBuffers labels.old labels.new }
    ensures printed { Appended out.old.items (outcome_text (labelled_run settings list.now start_index budget (replicate log_words 0)
        (lent labels.old) (lent memory.old))) out.new.items }
{
    let mut counts: Spaces<&mut [u64]> = Spaces {
        unique: &mut [0; COUNTS_ROOM],
        register: &mut [0; COUNTS_ROOM],
        ram: &mut [0; COUNTS_ROOM],
    };
    let mut log = [0; LOG_WORDS];
    let report = labelled_run(
        settings,
        list,
        START_INDEX,
        budget,
        memory,
        labels,
        &mut counts,
        &mut log,
    );
    put_outcome(out, report, &log, reading(memory), reading(labels));
}
