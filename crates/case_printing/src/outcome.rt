// What a run leaves, as text.
ghost use Rattle.std.specs.Prelude.{◌+◌, ◌≤◌, length};
ghost use Rattle.machine.specs.Memory.{lengths_of};
ghost use Rattle.machine.specs.Lent.{held};
ghost use Rattle.machine.specs.Calls.{labelled_outcome};
ghost use Rattle.arrayvec.specs.ArrayVec.{array_vec_len};
ghost use Rattle.case_printing.specs.Appended.{Appended};
ghost use Rattle.case_printing.specs.Outcome.{memory_text, outcome_text};
ghost use Rattle.case_reader.specs.Limits.{log_words, Fits};
ghost use Rattle.case_printing.specs.Room.{memory_text_room, output_room};

use crate::text::{
    BYTES_PER_LINE, DUMP_LENGTH, REPORT_TEXT_LENGTH, WORD_LINE_LENGTH, put_log, put_report,
    put_space,
};
use arrayvec::ArrayVec;
use case_reader::limits::{LOG_WORDS, MOST_CASE_BYTES};
use operation::layout::{RAM, REGISTER, Spaces, UNIQUE};
use operation::report::Report;

// All lines of a space, and of the three spaces. By hand: the value of a constant calls no div_ceil.
const SPACE_TEXT_ROOM: usize = DUMP_LENGTH
    * ((MOST_CASE_BYTES + (BYTES_PER_LINE - 1)) / BYTES_PER_LINE);

const MEMORY_TEXT_ROOM: usize = 3 * SPACE_TEXT_ROOM;

// A bound on every output: a report, the log, memory and labels.
pub const OUTPUT_ROOM: usize = REPORT_TEXT_LENGTH
    + WORD_LINE_LENGTH * LOG_WORDS
    + 2 * MEMORY_TEXT_ROOM;

// What the lines of a dump show.
const BYTES_KIND: u64 = 2;

const LABELS_KIND: u64 = 3;

// The report, the log words written, the bytes of the spaces as 02 lines, and their labels as 03 lines.
pub fn put_outcome<const N: usize>(
    out: &mut ArrayVec<u8, N>,
    report: Report,
    log: &[u64],
    bytes: Spaces<&[u8]>,
    labels: Spaces<&[u8]>,
)
    requires logged_in_bounds { report.logged ≤ length log.now }
    requires log_len_bound { length log.now ≤ log_words }
    requires fits { Fits (lengths_of (held bytes)) }
    requires fits_2 { Fits (lengths_of (held labels)) }
    requires output_room_in_bounds { array_vec_len out.old + output_room ≤ N }
    ensures { Appended out.old.items (outcome_text (labelled_outcome report (held bytes.entry) (held labels.entry) log.now))
        out.new.items }
{
    put_report(out, report);
    put_log(out, &log[..report.logged as usize]);
    put_memory(out, BYTES_KIND, bytes);
    put_memory(out, LABELS_KIND, labels);
}

// Spaces 2, 3 and 4 as lines of a kind.
fn put_memory<const N: usize>(out: &mut ArrayVec<u8, N>, kind: u64, spaces: Spaces<&[u8]>)
    requires fits { Fits (lengths_of (held spaces)) }
    requires memory_text_room_in_bounds { array_vec_len out.old + memory_text_room ≤ N }
    ensures appended { Appended out.old.items (memory_text kind (held spaces.entry)) out.new.items }
    ensures upper_bound { array_vec_len out.new ≤ array_vec_len out.old + memory_text_room }
{
    put_space(out, kind, UNIQUE, spaces.unique);
    put_space(out, kind, REGISTER, spaces.register);
    put_space(out, kind, RAM, spaces.ram);
}
