// The end of a text: what is printed of all that was read.
#![tactic(auto)]

ghost use Rattle.std.specs.Prelude.{◌≡◌, ℕ, ◌+◌, ◌≤◌, List, []};
ghost use Rattle.arrayvec.specs.ArrayVec.{array_vec_len};
ghost use Rattle.case_reader.specs.Stream.{HasRead};
ghost use Rattle.case_printing.specs.Room.{output_room};
ghost use Rattle.case_printing.specs.Appended.{Appended};
ghost use Rattle.case_output.specs.Output.{bad_text, output_of};

use arrayvec::ArrayVec;
use case_printing::outcome::OUTPUT_ROOM;
use case_printing::text::put_report;
use case_reader::line::Stage;
use case_reader::stream::{Reader, next_number};
use case_spaces::run_case;
use operation::report::Report;

// Ends a report on a bad line.
const BAD_LINE: u64 = 41;

// A buffer for any output.
pub fn room() -> ArrayVec<u8, OUTPUT_ROOM>
    ensures { result.items ≡ [] }
{
    ArrayVec::new()
}

// What the text read so far prints if it ends here.
pub fn finish<const N: usize>(reader: &Reader, out: &mut ArrayVec<u8, N>)
    requires { array_vec_len out.old + output_room ≤ N }
    ensures { (text : List ℕ) → HasRead text reader.now → Appended out.old.items (output_of text) out.new.items }
{
    match &reader.stage {
        // Not `Nothing | Reading(_)`: in such an arm a proof does not know which it was.
        Stage::Nothing => put_bad(next_number(reader.number), out),
        Stage::Reading(buffers) if reader.line.used == 0 => run_case(buffers, out),
        Stage::Reading(_) => put_bad(next_number(reader.number), out),
        Stage::BadLine(number) => put_bad(*number, out),
    }
}

// The line for a bad line.
fn put_bad<const N: usize>(number: u64, out: &mut ArrayVec<u8, N>)
    requires { array_vec_len out.old + output_room ≤ N }
    ensures { Appended out.old.items (bad_text number) out.new.items }
{
    put_report(
        out,
        Report {
            ending: BAD_LINE,
            index: number,
            executed: 0,
            logged: 0,
            value: 0,
        },
    );
}
