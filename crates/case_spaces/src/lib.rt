// The run of a case that lies in the reader's buffers.
#![tactic(auto)]

ghost use Rattle.std.specs.Prelude.{◌≡◌, ◌+◌, ◌≤◌};
ghost use Rattle.arrayvec.specs.ArrayVec.{array_vec_len};
ghost use Rattle.machine.specs.Memory.{lengths_of};
ghost use Rattle.machine.specs.Lent.{lent};
ghost use Rattle.case_reader.specs.Limits.{Fits};
ghost use Rattle.case_reader.specs.Buffers.{memory_in, case_in};
ghost use Rattle.case_printing.specs.Appended.{Appended};
ghost use Rattle.case_printing.specs.Outcome.{outcome_text};
ghost use Rattle.case_printing.specs.Room.{output_room};
ghost use Rattle.case_run.specs.Run.{outcome};

use arrayvec::ArrayVec;
use case_reader::buffers::{Buffers, Room};
use case_run::print_run;
use operation::layout::{Lengths, Spaces, WORDS_PER_OPERATION};

// Runs the case and prints what the run leaves. The run gets copies, so that the reader keeps what it read.
pub fn run_case<const N: usize>(buffers: &Buffers, out: &mut ArrayVec<u8, N>)
    requires { array_vec_len out.old + output_room ≤ N }
    ensures { Appended out.old.items (outcome_text (outcome (case_in buffers.now))) out.new.items }
{
    let mut memory = buffers.memory;
    let mut labels = buffers.labels;
    print_run(
        buffers.settings,
        &buffers.words[..WORDS_PER_OPERATION * buffers.operations],
        buffers.budget,
        &mut used(&mut memory, buffers.lengths),
        &mut used(&mut labels, buffers.lengths),
        out,
    );
}

// Of each room what its space needs.
fn used(rooms: &mut Spaces<Room>, lengths: Lengths) -> Spaces<&mut [u8]>
    requires { Fits lengths }
    ensures held { lent result ≡ memory_in lengths rooms.old }
    ensures fits { Fits (lengths_of (lent result)) }
{
    let Spaces {
        unique,
        register,
        ram,
    } = rooms;
    Spaces {
        unique: &mut unique[..lengths.unique as usize],
        register: &mut register[..lengths.register as usize],
        ram: &mut ram[..lengths.ram as usize],
    }
}
