// The case program: reads a case from standard input and prints what its labelled run leaves.
#![tactic(auto)]

ghost use Rattle.std.specs.Prelude.{[], IfSome};
ghost use Rattle.case_reader.specs.Stream.{HasRead};
ghost use Rattle.case.specs.Read.{Read, ReadWhole};

use case_reader::stream::Reader;
use std::env::{Env, FillError};
use std::io::{Read, Write};

// Standard input cannot be read.
#[derive(Drop)]
struct ReadFailed;

fn main(rt: HostRuntime) {
    if has_argument(&rt) {
        let _ = eprint!(rt;
            "case: it takes no argument, and nothing was run\nusage: case <FILE\nIts exit status is always 0: a script uses run-case.\nWhat it prints holds the secret bytes in clear.\n"
        );
        return;
    }
    let mut reader = Reader::new();
    if read_all(&mut rt.stdin(), &mut reader).is_err() {
        let _ = eprint!(rt; "case: standard input cannot be read; nothing was printed\n");
        return;
    }
    let mut out = case_output::room();
    case_output::finish(&reader, &mut out);
    if rt.stdout().write_all(&out).is_err() {
        let _ = eprint!(rt;
            "case: standard output cannot be written; what was printed is not complete\n"
        );
    }
}

// Whether the program was given an argument. Argument 0 is its name; one that is longer than the buffer is one too. It
// takes the runtime itself: over any `Env` it would rest on contracts of C functions that it does not call.
fn has_argument(rt: &HostRuntime) -> bool {
    let mut text = [0u8; 1];
    !matches!(rt.arg(1, &mut text), Err(FillError::NotPresent))
}

// Reads a stream to its end, or to a read that fails. Where its bytes are known, they are the text that was read. The
// turns only make it plain that the loop ends.
fn read_all<R: Read>(from: &mut R, reader: &mut Reader) -> Result<(), ReadFailed>
    requires { HasRead [] reader.old }
    ensures read { Read reader.new }
    ensures whole { IfSome (R.remaining from.old) (ReadWhole result reader.new) }
{
    let mut part = [0u8; 65536];
    for _ in 0..u64::MAX {
        let Ok(n) = from.read(&mut part) else {
            return Err(ReadFailed);
        };
        if n == 0 {
            return Ok(());
        }
        reader.read(&part[..n]);
    }
    Err(ReadFailed)
}
