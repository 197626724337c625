// A text that comes in parts.
ghost use Rattle.std.specs.Prelude.{◌≡◌, ◌≤◌, [], take};
ghost use Rattle.case_reader.specs.Limits.{line_room};
ghost use Rattle.case_reader.specs.Case.{after_line};
ghost use Rattle.case_reader.specs.Buffers.{progress_in};
ghost use Rattle.case_reader.specs.Stream.{HasRead, Advanced};
ghost use Rattle.case_reader.specs.Lines.{next_number};

use crate::buffers::Line;
use crate::limits::LINE_ROOM;
use crate::line::Stage;

// The unfinished line, how many lines were read, and what they said.
#[derive(Clone, Copy)]
pub struct Reader {
    pub line: Line,
    pub number: u64,
    pub stage: Stage,
}

// Ends a line.
pub const NEWLINE: u8 = b'\n';

impl Reader {
    // A reader that has read nothing.
    pub fn new() -> Reader
        ensures { HasRead [] result }
    {
        Reader {
            line: Line {
                bytes: [0; LINE_ROOM],
                used: 0,
            },
            number: 0,
            stage: Stage::Nothing,
        }
    }

    // A part of the text, of any length. How much of the line there is stands in a local while bytes are written: as a field beside
    // them it would be read and written anew at each.
    pub fn read(&mut self, part: &[u8])
        ensures { Advanced part.now self.old self.new }
    {
        let mut used = self.line.used;
        for b in part {
            if *b == NEWLINE {
                self.end_line(used);
                used = 0;
            } else if used < LINE_ROOM {
                // Of a line that fills its room, which no frame does, the rest counts no more.
                self.line.bytes[used] = *b;
                used += 1;
            }
        }
        self.line.used = used;
    }

    // A newline behind the first `used` bytes of the line.
    fn end_line(&mut self, used: usize)
        requires { used ≤ line_room }
        ensures line { self.new.line ≡ self.old.line }
        ensures number { self.new.number ≡ next_number self.old.number }
        ensures stage { progress_in self.new.stage
            ≡ after_line (next_number self.old.number) (take used self.old.line.bytes) (progress_in self.old.stage) }
    {
        let Reader {
            line,
            number,
            stage,
        } = self;
        let line = &*line;
        *number = next_number(*number);
        stage.feed(*number, &line.bytes[..used]);
    }
}

// The number of the next line; the largest number stays.
#[tactic(auto, using(std::proofs::lemmas::Bool::Decides::nat_tests), unfolding(crate::specs::Lines::next_number))]
pub fn next_number(n: u64) -> u64
    ensures { result ≡ next_number n }
{
    n.saturating_add(1)
}
