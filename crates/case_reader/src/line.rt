// What a line does to a case.
ghost use Rattle.std.specs.Prelude.{◌≡◌, ℕ, ◌≤◌, true, false, length, MatchResult, OnOk, OnErr};
ghost use Rattle.operation.specs.Spaces.{Lengths};
ghost use Rattle.case_frame.specs.Frames.{bytes_length, bytes_on, frame_of};
ghost use Rattle.case_reader.specs.Limits.{Fits};
ghost use Rattle.case_reader.specs.Case.{Progress, lengths_fit, opened, in_space, stored, line_added, after_line, zeros};
ghost use Rattle.case_reader.specs.Buffers.{memory_in, case_in, progress_in};

use crate::buffers::{Buffers, Room};
use crate::limits::{MOST_CASE_BYTES, MOST_CASE_OPERATIONS, WORDS_ROOM};
use case_frame::{Frame, Target, frame_of, store_bytes, store_words};
use operation::layout::{Lengths, REGISTER, Spaces, UNIQUE, WORDS_PER_OPERATION};
use operation::rules::length_of;
use word::size::within;

// As a length of a space.
const MOST_LENGTH: u64 = MOST_CASE_BYTES as u64;

// What has been read: no line yet, lines of a case, or the number of the first bad line.
#[derive(Clone, Copy)]
pub enum Stage {
    Nothing,
    Reading(Buffers),
    BadLine(u64),
}

// A line that no case has at this place.
#[derive(Drop)]
struct BadLine;

impl Stage {
    // One line, without its newline. After the first bad line nothing counts.
    pub(crate) fn feed(&mut self, number: u64, s: &[u8])
        ensures { progress_in self.new ≡ after_line number s.now (progress_in self.old) }
    {
        match self {
            Stage::Nothing => self.begin(number, s),
            Stage::Reading(buffers) => {
                if let Err(BadLine) = buffers.add(s) {
                    *self = Stage::BadLine(number);
                }
            }
            Stage::BadLine(_) => {}
        }
    }

    // The first line. It makes buffers, and a function fills its locals with zeros whenever it is called: so no other line comes here.
    #[inline(never)]
    fn begin(&mut self, number: u64, s: &[u8])
        ensures { progress_in self.new ≡ opened number (frame_of s.now) }
    {
        *self = match Buffers::open(s) {
            Ok(buffers) => Stage::Reading(buffers),
            Err(BadLine) => Stage::BadLine(number),
        };
    }
}

impl Buffers {
    // The first line.
    fn open(s: &[u8]) -> Result<Buffers, BadLine>
        ensures { (n : ℕ) → MatchResult result
            (λ b. opened n (frame_of s.now) ≡ Progress.reading (case_in b))
            (λ _. opened n (frame_of s.now) ≡ Progress.bad_line n) }
    {
        let Frame::Opening {
            settings,
            lengths,
            budget,
        } = frame_of(s).ok_or(BadLine)?
        else {
            return Err(BadLine);
        };
        if !lengths_fit(lengths) {
            return Err(BadLine);
        }
        Ok(Buffers {
            settings,
            lengths,
            budget,
            memory: no_bytes(),
            labels: no_bytes(),
            words: [0; WORDS_ROOM],
            operations: 0,
        })
    }

    // A line after the first. Compiled into the loop over bytes, it spreads that loop, and each byte takes a fifth longer.
    #[inline(never)]
    fn add(&mut self, s: &[u8]) -> Result<(), BadLine>
        ensures added { (n : ℕ) → MatchResult result
            (λ _. line_added n s.now (frame_of s.now) (case_in self.old) ≡ Progress.reading (case_in self.new))
            (λ _. line_added n s.now (frame_of s.now) (case_in self.old) ≡ Progress.bad_line n) }
        ensures err { OnErr result (self.new ≡ self.old) }
    {
        match frame_of(s).ok_or(BadLine)? {
            Frame::Opening { .. } => Err(BadLine),
            Frame::Bytes {
                target,
                space,
                offset,
                count,
            } => {
                let lengths = self.lengths;
                match target {
                    Target::Memory => store(&mut self.memory, lengths, space, offset, count, s),
                    Target::Labels => store(&mut self.labels, lengths, space, offset, count, s),
                }
            }
            Frame::Operation => {
                if self.operations == MOST_CASE_OPERATIONS {
                    return Err(BadLine);
                }
                let at = WORDS_PER_OPERATION * self.operations;
                let end = at + WORDS_PER_OPERATION;
                store_words(s, &mut self.words[at..end]);
                self.operations += 1;
                Ok(())
            }
        }
    }
}

#[tactic(auto, using(std::proofs::lemmas::Bool::Decides::nat_tests), unfolding(crate::specs::Case::lengths_fit))]
fn lengths_fit(lengths: Lengths) -> bool
    ensures { result ≡ lengths_fit lengths }
{
    lengths.unique <= MOST_LENGTH && lengths.register <= MOST_LENGTH && lengths.ram <= MOST_LENGTH
}

// Memory starts as zeros and public.
fn no_bytes() -> Spaces<Room>
    ensures { (l : Lengths) → Fits l → memory_in l result ≡ zeros l }
{
    Spaces {
        unique: [0; MOST_CASE_BYTES],
        register: [0; MOST_CASE_BYTES],
        ram: [0; MOST_CASE_BYTES],
    }
}

// Stores the bytes or labels of a line, if all lie in the space.
fn store(
    rooms: &mut Spaces<Room>,
    lengths: Lengths,
    space: u64,
    offset: u64,
    count: usize,
    s: &[u8],
) -> Result<(), BadLine>
    requires fits { Fits lengths }
    requires on_line { (1 ≤ count) × (bytes_length count ≤ length s.now) }
    ensures ok { OnOk result ((in_space (memory_in lengths rooms.old) space offset count ≡ true)
        × (memory_in lengths rooms.new ≡ stored (memory_in lengths rooms.old) space offset (bytes_on count s.now))) }
    ensures err { OnErr result ((in_space (memory_in lengths rooms.old) space offset count ≡ false) × (rooms.new ≡ rooms.old)) }
{
    if !within(offset, count as u64, length_of(lengths, space)) {
        return Err(BadLine);
    }
    let at = offset as usize;
    let end = at + count;
    // A call in each arm: the check does not follow a `&mut` that is one of three.
    match space {
        UNIQUE => store_bytes(s, &mut rooms.unique[at..end]),
        REGISTER => store_bytes(s, &mut rooms.register[at..end]),
        _ => store_bytes(s, &mut rooms.ram[at..end]),
    }
    Ok(())
}
