// The case program's output, put behind what a text already holds.
ghost use Rattle.std.specs.Prelude.{◌+◌, ◌*◌, ◌≤◌, length};
ghost use Rattle.arrayvec.specs.ArrayVec.{array_vec_len};
ghost use Rattle.case_printing.specs.Appended.{Appended};
ghost use Rattle.case_printing.specs.Outcome.{report_line};
ghost use Rattle.case_printing.specs.Text.{hex_text, field_text, word_line, log_text, bytes_text, dump_line, space_lines};
ghost use Rattle.case_printing.specs.Text.{field_length, report_text_length, word_line_length, dump_length, bytes_per_line, line_count};
ghost use Rattle.case_hexadecimal.specs.Digits.{byte_digits, word_digits};
ghost use Rattle.case_reader.specs.Limits.{most_case_bytes};

use arrayvec::ArrayVec;
use case_frame::BYTES_COLUMN;
use case_hexadecimal::{BYTE_DIGITS, NUMBER_DIGITS, WORD_DIGITS};
use case_reader::stream::NEWLINE;
use operation::report::{REPORT_NUMBERS, Report};

// The most decimal digits of a 64-bit number.
const MOST_DIGITS: usize = 20;

const FIELD_LENGTH: usize = MOST_DIGITS + 1;

// The most characters of a report, of the line of a log word, and of a line of bytes.
pub(crate) const REPORT_TEXT_LENGTH: usize = REPORT_NUMBERS * FIELD_LENGTH;

pub(crate) const WORD_LINE_LENGTH: usize = WORD_DIGITS + 1;

pub(crate) const DUMP_LENGTH: usize = BYTES_COLUMN + BYTE_DIGITS * BYTES_PER_LINE + 1;

// The bytes of a space that one line shows.
pub(crate) const BYTES_PER_LINE: usize = 16;

static HEX_DIGITS: [u8; 16] = *b"0123456789abcdef";

// A report on one line: five numbers, each with the character behind it.
pub fn put_report<const N: usize>(out: &mut ArrayVec<u8, N>, report: Report)
    requires { array_vec_len out.old + report_text_length ≤ N }
    ensures appended { Appended out.old.items (report_line report) out.new.items }
    ensures upper_bound { array_vec_len out.new ≤ array_vec_len out.old + report_text_length }
{
    put_field(out, report.ending, b' ');
    put_field(out, report.index, b' ');
    put_field(out, report.executed, b' ');
    put_field(out, report.logged, b' ');
    put_field(out, report.value, NEWLINE);
}

// A log, one word on a line.
pub(crate) fn put_log<const N: usize>(out: &mut ArrayVec<u8, N>, words: &[u64])
    requires { array_vec_len out.old + word_line_length * length words.now ≤ N }
    ensures appended { Appended out.old.items (log_text words.now) out.new.items }
    ensures upper_bound { array_vec_len out.new ≤ array_vec_len out.old + word_line_length * length words.now }
{
    for word in words {
        put_word(out, *word);
    }
}

// All bytes of a space, line by line.
pub(crate) fn put_space<const N: usize>(
    out: &mut ArrayVec<u8, N>,
    kind: u64,
    space: u64,
    bytes: &[u8],
)
    requires { (length bytes.now ≤ most_case_bytes) × (array_vec_len out.old + dump_length bytes_per_line * line_count (length bytes.now) ≤ N) }
    ensures appended { Appended out.old.items (space_lines kind space bytes.now) out.new.items }
    ensures upper_bound { array_vec_len out.new ≤ array_vec_len out.old + dump_length bytes_per_line * line_count (length bytes.now) }
{
    for (k, part) in bytes.chunks(BYTES_PER_LINE).enumerate() {
        put_line(out, kind, space, (BYTES_PER_LINE * k) as u64, part);
    }
}

fn put_field<const N: usize>(out: &mut ArrayVec<u8, N>, n: u64, mark: u8)
    requires { array_vec_len out.old + field_length ≤ N }
    ensures appended { Appended out.old.items (field_text n mark) out.new.items }
    ensures upper_bound { array_vec_len out.new ≤ array_vec_len out.old + field_length }
{
    out.try_extend_from_slice(itoa::Buffer::new().format(n).as_bytes())
        .unwrap();
    out.push(mark);
}

fn put_word<const N: usize>(out: &mut ArrayVec<u8, N>, word: u64)
    requires { array_vec_len out.old + word_line_length ≤ N }
    ensures { Appended out.old.items (word_line word) out.new.items }
{
    put_hex(out, word, WORD_DIGITS);
    out.push(NEWLINE);
}

fn put_line<const N: usize>(
    out: &mut ArrayVec<u8, N>,
    kind: u64,
    space: u64,
    offset: u64,
    bytes: &[u8],
)
    requires { array_vec_len out.old + dump_length (length bytes.now) ≤ N }
    ensures { Appended out.old.items (dump_line kind space offset bytes.now) out.new.items }
{
    put_hex(out, kind, BYTE_DIGITS);
    put_hex(out, space, BYTE_DIGITS);
    put_hex(out, offset, NUMBER_DIGITS);
    put_bytes(out, bytes);
    out.push(NEWLINE);
}

fn put_bytes<const N: usize>(out: &mut ArrayVec<u8, N>, bytes: &[u8])
    requires { array_vec_len out.old + byte_digits * length bytes.now ≤ N }
    ensures appended { Appended out.old.items (bytes_text bytes.now) out.new.items }
    ensures upper_bound { array_vec_len out.new ≤ array_vec_len out.old + byte_digits * length bytes.now }
{
    for byte in bytes {
        put_hex(out, u64::from(*byte), BYTE_DIGITS);
    }
}

// The last hexadecimal digits of n, as many as are asked. By hand: no proof learns that a `write!` into the room did not fail.
fn put_hex<const N: usize>(out: &mut ArrayVec<u8, N>, n: u64, digits: usize)
    requires { (digits ≤ word_digits) × (array_vec_len out.old + digits ≤ N) }
    ensures appended { Appended out.old.items (hex_text digits n) out.new.items }
    ensures upper_bound { array_vec_len out.new ≤ array_vec_len out.old + digits }
{
    for k in (0..digits).rev() {
        out.push(HEX_DIGITS[((n >> (4 * k)) % 16) as usize]);
    }
}
