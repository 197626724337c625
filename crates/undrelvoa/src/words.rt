// Settings and answers in lent words.
ghost use Rattle.std.specs.Prelude.{◌≡◌, cond, [], ◌∷◌, ◌≤◌, eqb, length};
ghost use Rattle.std.proofs.lemmas.List.Edits.{sets};
ghost use Rattle.operation.specs.Numbers.{report_numbers};
ghost use Rattle.undrelvoa_faults.specs.Faults.{settings_length, place_length};
ghost use Rattle.undrelvoa.specs.Buffers.{report_words, settings_in};

use operation::layout::{Settings, Wordsizes};
use operation::report::{REPORT_NUMBERS, Report};
use undrelvoa_faults::PLACE_WORDS;

// The settings in their words. No `From`: that would stand in `operation`, where nothing else knows of these words.
pub(crate) fn settings_in(words: &[u64]) -> Settings
    requires { length words.now ≡ settings_length }
    ensures { result ≡ settings_in words.now }
{
    Settings {
        order: words[0],
        address_size: words[1],
        wordsizes: Wordsizes {
            unique: words[2],
            register: words[3],
            ram: words[4],
        },
    }
}

// Writes the words of a report.
pub(crate) fn write_report(words: &mut [u64], report: Report)
    requires { report_numbers ≤ length words.old }
    ensures { words.new ≡ sets words.old 0 (report_words report) }
{
    let numbers: [u64; REPORT_NUMBERS] = report.into();
    words[..REPORT_NUMBERS].copy_from_slice(&numbers);
}

// Writes the place of a shown part of n bytes; zeros where it is empty.
pub(crate) fn write_place(words: &mut [u64], space: u64, offset: u64, n: u64)
    requires { place_length ≤ length words.old }
    ensures { words.new ≡ sets words.old 0 (cond (eqb n 0) (0 ∷ 0 ∷ 0 ∷ []) (space ∷ offset ∷ n ∷ [])) }
{
    let place = if n == 0 {
        [0, 0, 0]
    } else {
        [space, offset, n]
    };
    words[..PLACE_WORDS].copy_from_slice(&place);
}
