// Lowercase hexadecimal text.
#![tactic(auto)]

ghost use Rattle.std.specs.Prelude.{◌≡◌, ◌+◌, ◌≤◌, ◌<◌, length, MatchOption};
ghost use Rattle.case_hexadecimal.specs.Digits.{word_digits, digit_of, all_digits, number_at};

// The digits of a byte, of a 32-bit number and of a word.
pub const BYTE_DIGITS: usize = 2;

pub const NUMBER_DIGITS: usize = 8;

pub const WORD_DIGITS: usize = 16;

// The digit that a character stands for.
#[tactic(auto, using(std::proofs::lemmas::Bool::Decides::nat_tests), unfolding(crate::specs::Digits::digit_of))]
fn digit(c: u8) -> Option<u8>
    ensures { MatchOption result (digit_of c ≡ 16) (λ d. (d < 16) × (d ≡ digit_of c)) }
{
    match c {
        b'0'..=b'9' => Some(c - b'0'),
        b'a'..=b'f' => Some(c - b'a' + 10),
        _ => None,
    }
}

// Whether every character is a digit.
pub fn all_digits(s: &[u8]) -> bool
    ensures { result ≡ all_digits s.now }
{
    s.iter().all(|c| digit(*c).is_some())
}

// The number that k digits at a place stand for. A character that is no digit counts as 0. A place and k, not a slice: a
// caller names each column once.
pub fn number(s: &[u8], at: usize, k: usize) -> u64
    requires { (k ≤ word_digits) × (at + k ≤ length s.now) }
    ensures { result ≡ number_at s.now at k }
{
    let mut n = 0;
    for c in &s[at..at + k] {
        n = n * 16 + u64::from(digit(*c).unwrap_or(0));
    }
    n
}
