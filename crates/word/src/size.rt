// Sizes in bytes: the numbers that a size holds, and the places that a slice has.
ghost use Rattle.std.specs.Prelude.{◌≡◌, ◌+◌, ◌-◌, ◌%◌, ◌^◌, ◌<◌, ◌≤◌, leb, ltb};
ghost use Rattle.word.specs.Word.{is_size};

// 256^size
fn modulus(size: u64) -> u64
    requires { size < 8 }
    ensures { result ≡ 256 ^ size }
{
    1u64 << (8 * size)
}

// The `size` low bytes of a number.
pub fn low(size: u64, x: u64) -> u64
    requires { size ≤ 8 }
    ensures { result ≡ x % 256 ^ size }
{
    if size < 8 { x % modulus(size) } else { x }
}

// A size of 1 to 8 bytes.
#[derive(Clone, Copy)]
pub struct Size {
    pub bytes: u64,
    ghost in_range: { (1 ≤ bytes) × (bytes ≤ 8) },
}

// The largest number of a size: all ones.
pub fn largest(size: Size) -> u64
    ensures { result ≡ 256 ^ size.bytes - 1 }
{
    u64::MAX >> (64 - 8 * size.bytes)
}

// A number is below 256^size; every word is, from 8 bytes on.
pub fn holds(size: u64, x: u64) -> bool
    ensures { result ≡ ltb x (256 ^ size) }
{
    8 <= size || x < modulus(size)
}

// A size of 1 to 8 bytes.
#[tactic(auto, unfolding(crate::specs::Word::is_size))]
pub fn is_size(size: u64) -> bool
    ensures { result ≡ is_size size }
{
    let some = 1 <= size;
    some & (size <= 8)
}

// The `size` bytes at `offset` lie within a space of `length` bytes. The sum of the two could wrap, so it is not made.
pub fn within(offset: u64, size: u64, length: u64) -> bool
    ensures { result ≡ leb (offset + size) length }
{
    size <= length && offset <= length - size
}
