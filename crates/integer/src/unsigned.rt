// Operations on whole numbers.
ghost use Rattle.std.specs.Prelude.{◌≡◌, ◌+◌, ◌*◌, ◌%◌, ◌^◌, ◌<◌, ◌≤◌, nat_le};
ghost use Rattle.integer.specs.Operations.{piece, subpiece, popcount, int_add, int_sub, int_left, int_right, int_mult};

use word::size::{Size, largest, low};

pub fn piece(size1: u64, a: u64, b: u64) -> u64
    requires { (size1 < 8) × (a * 256 ^ size1 + b < 2 ^ 64) }
    ensures { result ≡ piece size1 a b }
{
    (a << (8 * size1)) + b
}

pub fn subpiece(size: u64, a: u64, b: u64) -> u64
    requires { size ≤ 8 }
    ensures { result ≡ subpiece size a b }
{
    if b < 8 { low(size, a >> (8 * b)) } else { 0 }
}

pub fn popcount(size0: u64, a: u64) -> u64
    requires { a < 256 ^ size0 }
    ensures { result ≡ popcount size0 a }
{
    u64::from(a.count_ones())
}

pub fn add(size: u64, a: u64, b: u64) -> u64
    requires { size ≤ 8 }
    ensures { result ≡ int_add size a b }
{
    low(size, a.wrapping_add(b))
}

pub fn sub(size: u64, a: u64, b: u64) -> u64
    requires { size ≤ 8 }
    ensures { result ≡ int_sub size a b }
{
    low(size, a.wrapping_sub(b))
}

pub fn carry(size0: Size, a: u64, b: u64) -> bool
    requires { b < 256 ^ size0.bytes }
    ensures { result ≡ nat_le (256 ^ size0.bytes) (a + b) }
{
    largest(size0) - b < a
}

pub fn left(size: u64, a: u64, b: u64) -> u64
    requires { size ≤ 8 }
    ensures { result ≡ int_left size a b }
{
    if b < 8 * size { low(size, a << b) } else { 0 }
}

pub fn right(size: u64, a: u64, b: u64) -> u64
    requires { size ≤ 8 }
    ensures { result ≡ int_right size a b }
{
    if b < 8 * size { a >> b } else { 0 }
}

pub fn mult(size: u64, a: u64, b: u64) -> u64
    requires { size ≤ 8 }
    ensures { result ≡ int_mult size a b }
{
    low(size, a.wrapping_mul(b))
}
