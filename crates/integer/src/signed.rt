// Operations on two's complement values.
ghost use Rattle.std.specs.Prelude.{◌≡◌, ◌-◌, ◌^◌, ◌<◌, ◌≤◌, ◌+ℤ◌, ◌-ℤ◌, int_le, int_lt};
ghost use Rattle.integer.specs.Integers.{signed, wrap, negative, overflows};
ghost use Rattle.integer.specs.Operations.{int_sext, int_sright, int_sdiv, int_srem};

use super::unsigned::{add, sub};
use word::size::{Size, largest, low};

// The two's complement value of x: shifted up, its sign bit is that of the i64.
fn value_of(size: Size, x: u64) -> i64
    requires { x < 256 ^ size.bytes }
    ensures { result ≡ signed size.bytes x }
{
    let unused = 64 - 8 * size.bytes;
    (x << unused).cast_signed() >> unused
}

// The number of a size whose two's complement value is z, but for a multiple of 256^size.
fn wrapped(size: Size, z: i64) -> u64
    ensures { result ≡ wrap size.bytes z }
{
    low(size.bytes, z.cast_unsigned())
}

pub fn less(size: Size, a: u64, b: u64) -> bool
    requires { (a < 256 ^ size.bytes) × (b < 256 ^ size.bytes) }
    ensures { result ≡ int_lt (signed size.bytes a) (signed size.bytes b) }
{
    value_of(size, a) < value_of(size, b)
}

pub fn less_equal(size: Size, a: u64, b: u64) -> bool
    requires { (a < 256 ^ size.bytes) × (b < 256 ^ size.bytes) }
    ensures { result ≡ int_le (signed size.bytes a) (signed size.bytes b) }
{
    value_of(size, a) <= value_of(size, b)
}

pub fn extend(size: Size, size0: Size, a: u64) -> u64
    requires { a < 256 ^ size0.bytes }
    ensures { result ≡ int_sext size.bytes size0.bytes a }
{
    wrapped(size, value_of(size0, a))
}

fn is_negative(size: Size, x: u64) -> bool
    requires { x < 256 ^ size.bytes }
    ensures { result ≡ negative (signed size.bytes x) }
{
    value_of(size, x) < 0
}

// The sum of two numbers of one sign has the other sign.
pub fn carry(size: Size, a: u64, b: u64) -> bool
    requires { (a < 256 ^ size.bytes) × (b < 256 ^ size.bytes) }
    ensures { result ≡ overflows size.bytes (signed size.bytes a +ℤ signed size.bytes b) }
{
    let s = is_negative(size, add(size.bytes, a, b));
    (s != is_negative(size, a)) & (s != is_negative(size, b))
}

// The difference of two numbers of different signs has the sign of the one taken away.
pub fn borrow(size: Size, a: u64, b: u64) -> bool
    requires { (a < 256 ^ size.bytes) × (b < 256 ^ size.bytes) }
    ensures { result ≡ overflows size.bytes (signed size.bytes a -ℤ signed size.bytes b) }
{
    let s = is_negative(size, sub(size.bytes, a, b));
    (s != is_negative(size, a)) & (s == is_negative(size, b))
}

pub fn right(size: Size, a: u64, b: u64) -> u64
    requires { a < 256 ^ size.bytes }
    ensures { result ≡ int_sright size.bytes a b }
{
    let z = value_of(size, a);
    if b < 8 * size.bytes {
        wrapped(size, z >> b)
    } else if z < 0 {
        largest(size)
    } else {
        0
    }
}

// The least 64-bit number by -1 is the one quotient that does not fit; `wrapping_div` gives that number again, and by
// `sdiv_least` so does `int_sdiv`: a test for it is proved too.
#[tactic(auto, using(crate::proofs::Division::sdiv_least))]
pub fn div(size: Size, a: u64, b: u64) -> u64
    requires { (a < 256 ^ size.bytes) × (b < 256 ^ size.bytes) × (0 < b) }
    ensures { result ≡ int_sdiv size.bytes a b }
{
    let p = value_of(size, a);
    let q = value_of(size, b);
    wrapped(size, p.wrapping_div(q))
}

pub fn rem(size: Size, a: u64, b: u64) -> u64
    requires { (a < 256 ^ size.bytes) × (b < 256 ^ size.bytes) × (0 < b) }
    ensures { result ≡ int_srem size.bytes a b }
{
    let p = value_of(size, a);
    let q = value_of(size, b);
    wrapped(size, p.wrapping_rem(q))
}
