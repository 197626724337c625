// Truth values: 0 is false, and every other number is true.
ghost use Rattle.std.specs.Prelude.{◌≡◌, if◌then◌else◌};
ghost use Rattle.integer.specs.Operations.{bool_xor, bool_and, bool_or};

pub fn xor(a: u64, b: u64) -> u64
    ensures { result ≡ bool_xor a b }
{
    u64::from((a != 0) ^ (b != 0))
}

pub fn and(a: u64, b: u64) -> u64
    ensures { result ≡ bool_and a b }
{
    u64::from((a != 0) & (b != 0))
}

pub fn or(a: u64, b: u64) -> u64
    ensures { result ≡ bool_or a b }
{
    u64::from((a != 0) | (b != 0))
}

// As a function, a choice adds no branches, and so no cases, to the proofs of its callers.
pub fn pick<T: Copy>(test: bool, yes: T, no: T) -> T
    ensures { result ≡ (if test then yes else no) }
{
    if test { yes } else { no }
}
