// Values of 1 to 8 bytes in a slice, in either byte order.
ghost use Rattle.std.specs.Prelude.{◌≡◌, ◌+◌, ◌<◌, ◌≤◌, length};
ghost use Rattle.std.proofs.lemmas.List.Edits.{sets};
ghost use Rattle.word.specs.Word.{part, significance, value_of, bytes_of};

// The value of the `size` bytes at `at`. Where order and size are constants, the compiler makes one load of the walk: so each order
// and each usual size has a call of its own, compiled into every caller.
#[inline(always)]
pub fn gather(big: bool, s: &[u8], at: usize, size: usize) -> u64
    requires { (size ≤ 8) × (at + size ≤ length s.now) }
    ensures { result ≡ value_of big (part s.now at size) }
{
    if big {
        gather_sized(true, s, at, size)
    } else {
        gather_sized(false, s, at, size)
    }
}

// The other sizes are below 8; without the remainder, which tells it so, the compiler prepares the walk for long parts. By `if`, four bytes
// last: so the compiler asks for one, then for eight; by a `match` loops on single bytes took a tenth more instructions.
#[inline(always)]
fn gather_sized(big: bool, s: &[u8], at: usize, size: usize) -> u64
    requires { (size ≤ 8) × (at + size ≤ length s.now) }
    ensures { result ≡ value_of big (part s.now at size) }
{
    if size == 8 {
        gather_walk(big, s, at, 8)
    } else if size == 1 {
        gather_walk(big, s, at, 1)
    } else if size == 4 {
        gather_walk(big, s, at, 4)
    } else {
        gather_walk(big, s, at, size % 8)
    }
}

// Each byte at its weight. The weights share no bit, so `|` adds; the compiler sees a load through it where it does not through `+`.
#[inline(always)]
fn gather_walk(big: bool, s: &[u8], at: usize, size: usize) -> u64
    requires { (size ≤ 8) × (at + size ≤ length s.now) }
    ensures { result ≡ value_of big (part s.now at size) }
{
    let mut v: u64 = 0;
    for i in 0..size {
        v |= u64::from(s[at + i]) << (8 * weight(big, size, i));
    }
    v
}

// Writes the `size` low bytes of `v` at `at`. Orders and sizes are told apart as in `gather`.
#[inline(always)]
pub fn scatter(big: bool, s: &mut [u8], at: usize, size: usize, v: u64)
    requires { (size ≤ 8) × (at + size ≤ length s.old) }
    ensures { s.new ≡ sets s.old at (bytes_of big size v) }
{
    if big {
        scatter_sized(true, s, at, size, v);
    } else {
        scatter_sized(false, s, at, size, v);
    }
}

#[inline(always)]
fn scatter_sized(big: bool, s: &mut [u8], at: usize, size: usize, v: u64)
    requires { (size ≤ 8) × (at + size ≤ length s.old) }
    ensures { s.new ≡ sets s.old at (bytes_of big size v) }
{
    if size == 8 {
        scatter_walk(big, s, at, 8, v);
    } else if size == 1 {
        scatter_walk(big, s, at, 1, v);
    } else if size == 4 {
        scatter_walk(big, s, at, 4, v);
    } else {
        scatter_walk(big, s, at, size % 8, v);
    }
}

// Each byte from its weight.
#[inline(always)]
fn scatter_walk(big: bool, s: &mut [u8], at: usize, size: usize, v: u64)
    requires { (size ≤ 8) × (at + size ≤ length s.old) }
    ensures { s.new ≡ sets s.old at (bytes_of big size v) }
{
    for i in 0..size {
        let k = weight(big, size, i);
        s[at + i] = ((v >> (8 * k)) % 256) as u8;
    }
}

// The power of 256 that the byte at place i of n counts.
fn weight(big: bool, n: usize, i: usize) -> usize
    requires { i < n }
    ensures { (result ≡ significance big n i) × (result < n) }
{
    if big { n - 1 - i } else { i }
}
