// How many bytes of a space are secret: a count for each block of 64 bytes, then the total.
#![tactic(auto)]

ghost use Rattle.std.specs.Prelude.{◌≡◌, ◌+◌, ◌%◌, ◌^◌, ◌<◌, ◌≤◌, false, length, slice_index, slice_set};
ghost use Rattle.word.specs.Word.{bytes_of};
ghost use Rattle.secret_counts.specs.Recount.{count_words, secrets, filled};
ghost use Rattle.secret_counts.specs.Moved.{weigh, low_bit, Moved};

// Bytes of a block.
const BLOCK_BYTES: usize = 64;

// The words that the counts of a space need: one for each block, of which the last may be shorter, and the total.
pub fn count_words(extent: u64) -> u64
    ensures { result ≡ count_words extent }
{
    extent.div_ceil(BLOCK_BYTES as u64) + 1
}

// Moves the counts of a space of `extent` bytes whose labels at `at` become others. Both come as the number that they make in little order; `size` of
// them lie in at most two blocks.
pub fn move_counts(counts: &mut [u64], extent: usize, at: usize, size: usize, old: u64, new: u64)
    requires { (1 ≤ size) × (size ≤ 8) × (at + size ≤ extent) × (count_words extent ≤ length counts.old) × (old < 256 ^ size) × (new < 256 ^ size) }
    ensures { Moved low_bit extent at (bytes_of false size old) (bytes_of false size new) counts.old counts.new }
{
    let total = extent.div_ceil(BLOCK_BYTES);
    let block = at / BLOCK_BYTES;
    let near = BLOCK_BYTES - at % BLOCK_BYTES;
    let more = gained(old, new);
    grow(counts, total, more);
    if size <= near {
        grow(counts, block, more);
    } else {
        let far = gained(old >> (8 * near), new >> (8 * near));
        grow(counts, block, more.wrapping_sub(far));
        grow(counts, block + 1, far);
    }
}

// Adds to a count, modulo 2^64.
fn grow(counts: &mut [u64], j: usize, by: u64)
    requires { j < length counts.old }
    ensures { counts.new ≡ slice_set counts.old j ((slice_index counts.old j + by) % 2 ^ 64) }
{
    counts[j] = counts[j].wrapping_add(by);
}

// By how much a count of these labels grows, modulo 2^64.
fn gained(old: u64, new: u64) -> u64
    ensures { (result + weigh low_bit (bytes_of false 8 old)) % 2 ^ 64 ≡ weigh low_bit (bytes_of false 8 new) }
{
    secrets_in(new).wrapping_sub(secrets_in(old))
}

// The secret labels of eight. A label is 0 or 1; of the lowest bits alone the compiler makes a product and a shift.
fn secrets_in(labels: u64) -> u64
    ensures { result ≡ weigh low_bit (bytes_of false 8 labels) }
{
    u64::from((labels & 0x0101010101010101).count_ones())
}

// Fills the counts of a space from its labels.
pub fn fill(labels: &[u8], counts: &mut [u64])
    requires { (length labels.now ≤ 65536) × (count_words (length labels.now) ≤ length counts.old) }
    ensures { counts.new ≡ filled labels.now counts.old }
{
    let blocks = labels.len().div_ceil(BLOCK_BYTES);
    let mut total = 0;
    // By range: over chunks, the walk takes a tenth longer.
    for block in 0..blocks {
        let from = BLOCK_BYTES * block;
        let to = labels.len().min(from + BLOCK_BYTES);
        let secrets = secrets_of(&labels[from..to]);
        counts[block] = secrets;
        total += secrets;
    }
    counts[blocks] = total;
}

// How many of some labels are secret.
fn secrets_of(labels: &[u8]) -> u64
    requires { length labels.now ≤ 64 }
    ensures { result ≡ secrets labels.now }
{
    labels.iter().map(|label| u64::from(*label != 0)).sum()
}
