// Taint labels. Those of a varnode go as one number, as its bytes do.
ghost use Rattle.std.specs.Prelude.{◌≡◌, true, false, ℕ, ◌+◌, ◌^◌, ◌≤◌, ◌<◌, length};
ghost use Rattle.std.proofs.lemmas.List.Edits.{sets};
ghost use Rattle.word.specs.Sum.{digit};
ghost use Rattle.word.specs.Word.{part, significance, value_of, bytes_of};
ghost use Rattle.secret_counts.specs.Recount.{count_words};
ghost use Rattle.secret_counts.specs.Moved.{low_bit, Moved};
ghost use Rattle.machine.specs.Memory.{lengths_of, bytes_at};
ghost use Rattle.machine.specs.Lent.{held, lent, SameBuffers};
ghost use Rattle.machine.specs.Counts.{counts_fit};
ghost use Rattle.machine.specs.Conditions.{has_secret};
ghost use Rattle.run_memory.specs.Placed.{Placed};
ghost use Rattle.run_memory.specs.Marked.{Marked};

use super::space::{reading, space_of};
use operation::layout::{RAM, REGISTER, Spaces, UNIQUE, Varnode};
use secret_counts::move_counts;
use word::bytes::{gather, scatter};
use word::size::low;

// The number that the labels of a varnode make in little order, whatever the byte order is: the first in memory counts least. Those of a constant
// are 0.
pub fn labels_at(labels: Spaces<&[u8]>, v: Varnode) -> u64
    requires { Placed (held labels) v }
    ensures { result ≡ value_of false (bytes_at (held labels.entry) v) }
{
    if v.space < UNIQUE {
        return 0;
    }
    let bytes = space_of(labels, v.space);
    gather(false, bytes, v.offset as usize, v.size as usize)
}

// A byte of a varnode is secret: the number that its labels make is not 0.
pub fn has_secret(labels: Spaces<&[u8]>, v: Varnode) -> bool
    requires { Placed (held labels) v }
    ensures { result ≡ has_secret (held labels.entry) v }
{
    labels_at(labels, v) != 0
}

// Writes labels to a varnode, as the number that they make in little order, and moves the counts; to an absent one, nothing. Most operations write
// the labels that are there, so that is looked at first. It is compiled into its two callers, the run and the undoing.
#[inline(always)]
pub fn mark(labels: &mut Spaces<&mut [u8]>, counts: &mut Spaces<&mut [u64]>, v: Varnode, word: u64)
    requires placed { Placed (lent labels.old) v }
    requires counts { counts_fit (lengths_of (lent labels.old)) (lengths_of (lent counts.old)) ≡ true }
    ensures same { SameBuffers labels.old labels.new × SameBuffers counts.old counts.new }
    ensures marked { Marked (lent labels.old) (lent counts.old) v word (lent labels.new) (lent counts.new) }
{
    let old = labels_at(reading(labels), v);
    let new = low(v.size, word);
    if old == new {
        return;
    }
    let at = v.offset as usize;
    let size = v.size as usize;
    match v.space {
        RAM => relabel(labels.ram, counts.ram, at, size, old, new),
        REGISTER => relabel(labels.register, counts.register, at, size, old, new),
        UNIQUE => relabel(labels.unique, counts.unique, at, size, old, new),
        _ => {}
    }
}

// The one writer of labels, in one space, compiled into each: it moves the counts by the labels that change. `old` is the number that those make which are there.
#[inline(always)]
fn relabel(labels: &mut [u8], counts: &mut [u64], at: usize, size: usize, old: u64, new: u64)
    requires { (1 ≤ size) × (size ≤ 8) × (at + size ≤ length labels.old) × (count_words (length labels.old) ≤ length counts.old)
        × (old ≡ value_of false (part labels.old at size)) × (new < 256 ^ size) }
    ensures { (labels.new ≡ sets labels.old at (bytes_of false size new))
        × Moved low_bit (length labels.old) 0 labels.old labels.new counts.old counts.new }
{
    move_counts(counts, labels.len(), at, size, old, new);
    scatter(false, labels, at, size, new)
}

// The number that eight times the same label makes.
pub fn each_label(label: u64) -> u64
    requires { label < 256 }
    ensures { (k : ℕ) → k < 8 → digit 256 result k ≡ label }
{
    label * 0x0101010101010101
}

// The number that `size` bytes in memory make in little order, as the number that they make in the byte order; or back. In big order all eight bytes of
// it are turned round, which the compiler does at once; what was above the `size` bytes is below them then, and the shift drops it.
pub fn ordered(big: bool, size: u64, n: u64) -> u64
    requires { (1 ≤ size) × (size ≤ 8) }
    ensures bytes { (k : ℕ) → k < size → digit 256 result k ≡ digit 256 n (significance big size k) }
    ensures below { n < 256 ^ size → result < 256 ^ size }
{
    if !big {
        return n;
    }
    let mut bytes = [0u8; 8];
    scatter(true, &mut bytes, 0, 8, n);
    gather(false, &bytes, 0, 8) >> (8 * (8 - size))
}
