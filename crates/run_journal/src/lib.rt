// The journal of a window: what the target of each operation held before it, and the undoing. An entry has four words: the target's
// descriptor (space * 16 + size) and offset, and the numbers that its bytes and its labels make in little order.
#![tactic(auto)]

ghost use Rattle.std.specs.Prelude.{◌≡◌, true, cond, ◌+◌, ◌*◌, ◌≤◌, ◌<◌, eqb, length};
ghost use Rattle.std.proofs.lemmas.List.Edits.{sets};
ghost use Rattle.secret_counts.specs.Moved.{low_bit};
ghost use Rattle.operation.specs.Layout.{operation_count, opcode_at, absent};
ghost use Rattle.validation.specs.Verdict.{settings_in_range};
ghost use Rattle.machine.specs.Program.{program_of};
ghost use Rattle.machine.specs.Memory.{lengths_of};
ghost use Rattle.machine.specs.Lent.{held, lent, SameBuffers};
ghost use Rattle.machine.specs.Counts.{counts_fit};
ghost use Rattle.machine.specs.MovedCounts.{MovedSpaces};
ghost use Rattle.machine.specs.Effect.{operation_at};
ghost use Rattle.machine.specs.Conditions.{operand1, exceeds_space, destination_bytes};
ghost use Rattle.speculation.specs.Speculation.{journal_after};
ghost use Rattle.run_plan.specs.Valid.{Valid};
ghost use Rattle.run_journal.specs.Journal.{target_before, entry_of, entry_words, words_of, entry_in, bytes_of_entry, labels_of_entry, undone, Undoable};

use arithmetic::opcodes::STORE;
use operation::layout::{
    INPUT0, INPUT1, INPUT2, OUTPUT, Settings, Spaces, Varnode, absent, described_by, opcode_at,
    operation_count, varnode_at,
};
use operation::rules::length_of;
use run_memory::labels::mark;
use run_memory::space::lengths_of;
use run_memory::varnode::{value_at, write};
use run_plan::offset_in;
use word::size::within;

// Words to an entry.
const ENTRY_WORDS: usize = 4;

// What a varnode held: its bytes and its labels.
#[derive(Clone, Copy)]
pub struct Entry {
    pub target: Varnode,
    pub bytes: u64,
    pub labels: u64,
}

// Writes entry n: what operation i is about to write to, and what is there.
pub fn save(
    settings: Settings,
    list: &[u64],
    memory: Spaces<&[u8]>,
    labels: Spaces<&[u8]>,
    journal: &mut [u64],
    i: usize,
    n: usize,
)
    requires { Valid (lengths_of (held memory)) list.now × (i ≤ operation_count list.now) × (settings_in_range settings ≡ true)
        × (lengths_of (held labels) ≡ lengths_of (held memory))
        × (entry_words * n + entry_words ≤ length journal.old) }
    ensures { journal.new ≡ sets journal.old (entry_words * n)
        (words_of (entry_of (held labels.entry) (held memory.entry) (target_before (program_of settings list.now) (held memory.entry) i))) }
{
    let target = target_before(settings, list, memory, i);
    let bytes = value_at(false, memory, target);
    let labels = value_at(false, labels, target);
    put_entry(
        journal,
        n,
        Entry {
            target,
            bytes,
            labels,
        },
    )
}

// Writes entry n.
fn put_entry(journal: &mut [u64], n: usize, entry: Entry)
    requires { (entry_words * n + entry_words ≤ length journal.old) × (entry.target.space ≤ 4) × (entry.target.size ≤ 8) }
    ensures { journal.new ≡ sets journal.old (entry_words * n) (words_of entry) }
{
    let at = ENTRY_WORDS * n;
    let target = entry.target;
    journal[at] = target.space * 16 + target.size;
    journal[at + 1] = target.offset;
    journal[at + 2] = entry.bytes;
    journal[at + 3] = entry.labels;
}

// What operation i writes to, if it is executed; an absent varnode where it writes nothing, and at the end of the list.
fn target_before(settings: Settings, list: &[u64], memory: Spaces<&[u8]>, i: usize) -> Varnode
    requires { Valid (lengths_of (held memory)) list.now × (i ≤ operation_count list.now) × (settings_in_range settings ≡ true) }
    ensures { result ≡ target_before (program_of settings list.now) (held memory.entry) i }
{
    if i == operation_count(list) {
        return absent();
    }
    if opcode_at(list, i) == STORE {
        return stored_at(settings, list, memory, i);
    }
    varnode_at(list, i, OUTPUT)
}

// The bytes that STORE stores to; an absent varnode where they are out of bounds.
fn stored_at(settings: Settings, list: &[u64], memory: Spaces<&[u8]>, i: usize) -> Varnode
    requires { Valid (lengths_of (held memory)) list.now × (i < operation_count list.now) × (settings_in_range settings ≡ true)
        × (eqb (opcode_at list.now i) 3 ≡ true) }
    ensures { result ≡ cond (exceeds_space (held memory.entry) (destination_bytes (operation_at list.now i)
        (operand1 (program_of settings list.now) (held memory.entry) (operation_at list.now i))))
        absent
        (destination_bytes (operation_at list.now i)
        (operand1 (program_of settings list.now) (held memory.entry) (operation_at list.now i))) }
{
    let input0 = varnode_at(list, i, INPUT0);
    let input1 = varnode_at(list, i, INPUT1);
    let input2 = varnode_at(list, i, INPUT2);
    let pointer = value_at(settings.order == 1, memory, input1);
    let length = length_of(lengths_of(memory), input0.offset);
    let offset = offset_in(settings, input0.offset, length, pointer);
    if !within(offset, input2.size, length) {
        return absent();
    }
    Varnode {
        space: input0.offset,
        offset,
        size: input2.size,
    }
}

// Entry n.
fn entry_at(journal: &[u64], n: usize) -> Entry
    requires { entry_words * n + entry_words ≤ length journal.now }
    ensures { result ≡ entry_in journal.now n }
{
    let at = ENTRY_WORDS * n;
    Entry {
        target: described_by(journal[at], journal[at + 1]),
        bytes: journal[at + 2],
        labels: journal[at + 3],
    }
}

// Undoes the first n entries, the last one first.
pub fn undo(
    memory: &mut Spaces<&mut [u8]>,
    labels: &mut Spaces<&mut [u8]>,
    counts: &mut Spaces<&mut [u64]>,
    journal: &[u64],
    n: usize,
)
    requires { Undoable journal.now n (lent labels.old) (lent memory.old)
        × (counts_fit (lengths_of (lent labels.old)) (lengths_of (lent counts.old)) ≡ true) }
    ensures same { SameBuffers memory.old memory.new × SameBuffers labels.old labels.new × SameBuffers counts.old counts.new }
    ensures memory { lent memory.new ≡ undone journal.now bytes_of_entry n (lent memory.old) }
    ensures labels { lent labels.new ≡ undone journal.now labels_of_entry n (lent labels.old) }
    ensures counts { MovedSpaces low_bit (lent labels.old) (lent labels.new) (lent counts.old) (lent counts.new) }
{
    for k in (0..n).rev() {
        let entry = entry_at(journal, k);
        write(false, memory, entry.target, entry.bytes);
        mark(labels, counts, entry.target, entry.labels);
    }
}

// Makes the first n entries zeros. By the quotient in its test the loop does not become a call of C's memset: the archive calls nothing.
pub fn clear(journal: &mut [u64], n: usize)
    requires { entry_words * n ≤ length journal.old }
    ensures { journal.new ≡ journal_after n journal.old }
{
    let mut k: usize = 0;
    while k / ENTRY_WORDS < n {
        journal[k] = 0;
        k = k + 1;
    }
}
