// The value of a varnode, read from and written to the three lent spaces.
ghost use Rattle.std.specs.Prelude.{◌≡◌, cond, ◌+◌, ◌≤◌, eqb, length};
ghost use Rattle.std.proofs.lemmas.List.Edits.{sets};
ghost use Rattle.word.specs.Word.{value_of, bytes_of};
ghost use Rattle.machine.specs.Memory.{bytes_at, written};
ghost use Rattle.machine.specs.Lent.{held, lent, SameBuffers};
ghost use Rattle.run_memory.specs.Placed.{Placed};

use super::space::space_of;
use operation::layout::{RAM, REGISTER, Spaces, UNIQUE, Varnode};
use word::bytes::{gather, scatter};

// The value of a varnode, of which the bytes make a number in a byte order; an absent one has 0, a constant its offset. The plan reads at
// three places, and this is compiled into each.
#[inline(always)]
pub fn value_at(big: bool, memory: Spaces<&[u8]>, v: Varnode) -> u64
    requires { Placed (held memory) v }
    ensures { result ≡ cond (eqb v.space 1) v.offset (value_of big (bytes_at (held memory.entry) v)) }
{
    if v.space < UNIQUE {
        return v.offset;
    }
    let bytes = space_of(memory, v.space);
    gather(big, bytes, v.offset as usize, v.size as usize)
}

// Writes a value to a varnode, in a byte order; to an absent one, nothing. Ram stands first for speed (docs/DECISIONS.md).
#[inline(always)]
pub fn write(big: bool, memory: &mut Spaces<&mut [u8]>, v: Varnode, value: u64)
    requires { Placed (lent memory.old) v }
    ensures same { SameBuffers memory.old memory.new }
    ensures written { lent memory.new ≡ written (lent memory.old) v (bytes_of big v.size value) }
{
    let at = v.offset as usize;
    let size = v.size as usize;
    match v.space {
        RAM => scatter(big, memory.ram, at, size, value),
        REGISTER => scatter(big, memory.register, at, size, value),
        UNIQUE => scatter(big, memory.unique, at, size, value),
        _ => {}
    }
}
