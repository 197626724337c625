// The three lent spaces: their lengths, one of them by its number, and lent buffers as slices to read.
ghost use Rattle.std.specs.Prelude.{◌≡◌, ◌≤◌};
ghost use Rattle.machine.specs.Memory.{OfBytes, spaces, lengths_of, space_of};
ghost use Rattle.machine.specs.Lent.{held, lent};
ghost use Rattle.machine.specs.Recounts.{WordsOf};

use operation::layout::{Lengths, REGISTER, Spaces, UNIQUE};

// The bytes of each space.
#[tactic(auto, unfolding(machine::specs::Memory::lengths_of))]
pub fn lengths_of(memory: Spaces<&[u8]>) -> Lengths
    ensures { result ≡ lengths_of (held memory.entry) }
{
    Spaces {
        unique: memory.unique.len() as u64,
        register: memory.register.len() as u64,
        ram: memory.ram.len() as u64,
    }
}

// The words of lent counts.
#[tactic(auto, unfolding(machine::specs::Memory::lengths_of))]
pub fn words_of(counts: &Spaces<&mut [u64]>) -> Lengths
    ensures { result ≡ lengths_of (lent counts.now) }
{
    Spaces {
        unique: counts.unique.len() as u64,
        register: counts.register.len() as u64,
        ram: counts.ram.len() as u64,
    }
}

// The bytes of a space with bytes, by its number. Register stands first for speed (docs/DECISIONS.md).
pub(crate) fn space_of<'a>(memory: Spaces<&'a [u8]>, space: u64) -> &'a [u8]
    requires { (2 ≤ space) × (space ≤ 4) }
    ensures { result.now ≡ space_of (held memory.entry) space }
{
    match space {
        REGISTER => memory.register,
        UNIQUE => memory.unique,
        _ => memory.ram,
    }
}

// Lent buffers, to be read.
pub fn reading<'b>(buffers: &'b Spaces<&mut [u8]>) -> Spaces<&'b [u8]>
    ensures same { held result ≡ lent buffers.now }
    ensures bytes { OfBytes (lent buffers.now) }
{
    let memory: Spaces<&'b [u8]> = Spaces {
        unique: buffers.unique,
        register: buffers.register,
        ram: buffers.ram,
    };
    are_bytes(memory);
    memory
}

// Nothing is done when it runs: it tells a proof what the type of a slice says, where a struct holds slices.
pub fn are_bytes(memory: Spaces<&[u8]>)
    ensures { OfBytes (held memory.entry) }
{
    slices_are_bytes(memory.unique, memory.register, memory.ram)
}

// The same of lent counts.
pub fn are_words(counts: &Spaces<&mut [u64]>)
    ensures { WordsOf (lent counts.now) }
{
    slices_are_words(counts.unique, counts.register, counts.ram)
}

fn slices_are_bytes(unique: &[u8], register: &[u8], ram: &[u8])
    ensures { OfBytes (spaces unique.now register.now ram.now) }
{}

fn slices_are_words(unique: &[u64], register: &[u64], ram: &[u64])
    ensures { WordsOf (spaces unique.now register.now ram.now) }
{}
