// Showing a varnode.
#![tactic(auto)]

ghost use Rattle.std.specs.Prelude.{◌≡◌};
ghost use Rattle.show.specs.Show.{view, showable, shown_in, shown};

use operation::layout::{RAM, REGISTER, Spaces, UNIQUE, Varnode};
use word::size::{is_size, within};

// The bytes of a varnode, as that very part of its space; an empty part where it has none.
pub fn show<'a>(memory: Spaces<&'a [u8]>, v: Varnode) -> &'a [u8]
    ensures { view result ≡ shown memory.entry.unique memory.entry.register memory.entry.ram v.space v.offset v.size }
{
    match v.space {
        UNIQUE => shown_in(memory.unique, v.offset, v.size),
        REGISTER => shown_in(memory.register, v.offset, v.size),
        RAM => shown_in(memory.ram, v.offset, v.size),
        _ => &memory.ram[0..0],
    }
}

// The part of one space.
fn shown_in<'a>(s: &'a [u8], offset: u64, size: u64) -> &'a [u8]
    ensures { view result ≡ shown_in s.entry offset size }
{
    if showable(s.len(), offset, size) {
        // Sliced: of `get` a contract tells the bytes, and not the place that `view` names.
        let at = offset as usize;
        &s[at..at + size as usize]
    } else {
        &s[0..0]
    }
}

// A size of 1 to 8, and a place within a space of n bytes.
#[tactic(auto, unfolding(crate::specs::Show::showable))]
fn showable(n: usize, offset: u64, size: u64) -> bool
    ensures { result ≡ showable n offset size }
{
    is_size(size) & within(offset, size, n as u64)
}
