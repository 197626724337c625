// Decoding the varnode at a place.
ghost use Rattle.std.specs.Prelude.{◌≡◌, cond, ◌+◌, ◌*◌, ◌≤◌, length};
ghost use Rattle.arithmetic.specs.Opcodes.{most_inputs};
ghost use Rattle.operation.specs.Layout.{words_per_operation};
ghost use Rattle.operation.specs.Rules.{breaks_shape, describes_varnode};
ghost use Rattle.operation.specs.Decoding.{decoded, decoded_at, rule_of};

use super::layout::{CONSTANT, RAM, Varnode, described_by, head_byte, opcode_at, word_at};
use arithmetic::opcodes::has_place;
use word::size::is_size;

// The varnode at a place of operation i; none where its shape is at fault.
#[tactic(auto, unfolding(crate::specs::Decoding::decoded_at, crate::specs::Layout::descriptor_at, crate::specs::Layout::offset_at))]
pub fn decode_at(list: &[u64], i: usize, place: u8) -> Option<Varnode>
    requires { (words_per_operation * i + words_per_operation ≤ length list.now) × (place ≤ most_inputs) }
    ensures { result ≡ decoded_at list.now i place }
{
    let wanted = has_place(opcode_at(list, i), place);
    decode(
        wanted,
        head_byte(list, i, place + 1),
        word_at(list, i, place as usize + 1),
    )
}

// The varnode of a descriptor and its offset word, where the opcode has one or not; one that is rightly absent has size 0. None is
// a fault, rule 22.
#[tactic(auto, unfolding(crate::specs::Decoding::decoded, crate::specs::Decoding::rule_of))]
fn decode(wanted: bool, descriptor: u64, offset: u64) -> Option<Varnode>
    ensures answer { result ≡ decoded wanted descriptor offset }
    ensures rule { rule_of result ≡ cond (breaks_shape wanted descriptor offset) 22 0 }
{
    if breaks_shape(wanted, descriptor, offset) {
        None
    } else {
        Some(described_by(descriptor, offset))
    }
}

// 22 SHAPE: an absent varnode must be unwanted and have offset 0, a present one wanted and described.
fn breaks_shape(wanted: bool, descriptor: u64, offset: u64) -> bool
    ensures { result ≡ breaks_shape wanted descriptor offset }
{
    if descriptor == 0 {
        wanted | (offset != 0)
    } else {
        !wanted | !describes_varnode(descriptor)
    }
}

// A space of 1 to 4 and a size of 1 to 8.
#[tactic(auto, unfolding(crate::specs::Rules::describes_varnode))]
fn describes_varnode(descriptor: u64) -> bool
    ensures { result ≡ describes_varnode descriptor }
{
    let space = descriptor / 16;
    (CONSTANT <= space) & (space <= RAM) & is_size(descriptor % 16)
}
