// The marks of names: those of one name have one mark, and few names share one.
ghost use Rattle.std.specs.Prelude.{◌≡◌, ◌<◌, map};
ghost use Rattle.dg_base.specs.Heads.{name_of, part_name};
ghost use Rattle.dg_base.specs.Tree.{parts_of};
ghost use Rattle.dg_base.specs.TreeView.{part_view};
ghost use Rattle.dg_put.specs.inside.Marks as spec;

use dg_base::Part;

/// How many marks there are.
pub const MARKS: usize = 509;

// A parenthesis, a space or a backslash: what names have around their words doesn't count.
fn is_passed(byte: u8) -> bool
    ensures { result ≡ spec.is_passed byte }
{
    matches!(byte, b'\\' | b' ' | b'(' | b')')
}

#[tactic(auto, unfolding(crate::specs::inside::Marks::mix))]
fn mix(sum: u32, byte: u8) -> u32
    ensures { result ≡ spec.mix sum byte }
{
    if is_passed(byte) {
        sum
    } else {
        sum.wrapping_mul(31).wrapping_add(u32::from(byte))
    }
}

fn mix_word(mut sum: u32, word: &[u8]) -> u32
    ensures { result ≡ spec.mix_all sum word.now }
{
    for byte in word {
        sum = mix(sum, *byte);
    }
    sum
}

fn mix_part(sum: u32, part: &Part) -> u32
    ensures { result ≡ spec.mix_all sum (part_name (part_view part.now)) }
{
    match part {
        Part::Word(word) => mix_word(sum, word.as_slice()),
        Part::Value(_) => mix(sum, b'$'),
    }
}

fn mix_parts(parts: &[Part]) -> u32
    ensures { result ≡ spec.mix_all 0 (name_of (parts_of (map part_view parts.now))) }
{
    let mut sum = 0;
    for part in parts {
        sum = mix_part(sum, part);
    }
    sum
}

/// The mark of the name of these parts.
pub fn mark_of(parts: &[Part]) -> usize
    ensures mark { result ≡ spec.mark_of (name_of (parts_of (map part_view parts.now))) }
    ensures within { result < 509 }
{
    mix_parts(parts) as usize % MARKS
}
