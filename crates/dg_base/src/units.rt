// Typed bytes as units.
ghost use Rattle.std.specs.Prelude.{◌≡◌, ◌≤◌, slice_index};
ghost use Rattle.dg_base.specs.Units.{is_within, is_tail, is_second, is_two, is_three, is_four, six, character, unit_at};

/// A unit of typed bytes: a character, or a byte that belongs to none; and how many bytes it has.
#[derive(Clone, Copy)]
pub struct Unit {
    pub character: Option<u32>,
    pub size: usize,
}

// A byte, or 0 behind the last.
fn byte(bytes: &[u8], place: usize) -> u8
    ensures { result ≡ slice_index bytes.now place }
{
    match bytes.get(place) {
        Some(byte) => *byte,
        None => 0,
    }
}

fn six(bytes: &[u8], place: usize) -> u32
    ensures { result ≡ six bytes.now place }
{
    (byte(bytes, place) % 64) as u32
}

fn is_tail(byte: u8) -> bool
    ensures { result ≡ is_tail byte }
{
    0x7F < byte && byte < 0xC0
}

fn is_second(first: u8, byte: u8) -> bool
    ensures { result ≡ is_second first byte }
{
    match first {
        0xE0 => 0x9F < byte && byte < 0xC0,
        0xED => 0x7F < byte && byte < 0xA0,
        0xF0 => 0x8F < byte && byte < 0xC0,
        0xF4 => 0x7F < byte && byte < 0x90,
        _ => is_tail(byte),
    }
}

fn is_two(first: u8, bytes: &[u8]) -> bool
    ensures { result ≡ is_two first bytes.now }
{
    0xC1 < first && first < 0xE0 && is_tail(byte(bytes, 0))
}

fn is_three(first: u8, bytes: &[u8]) -> bool
    ensures { result ≡ is_three first bytes.now }
{
    0xDF < first && first < 0xF0 && (is_second(first, byte(bytes, 0)) && is_tail(byte(bytes, 1)))
}

fn is_four(first: u8, bytes: &[u8]) -> bool
    ensures { result ≡ is_four first bytes.now }
{
    let second = is_second(first, byte(bytes, 0));
    0xEF < first && first < 0xF5 && (second && (is_tail(byte(bytes, 1)) && is_tail(byte(bytes, 2))))
}

fn character(c: u32, size: usize) -> Unit
    ensures { result ≡ character c size }
{
    Unit {
        character: Some(c),
        size,
    }
}

/// The unit that begins with a byte, before these.
#[tactic(auto, unfolding(crate::specs::Units::unit_at))]
pub fn unit_at(first: u8, bytes: &[u8]) -> Unit
    ensures unit { result ≡ unit_at first bytes.now }
    ensures size { (1 ≤ result.size) × (result.size ≤ 4) }
{
    let top = first as u32;
    if first < 128 {
        return character(top, 1);
    }
    if is_two(first, bytes) {
        return character(64 * (top % 32) + six(bytes, 0), 2);
    }
    if is_three(first, bytes) {
        return character(4096 * (top % 16) + 64 * six(bytes, 0) + six(bytes, 1), 3);
    }
    if is_four(first, bytes) {
        let high = 262144 * (top % 8) + 4096 * six(bytes, 0);
        return character(high + 64 * six(bytes, 1) + six(bytes, 2), 4);
    }
    Unit {
        character: None,
        size: 1,
    }
}
