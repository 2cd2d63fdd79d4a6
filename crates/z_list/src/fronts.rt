// What texts begin with.
ghost use Rattle.std.specs.Prelude.{◌≡◌, ◌≢◌, ◌<◌, ◌≤◌, ◌++◌, ℕ, List, ◌∷◌, IfOk, IfSome, MatchOption, decimal};
ghost use Rattle.z_list.specs.Texts.{hex_digit, spaced};
ghost use Rattle.z_list.specs.inside.Read.{NoByte};
ghost use Rattle.z_list.specs.inside.Forms.{BeginsWithBytes};
ghost use Rattle.z_list.specs.inside.Numbers.{IsDigit};

use itoa::Buffer;
use std::alloc::AllocError;

// What stands behind a front, where a text begins with it.
pub fn behind<'a>(text: &'a [u8], front: &[u8]) -> Option<&'a [u8]>
    ensures { MatchOption result ((rest : List ℕ) → text.now ≢ front.now ++ rest) (λ rest. text.now ≡ front.now ++ rest.now) }
{
    text.strip_prefix(front)
}

// What stands behind a word and a number.
pub fn behind_numbered<'a>(text: &'a [u8], word: &[u8], number: usize) -> Option<&'a [u8]>
    ensures { MatchOption result ((rest : List ℕ) → text.now ≢ (word.now ++ decimal number) ++ rest)
        (λ rest. text.now ≡ (word.now ++ decimal number) ++ rest.now) }
{
    let mut buffer = Buffer::new();
    behind(behind(text, word)?, buffer.format(number).as_bytes())
}

fn hex_value(letter: u8) -> Option<u8>
    ensures { MatchOption result ((v : ℕ) → v < 16 → letter ≢ hex_digit v) (λ v. (v < 16) × (letter ≡ hex_digit v)) }
{
    match letter {
        b'0'..=b'9' => Some(letter - b'0'),
        b'a'..=b'f' => Some(letter - b'a' + 10),
        _ => None,
    }
}

// The byte that two digits behind a space are, and what stands behind it.
pub fn spaced_byte(text: &[u8]) -> Option<(u8, &[u8])>
    ensures { MatchOption result (NoByte text.now) (λ x. text.now ≡ spaced x.0 ++ x.1.now) }
{
    match text {
        [b' ', high, low, rest @ ..] => Some((16 * hex_value(*high)? + hex_value(*low)?, rest)),
        _ => None,
    }
}

// Puts the bytes with which a text begins behind others; what stands behind them.
pub fn put_bytes<'a>(text: &'a [u8], bytes: &mut Vec<u8>) -> Result<&'a [u8], AllocError>
    ensures { IfOk result (λ rest. (bs : List ℕ) × (bytes.new.items ≡ bytes.old.items ++ bs) × BeginsWithBytes text.now bs rest.now) }
{
    let mut rest = text;
    while let Some((byte, next)) = spaced_byte(rest) {
        bytes.push(byte)?;
        rest = next;
    }
    Ok(rest)
}

// The number that the first digits of a text are, or the first one that is too great.
fn value_of(text: &[u8], most: u32) -> u32
    requires { most ≤ 524288 }
    ensures { (n c : ℕ) (more : List ℕ) → n ≤ most → (IsDigit c → ⊥) → text.now ≡ decimal n ++ c ∷ more → result ≡ n }
{
    let mut value = 0;
    for letter in text {
        if !letter.is_ascii_digit() {
            return value;
        }
        if most < value {
            return value;
        }
        value = 10 * value + (*letter - b'0') as u32;
    }
    value
}

// The number with which a text begins, up to a greatest one, and what stands behind it.
pub fn number(text: &[u8], most: u32) -> Option<(u32, &[u8])>
    requires { most ≤ 524288 }
    ensures sound { IfSome result (λ x. (x.0 ≤ most) × (text.now ≡ decimal x.0 ++ x.1.now)) }
    ensures complete { (n c : ℕ) (more : List ℕ) → n ≤ most → (IsDigit c → ⊥) → text.now ≡ decimal n ++ c ∷ more →
        MatchOption result ⊥ (λ x. (x.0 ≡ n) × (x.1.now ≡ c ∷ more)) }
{
    let value = value_of(text, most);
    if most < value {
        return None;
    }
    let mut buffer = Buffer::new();
    Some((value, behind(text, buffer.format(value).as_bytes())?))
}
