// Words as numbers with a sign.
ghost use Rattle.std.specs.Prelude.{◌≡◌, int_lt};
ghost use Rattle.z_model.specs.Numbers.{signed_16, quotient, remainder, equals_one, wrapped_word, left_by, right_by, log_shifted, art_shifted};

use z_model::{Args, ZFault};

#[inline]
pub fn signed(word: u16) -> i16
    ensures { result ≡ signed_16 word }
{
    if word < 32768 {
        word as i16
    } else {
        (word as i32 - 65536) as i16
    }
}

#[inline]
pub fn is_less(a: u16, b: u16) -> bool
    ensures { result ≡ int_lt (signed_16 a) (signed_16 b) }
{
    signed(a) < signed(b)
}

// The word of a number, which wraps.
fn word_from(number: i32) -> u16
    ensures { result ≡ wrapped_word number }
{
    number.rem_euclid(65536) as u16
}

#[tactic(auto, unfolding(z_model::specs::Numbers::quotient))]
pub fn divide(a: u16, b: u16) -> Result<u16, ZFault>
    ensures { result ≡ quotient a b }
{
    if b == 0 {
        return Err(ZFault::DivideByZero);
    }
    Ok(word_from(signed(a) as i32 / signed(b) as i32))
}

#[tactic(auto, unfolding(z_model::specs::Numbers::remainder))]
pub fn modulo(a: u16, b: u16) -> Result<u16, ZFault>
    ensures { result ≡ remainder a b }
{
    if b == 0 {
        return Err(ZFault::DivideByZero);
    }
    Ok(word_from(signed(a) as i32 % signed(b) as i32))
}

// The first operand is one of the others.
#[inline]
pub fn equals_one(a: &Args) -> bool
    ensures { result ≡ equals_one a.now }
{
    a.first == a.second || a.count > 2 && a.first == a.third || a.count > 3 && a.first == a.fourth
}

fn shift_left(a: u16, n: u16) -> u16
    ensures { result ≡ left_by a n }
{
    if n < 16 { a << n } else { 0 }
}

fn shift_right(a: u16, n: u16) -> u16
    ensures { result ≡ right_by a n }
{
    if n < 16 { a >> n } else { 0 }
}

/// By a signed number, below 0 to the right, which fills with 0.
pub fn log_shift(a: u16, n: u16) -> u16
    ensures { result ≡ log_shifted a n }
{
    if n < 32768 {
        shift_left(a, n)
    } else {
        shift_right(a, 65535 - n + 1)
    }
}

/// The same, filled with the sign.
pub fn art_shift(a: u16, n: u16) -> u16
    ensures { result ≡ art_shifted a n }
{
    if n < 32768 {
        shift_left(a, n)
    } else if a < 32768 {
        shift_right(a, 65535 - n + 1)
    } else {
        65535 - shift_right(65535 - a, 65535 - n + 1)
    }
}
