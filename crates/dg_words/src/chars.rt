// The characters of spellings.
ghost use Rattle.std.specs.Prelude.{◌≡◌, ◌<◌, ◌≤◌, ◌++◌, ◌↔◌, ℕ, List, Some, IsNone, encode_utf8, encode_utf8_all, count_by, length, take};
ghost use Rattle.dg_base.specs.Units.{is_tail};
ghost use Rattle.dg_words.specs.Chars.{begins, GoesBackTo};

// Whether a byte goes on with a character.
fn is_tail(byte: u8) -> bool
    ensures { result ≡ is_tail byte }
{
    127 < byte && byte < 192
}

// Where the character begins to which a byte belongs.
fn char_start(spelling: &[u8], at: usize) -> usize
    requires { at < length spelling.now }
    ensures { GoesBackTo spelling.now at result }
{
    let mut start = at;
    'tails: while start > 0 && is_tail(spelling[start]) {
        start -= 1;
    }
    start
}

/// Where the character begins that ends at a place of a spelling in UTF-8; none exactly at its beginning.
pub fn last_char(spelling: &[u8], end: usize) -> Option<usize>
    requires { end ≤ length spelling.now }
    ensures none { IsNone result ↔ (end ≡ 0) }
    ensures start { (before : List ℕ) (c : ℕ) → take end spelling.now ≡ encode_utf8_all before ++ encode_utf8 c →
        result ≡ Some (length (encode_utf8_all before)) }
{
    if end == 0 {
        return None;
    }
    Some(char_start(spelling, end - 1))
}

/// How many characters a spelling has.
pub fn count_chars(spelling: &[u8]) -> usize
    ensures { result ≡ count_by begins spelling.now }
{
    spelling.iter().filter(|byte| !is_tail(**byte)).count()
}
