// The letters that bytes spell.
ghost use Rattle.std.specs.Prelude.{◌≡◌, ◌+◌, ◌<◌, ◌≤◌, ◌%◌, ◌++◌, ℕ, List, All, take, length, slice_index, encode_utf8, encode_utf8_all};

// The lowest six bits of the byte at a place.
fn bits_at(bytes: &[u8], at: usize) -> u16
    ensures { result ≡ slice_index bytes.now at % 64 }
{
    match bytes.get(at) {
        Some(byte) => (*byte % 64) as u16,
        None => 0,
    }
}

// The letter in front of bytes, and how many of these spell it.
fn first_letter(bytes: &[u8]) -> (u16, usize)
    requires { 0 < length bytes.now }
    ensures letter { (c : ℕ) (behind : List ℕ) → bytes.now ≡ encode_utf8 c ++ behind → c < 65536 → result.0 ≡ c }
    ensures size { (c : ℕ) (behind : List ℕ) → bytes.now ≡ encode_utf8 c ++ behind → c < 65536 → result.1 ≡ length (encode_utf8 c) }
    ensures short { result.1 ≤ 3 }
{
    let first = bytes[0];
    if first < 128 {
        return (first as u16, 1);
    }
    if first < 224 {
        return ((first % 32) as u16 * 64 + bits_at(bytes, 1), 2);
    }
    let top = (first % 16) as u16 * 4096;
    (top + bits_at(bytes, 1) * 64 + bits_at(bytes, 2), 3)
}

/// The letters of a spelling in UTF-8, as many as there is room for.
pub fn read_letters(spelling: &[u8], letters: &mut [u16]) -> usize
    ensures within { result ≤ length letters.new }
    ensures letters { (cs : List ℕ) → spelling.now ≡ encode_utf8_all cs → All (λ c. c < 65536) cs →
        take result letters.new ≡ take (length letters.new) cs }
{
    let mut kept = 0;
    let mut at = 0;
    'letters: while at < spelling.len() {
        if kept == letters.len() {
            return kept;
        }
        let (letter, size) = first_letter(&spelling[at..]);
        letters[kept] = letter;
        kept += 1;
        at += size;
    }
    kept
}
