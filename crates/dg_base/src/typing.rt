// Typed characters.
ghost use Rattle.std.specs.Prelude.{◌≡◌, ◌<◌, length, IfSome};
ghost use Rattle.dg_base.specs.Typed.{extra, place_of, is_capital, is_kept, lowered, typed};

/// The 69 characters past ASCII that can be typed and have codes in stories, in the order of their codes:
/// äöüÄÖÜß»«ëïÿËÏáéíóúýÁÉÍÓÚÝàèìòùÀÈÌÒÙâêîôûÂÊÎÔÛåÅøØãñõÃÑÕæÆçÇþðÞÐ£œŒ¡¿
pub const EXTRA: [u16; 69] = [
    0xE4, 0xF6, 0xFC, 0xC4, 0xD6, 0xDC, 0xDF, 0xBB, 0xAB, 0xEB, 0xEF, 0xFF, 0xCB, 0xCF, 0xE1, 0xE9,
    0xED, 0xF3, 0xFA, 0xFD, 0xC1, 0xC9, 0xCD, 0xD3, 0xDA, 0xDD, 0xE0, 0xE8, 0xEC, 0xF2, 0xF9, 0xC0,
    0xC8, 0xCC, 0xD2, 0xD9, 0xE2, 0xEA, 0xEE, 0xF4, 0xFB, 0xC2, 0xCA, 0xCE, 0xD4, 0xDB, 0xE5, 0xC5,
    0xF8, 0xD8, 0xE3, 0xF1, 0xF5, 0xC3, 0xD1, 0xD5, 0xE6, 0xC6, 0xE7, 0xC7, 0xFE, 0xF0, 0xDE, 0xD0,
    0xA3, 0x153, 0x152, 0xA1, 0xBF,
];

/// The first place of a value in a table.
pub fn find_place(table: &[u16], value: u16) -> Option<usize>
    ensures place { result ≡ place_of value table.now }
    ensures within { IfSome result (λ place. place < length table.now) }
{
    for (place, entry) in table.iter().enumerate() {
        if *entry == value {
            return Some(place);
        }
    }
    None
}

fn is_capital(c: u16) -> bool
    ensures { result ≡ is_capital c }
{
    64 < c && c < 91 || 191 < c && c < 223
}

fn lower(c: u16) -> u16
    ensures { result ≡ lowered c }
{
    if is_capital(c) {
        c + 32
    } else if c == 0x152 {
        0x153
    } else {
        c
    }
}

fn is_kept(c: u16) -> bool
    ensures { result ≡ is_kept c }
{
    31 < c && c < 127 || find_place(&EXTRA, c).is_some()
}

/// The character that is kept for a typed one: a tab as a space, letters small; none where it is neither a tab,
/// nor of ASCII's printed part, nor one of the 69.
pub fn typed(c: u32) -> Option<u16>
    ensures { result ≡ typed c }
{
    if c > 65535 {
        return None;
    }
    let c = c as u16;
    if c == 9 {
        Some(32)
    } else if is_kept(c) {
        Some(lower(c))
    } else {
        None
    }
}
