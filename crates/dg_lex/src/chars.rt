// The characters of a source.
ghost use Rattle.std.specs.Prelude.{◌≡◌};
ghost use Rattle.dg_lex.specs.Chars as spec;

pub fn is_blank(c: u8) -> bool
    ensures { result ≡ spec.is_blank c }
{
    c == b' ' || c == b'\t' || c == b'\n' || c == b'\r'
}

pub fn is_special(c: u8) -> bool
    ensures { result ≡ spec.is_special c }
{
    b"#$@~*|\\()[]{}".contains(&c)
}

pub fn is_control(c: u8) -> bool
    ensures { result ≡ spec.is_control c }
{
    c < b' ' && !is_blank(c) || c == 127
}

pub fn is_name_char(c: u8) -> bool
    ensures { result ≡ spec.is_name_char c }
{
    c.is_ascii_alphanumeric() || b"+-_".contains(&c) || c >= 128
}

/// Whether the text begins with a special character.
pub fn begins_special(text: &[u8]) -> bool
    ensures { result ≡ spec.begins_with spec.is_special text.now }
{
    match text {
        [c, ..] => is_special(*c),
        [] => false,
    }
}

/// Whether a comment begins at a character with this text behind it.
pub fn opens_comment(c: u8, behind: &[u8]) -> bool
    ensures { result ≡ spec.opens_comment c behind.now }
{
    match behind {
        [next, ..] => c == b'%' && *next == b'%',
        [] => false,
    }
}
