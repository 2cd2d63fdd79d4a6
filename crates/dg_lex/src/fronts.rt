// How far blanks, words and names go at the front of a text.
ghost use Rattle.std.specs.Prelude.{◌≡◌, ◌≤◌, length, false};
ghost use Rattle.dg_lex.specs.Tokens as spec;

use crate::chars::{is_blank, is_name_char, is_special, opens_comment};

fn is_word_char(c: u8, behind: &[u8]) -> bool
    ensures { result ≡ spec.is_word_char c behind.now }
{
    !is_blank(c) && !is_special(c) && !opens_comment(c, behind)
}

/// How many bytes of blanks and comments begin a text.
pub fn gap_length(text: &[u8]) -> usize
    ensures gap { result ≡ spec.gap_length false text.now }
    ensures within { result ≤ length text.now }
{
    let mut in_comment = false;
    let mut at = 0;
    while at < text.len() {
        let c = text[at];
        let opens = opens_comment(c, &text[at + 1..]);
        if in_comment {
            in_comment = c != b'\n';
        } else if opens || is_blank(c) {
            in_comment = opens;
        } else {
            return at;
        }
        at += 1;
    }
    at
}

/// How many bytes of word characters begin a text, behind a backslash or not.
pub fn word_length(behind_backslash: bool, text: &[u8]) -> usize
    ensures word { result ≡ spec.word_length behind_backslash text.now }
    ensures within { result ≤ length text.now }
{
    let mut escaped = behind_backslash;
    let mut at = 0;
    while at < text.len() {
        let c = text[at];
        if !escaped && c != b'\\' && !is_word_char(c, &text[at + 1..]) {
            return at;
        }
        escaped = !escaped && c == b'\\';
        at += 1;
    }
    at
}

/// How many bytes of name characters begin a text.
pub fn name_length(text: &[u8]) -> usize
    ensures name { result ≡ spec.name_length text.now }
    ensures within { result ≤ length text.now }
{
    let mut at = 0;
    while at < text.len() {
        if !is_name_char(text[at]) {
            return at;
        }
        at += 1;
    }
    at
}
