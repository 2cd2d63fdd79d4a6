// What no clause says: that memory suffices, and the tokens of whole sources.
use crate::checks::same;
use dg_base::{Kind, ReadFault, Refusal};
use dg_lex::{TokenKind, lex};
use std::alloc::Global;
use std::test::Fail;

// The kinds of a source's tokens, each by one letter, and a line's number before each token that begins one.
fn kinds(alloc: Global, source: &[u8]) -> Result<String, ReadFault> {
    let mut text = String::new(alloc);
    for token in &lex(alloc, source)? {
        let letter = match token.kind {
            TokenKind::Word => 'w',
            TokenKind::Dict => 'd',
            TokenKind::Object => 'o',
            TokenKind::Var => 'v',
            TokenKind::Anon => 'a',
            TokenKind::At | TokenKind::Hash => 's',
            TokenKind::RoundOpen | TokenKind::SquareOpen | TokenKind::BraceOpen => 'b',
            TokenKind::RoundClose | TokenKind::SquareClose | TokenKind::BraceClose => 'e',
            TokenKind::Bar | TokenKind::Star | TokenKind::Tilde => 'p',
        };
        if token.first {
            text.push('|')?;
        }
        text.push(letter)?;
    }
    Ok(text)
}

const SOURCES: &[(&str, &str)] = &[
    ("", ""),
    ("%% alone", ""),
    ("(p $X $) %% (q)\n  *(r #a #)\n#b @c @", "|bwvaepbwose|ods"),
    ("a%b c%%d\n%e", "|ww|w"),
    ("\\(x\\) y\\\\ ~[a/b|{}]", "|wwpbwpbee"),
    ("\u{FEFF}(\u{e9}t\u{e9} $\u{e9})", "|bwve"),
];

#[test]
fn sources_have_their_tokens(rt: HostRuntime) -> Result<(), Fail> {
    for (source, wanted) in SOURCES {
        let found = kinds(rt.alloc(), source.as_bytes())?;
        same(&rt, &found.as_str(), wanted, source);
    }
    Ok(())
}

// A source, and the line of its bad character.
const BAD: &[(&[u8], u32)] = &[
    (b"(p)\n\xFF", 2),
    (b"(p)\n\n%% \x01", 3),
    (b"a\\b", 1),
    (b"\\", 1),
    (b"\n\xF0\x9F\x98\x80", 2),
];

#[test]
fn bad_characters_are_refused_with_their_line(rt: HostRuntime) -> Result<(), Fail> {
    for (source, line) in BAD {
        let wanted = ReadFault::Refused(Refusal {
            kind: Kind::BadByte,
            line: *line,
        });
        let found = kinds(rt.alloc(), source).err();
        same(&rt, &found, &Some(wanted), "a bad character");
    }
    Ok(())
}
