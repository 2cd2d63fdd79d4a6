// Cuts a source into its tokens.
ghost use Rattle.std.specs.Prelude.{◌≡◌, ◌<◌, ◌≤◌, ◌+◌, ◌-◌, ◌^◌, ◌⊎◌, [], Option, Some, None, length, IfOk, IfErr, IfSome, IsErr, IsErrOf, MatchOption, true, false};
ghost use Rattle.dg_lex.specs.Bad as bad;
ghost use Rattle.dg_lex.specs.Tokens as spec;

use crate::bad::{lines, refusal_of};
use crate::fronts::{gap_length, name_length, word_length};
use crate::token::{Shape, Token, TokenKind};
use dg_base::ReadFault;
use std::alloc::{AllocError, Global};

fn bracket_of(c: u8) -> Option<TokenKind>
    ensures { result ≡ spec.bracket_of c }
{
    match c {
        b'(' => Some(TokenKind::RoundOpen),
        b')' => Some(TokenKind::RoundClose),
        b'[' => Some(TokenKind::SquareOpen),
        b']' => Some(TokenKind::SquareClose),
        b'{' => Some(TokenKind::BraceOpen),
        b'}' => Some(TokenKind::BraceClose),
        b'|' => Some(TokenKind::Bar),
        b'*' => Some(TokenKind::Star),
        b'~' => Some(TokenKind::Tilde),
        _ => None,
    }
}

// A sign with a name behind it, or alone.
fn named(kind: TokenKind, alone: TokenKind, length: usize) -> Shape
    requires { length < 2 ^ 32 }
    ensures { result ≡ spec.named kind alone length }
{
    if length == 0 {
        Shape {
            kind: alone,
            length: 1,
        }
    } else {
        Shape {
            kind,
            length: 1 + length,
        }
    }
}

// A word, or a sign that may have a name behind it.
fn name_at(c: u8, behind: &[u8]) -> Shape
    requires { length behind.now < 2 ^ 32 - 1 }
    ensures shape { result ≡ spec.name_at c behind.now }
    ensures within { result.length ≤ length behind.now + 1 }
    ensures some { 0 < result.length }
{
    match c {
        b'@' => named(TokenKind::Dict, TokenKind::At, word_length(false, behind)),
        b'#' => named(TokenKind::Object, TokenKind::Hash, name_length(behind)),
        b'$' => named(TokenKind::Var, TokenKind::Anon, name_length(behind)),
        _ => Shape {
            kind: TokenKind::Word,
            length: 1 + word_length(c == b'\\', behind),
        },
    }
}

// The token that begins a text.
fn token_of(text: &[u8]) -> Option<Shape>
    requires { length text.now < 2 ^ 32 }
    ensures shape { result ≡ spec.token_of text.now }
    ensures within { IfSome result (λ shape. shape.length ≤ length text.now) }
    ensures some { IfSome result (λ shape. 0 < shape.length) }
{
    let [c, behind @ ..] = text else {
        return None;
    };
    match bracket_of(*c) {
        Some(kind) => Some(Shape { kind, length: 1 }),
        None => Some(name_at(*c, behind)),
    }
}

// Whether a line begins behind a gap.
fn at_first(start: bool, gap: &[u8]) -> bool
    ensures { result ≡ spec.at_first start gap.now }
{
    match gap {
        [.., last] => *last == b'\n',
        [] => start,
    }
}

// The first token of a text, and what stands behind it; none where only blanks and comments are left.
fn next_token<'a>(text: &'a [u8], start: bool, line: u32) -> Option<(Token<'a>, &'a [u8])>
    requires { line + length text.now < 2 ^ 32 - 1 }
    ensures next { MatchOption result (spec.gap_length false text.now ≡ length text.now) (λ p. spec.IsNext start line text.now p.0 p.1.now) }
    ensures shorter { IfSome result (λ p. length p.1.now < length text.now) }
    ensures few { IfSome result (λ p. p.0.line + length p.1.now ≤ line + length text.now) }
{
    let (gap, rest) = text.split_at(gap_length(text));
    let shape = token_of(rest)?;
    let (text, rest) = rest.split_at(shape.length);
    let token = Token {
        kind: shape.kind,
        text,
        line: line + lines(gap) as u32,
        first: at_first(start, gap),
    };
    Some((token, rest))
}

// A source without the mark of byte order at its front.
fn without_mark(source: &[u8]) -> &[u8]
    ensures text { result.now ≡ spec.without_mark source.now }
    ensures within { length result.now ≤ length source.now }
{
    match source {
        [0xEF, 0xBB, 0xBF, text @ ..] => text,
        _ => source,
    }
}

// The tokens of a text.
fn tokens_of(alloc: Global, text: &[u8]) -> Result<Vec<Token<'_>>, AllocError>
    requires { length text.now ≤ 1048576 }
    ensures tokens { IfOk result (λ tokens. spec.IsTokens true 1 text.now tokens.items) }
    ensures memory { IsErr result → 0 < length text.now }
{
    let mut tokens = Vec::new(alloc);
    let mut rest = text;
    let mut start = true;
    let mut line = 1;
    while let Some((token, after)) = next_token(rest, start, line) {
        tokens.push(token)?;
        rest = after;
        start = false;
        line = token.line;
    }
    Ok(tokens)
}

/// The tokens of a source, or why it is refused before any token is read: it has more than 1,048,576 bytes, or a bad character.
pub fn lex(alloc: Global, source: &[u8]) -> Result<Vec<Token<'_>>, ReadFault>
    ensures tokens { IfOk result (λ tokens. spec.IsLexed source.now tokens.items) }
    ensures accepted { IfOk result (λ _. bad.lex_refusal source.now ≡ None) }
    ensures memory { IsErrOf result ReadFault.OutOfMemory → bad.lex_refusal source.now ≡ None }
    ensures some { IsErrOf result ReadFault.OutOfMemory → 0 < length source.now }
    ensures refused { IfErr result (λ fault. (fault ≡ ReadFault.OutOfMemory) ⊎
        ((r : _) × (bad.lex_refusal source.now ≡ Some r) × (fault ≡ ReadFault.Refused r))) }
{
    if let Some(refusal) = refusal_of(source) {
        return Err(ReadFault::Refused(refusal));
    }
    let tokens = tokens_of(alloc, without_mark(source))?;
    Ok(tokens)
}
