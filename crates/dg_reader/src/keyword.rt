// Keywords: parentheses that are no queries.
ghost use Rattle.std.specs.Prelude.{◌≡◌, ◌∷◌, [], Some, map};
ghost use Rattle.std.specs.Option.{option_map, is_some};
ghost use Rattle.dg_base.specs.Tree as tree;
ghost use Rattle.dg_base.specs.TreeView.{part_view, value_view};
ghost use Rattle.dg_reader.specs.Grammar as grammar;
ghost use Rattle.dg_reader.specs.Grammar.{keyword_of, keyword_among, bare_keywords, are_words, is_query};
ghost use Rattle.dg_reader.specs.inside.Frames.{bare_view, keyword_view};
ghost use Rattle.dg_reader.specs.inside.Keywords.{is_word, valued_word, valued_in, valued_view, last_value, IsClosed};

use crate::words::is_text;
use dg_base::{Items, Mode, Part, Value};

/// A keyword without a value.
#[derive(Clone, Copy)]
pub enum Bare {
    Now,
    If,
    Then,
    Elseif,
    Else,
    Endif,
    Or,
    Exhaust,
    Stoppable,
    Select,
    End(Mode),
}

/// A keyword.
#[derive(Drop)]
pub enum Keyword {
    Bare(Bare),
    Collect(Value),
    Accumulate(Value),
    Into(Value),
}

/// The word of a keyword with a value.
#[derive(Clone, Copy)]
pub enum Valued {
    Collect,
    Accumulate,
    Into,
}

/// What a parenthesis with these parts is.
#[derive(Drop)]
pub enum Closed {
    Query(Items<Part>),
    Keyword(Keyword),
}

// Whether a part is this word.
pub fn is_named(part: &Part, word: &str) -> bool
    ensures { result ≡ is_word (part_view part.now) word.now }
{
    match part {
        Part::Word(name) => is_text(name.as_slice(), word.as_bytes()),
        Part::Value(_) => false,
    }
}

// Whether these parts are exactly these words.
fn are_named(parts: &[Part], words: &[&str]) -> bool
    ensures { result ≡ are_words (tree.parts_of (map part_view parts.now)) (map (λ w. w.now) words.now) }
{
    if parts.len() != words.len() {
        return false;
    }
    for at in 0..parts.len() {
        if !is_named(&parts[at], words[at]) {
            return false;
        }
    }
    true
}

fn bare_keyword(parts: &[Part]) -> Option<Bare>
    ensures { option_map (λ b. grammar.bare (bare_view b)) result ≡ keyword_among (tree.parts_of (map part_view parts.now)) bare_keywords }
{
    if are_named(parts, &["now"]) {
        Some(Bare::Now)
    } else if are_named(parts, &["if"]) {
        Some(Bare::If)
    } else if are_named(parts, &["then"]) {
        Some(Bare::Then)
    } else if are_named(parts, &["elseif"]) {
        Some(Bare::Elseif)
    } else if are_named(parts, &["else"]) {
        Some(Bare::Else)
    } else if are_named(parts, &["endif"]) {
        Some(Bare::Endif)
    } else if are_named(parts, &["or"]) {
        Some(Bare::Or)
    } else if are_named(parts, &["exhaust"]) {
        Some(Bare::Exhaust)
    } else if are_named(parts, &["stoppable"]) {
        Some(Bare::Stoppable)
    } else if are_named(parts, &["select"]) {
        Some(Bare::Select)
    } else if are_named(parts, &["stopping"]) {
        Some(Bare::End(Mode::Stopping))
    } else if are_named(parts, &["cycling"]) {
        Some(Bare::End(Mode::Cycling))
    } else if are_named(parts, &["at", "random"]) {
        Some(Bare::End(Mode::AtRandom))
    } else if are_named(parts, &["purely", "at", "random"]) {
        Some(Bare::End(Mode::PurelyAtRandom))
    } else if are_named(parts, &["then", "at", "random"]) {
        Some(Bare::End(Mode::ThenAtRandom))
    } else if are_named(parts, &["then", "purely", "at", "random"]) {
        Some(Bare::End(Mode::ThenPurelyAtRandom))
    } else {
        None
    }
}

fn is_nested(value: &Value) -> bool
    ensures { result ≡ is_query (value_view value.now) }
{
    matches!(value, Value::Query(_))
}

fn valued_named(word: &[u8]) -> Option<Valued>
    ensures { result ≡ valued_word word.now }
{
    if is_text(word, b"collect") {
        Some(Valued::Collect)
    } else if is_text(word, b"accumulate") {
        Some(Valued::Accumulate)
    } else if is_text(word, b"into") {
        Some(Valued::Into)
    } else {
        None
    }
}

fn valued_pair(first: &Part, second: &Part) -> Option<Valued>
    ensures { result ≡ valued_in (part_view first.now ∷ part_view second.now ∷ []) }
{
    match first {
        Part::Word(word) => match second {
            Part::Value(value) => {
                if is_nested(value) {
                    None
                } else {
                    valued_named(word.as_slice())
                }
            }
            Part::Word(_) => None,
        },
        Part::Value(_) => None,
    }
}

fn valued_keyword(parts: &[Part]) -> Option<Valued>
    ensures { result ≡ valued_in (map part_view parts.now) }
{
    match parts {
        [first, second] => valued_pair(first, second),
        _ => None,
    }
}

fn with_value(valued: Valued, value: Value) -> Keyword
    ensures { keyword_view result ≡ valued_view valued (value_view value) }
{
    match valued {
        Valued::Collect => Keyword::Collect(value),
        Valued::Accumulate => Keyword::Accumulate(value),
        Valued::Into => Keyword::Into(value),
    }
}

fn value_of(part: Part) -> Option<Value>
    ensures { option_map value_view result ≡ last_value (part_view part ∷ []) }
{
    match part {
        Part::Value(value) => Some(value),
        Part::Word(_) => None,
    }
}

#[tactic(auto, using(crate::proofs::Keys::last_of))]
fn take_value(mut parts: Items<Part>) -> Option<Value>
    ensures { option_map value_view result ≡ last_value (map part_view parts) }
{
    match parts.pop() {
        Some(last) => value_of(last),
        None => None,
    }
}

#[tactic(auto, using(crate::proofs::Keys::is_valued))]
fn close_valued(valued: Valued, parts: Items<Part>) -> Keyword
    requires { valued_in (map part_view parts) ≡ Some valued }
    ensures { keyword_of (tree.parts_of (map part_view parts)) ≡ Some (keyword_view result) }
{
    match take_value(parts) {
        Some(value) => with_value(valued, value),
        None => unreachable!(),
    }
}

/// What a parenthesis with these parts is.
#[tactic(auto, using(crate::proofs::Keys::is_bare))]
pub fn close_parenthesis(parts: Items<Part>) -> Closed
    ensures { IsClosed result parts }
{
    if let Some(valued) = valued_keyword(parts.as_slice()) {
        return Closed::Keyword(close_valued(valued, parts));
    }
    match bare_keyword(parts.as_slice()) {
        Some(bare) => Closed::Keyword(Keyword::Bare(bare)),
        None => Closed::Query(parts),
    }
}

/// Whether a parenthesis with these parts is a keyword.
#[tactic(auto, using(crate::proofs::Keys::is_valued, crate::proofs::Keys::is_bare))]
pub fn is_keyword(parts: &[Part]) -> bool
    ensures { result ≡ is_some (keyword_of (tree.parts_of (map part_view parts.now))) }
{
    valued_keyword(parts).is_some() || bare_keyword(parts).is_some()
}
