//! The tokens of a source, in order, each a slice of it.
#![tactic(auto)]

ghost use Rattle.std.specs.Prelude.{◌≡◌, ℕ, List, None, All, map};
ghost use Rattle.dg_base.specs.Sound.{IsName};
ghost use Rattle.dg_lex.specs.Bad.{lex_refusal};
ghost use Rattle.dg_lex.specs.Spelled.{IsSpelled, IsSpelledToken};
ghost use Rattle.dg_lex.specs.Tokens.{IsLexed, seen};
ghost use Rattle.dg_lex.specs.declared.token.Token.{Token};

mod bad;
mod chars;
mod cutting;
mod fronts;
mod token;

pub use cutting::lex;
pub use token::{Token, TokenKind};

/// No source has two lists of tokens.
pub fn tokens_are_one()
    ensures { (source : List ℕ) (ts us : List Token) → IsLexed source ts → IsLexed source us → map seen ts ≡ map seen us }
{}

/// The words and names of a source that isn't refused are spelled.
pub fn tokens_are_spelled()
    ensures { (source : List ℕ) (ts : List Token) → lex_refusal source ≡ None → IsLexed source ts → All IsSpelledToken (map seen ts) }
{}

/// A text that is spelled can be printed.
pub fn spelled_texts_are_names()
    ensures { (text : List ℕ) → IsSpelled text → IsName text }
{}
