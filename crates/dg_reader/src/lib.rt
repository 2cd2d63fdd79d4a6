//! The reader: from the tokens of a source to its tree.
#![tactic(auto)]

ghost use Rattle.std.specs.Prelude.{◌≡◌, List, Bool, false, Result, Ok, All};
ghost use Rattle.dg_base.specs.Tree.{Item};
ghost use Rattle.dg_base.specs.declared.refusal.Refusal.{Refusal};
ghost use Rattle.dg_base.specs.Mentions.{mentioned};
ghost use Rattle.dg_lex.specs.Spelled.{IsSpelledToken};
ghost use Rattle.dg_lex.specs.Tokens.{Seen};
ghost use Rattle.dg_reader.specs.Declarations.{AreDeclarations};
ghost use Rattle.dg_reader.specs.Grammar.{IsDecided};
ghost use Rattle.dg_reader.specs.Read.{IsRead};
ghost use Rattle.dg_base.specs.Readable.{IsReadable};
ghost use Rattle.dg_reader.specs.Tokens.{Tok};

mod close;
mod distinct;
mod ends;
mod forms;
mod halts;
mod heads;
mod item;
mod keyword;
mod open;
mod profile;
mod put;
mod release;
mod source;
mod step;
mod words;

pub use source::read;

/// Each list of tokens is an item, begins one, or does neither, and it is one item at most.
pub fn items_are_decided()
    ensures { (in_column : Bool) → (ts : List Tok) → IsDecided in_column ts }
{}

/// Tokens are read in one way.
pub fn items_are_one()
    ensures { (ts : List Seen) → (a b : Result (List Item) Refusal) → IsRead ts a → IsRead ts b → a ≡ b }
{}

/// What is read can be printed where the words and names of its tokens are spelled, and its numbers are in their range.
pub fn items_are_readable()
    ensures { (ts : List Seen) → (is : List Item) → All IsSpelledToken ts → IsRead ts (Ok is) → All IsReadable (mentioned is) }
{}

/// What is declared may be, and begins with a `*` only behind a topic.
pub fn declarations_are_kept()
    ensures { (ts : List Seen) → (is : List Item) → IsRead ts (Ok is) → AreDeclarations false is }
{}
