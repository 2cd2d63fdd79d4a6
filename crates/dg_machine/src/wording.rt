// Words that are split and joined, and typed lines.
ghost use Rattle.std.specs.Prelude.{◌≡◌, [], ◌∷◌, List, ℕ, encode_utf8_all};
ghost use Rattle.dg_base.specs.declared.run.Limits.{Limits};
ghost use Rattle.dg_meaning.specs.Values.{Value};
ghost use Rattle.dg_meaning.specs.Words.{each_alone, spellings_of, spelled_value, spelled_list};
ghost use Rattle.dg_unify.specs.Store.{Holds as Stored};
ghost use Rattle.dg_words.specs.Letters.{AreSmall};
ghost use Rattle.dg_texts.specs.Spelling.{IsShort, SpellsSome};
ghost use Rattle.dg_arena.specs.Held.{meaning_of};
ghost use Rattle.dg_mid.specs.declared.code.Code.{Code};
ghost use Rattle.dg_mid.specs.declared.code.Op.TheVariants as op;
ghost use Rattle.dg_mid.specs.declared.code.Action.TheVariants as action;
ghost use Rattle.dg_mid.specs.State.{Mid};
ghost use Rattle.dg_machine.specs.Layout.{Holds};
ghost use Rattle.dg_machine.specs.Refs.{RefsAt};
ghost use Rattle.dg_machine.specs.Standing.{DoesOp};
ghost use Rattle.dg_machine.specs.Wording.{UnifiesMade, Gives, SplitsArgs, JoinsArgs};

use crate::memory::Memory;
use crate::now::Now;
use crate::tables::Tables;
use dg_base::{Ending, Term};
use dg_mid::Op;
use dg_texts::{join, spelling_of, write_letters, write_line, write_spelled};
use dg_unify::{Bindings, Ref, unify};
use dg_words::Joined;

impl Memory {
    /// A value is unified with one that was made.
    fn unify_made<'p>(&mut self, into: Ref, made: Ref, rest: &'p [Op]) -> Now<'p>
        requires into { Stored (meaning_of self.old.arena) into }
        requires made { Stored (meaning_of self.old.arena) made }
        ensures { (code : Code) → UnifiesMade code self.old into made rest.now self.new result }
    {
        match unify(&mut self.arena, into, made) {
            Err(_) => Now::Ended(Ending::TrailLimit),
            Ok(false) => Now::Fails,
            Ok(true) => Now::Runs(rest),
        }
    }

    /// A value is unified with that of a spelling.
    fn give_spelled<'p>(
        &mut self,
        tables: &Tables,
        spelling: &[u8],
        into: Ref,
        rest: &'p [Op],
    ) -> Now<'p>
        requires into { Stored (meaning_of self.old.arena) into }
        requires spelling { SpellsSome IsShort spelling.now }
        ensures { (code : Code) → (letters : List ℕ) → IsShort letters → spelling.now ≡ encode_utf8_all letters →
            Gives code (spelled_value tables.now.words letters) self.old into rest.now self.new result }
    {
        match write_spelled(&mut self.arena, tables.words.as_slice(), spelling) {
            Err(_) => Now::Ended(Ending::HeapLimit),
            Ok(made) => self.unify_made(into, made, rest),
        }
    }

    /// A value is unified with the list of the letters of a spelling, each as a word of its own.
    fn give_letters<'p>(
        &mut self,
        tables: &Tables,
        spelling: &[u8],
        into: Ref,
        rest: &'p [Op],
    ) -> Now<'p>
        requires into { Stored (meaning_of self.old.arena) into }
        requires spelling { SpellsSome AreSmall spelling.now }
        ensures { (code : Code) → (letters : List ℕ) → AreSmall letters → spelling.now ≡ encode_utf8_all letters →
            Gives code (spelled_list tables.now.words (each_alone letters)) self.old into rest.now self.new result }
    {
        match write_letters(&mut self.arena, tables.words.as_slice(), spelling) {
            Err(_) => Now::Ended(Ending::HeapLimit),
            Ok(made) => self.unify_made(into, made, rest),
        }
    }

    /// A value is unified with the list of the words of a line.
    pub fn give_line<'p>(
        &mut self,
        tables: &Tables,
        line: &[u8],
        into: Ref,
        rest: &'p [Op],
    ) -> Now<'p>
        requires into { Stored (meaning_of self.old.arena) into }
        requires line { SpellsSome IsShort line.now }
        ensures { (code : Code) → (letters : List ℕ) → IsShort letters → line.now ≡ encode_utf8_all letters →
            Gives code (spelled_list tables.now.words (spellings_of letters)) self.old into rest.now self.new result }
    {
        match write_line(&mut self.arena, tables.words.as_slice(), line) {
            Err(_) => Now::Ended(Ending::HeapLimit),
            Ok(made) => self.unify_made(into, made, rest),
        }
    }

    /// The first argument is split into its letters, and their list unified with the second.
    fn split_args<'p>(&mut self, tables: &Tables, rest: &'p [Op]) -> Now<'p>
        requires some { (code : Code) × (l : Limits) × (m : Mid) × Holds code l self.old m }
        requires args { (u v : Value) × RefsAt (meaning_of self.old.arena) self.old.args.items (u ∷ v ∷ []) }
        ensures { (code : Code) → SplitsArgs tables.now code self.old rest.now self.new result }
    {
        let word = self.arg(0);
        let into = self.arg(1);
        let mut row = [0; 600];
        let words = tables.words.as_slice();
        match spelling_of(&self.arena, words, self.arena.walk(word), &mut row) {
            None => Now::Fails,
            Some(spelling) => self.give_letters(tables, spelling, into, rest),
        }
    }

    /// A word is split into its letters, and their list unified with a value.
    pub fn split_word<'p>(
        &mut self,
        tables: &Tables,
        word: &Term,
        into: &Term,
        rest: &'p [Op],
    ) -> Now<'p>
        requires { (code : Code) × (l : Limits) × (m : Mid) × Holds code l self.old m }
        ensures { (code : Code) → DoesOp tables.now code self.old (op.Do (action.SplitWord word.now into.now)) rest.now self.new result }
    {
        match self.put_both(tables, word, into) {
            Err(_) => Now::Ended(Ending::HeapLimit),
            Ok(()) => self.split_args(tables, rest),
        }
    }

    /// The words of the first argument are joined, and the one that they make is unified with the second.
    fn join_args<'p>(&mut self, tables: &Tables, rest: &'p [Op]) -> Now<'p>
        requires some { (code : Code) × (l : Limits) × (m : Mid) × Holds code l self.old m }
        requires args { (u v : Value) × RefsAt (meaning_of self.old.arena) self.old.args.items (u ∷ v ∷ []) }
        ensures { (code : Code) → JoinsArgs tables.now code self.old rest.now self.new result }
    {
        let list = self.arg(0);
        let into = self.arg(1);
        let mut joined = Joined::new();
        if !join(&self.arena, tables.words.as_slice(), list, &mut joined) {
            return Now::Fails;
        }
        self.give_spelled(tables, joined.spelling(), into, rest)
    }

    /// Words are joined, and the one that they make is unified with a value.
    pub fn join_words<'p>(
        &mut self,
        tables: &Tables,
        list: &Term,
        into: &Term,
        rest: &'p [Op],
    ) -> Now<'p>
        requires { (code : Code) × (l : Limits) × (m : Mid) × Holds code l self.old m }
        ensures { (code : Code) → DoesOp tables.now code self.old (op.Do (action.JoinWords list.now into.now)) rest.now self.new result }
    {
        match self.put_both(tables, list, into) {
            Err(_) => Now::Ended(Ending::HeapLimit),
            Ok(()) => self.join_args(tables, rest),
        }
    }
}
