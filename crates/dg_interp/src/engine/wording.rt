// Words that are split and joined, and typed lines.
ghost use Rattle.std.specs.Prelude.{◌≡◌, IfOk, IfErr, List, ℕ, encode_utf8_all};
ghost use Rattle.dg_base.specs.declared.program.Goal.TheVariants.{SplitWord as SplitGoal, JoinWords as JoinGoal, Input as InputGoal};
ghost use Rattle.dg_meaning.specs.Words.{each_alone, spellings_of, spelled_value, spelled_list};
ghost use Rattle.dg_unify.specs.Store.{Holds};
ghost use Rattle.dg_words.specs.Letters.{AreSmall};
ghost use Rattle.dg_interp.specs.inside.Engine.{IsReady, TakesAt, Branches, FullAt, store_in};
ghost use Rattle.dg_texts.specs.Spelling.{IsShort, SpellsSome};
ghost use Rattle.dg_interp.specs.inside.Wording.{words_in, MakesAt, AwaitsInput};

use super::{Engine, stretch};
use dg_base::Term;
use dg_terms::{write_both, write_term};
use dg_texts::{join, spelling_of, write_letters, write_line, write_spelled};
use dg_unify::{Bindings, Full, Ref};
use dg_words::Joined;

impl<'p> Engine<'p> {
    // Unifies the value of a spelling with another; where they clash, goes back.
    fn give_spelled(&mut self, spelling: &[u8], into: Ref) -> Result<bool, Full>
        requires ready { IsReady self.old }
        requires hold { Holds (store_in self.old.store) into }
        requires spelling { SpellsSome IsShort spelling.now }
        ensures given { (letters : List ℕ) → IsShort letters → spelling.now ≡ encode_utf8_all letters →
            IfOk result (λ found. Branches (MakesAt (spelled_value (words_in self.old) letters) into self.old) found self.old self.new) }
        ensures full { (letters : List ℕ) → IsShort letters → spelling.now ≡ encode_utf8_all letters →
            IfErr result (λ e. FullAt (MakesAt (spelled_value (words_in self.old) letters) into self.old) (store_in self.old.store) e) }
        ensures left { self.new.left ≡ self.old.left }
    {
        match write_spelled(&mut self.store, self.program.words.as_slice(), spelling) {
            Err(e) => Err(e),
            Ok(made) => self.unify_both(into, made),
        }
    }

    // Unifies the list of the letters of a spelling with a value; where they clash, goes back.
    fn give_letters(&mut self, spelling: &[u8], into: Ref) -> Result<bool, Full>
        requires ready { IsReady self.old }
        requires hold { Holds (store_in self.old.store) into }
        requires spelling { SpellsSome AreSmall spelling.now }
        ensures given { (letters : List ℕ) → AreSmall letters → spelling.now ≡ encode_utf8_all letters →
            IfOk result (λ found. Branches (MakesAt (spelled_list (words_in self.old) (each_alone letters)) into self.old) found self.old self.new) }
        ensures full { (letters : List ℕ) → AreSmall letters → spelling.now ≡ encode_utf8_all letters →
            IfErr result (λ e. FullAt (MakesAt (spelled_list (words_in self.old) (each_alone letters)) into self.old) (store_in self.old.store) e) }
        ensures left { self.new.left ≡ self.old.left }
    {
        let words = self.program.words.as_slice();
        match write_letters(&mut self.store, words, spelling) {
            Err(e) => Err(e),
            Ok(made) => self.unify_both(into, made),
        }
    }

    /// Unifies the list of the words of a line with a value; where they clash, goes back.
    pub fn give_line(&mut self, line: &[u8], into: Ref) -> Result<bool, Full>
        requires ready { IsReady self.old }
        requires hold { Holds (store_in self.old.store) into }
        requires line { SpellsSome IsShort line.now }
        ensures given { (letters : List ℕ) → IsShort letters → line.now ≡ encode_utf8_all letters →
            IfOk result (λ found. Branches (MakesAt (spelled_list (words_in self.old) (spellings_of letters)) into self.old) found self.old self.new) }
        ensures full { (letters : List ℕ) → IsShort letters → line.now ≡ encode_utf8_all letters →
            IfErr result (λ e. FullAt (MakesAt (spelled_list (words_in self.old) (spellings_of letters)) into self.old) (store_in self.old.store) e) }
        ensures left { self.new.left ≡ self.old.left }
    {
        let words = self.program.words.as_slice();
        match write_line(&mut self.store, words, line) {
            Err(e) => Err(e),
            Ok(made) => self.unify_both(into, made),
        }
    }

    /// Splits a word into its letters, and unifies their list with a value.
    pub fn split_word(&mut self, word: &Term, into: &Term) -> Result<bool, Full>
        requires ready { IsReady self.old }
        ensures done { IfOk result (λ found. Branches (TakesAt (SplitGoal word.now into.now) self.old) found self.old self.new) }
        ensures full { IfErr result (λ e. FullAt (TakesAt (SplitGoal word.now into.now) self.old) (store_in self.old.store) e) }
        ensures left { self.new.left ≡ self.old.left }
    {
        let env = stretch(&self.refs, self.here.env);
        match write_both(
            &mut self.store,
            self.program,
            env,
            word,
            into,
            &mut self.made,
        ) {
            Err(e) => Err(e),
            Ok((word, into)) => {
                let mut row = [0; 600];
                let words = self.program.words.as_slice();
                match spelling_of(&self.store, words, self.store.walk(word), &mut row) {
                    None => self.back(),
                    Some(spelling) => self.give_letters(spelling, into),
                }
            }
        }
    }

    /// Joins words, and unifies the one that they make with a value.
    pub fn join_words(&mut self, list: &Term, into: &Term) -> Result<bool, Full>
        requires ready { IsReady self.old }
        ensures done { IfOk result (λ found. Branches (TakesAt (JoinGoal list.now into.now) self.old) found self.old self.new) }
        ensures full { IfErr result (λ e. FullAt (TakesAt (JoinGoal list.now into.now) self.old) (store_in self.old.store) e) }
        ensures left { self.new.left ≡ self.old.left }
    {
        let env = stretch(&self.refs, self.here.env);
        match write_both(
            &mut self.store,
            self.program,
            env,
            list,
            into,
            &mut self.made,
        ) {
            Err(e) => Err(e),
            Ok((list, into)) => {
                let mut joined = Joined::new();
                if !join(
                    &self.store,
                    self.program.words.as_slice(),
                    list,
                    &mut joined,
                ) {
                    return self.back();
                }
                self.give_spelled(joined.spelling(), into)
            }
        }
    }

    /// Writes what a line is to be unified with.
    pub fn write_input(&mut self, into: &Term) -> Result<Ref, Full>
        requires ready { IsReady self.old }
        ensures written { IfOk result (λ into'. AwaitsInput into.now into' self.old self.new) }
        ensures full { IfErr result (λ e. FullAt (TakesAt (InputGoal into.now) self.old) (store_in self.old.store) e) }
        ensures left { self.new.left ≡ self.old.left }
    {
        let env = stretch(&self.refs, self.here.env);
        write_term(&mut self.store, self.program, env, into, &mut self.made)
    }
}
