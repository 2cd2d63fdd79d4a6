// The routines of rules: one that looks at a rule, and one that enters it.
ghost use Rattle.std.specs.Prelude.{◌≡◌, ◌+◌, ◌≤◌, ◌++◌, ◌∷◌, [], IfOk, OnOk, length};
ghost use Rattle.std.specs.Option.{option_map};
ghost use Rattle.dg_meaning.specs.Cells.{nodes_of};
ghost use Rattle.dg_mid.specs.Code.{label_of};
ghost use Rattle.dg_rt.specs.RunTime.{routine_of};
ghost use Rattle.dg_rt.specs.Rules as keys;
ghost use Rattle.dg_turn.specs.Told as spec;
ghost use Rattle.dg_turn.specs.Terms.{AreNodes};
ghost use Rattle.dg_turn.specs.Turns as turns;
ghost use Rattle.dg_emit.specs.inside.Left.{those};
ghost use Rattle.dg_emit.specs.inside.Acts as inside;

use crate::counting::cells;
use crate::heads::{HEAD, put_head};
use crate::terms::{NIL, OBJECTS, WORDS, Writer};
use dg_base::{Items, Term};
use dg_mid::Key;
use dg_rt::numbers::{ENTER, FOUND, MATCH, MATCHED};
use dg_rt::registers::{KEY, PARAMETERS, WORD};
use std::alloc::{AllocError, Global};
use z_lang::{Act, Args, Atom, Comparison, Routine, Test};

/// The key of a program's first closure.
pub const CLOSURES: u16 = 49_152;

// The word of a key; none where any first argument may be.
fn key_word(key: Key) -> Option<u16>
    requires { spec.KeyFits (label_of key) }
    ensures { result ≡ option_map keys.key_word (label_of key) }
{
    match key {
        Key::Any => None,
        Key::Num(number) => Some(number),
        Key::Word(word) => Some(WORDS + word),
        Key::Object(object) => Some(OBJECTS + object),
        Key::Nil => Some(NIL),
        Key::Pair => Some(NIL + 1),
        Key::Closure(closure) => Some(CLOSURES + closure),
    }
}

/// Where the routine of a rule stands, and those that it names: the one that enters the rule, and the next rule's.
#[derive(Clone, Copy)]
pub struct RulePlace {
    pub parameters: u16,
    pub enter: u16,
    pub own: u16,
    pub next: u16,
}

// The rule is found.
fn put_found(acts: &mut Items<Act>, place: RulePlace) -> Result<(), AllocError>
    ensures { OnOk result (acts.new ≡ acts.old ++ spec.found_acts place.parameters place.enter place.own place.next) }
{
    let routines = Args::Three(
        Atom::Routine(place.enter),
        Atom::Routine(place.own),
        Atom::Routine(place.next),
    );
    acts.push(Act::Copy(PARAMETERS, Atom::Num(place.parameters)))?;
    acts.push(Act::Call(Some(1), Atom::Routine(FOUND), routines))?;
    acts.push(Act::Return(Atom::Var(1)))
}

/// Another routine comes next, unless the register of keys compares so with a word.
pub fn put_test(
    acts: &mut Items<Act>,
    comparison: Comparison,
    word: u16,
    other: u16,
) -> Result<(), AllocError>
    ensures { OnOk result (acts.new ≡ acts.old ++ inside.key_acts comparison word other) }
{
    let test = Test {
        comparison,
        first: Atom::Var(KEY),
        second: Atom::Num(word),
        answer: true,
    };
    acts.push(Act::When(test, 0))?;
    acts.push(Act::Return(Atom::Routine(other)))?;
    acts.push(Act::Label(0))
}

/// The routine of a rule with a key: it is passed over, or found.
pub fn rule_routine(alloc: Global, key: Key, place: RulePlace) -> Result<Routine, AllocError>
    requires { spec.KeyFits (label_of key) }
    ensures { IfOk result (λ r. r ≡ routine_of 1 (spec.rule_acts (label_of key) place.parameters place.enter place.own place.next)) }
{
    let mut body = Items::new(alloc);
    if let Some(word) = key_word(key) {
        let other = Comparison::Either(Atom::Num(word));
        put_test(&mut body, other, 32_768, place.next)?;
    }
    put_found(&mut body, place)?;
    Ok(Routine { locals: 1, body })
}

/// So many variables from one on are matched with those from another on.
pub fn put_matches(
    acts: &mut Items<Act>,
    arguments: u8,
    terms: u8,
    count: u8,
) -> Result<(), AllocError>
    requires arguments { arguments + count ≤ 255 }
    requires terms { terms + count ≤ 255 }
    ensures { OnOk result (acts.new ≡ acts.old ++ turns.match_acts arguments terms count) }
{
    for index in 0..count {
        let both = Args::Two(Atom::Var(arguments + index), Atom::Var(terms + index));
        acts.push(Act::Call(None, Atom::Routine(MATCH), both))?;
    }
    Ok(())
}

/// What comes behind a unification is answered.
pub fn put_last(acts: &mut Items<Act>, behind: u16) -> Result<(), AllocError>
    ensures { OnOk result (acts.new ≡ acts.old ++ turns.last_acts behind) }
{
    let behind = Args::One(Atom::Routine(behind));
    acts.push(Act::Call(Some(WORD), Atom::Routine(MATCHED), behind))?;
    acts.push(Act::Return(Atom::Var(WORD)))
}

impl Writer<'_> {
    /// The routine that enters a rule of so many variables with this head, and goes on there.
    pub fn enter_routine(
        &self,
        vars: u16,
        head: &[&Term],
        behind: u16,
    ) -> Result<Routine, AllocError>
        requires nodes { AreNodes self.now.program.now (nodes_of (those head.now)) }
        requires few { length head.now ≤ 12 }
        ensures { IfOk result (λ r. r ≡ turns.enter_routine self.now.program.now vars (those head.now) behind) }
    {
        let taken = cells(self.alloc, self.program, head)?;
        let sizes = Args::Two(Atom::Num(vars), Atom::Num(taken));
        let mut body = Items::new(self.alloc);
        body.push(Act::Call(None, Atom::Routine(ENTER), sizes))?;
        self.put_terms(&mut body, HEAD, head)?;
        put_head(self.alloc, &mut body, head)?;
        put_last(&mut body, behind)?;
        Ok(Routine { locals: 0, body })
    }
}
