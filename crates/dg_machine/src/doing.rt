// What an instruction does in memory.
ghost use Rattle.std.specs.Prelude.{◌≡◌, ◌<◌, ◌≤◌, ℕ, List, [], ◌∷◌, length, slice_get};
ghost use Rattle.std.specs.Borrow.{Bor};
ghost use Rattle.dg_base.specs.declared.run.Limits.{Limits};
ghost use Rattle.dg_meaning.specs.Values.{Value, Values};
ghost use Rattle.dg_meaning.specs.Substitutions.{walk};
ghost use Rattle.dg_unify.specs.Store.{IsClosureAt};
ghost use Rattle.dg_mid.specs.declared.code.Code.{Code as TheCode};
ghost use Rattle.dg_mid.specs.declared.code.Op.{Op as TheOp};
ghost use Rattle.dg_mid.specs.declared.code.Op.TheVariants as op;
ghost use Rattle.dg_mid.specs.declared.code.Action.TheVariants as action;
ghost use Rattle.dg_mid.specs.Code.{block_at, rules_at};
ghost use Rattle.dg_mid.specs.State.{Mid};
ghost use Rattle.dg_mid.specs.Potential.{Tidy};
ghost use Rattle.dg_arena.specs.Held.{meaning_of};
ghost use Rattle.dg_machine.specs.Built.{AreArguments, OpsBuilt, IsBuilt};
ghost use Rattle.dg_machine.specs.declared.tables.Tables.{Tables as TheTables};
ghost use Rattle.dg_mid.specs.Heads.{FlatTerms};
ghost use Rattle.dg_machine.specs.Refs.{RefsAt, AreRefs};
ghost use Rattle.dg_machine.specs.Layout.{HasRoom, Holds, last_rules};
ghost use Rattle.dg_machine.specs.Passing.{IsFirst};
ghost use Rattle.dg_machine.specs.Standing.{DoesOp, DoesMark, CallsRules, EntersWith, Asks, AsksLast, Calculates, EntersBody, IsAsked, QueriesFirst};
ghost use Rattle.dg_machine.specs.Standing.{comes_to, DoesWith, ThrowsDie, ChangesPlace, LeavesAround};
ghost use Rattle.dg_machine.specs.Standing.{EntersLastBody, QueriesLast, EntersRule, EntersIn};
ghost use Rattle.dg_lasting.specs.Resting.{extent_of};

use crate::closures::body_row;
use crate::memory::Memory;
use crate::now::{Call, Did, Now, Way};
use crate::passing::pass;
use crate::tables::Tables;
use dg_base::{ArithOp, CompareOp, Ending, Term, TestKind};
use dg_lasting::Lasting;
use dg_mid::{BodyCode, Code, Head, Op, RuleCode};
use dg_unify::{Ref, View};

/// The instructions of a block.
#[inline(always)]
pub fn code_at(code: &Code, block: u32) -> &[Op]
    ensures { result.now ≡ block_at code.now block }
{
    match code.blocks.get(block as usize) {
        Some(found) => found.ops.as_slice(),
        None => &[],
    }
}

/// The rules of a predicate.
#[inline(always)]
pub fn rules_of(code: &Code, pred: u16) -> &[RuleCode]
    ensures { result.now ≡ rules_at code.now pred }
{
    match code.preds.get(pred as usize) {
        Some(found) => found.as_slice(),
        None => &[],
    }
}

/// The body of the closure of a place, if there is one.
fn body_of(code: &Code, place: u16) -> Option<BodyCode>
    ensures { result ≡ slice_get code.now.closures place }
{
    code.closures.get(place as usize).copied()
}

/// What is done next, with this code behind.
#[inline(always)]
fn behind<'p>(did: Did, rest: &'p [Op]) -> Now<'p>
    ensures { result ≡ comes_to did rest.entry }
{
    match did {
        Did::GoesOn => Now::Runs(rest),
        Did::Fails => Now::Fails,
        Did::Ends(ending) => Now::Ended(ending),
    }
}

impl Memory {
    /// A choice opens whose other way is a block.
    #[inline(always)]
    pub fn branch<'p>(&mut self, alt: u32, rest: &'p [Op]) -> Now<'p>
        requires room { HasRoom self.old }
        ensures { (t : TheTables) → (code : TheCode) → DoesOp t code self.old (op.Branch alt) rest.now self.new result }
    {
        match self.open(Way::Goes(alt), 0) {
            Ok(()) => Now::Runs(rest),
            Err(_) => Now::Ended(Ending::HeapLimit),
        }
    }

    /// The same, and an inner construct begins.
    #[inline(always)]
    pub fn attempt<'p>(&mut self, alt: u32, rest: &'p [Op]) -> Now<'p>
        requires room { HasRoom self.old }
        ensures { (t : TheTables) → (code : TheCode) → DoesOp t code self.old (op.Try alt) rest.now self.new result }
    {
        let height = self.arena.heap();
        match self.open(Way::Goes(alt), 0) {
            Ok(()) => {
                self.begin(height, None);
                Now::Runs(rest)
            }
            Err(_) => Now::Ended(Ending::HeapLimit),
        }
    }

    /// An inner construct begins whose first answer is taken.
    #[inline(always)]
    pub fn once<'p>(&mut self, rest: &'p [Op]) -> Now<'p>
        requires room { HasRoom self.old }
        ensures { (t : TheTables) → (code : TheCode) → DoesOp t code self.old op.Once rest.now self.new result }
    {
        let height = self.arena.heap();
        match self.charge(10) {
            Ok(()) => {
                self.begin(height, None);
                Now::Runs(rest)
            }
            Err(_) => Now::Ended(Ending::HeapLimit),
        }
    }

    /// Cuts to where the rule at hand began.
    #[inline(always)]
    pub fn just<'p>(&mut self, rest: &'p [Op]) -> Now<'p>
        ensures { (t : TheTables) → (code : TheCode) → DoesOp t code self.old (op.Do action.Just) rest.now self.new result }
    {
        match self.frame_at_hand() {
            Some(frame) => {
                self.cut(frame.cut);
                Now::Runs(rest)
            }
            None => {
                self.cut(0);
                Now::Runs(rest)
            }
        }
    }

    /// Two values are unified.
    #[inline(always)]
    pub fn equal<'p>(&mut self, tables: &Tables, a: &Term, b: &Term, rest: &'p [Op]) -> Now<'p>
        requires { (code : TheCode) × (l : Limits) × (m : Mid) × Holds code l self.old m }
        ensures { (code : TheCode) → DoesOp tables.now code self.old (op.Do (action.Equal a.now b.now)) rest.now self.new result }
    {
        match self.put_both(tables, a, b) {
            Err(_) => Now::Ended(Ending::HeapLimit),
            Ok(()) => match self.unify_args() {
                Err(_) => Now::Ended(Ending::TrailLimit),
                Ok(false) => Now::Fails,
                Ok(true) => Now::Runs(rest),
            },
        }
    }

    /// A value is tested.
    #[inline(always)]
    pub fn test<'p>(&mut self, tables: &Tables, kind: TestKind, a: &Term, rest: &'p [Op]) -> Now<'p>
        requires { (code : TheCode) × (l : Limits) × (m : Mid) × Holds code l self.old m }
        ensures { (code : TheCode) → DoesOp tables.now code self.old (op.Do (action.Test kind a.now)) rest.now self.new result }
    {
        match self.put_one(tables, a) {
            Err(_) => Now::Ended(Ending::HeapLimit),
            Ok(()) => {
                if self.test_arg(kind) {
                    Now::Runs(rest)
                } else {
                    Now::Fails
                }
            }
        }
    }

    /// Two values are compared.
    #[inline(always)]
    pub fn compare<'p>(
        &mut self,
        tables: &Tables,
        by: CompareOp,
        a: &Term,
        b: &Term,
        rest: &'p [Op],
    ) -> Now<'p>
        requires { (code : TheCode) × (l : Limits) × (m : Mid) × Holds code l self.old m }
        ensures { (code : TheCode) → DoesOp tables.now code self.old (op.Do (action.Compare by a.now b.now)) rest.now self.new result }
    {
        match self.put_both(tables, a, b) {
            Err(_) => Now::Ended(Ending::HeapLimit),
            Ok(()) => {
                if self.compare_args(by) {
                    Now::Runs(rest)
                } else {
                    Now::Fails
                }
            }
        }
    }

    /// What is calculated of two arguments is unified with a third.
    #[inline(always)]
    fn calculate<'p>(&mut self, by: ArithOp, rest: &'p [Op]) -> Now<'p>
        requires { (u v w : Value) × RefsAt (meaning_of self.old.arena) self.old.args.items (u ∷ v ∷ w ∷ []) }
        ensures { (code : TheCode) → Calculates code by self.old rest.now self.new result }
    {
        match self.calculate_args(by) {
            None => Now::Fails,
            Some(n) => match self.unify_number(n) {
                Err(_) => Now::Ended(Ending::TrailLimit),
                Ok(false) => Now::Fails,
                Ok(true) => Now::Runs(rest),
            },
        }
    }

    /// What is calculated of two values is unified with a third.
    #[inline(always)]
    pub fn arith<'p>(
        &mut self,
        tables: &Tables,
        by: ArithOp,
        a: &Term,
        b: &Term,
        into: &Term,
        rest: &'p [Op],
    ) -> Now<'p>
        requires { (code : TheCode) × (l : Limits) × (m : Mid) × Holds code l self.old m }
        ensures { (code : TheCode) → DoesOp tables.now code self.old (op.Do (action.Arith by a.now b.now into.now)) rest.now self.new result }
    {
        match self.put_three(tables, a, b, into) {
            Err(_) => Now::Ended(Ending::HeapLimit),
            Ok(()) => self.calculate(by, rest),
        }
    }

    /// A random number between two arguments, if there is one, is unified with a third.
    fn throw<'p>(&mut self, lasting: &mut Lasting<'_>, rest: &'p [Op]) -> Now<'p>
        requires { (u v w : Value) × RefsAt (meaning_of self.old.arena) self.old.args.items (u ∷ v ∷ w ∷ []) }
        ensures thrown { (code : TheCode) → ThrowsDie code self.old lasting.old rest.now self.new result lasting.new }
        ensures sites { lasting.new.sites ≡ lasting.old.sites }
        ensures extent { extent_of lasting.new ≡ extent_of lasting.old }
    {
        match self.throw_args(lasting) {
            None => Now::Fails,
            Some(n) => match self.unify_number(n) {
                Err(_) => Now::Ended(Ending::TrailLimit),
                Ok(false) => Now::Fails,
                Ok(true) => Now::Runs(rest),
            },
        }
    }

    /// A random number between two values, if there is one, is unified with a third; a dice word is then drawn.
    pub fn random<'p>(
        &mut self,
        tables: &Tables,
        lasting: &mut Lasting<'_>,
        a: &Term,
        b: &Term,
        into: &Term,
        rest: &'p [Op],
    ) -> Now<'p>
        requires { (code : TheCode) × (l : Limits) × (m : Mid) × Holds code l self.old m }
        ensures does { (code : TheCode) → DoesWith tables.now code self.old lasting.old (op.Do (action.Random a.now b.now into.now)) rest.now self.new result
            lasting.new }
        ensures sites { lasting.new.sites ≡ lasting.old.sites }
        ensures extent { extent_of lasting.new ≡ extent_of lasting.old }
    {
        match self.put_three(tables, a, b, into) {
            Err(_) => Now::Ended(Ending::HeapLimit),
            Ok(()) => self.throw(lasting, rest),
        }
    }

    /// A place is changed with the arguments at hand, if it can be.
    fn change_place<'p>(
        &mut self,
        tables: &Tables,
        lasting: &mut Lasting<'_>,
        place: u16,
        sets: bool,
        rest: &'p [Op],
    ) -> Now<'p>
        requires { AreRefs (meaning_of self.old.arena) self.old.args.items }
        ensures changes { (code : TheCode) → ChangesPlace tables.now code self.old lasting.old place sets rest.now self.new result lasting.new }
        ensures sites { lasting.new.sites ≡ lasting.old.sites }
        ensures extent { extent_of lasting.new ≡ extent_of lasting.old }
    {
        let Some(kind) = tables.kind_of(place) else {
            return Now::Fails;
        };
        let objects = tables.objects.as_slice();
        let args = self.args.as_slice();
        match lasting.change(&mut self.arena, objects.len(), kind, place, args, sets) {
            Err(_) => Now::Ended(Ending::KeepLimit),
            Ok(false) => Now::Fails,
            Ok(true) => Now::Runs(rest),
        }
    }

    /// A place is changed with the values of terms, if it can be.
    pub fn change<'p>(
        &mut self,
        tables: &Tables,
        lasting: &mut Lasting<'_>,
        place: u16,
        terms: &[Term],
        sets: bool,
        rest: &'p [Op],
    ) -> Now<'p>
        requires some { (code : TheCode) × (l : Limits) × (m : Mid) × Holds code l self.old m }
        requires terms { AreArguments terms.now }
        ensures does { (code : TheCode) → DoesWith tables.now code self.old lasting.old (op.Do (action.Now place terms.now sets)) rest.now self.new result
            lasting.new }
        ensures sites { lasting.new.sites ≡ lasting.old.sites }
        ensures extent { extent_of lasting.new ≡ extent_of lasting.old }
    {
        match self.put_args(tables, terms) {
            Err(_) => Now::Ended(Ending::HeapLimit),
            Ok(()) => self.change_place(tables, lasting, place, sets, rest),
        }
    }

    /// The inner construct at hand is left.
    #[inline(always)]
    pub fn commit<'p>(&mut self, ops: &'p [Op], rest: &'p [Op]) -> Now<'p>
        ensures { (code : TheCode) → DoesMark code self.old ops.entry op.Commit rest.now self.new result }
    {
        match self.inner_at_hand() {
            None => Now::Fails,
            Some(inner) => {
                self.cut(inner.height);
                self.inner = inner.around;
                Now::Runs(rest)
            }
        }
    }

    /// The inner construct at hand is left, and it fails.
    #[inline(always)]
    pub fn refuse<'p>(&mut self, ops: &'p [Op], rest: &'p [Op]) -> Now<'p>
        ensures { (code : TheCode) → DoesMark code self.old ops.entry op.Refuse rest.now self.new result }
    {
        match self.inner_at_hand() {
            None => Now::Fails,
            Some(inner) => {
                self.cut(inner.height);
                self.inner = inner.around;
                Now::Fails
            }
        }
    }

    /// The rule at hand is answered.
    #[inline(always)]
    pub fn answer<'p>(&mut self, code: &'p Code, ops: &'p [Op], rest: &'p [Op]) -> Now<'p>
        requires built { IsBuilt code.now }
        requires tidy { Tidy code.now }
        ensures { DoesMark code.now self.old ops.entry op.Return rest.now self.new result }
    {
        match self.frame_at_hand() {
            None => Now::Fails,
            Some(frame) if frame.many => {
                self.frame = frame.behind;
                self.inner = frame.inner;
                Now::Runs(code_at(code, frame.next))
            }
            Some(frame) => {
                self.cut(frame.cut);
                self.frame = frame.behind;
                self.inner = frame.inner;
                Now::Runs(code_at(code, frame.next))
            }
        }
    }

    /// Keeps the call that is about to enter a rule; field by field, since a copy of the whole takes what lies between them too.
    #[inline(always)]
    fn keep_call(&mut self, call: Call)
        ensures { self.new ≡ record self.old { call = call } }
    {
        self.call.next = call.next;
        self.call.many = call.many;
        self.call.cut = call.cut;
    }

    /// A call enters the rule of a block, with the last so many rules of its predicate left.
    #[inline(always)]
    fn enter_with<'p>(
        &mut self,
        code: &'p Code,
        call: Call,
        block: u32,
        pred: u16,
        left: usize,
    ) -> Now<'p>
        requires room { HasRoom self.old }
        requires built { IsBuilt code.now }
        ensures { EntersWith code.now self.old call block pred left self.new result }
    {
        if left == 0 {
            self.keep_call(call);
            return Now::Enters(code_at(code, block));
        }
        let ops = code_at(code, block);
        let count = self.args.len();
        match self.open(Way::Calls(call, pred, left), count) {
            Ok(()) => {
                self.keep_call(call);
                Now::Enters(ops)
            }
            Err(_) => Now::Ended(Ending::HeapLimit),
        }
    }

    /// A call enters the first of some rules, the last of a predicate; those that its first argument excludes aren't left.
    #[inline(always)]
    fn call_first<'p>(
        &mut self,
        code: &'p Code,
        call: Call,
        pred: u16,
        first: Option<View>,
        rules: &[RuleCode],
    ) -> Now<'p>
        requires room { HasRoom self.old }
        requires built { IsBuilt code.now }
        requires there { length rules.now ≤ length (rules_at code.now pred) }
        requires rules { rules.now ≡ last_rules code.now pred (length rules.now) }
        requires first { IsFirst (meaning_of self.old.arena) self.old.args.items first }
        ensures { CallsRules code.now self.old call pred (length rules.now) self.new result }
    {
        match rules {
            [] => Now::Fails,
            [rule, others @ ..] => {
                let further = pass(first, others).len();
                self.enter_with(code, call, rule.block, pred, further)
            }
        }
    }

    /// A call enters the first of the last so many rules of a predicate; those that its first argument excludes aren't left.
    #[inline(always)]
    pub fn call<'p>(&mut self, code: &'p Code, call: Call, pred: u16, left: usize) -> Now<'p>
        requires room { HasRoom self.old }
        requires built { IsBuilt code.now }
        requires there { left ≤ length (rules_at code.now pred) }
        requires args { AreRefs (meaning_of self.old.arena) self.old.args.items }
        ensures { CallsRules code.now self.old call pred left self.new result }
    {
        let all = rules_of(code, pred);
        let first = self.first_argument();
        self.call_first(code, call, pred, first, &all[all.len() - left..])
    }

    /// A predicate is asked with the arguments at hand.
    #[inline(always)]
    fn ask_rules<'p>(&mut self, code: &'p Code, pred: u16, many: bool, next: u32) -> Now<'p>
        requires room { HasRoom self.old }
        requires built { IsBuilt code.now }
        requires args { AreRefs (meaning_of self.old.arena) self.old.args.items }
        ensures { Asks code.now self.old pred many next self.new result }
    {
        let cut = self.arena.heap();
        let first = self.first_argument();
        let rules = pass(first, rules_of(code, pred));
        self.call_first(code, Call { next, many, cut }, pred, first, rules)
    }

    /// A predicate is asked with the arguments at hand in the last query of a rule, which goes on where the rule does, unless the
    /// rule still has to cut.
    #[inline(always)]
    fn ask_last_rules<'p>(&mut self, code: &'p Code, pred: u16, many: bool) -> Now<'p>
        requires room { HasRoom self.old }
        requires built { IsBuilt code.now }
        requires args { AreRefs (meaning_of self.old.arena) self.old.args.items }
        ensures { AsksLast code.now self.old pred many self.new result }
    {
        match self.frame_at_hand() {
            Some(frame) if frame.many => {
                self.frame = frame.behind;
                self.inner = frame.inner;
                self.ask_rules(code, pred, many, frame.next)
            }
            _ => {
                self.inner = 0;
                self.ask_rules(code, pred, many, 0)
            }
        }
    }

    /// A predicate is asked.
    #[inline(always)]
    pub fn ask<'p>(
        &mut self,
        tables: &Tables,
        code: &'p Code,
        pred: u16,
        terms: &[Term],
        many: bool,
        next: u32,
    ) -> Now<'p>
        requires some { (l : Limits) × (m : Mid) × Holds code.now l self.old m }
        requires built { IsBuilt code.now }
        requires terms { AreArguments terms.now }
        ensures { (rest : List TheOp) → DoesOp tables.now code.now self.old (op.Ask pred terms.now many next) rest self.new result }
    {
        match self.put_args(tables, terms) {
            Err(_) => Now::Ended(Ending::HeapLimit),
            Ok(()) => self.ask_rules(code, pred, many, next),
        }
    }

    /// A predicate is asked in the last query of a rule.
    #[inline(always)]
    pub fn ask_last<'p>(
        &mut self,
        tables: &Tables,
        code: &'p Code,
        pred: u16,
        terms: &[Term],
        many: bool,
    ) -> Now<'p>
        requires some { (l : Limits) × (m : Mid) × Holds code.now l self.old m }
        requires built { IsBuilt code.now }
        requires terms { AreArguments terms.now }
        ensures { (rest : List TheOp) → DoesOp tables.now code.now self.old (op.LastAsk pred terms.now many) rest self.new result }
    {
        match self.put_args(tables, terms) {
            Err(_) => Now::Ended(Ending::HeapLimit),
            Ok(()) => self.ask_last_rules(code, pred, many),
        }
    }

    /// A rule of so many variables and a head of flat terms that take so many cells is entered.
    fn enter_flat(&mut self, vars: u16, head: &[Term], cells: u32) -> Did
        requires room { HasRoom self.old }
        requires args { AreRefs (meaning_of self.old.arena) self.old.args.items }
        requires flat { FlatTerms head.now cells }
        ensures { (t : TheTables) → (code : TheCode) → (rest : Bor (List TheOp)) →
            EntersIn t code self.old self.old.call vars head.now rest.now self.new (comes_to result rest) }
    {
        let number = self.arena.vars();
        if (self.arena.room() as u64) < 6 + vars as u64 + cells as u64 {
            return Did::Ends(Ending::HeapLimit);
        }
        let row = self.fit_rule(vars);
        match self.match_head(row, number, head, cells) {
            Err(_) => Did::Ends(Ending::TrailLimit),
            Ok(false) => Did::Fails,
            Ok(true) => {
                self.push_frame(self.call, row);
                Did::GoesOn
            }
        }
    }

    /// A rule of so many variables and this head is entered; the values of its head are written first.
    fn enter_written(&mut self, tables: &Tables, vars: u16, head: &[Term]) -> Did
        requires room { HasRoom self.old }
        requires args { AreRefs (meaning_of self.old.arena) self.old.args.items }
        requires head { AreArguments head.now }
        ensures { (code : TheCode) → (rest : Bor (List TheOp)) →
            EntersIn tables.now code self.old self.old.call vars head.now rest.now self.new (comes_to result rest) }
    {
        match self.make_head(tables, vars, head) {
            Err(_) => Did::Ends(Ending::HeapLimit),
            Ok(row) => match self.match_args() {
                Err(_) => Did::Ends(Ending::TrailLimit),
                Ok(false) => Did::Fails,
                Ok(true) => {
                    self.push_frame(self.call, row);
                    Did::GoesOn
                }
            },
        }
    }

    /// A rule of so many variables and this head is entered.
    #[inline(never)]
    fn enter(&mut self, tables: &Tables, vars: u16, head: &Head) -> Did
        requires room { HasRoom self.old }
        requires args { AreRefs (meaning_of self.old.arena) self.old.args.items }
        requires head { AreArguments head.now }
        ensures { (code : TheCode) → (rest : Bor (List TheOp)) →
            EntersIn tables.now code self.old self.old.call vars head.now rest.now self.new (comes_to result rest) }
    {
        let terms = head.terms();
        match head.flat_cells() {
            Some(cells) => self.enter_flat(vars, terms, cells),
            None => self.enter_written(tables, vars, terms),
        }
    }

    /// The body of a closure is entered, whose argument, if there is one, is the second at hand.
    fn enter_body<'p>(
        &mut self,
        code: &'p Code,
        call: Call,
        body: BodyCode,
        closure: Ref,
    ) -> Now<'p>
        requires room { HasRoom self.old }
        requires built { IsBuilt code.now }
        requires args { (v : Value) × (vs : List Value) × RefsAt (meaning_of self.old.arena) self.old.args.items (v ∷ vs) }
        requires closure { (place : ℕ) × (parts : Values) × IsClosureAt (meaning_of self.old.arena) closure place parts }
        ensures { EntersBody code.now self.old call body closure self.new result }
    {
        match self.make_rule(body.own) {
            Err(_) => Now::Ended(Ending::HeapLimit),
            Ok(own) => {
                let row = body_row(&self.arena, closure, own);
                match self.match_parameter(row) {
                    Err(_) => Now::Ended(Ending::TrailLimit),
                    Ok(false) => Now::Fails,
                    Ok(true) => {
                        self.push_frame(call, row);
                        Now::Runs(code_at(code, body.block))
                    }
                }
            }
        }
    }

    /// The body of a closure is entered by the last query of a rule, which goes on where the rule does, unless the rule still has to
    /// cut.
    fn enter_last_body<'p>(
        &mut self,
        code: &'p Code,
        many: bool,
        body: BodyCode,
        closure: Ref,
    ) -> Now<'p>
        requires room { HasRoom self.old }
        requires built { IsBuilt code.now }
        requires args { (v : Value) × (vs : List Value) × RefsAt (meaning_of self.old.arena) self.old.args.items (v ∷ vs) }
        requires closure { (place : ℕ) × (parts : Values) × IsClosureAt (meaning_of self.old.arena) closure place parts }
        ensures { EntersLastBody code.now self.old many body closure self.new result }
    {
        let cut = self.arena.heap();
        match self.frame_at_hand() {
            Some(frame) if frame.many => {
                self.frame = frame.behind;
                self.inner = frame.inner;
                self.enter_body(
                    code,
                    Call {
                        next: frame.next,
                        many,
                        cut,
                    },
                    body,
                    closure,
                )
            }
            _ => {
                self.inner = 0;
                self.enter_body(code, Call { next: 0, many, cut }, body, closure)
            }
        }
    }

    /// The body that the first argument asks, with its closure, if it asks one.
    fn asked_body(&self, code: &Code) -> Option<(BodyCode, Ref)>
        requires { (v : Value) × (vs : List Value) × RefsAt (meaning_of self.now.arena) self.now.args.items (v ∷ vs) }
        ensures { (l : Limits) → (m : Mid) → (v : Value) → (vs : List Value) → Holds code.now l self.now m →
            RefsAt (meaning_of self.now.arena) self.now.args.items (v ∷ vs) → IsAsked code.now (meaning_of self.now.arena) (walk m.state.subst v) result }
    {
        match self.closure_arg() {
            None => None,
            Some((place, closure)) => match body_of(code, place) {
                None => None,
                Some(body) => Some((body, closure)),
            },
        }
    }

    /// The first argument is asked with the second, if there is one.
    fn query_first<'p>(&mut self, code: &'p Code, many: bool, next: u32) -> Now<'p>
        requires some { (l : Limits) × (m : Mid) × Holds code.now l self.old m }
        requires built { IsBuilt code.now }
        requires args { (v : Value) × (vs : List Value) × RefsAt (meaning_of self.old.arena) self.old.args.items (v ∷ vs) }
        ensures { QueriesFirst code.now self.old many next self.new result }
    {
        match self.asked_body(code) {
            None => Now::Fails,
            Some((body, closure)) => {
                let cut = self.arena.heap();
                self.enter_body(code, Call { next, many, cut }, body, closure)
            }
        }
    }

    /// The first argument is asked with the second, if there is one, in the last query of a rule.
    fn query_last_first<'p>(&mut self, code: &'p Code, many: bool) -> Now<'p>
        requires some { (l : Limits) × (m : Mid) × Holds code.now l self.old m }
        requires built { IsBuilt code.now }
        requires args { (v : Value) × (vs : List Value) × RefsAt (meaning_of self.old.arena) self.old.args.items (v ∷ vs) }
        ensures { QueriesLast code.now self.old many self.new result }
    {
        match self.asked_body(code) {
            None => Now::Fails,
            Some((body, closure)) => self.enter_last_body(code, many, body, closure),
        }
    }

    /// A closure is asked.
    #[inline(always)]
    pub fn query<'p>(
        &mut self,
        tables: &Tables,
        code: &'p Code,
        a: &Term,
        b: &Option<Term>,
        many: bool,
        next: u32,
    ) -> Now<'p>
        requires some { (l : Limits) × (m : Mid) × Holds code.now l self.old m }
        requires built { IsBuilt code.now }
        ensures { (rest : List TheOp) → DoesOp tables.now code.now self.old (op.Query a.now b.now many next) rest self.new result }
    {
        match self.put_query(tables, a, b) {
            Err(_) => Now::Ended(Ending::HeapLimit),
            Ok(()) => {
                let now = self.query_first(code, many, next);
                now
            }
        }
    }

    /// A closure is asked in the last query of a rule.
    #[inline(always)]
    pub fn query_last<'p>(
        &mut self,
        tables: &Tables,
        code: &'p Code,
        a: &Term,
        b: &Option<Term>,
        many: bool,
    ) -> Now<'p>
        requires some { (l : Limits) × (m : Mid) × Holds code.now l self.old m }
        requires built { IsBuilt code.now }
        ensures { (rest : List TheOp) → DoesOp tables.now code.now self.old (op.LastQuery a.now b.now many) rest self.new result }
    {
        match self.put_query(tables, a, b) {
            Err(_) => Now::Ended(Ending::HeapLimit),
            Ok(()) => {
                let now = self.query_last_first(code, many);
                now
            }
        }
    }

    /// A call enters a rule.
    #[inline(always)]
    pub fn enter_rule<'p>(&mut self, tables: &Tables, ops: &'p [Op]) -> Now<'p>
        requires room { HasRoom self.old }
        requires args { AreRefs (meaning_of self.old.arena) self.old.args.items }
        requires built { OpsBuilt ops.now }
        ensures { (code : TheCode) → EntersRule tables.now code self.old self.old.call ops.entry self.new result }
    {
        match ops {
            [] => Now::Fails,
            [op, rest @ ..] => match op {
                Op::Enter(vars, head) => {
                    let did = self.enter(tables, *vars, head);
                    behind(did, rest)
                }
                _ => Now::Fails,
            },
        }
    }

    /// An inner construct of this height is left that isn't kept.
    pub fn leave_around<'p>(&mut self, height: u32, ops: &'p [Op]) -> Now<'p>
        ensures { (code : TheCode) → LeavesAround code self.old height ops.entry self.new result }
    {
        self.cut(height);
        Now::Runs(ops)
    }
}
