// What a program counts, held against what a story has room for.
ghost use Rattle.std.specs.Prelude.{◌≡◌, ◌<◌, ◌≤◌, ◌+◌, ◌*◌, [], ◌∷◌, length, nat_le, OnOk, IfOk, IsErrOf};
ghost use Rattle.dg_base.specs.declared.program.Goal.{out-Goal};
ghost use Rattle.dg_base.specs.Goals.{terms_held, option_terms};
ghost use Rattle.dg_meaning.specs.Render.{characters};
ghost use Rattle.dg_fits.specs.Sizes as spec;
ghost use Rattle.dg_story.specs.inside.Counting.{part_size, left_size, lists_size, whole_size, Counted, Lacks};
ghost use Rattle.dg_story.specs.declared.refusal.Lack.TheVariants.{Room};

use crate::refusal::Lack;
use dg_base::{ClosureBody, CoreProgram, Goal, Items, Name, Place, PlaceKind, Pred, Rule, Term};
use std::alloc::{AllocError, Global};

/// The bytes that the world may take.
const WORLD: u64 = 8_000;

/// The bytes that the words may take.
const WORDS: usize = 20_000;

/// What the nodes and the characters may come to.
const STORY: usize = 440_000;

/// What a node counts, and a character.
const NODE: usize = 100;

const CHARACTER: usize = 6;

fn place_size(kind: PlaceKind, objects: u64) -> u64
    requires { objects ≤ 65535 }
    ensures size { result ≡ spec.place_size objects kind }
    ensures few { result ≤ 131070 }
{
    match kind {
        PlaceKind::Flag => 2,
        PlaceKind::ObjectFlag => objects,
        PlaceKind::ObjectVar | PlaceKind::Parent => 2 * objects,
        PlaceKind::Global => 4,
    }
}

/// Whether the world fits into a story.
pub fn world_fits(places: &[Place], objects: u16) -> bool
    requires { length places.now ≤ 65535 }
    ensures { result ≡ nat_le (spec.places_size objects places.now) 8000 }
{
    let mut size = 0;
    for place in places {
        size += place_size(place.kind, u64::from(objects));
    }
    size <= WORLD
}

/// Whether the words fit into a story.
pub fn words_fit(words: &[Name]) -> bool
    ensures { result ≡ nat_le (spec.words_size words.now) 20000 }
{
    let mut room = WORDS;
    for word in words {
        if room < 3 || word.len() > room - 3 {
            return false;
        }
        room -= word.len() + 3;
    }
    true
}

/// What is still to be counted.
#[derive(Clone, Copy)]
pub enum Left<'p> {
    Goals(&'p [Goal]),
    Term(&'p Term),
}

/// The room that is left, and what is still to be counted.
#[derive(Drop)]
pub struct Count<'p> {
    pub room: usize,
    pub left: Items<Left<'p>>,
}

impl<'p> Count<'p> {
    // Takes room.
    fn take(&mut self, size: usize) -> Result<(), Lack>
        ensures counted { OnOk result (Counted (size) self.old self.new) }
        ensures lacks { IsErrOf result Room → Lacks (size) self.old }
    {
        if self.room < size {
            return Err(Lack::Room);
        }
        self.room -= size;
        Ok(())
    }

    fn take_name(&mut self, name: &[u8]) -> Result<(), Lack>
        ensures counted { OnOk result (Counted (6 * characters name.now) self.old self.new) }
        ensures lacks { IsErrOf result Room → Lacks (6 * characters name.now) self.old }
    {
        for byte in name {
            if *byte < 128 || 192 <= *byte {
                self.take(CHARACTER)?;
            }
        }
        Ok(())
    }

    fn take_names(&mut self, names: &[Name]) -> Result<(), Lack>
        ensures counted { OnOk result (Counted (spec.names_size names.now) self.old self.new) }
        ensures lacks { IsErrOf result Room → Lacks (spec.names_size names.now) self.old }
    {
        for name in names {
            self.take_name(name.as_slice())?;
        }
        Ok(())
    }

    #[tactic(auto, using(crate::proofs::CountLemmas::left_append))]
    fn add(&mut self, left: Left<'p>) -> Result<(), Lack>
        ensures counted { OnOk result (Counted (part_size left.entry) self.old self.new) }
        ensures lacks { IsErrOf result Room → Lacks (part_size left.entry) self.old }
    {
        self.left.push(left)?;
        Ok(())
    }

    fn add_two(&mut self, a: &'p Term, b: &'p Term) -> Result<(), Lack>
        ensures counted { OnOk result (Counted (spec.term_size a.now + spec.term_size b.now) self.old self.new) }
        ensures lacks { IsErrOf result Room → Lacks (spec.term_size a.now + spec.term_size b.now) self.old }
    {
        self.add(Left::Term(a))?;
        self.add(Left::Term(b))
    }

    fn add_terms(&mut self, terms: &'p [Term]) -> Result<(), Lack>
        ensures counted { OnOk result (Counted (spec.terms_size terms.now) self.old self.new) }
        ensures lacks { IsErrOf result Room → Lacks (spec.terms_size terms.now) self.old }
    {
        for term in terms {
            self.add(Left::Term(term))?;
        }
        Ok(())
    }

    fn add_query(&mut self, a: &'p Term, b: &'p Option<Term>) -> Result<(), Lack>
        ensures counted { OnOk result (Counted (spec.terms_size (a.now ∷ option_terms b.now)) self.old self.new) }
        ensures lacks { IsErrOf result Room → Lacks (spec.terms_size (a.now ∷ option_terms b.now)) self.old }
    {
        if let Some(b) = b {
            self.add(Left::Term(b))?;
        }
        self.add(Left::Term(a))
    }

    // Adds a list of goals that a goal holds.
    fn add_list(&mut self, goals: &'p Items<Goal>) -> Result<(), Lack>
        ensures counted { OnOk result (Counted (100 + spec.body_size goals.now) self.old self.new) }
        ensures lacks { IsErrOf result Room → Lacks (100 + spec.body_size goals.now) self.old }
    {
        self.take(NODE)?;
        self.add(Left::Goals(goals.as_slice()))
    }

    fn add_lists(&mut self, lists: &'p [Items<Goal>]) -> Result<(), Lack>
        ensures counted { OnOk result (Counted (lists_size lists.now) self.old self.new) }
        ensures lacks { IsErrOf result Room → Lacks (lists_size lists.now) self.old }
    {
        for goals in lists {
            self.add_list(goals)?;
        }
        Ok(())
    }

    // Adds the terms that a goal holds itself.
    fn add_held(&mut self, goal: &'p Goal) -> Result<(), Lack>
        ensures counted { OnOk result (Counted (spec.terms_size (terms_held (out-Goal goal.now))) self.old self.new) }
        ensures lacks { IsErrOf result Room → Lacks (spec.terms_size (terms_held (out-Goal goal.now))) self.old }
    {
        match goal {
            Goal::Print(a) | Goal::GapN(a) | Goal::Test(_, a) => self.add(Left::Term(a)),
            Goal::IsObject(a, _) | Goal::Input(a) => self.add(Left::Term(a)),
            Goal::Equal(a, b) | Goal::Compare(_, a, b) => self.add_two(a, b),
            Goal::SplitWord(a, b) | Goal::JoinWords(a, b) => self.add_two(a, b),
            Goal::Collect(a, _, b) | Goal::Accumulate(a, _, b) => self.add_two(a, b),
            Goal::Ask(_, terms, _) | Goal::Holds(_, terms, _) => self.add_terms(terms.as_slice()),
            Goal::Now(_, terms, _) => self.add_terms(terms.as_slice()),
            Goal::Query(a, b, _) => self.add_query(a, b),
            Goal::Arith(_, a, b, c) | Goal::Random(a, b, c) => {
                self.add_two(a, b)?;
                self.add(Left::Term(c))
            }
            _ => Ok(()),
        }
    }

    // Adds the lists of goals that a goal holds.
    fn add_inner(&mut self, goal: &'p Goal) -> Result<(), Lack>
        ensures counted { OnOk result (Counted (lists_size (spec.lists_held (out-Goal goal.now))) self.old self.new) }
        ensures lacks { IsErrOf result Room → Lacks (lists_size (spec.lists_held (out-Goal goal.now))) self.old }
    {
        match goal {
            Goal::Either(lists) | Goal::Select(_, _, lists) => self.add_lists(lists.as_slice()),
            Goal::Once(goals) | Goal::Not(goals) => self.add_list(goals),
            Goal::Exhaust(goals) | Goal::Stoppable(goals) => self.add_list(goals),
            Goal::Collect(_, goals, _) | Goal::Accumulate(_, goals, _) => self.add_list(goals),
            Goal::If(test, first, other) => {
                self.add_list(test)?;
                self.add_list(first)?;
                self.add_list(other)
            }
            _ => Ok(()),
        }
    }

    // Counts a goal, and adds what it holds.
    fn goal(&mut self, goal: &'p Goal) -> Result<(), Lack>
        ensures counted { OnOk result (Counted (whole_size (out-Goal goal.now)) self.old self.new) }
        ensures lacks { IsErrOf result Room → Lacks (whole_size (out-Goal goal.now)) self.old }
    {
        self.take(NODE)?;
        if let Goal::Text(name) = goal {
            self.take_name(name.as_slice())?;
        }
        self.add_held(goal)?;
        self.add_inner(goal)
    }

    // Counts the last goal of a list, and adds the others.
    #[tactic(auto, using(crate::proofs::CountLemmas::last_size))]
    fn last_goal(&mut self, goals: &'p [Goal]) -> Result<(), Lack>
        ensures counted { OnOk result (Counted (spec.body_size goals.now) self.old self.new) }
        ensures lacks { IsErrOf result Room → Lacks (spec.body_size goals.now) self.old }
    {
        let [others @ .., last] = goals else {
            return Ok(());
        };
        self.add(Left::Goals(others))?;
        self.goal(last)
    }

    // Counts a node, and adds what it holds.
    fn term(&mut self, term: &'p Term) -> Result<(), Lack>
        ensures counted { OnOk result (Counted (spec.term_size term.now) self.old self.new) }
        ensures lacks { IsErrOf result Room → Lacks (spec.term_size term.now) self.old }
    {
        self.take(NODE)?;
        match term {
            Term::Pair(head, tail) => self.add_two(head.get(), tail.get()),
            _ => Ok(()),
        }
    }

    // Counts all that is left.
    #[tactic(auto, using(crate::proofs::CountLemmas::left_append))]
    fn clear(&mut self) -> Result<(), Lack>
        ensures left { OnOk result (self.new.left ≡ []) }
        ensures counted { OnOk result (Counted (0) self.old self.new) }
        ensures lacks { IsErrOf result Room → Lacks (0) self.old }
    {
        for _turn in 0..u64::MAX {
            match self.left.pop() {
                Some(Left::Goals(goals)) => self.last_goal(goals)?,
                Some(Left::Term(term)) => self.term(term)?,
                None => return Ok(()),
            }
        }
        Err(Lack::Memory)
    }

    fn rules(&mut self, rules: &'p [Rule]) -> Result<(), Lack>
        ensures counted { OnOk result (Counted (spec.rules_size rules.now) self.old self.new) }
        ensures lacks { IsErrOf result Room → Lacks (spec.rules_size rules.now) self.old }
    {
        for rule in rules {
            self.take(NODE)?;
            self.add_terms(rule.head.as_slice())?;
            self.add(Left::Goals(rule.body.as_slice()))?;
            self.clear()?;
        }
        Ok(())
    }

    fn preds(&mut self, preds: &'p [Pred]) -> Result<(), Lack>
        ensures counted { OnOk result (Counted (spec.preds_size preds.now) self.old self.new) }
        ensures lacks { IsErrOf result Room → Lacks (spec.preds_size preds.now) self.old }
    {
        for pred in preds {
            self.take(NODE)?;
            self.rules(pred.rules.as_slice())?;
        }
        Ok(())
    }

    fn starts(&mut self, starts: &'p [(u16, Term)]) -> Result<(), Lack>
        ensures counted { OnOk result (Counted (spec.starts_size starts.now) self.old self.new) }
        ensures lacks { IsErrOf result Room → Lacks (spec.starts_size starts.now) self.old }
    {
        for start in starts {
            self.add(Left::Term(&start.1))?;
            self.clear()?;
        }
        Ok(())
    }

    fn places(&mut self, places: &'p [Place]) -> Result<(), Lack>
        ensures counted { OnOk result (Counted (spec.set_size places.now) self.old self.new) }
        ensures lacks { IsErrOf result Room → Lacks (spec.set_size places.now) self.old }
    {
        for place in places {
            self.starts(place.start.as_slice())?;
        }
        Ok(())
    }

    fn closures(&mut self, closures: &'p [ClosureBody]) -> Result<(), Lack>
        ensures counted { OnOk result (Counted (spec.closures_size closures.now) self.old self.new) }
        ensures lacks { IsErrOf result Room → Lacks (spec.closures_size closures.now) self.old }
    {
        for closure in closures {
            self.take(NODE)?;
            self.add(Left::Goals(closure.body.as_slice()))?;
            self.clear()?;
        }
        Ok(())
    }
}

/// Looks for room for the nodes and characters of a program.
pub fn check_story(alloc: Global, program: &CoreProgram) -> Result<(), Lack>
    ensures fits { IfOk result (λ _. spec.story_size program.now ≤ 440000) }
    ensures lacks { IsErrOf result Room → 440000 < spec.story_size program.now }
{
    let mut count = Count {
        room: STORY,
        left: Items::new(alloc),
    };
    count.take_names(program.words.as_slice())?;
    count.take_names(program.objects.as_slice())?;
    count.preds(program.preds.as_slice())?;
    count.closures(program.closures.as_slice())?;
    count.places(program.places.as_slice())?;
    count.clear()
}
