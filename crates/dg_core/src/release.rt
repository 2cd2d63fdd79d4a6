// Lets go of what a program holds, however deep, without recursion.

use dg_base::{ClosureBody, CoreProgram, Goal, Items, Place, Pred, Rule, Term};
use sqlite_items::Boxed;
use std::alloc::Global;

// What is left of a program that is let go. Where no memory is found for what joins it, that is let go at once, by recursion.
#[derive(Drop)]
struct Scraps {
    terms: Items<Term>,
    goals: Items<Goal>,
    lists: Items<Items<Goal>>,
}

impl Scraps {
    fn new(alloc: Global) -> Scraps {
        Scraps {
            terms: Items::new(alloc),
            goals: Items::new(alloc),
            lists: Items::new(alloc),
        }
    }

    fn add_terms(&mut self, terms: Items<Term>) {
        let _room = self.terms.append(terms);
    }

    fn add_goals(&mut self, goals: Items<Goal>) {
        let _room = self.goals.append(goals);
    }

    fn add_lists(&mut self, lists: Items<Items<Goal>>) {
        let _room = self.lists.append(lists);
    }

    // Adds the first of a pair, and answers its rest.
    fn take_term(&mut self, term: Term) -> Option<Boxed<Term>> {
        match term {
            Term::Pair(first, rest) => {
                let _room = self.terms.push(first.into_inner());
                Some(rest)
            }
            Term::Num(_) | Term::Word(_) | Term::Object(_) | Term::Var(_) => None,
            Term::Nil | Term::Closure(_) => None,
        }
    }

    fn add_term(&mut self, term: Term) {
        let mut rest = self.take_term(term);
        for _ in 0..u64::MAX {
            match rest {
                Some(next) => rest = self.take_term(next.into_inner()),
                None => return,
            }
        }
    }

    fn add_two(&mut self, first: Term, second: Term) {
        self.add_term(first);
        self.add_term(second);
    }

    fn add_gathering(&mut self, value: Term, goals: Items<Goal>, into: Term) {
        self.add_two(value, into);
        self.add_goals(goals);
    }

    fn add_choice(&mut self, test: Items<Goal>, first: Items<Goal>, other: Items<Goal>) {
        self.add_goals(test);
        self.add_goals(first);
        self.add_goals(other);
    }

    fn add_query(&mut self, closure: Term, with: Option<Term>) {
        self.add_term(closure);
        if let Some(term) = with {
            self.add_term(term);
        }
    }

    // Takes a goal apart.
    fn add_goal(&mut self, goal: Goal) {
        match goal {
            Goal::Text(_name) => {}
            Goal::Print(a) | Goal::GapN(a) | Goal::Test(_, a) => self.add_term(a),
            Goal::IsObject(a, _) | Goal::Input(a) => self.add_term(a),
            Goal::Equal(a, b) | Goal::Compare(_, a, b) => self.add_two(a, b),
            Goal::SplitWord(a, b) | Goal::JoinWords(a, b) => self.add_two(a, b),
            Goal::Arith(_, a, b, c) | Goal::Random(a, b, c) => {
                self.add_two(a, b);
                self.add_term(c);
            }
            Goal::Query(a, b, _) => self.add_query(a, b),
            Goal::Ask(_, args, _) | Goal::Holds(_, args, _) => self.add_terms(args),
            Goal::Now(_, args, _) => self.add_terms(args),
            Goal::Either(lists) | Goal::Select(_, _, lists) => self.add_lists(lists),
            Goal::Once(goals) | Goal::Not(goals) => self.add_goals(goals),
            Goal::Exhaust(goals) | Goal::Stoppable(goals) => self.add_goals(goals),
            Goal::If(test, first, other) => self.add_choice(test, first, other),
            Goal::Collect(a, goals, b) | Goal::Accumulate(a, goals, b) => {
                self.add_gathering(a, goals, b)
            }
            Goal::Gap(_) | Goal::Just | Goal::Fail => {}
            Goal::Stop | Goal::Quit | Goal::Forever => {}
        }
    }

    // Takes one of what is left apart, where one is left.
    fn take(&mut self) -> bool {
        if let Some(term) = self.terms.pop() {
            self.add_term(term);
        } else if let Some(goal) = self.goals.pop() {
            self.add_goal(goal);
        } else if let Some(goals) = self.lists.pop() {
            self.add_goals(goals);
        } else {
            return false;
        }
        true
    }

    // Takes apart all that is left.
    fn clear(&mut self) {
        for _ in 0..u64::MAX {
            if !self.take() {
                return;
            }
        }
    }

    fn clear_rule(&mut self, rule: Rule) {
        self.add_terms(rule.head);
        self.add_goals(rule.body);
        self.clear();
    }

    fn clear_rules(&mut self, mut rules: Items<Rule>) {
        for _ in 0..u64::MAX {
            match rules.pop() {
                Some(rule) => self.clear_rule(rule),
                None => return,
            }
        }
    }

    fn clear_preds(&mut self, mut preds: Items<Pred>) {
        for _ in 0..u64::MAX {
            match preds.pop() {
                Some(pred) => self.clear_rules(pred.rules),
                None => return,
            }
        }
    }

    fn clear_closures(&mut self, mut closures: Items<ClosureBody>) {
        for _ in 0..u64::MAX {
            match closures.pop() {
                Some(closure) => self.add_goals(closure.body),
                None => return,
            }
            self.clear();
        }
    }

    fn clear_start(&mut self, mut start: Items<(u16, Term)>) {
        for _ in 0..u64::MAX {
            match start.pop() {
                Some((_, value)) => self.add_term(value),
                None => return,
            }
            self.clear();
        }
    }

    fn clear_places(&mut self, mut places: Items<Place>) {
        for _ in 0..u64::MAX {
            match places.pop() {
                Some(place) => self.clear_start(place.start),
                None => return,
            }
        }
    }
}

/// Lets go of rules without recursion.
pub fn let_go_rules(alloc: Global, rules: Items<Rule>) {
    let mut scraps = Scraps::new(alloc);
    scraps.clear_rules(rules);
}

/// Lets go of places without recursion.
pub fn let_go_places(alloc: Global, places: Items<Place>) {
    let mut scraps = Scraps::new(alloc);
    scraps.clear_places(places);
}

/// Lets go of a program without recursion.
pub fn let_go(alloc: Global, program: CoreProgram) {
    let mut scraps = Scraps::new(alloc);
    scraps.clear_preds(program.preds);
    scraps.clear_closures(program.closures);
    scraps.clear_places(program.places);
}
