// Lets go of the terms of code and of a program, however deep, without recursion.

use crate::code::{Action, Block, Code, Op};
use dg_base::{Boxed, Items, Place, Term};
use std::alloc::Global;

// Terms that are let go. Where no memory is found for what joins them, that is let go at once, by recursion.
#[derive(Drop)]
struct Scraps {
    terms: Items<Term>,
}

impl Scraps {
    fn new(alloc: Global) -> Scraps {
        Scraps {
            terms: Items::new(alloc),
        }
    }

    fn add_terms(&mut self, terms: Items<Term>) {
        let _room = self.terms.append(terms);
    }

    // Adds the first of a pair, and answers its rest.
    fn take_term(&mut self, term: Term) -> Option<Boxed<Term>> {
        match term {
            Term::Pair(first, rest) => {
                let _room = self.terms.push(first.into_inner());
                Some(rest)
            }
            Term::Num(_) | Term::Word(_) | Term::Object(_) | Term::Var(_) => None,
            Term::Nil | Term::Closure(_) => None,
        }
    }

    fn add_term(&mut self, term: Term) {
        let mut rest = self.take_term(term);
        for _ in 0..u64::MAX {
            match rest {
                Some(next) => rest = self.take_term(next.into_inner()),
                None => return,
            }
        }
    }

    fn add_two(&mut self, first: Term, second: Term) {
        self.add_term(first);
        self.add_term(second);
    }

    fn add_query(&mut self, closure: Term, with: Option<Term>) {
        self.add_term(closure);
        if let Some(term) = with {
            self.add_term(term);
        }
    }

    fn add_action(&mut self, action: Action) {
        match action {
            Action::Print(a) | Action::GapN(a) => self.add_term(a),
            Action::Test(_, a) | Action::Input(a) => self.add_term(a),
            Action::Equal(a, b) | Action::Compare(_, a, b) => self.add_two(a, b),
            Action::SplitWord(a, b) | Action::JoinWords(a, b) => self.add_two(a, b),
            Action::Now(_, args, _) => self.add_terms(args),
            Action::Arith(_, a, b, c) | Action::Random(a, b, c) => {
                self.add_two(a, b);
                self.add_term(c);
            }
            Action::Text(_name) => {}
            Action::Gap(_) | Action::Just | Action::Fail => {}
            Action::Stop | Action::Quit => {}
        }
    }

    fn add_op(&mut self, op: Op) {
        match op {
            Op::Do(action) => self.add_action(action),
            Op::Ask(_, args, _, _) | Op::LastAsk(_, args, _) => self.add_terms(args),
            Op::Find(_, args, _, _) => self.add_terms(args),
            Op::Enter(_, head) => self.add_terms(head.into_terms()),
            Op::Query(a, b, _, _) | Op::LastQuery(a, b, _) => self.add_query(a, b),
            Op::Collect(a, b, _) => self.add_two(a, b),
            Op::TakeOut(_, a) | Op::Keep(a) => self.add_term(a),
            Op::Select(_, _, _blocks, _) => {}
            Op::Take | Op::Once | Op::Commit | Op::Refuse | Op::Leave => {}
            Op::Branch(_) | Op::Try(_) | Op::Shield(_) | Op::Retry(_) => {}
            Op::Back | Op::Return | Op::Goto(_) | Op::Done => {}
        }
    }

    // Takes apart all that is left.
    fn clear(&mut self) {
        for _ in 0..u64::MAX {
            match self.terms.pop() {
                Some(term) => self.add_term(term),
                None => return,
            }
        }
    }

    fn clear_block(&mut self, block: Block) {
        let Block { ops } = block;
        let mut ops = ops;
        for _ in 0..u64::MAX {
            match ops.pop() {
                Some(op) => self.add_op(op),
                None => return,
            }
            self.clear();
        }
    }

    fn clear_blocks(&mut self, mut blocks: Items<Block>) {
        for _ in 0..u64::MAX {
            match blocks.pop() {
                Some(block) => self.clear_block(block),
                None => return,
            }
        }
    }

    fn clear_start(&mut self, mut start: Items<(u16, Term)>) {
        for _ in 0..u64::MAX {
            match start.pop() {
                Some((_, value)) => self.add_term(value),
                None => return,
            }
            self.clear();
        }
    }
}

/// Lets go of code without recursion.
pub fn let_go(alloc: Global, code: Code) {
    let Code {
        blocks,
        preds: _preds,
        closures: _closures,
    } = code;
    let mut scraps = Scraps::new(alloc);
    scraps.clear_blocks(blocks);
}

/// Lets go of places, with the values that they start with, without recursion.
pub fn let_go_places(alloc: Global, mut places: Items<Place>) {
    let mut scraps = Scraps::new(alloc);
    for _ in 0..u64::MAX {
        match places.pop() {
            Some(place) => scraps.clear_start(place.start),
            None => return,
        }
    }
}
