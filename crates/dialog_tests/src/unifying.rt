// A table of unifications, made by hand.
ghost use Rattle.std.specs.Prelude.{All, IfOk};
ghost use Rattle.dg_unify.specs.Store.{Holds, Kept};

use crate::checks::same;
use dg_arena::Arena;
use dg_base::Simple;
use dg_unify::{Bindings, Full, ListBindings, Ref, View, unify};
use std::test::Fail;

// A value: a variable by its number, a value without parts, a pair, a closure with one captured value, or an unknown word
// of two letters.
#[derive(Clone, Copy)]
enum Tree {
    Var(usize),
    Is(Simple),
    Pair(&'static Tree, &'static Tree),
    Closure(u16, &'static Tree),
    Unknown(u16, u16),
}

fn build<B: Bindings>(store: &mut B, vars: &[Ref], tree: &Tree) -> Result<Ref, Full>
    requires { All (Holds (B.meaning store.old)) vars.now }
    ensures kept { Kept (B.meaning store.old) (B.meaning store.new) }
    ensures holds { IfOk result (λ r. Holds (B.meaning store.new) r) }
{
    match tree {
        Tree::Var(n) => match vars.get(*n) {
            Some(var) => Ok(*var),
            None => store.value(Simple::Nil),
        },
        Tree::Is(value) => store.value(*value),
        Tree::Pair(head, tail) => match build(store, vars, head) {
            Err(e) => Err(e),
            Ok(first) => match build(store, vars, tail) {
                Err(e) => Err(e),
                Ok(second) => store.pair(first, second),
            },
        },
        Tree::Closure(place, captured) => match build(store, vars, captured) {
            Err(e) => Err(e),
            Ok(value) => store.closure(*place, &[value]),
        },
        Tree::Unknown(first, second) => store.unknown(&[*first, *second]),
    }
}

// Whether the two values unify, and what the two variables are then.
fn answer<B: Bindings>(store: &mut B, a: &Tree, b: &Tree) -> Result<(bool, View, View), Full> {
    let x = store.fresh()?;
    let y = store.fresh()?;
    let vars = [x, y];
    let left = build(store, &vars, a)?;
    let right = build(store, &vars, b)?;
    let agreed = unify(store, left, right)?;
    Ok((agreed, store.walk(x), store.walk(y)))
}

const X: Tree = Tree::Var(0);

const Y: Tree = Tree::Var(1);

const ONE: Tree = Tree::Is(Simple::Num(1));

const TWO: Tree = Tree::Is(Simple::Num(2));

const WORD: Tree = Tree::Is(Simple::Word(1));

const NIL: Tree = Tree::Is(Simple::Nil);

const ONE_TWO: Tree = Tree::Pair(&ONE, &Tree::Pair(&TWO, &NIL));

const X_TWO: Tree = Tree::Pair(&X, &TWO);

const ONE_Y: Tree = Tree::Pair(&ONE, &Y);

const AB: Tree = Tree::Unknown(97, 98);

// The two variables where nothing is bound, and the two numbers.
const FREE: View = View::Unbound(Ref(0));

const OTHER: View = View::Unbound(Ref(1));

const IS_ONE: View = View::Simple(Simple::Num(1));

const IS_TWO: View = View::Simple(Simple::Num(2));

// Two values; whether they unify, and what the two variables are then.
const CASES: &[(Tree, Tree, (bool, View, View))] = &[
    (ONE, ONE, (true, FREE, OTHER)),
    (ONE, TWO, (false, FREE, OTHER)),
    (ONE, WORD, (false, FREE, OTHER)),
    (X, ONE, (true, IS_ONE, OTHER)),
    (TWO, Y, (true, FREE, IS_TWO)),
    (X, Y, (true, FREE, FREE)),
    (Y, X, (true, FREE, FREE)),
    (X, X, (true, FREE, OTHER)),
    (NIL, Tree::Pair(&TWO, &NIL), (false, FREE, OTHER)),
    (X, Tree::Pair(&ONE, &X), (false, FREE, OTHER)),
    (X_TWO, ONE_Y, (true, IS_ONE, IS_TWO)),
    (
        Tree::Pair(&X, &X),
        Tree::Pair(&ONE, &TWO),
        (false, IS_ONE, OTHER),
    ),
    (
        Tree::Pair(&X, &Y),
        Tree::Pair(&Y, &TWO),
        (true, IS_TWO, IS_TWO),
    ),
    (
        ONE_TWO,
        Tree::Pair(&X, &Tree::Pair(&Y, &NIL)),
        (true, IS_ONE, IS_TWO),
    ),
    (
        ONE_TWO,
        Tree::Pair(&X, &Tree::Pair(&Y, &ONE)),
        (false, IS_ONE, IS_TWO),
    ),
    (Tree::Closure(3, &Y), Y, (false, FREE, OTHER)),
    (
        Tree::Closure(3, &X),
        Tree::Closure(3, &TWO),
        (true, IS_TWO, OTHER),
    ),
    (
        Tree::Closure(3, &X),
        Tree::Closure(4, &TWO),
        (false, FREE, OTHER),
    ),
    (AB, AB, (true, FREE, OTHER)),
    (AB, Tree::Unknown(97, 99), (false, FREE, OTHER)),
    (AB, WORD, (false, FREE, OTHER)),
];

#[test]
fn values_unify(rt: HostRuntime) -> Result<(), Fail> {
    for (left, right, wanted) in CASES {
        let mut store = ListBindings::new(rt.alloc(), 100, 100);
        let found = answer(&mut store, left, right)?;
        same(&rt, &found, wanted, "two values");
    }
    Ok(())
}

#[test]
fn an_arena_holds_values_and_blocks(rt: HostRuntime) -> Result<(), Fail> {
    let mut arena = Arena::new(rt.alloc(), 100, 100)?;
    let block = arena.block(&[70_000, 7])?;
    same(&rt, &arena.word(block), &70_000, "a word");
    let found = answer(&mut arena, &X_TWO, &ONE_Y)?;
    same(&rt, &found, &(true, IS_ONE, IS_TWO), "two pairs");
    let mut full = Arena::new(rt.alloc(), 7, 100)?;
    let failed = answer(&mut full, &X_TWO, &ONE_Y).err();
    same(&rt, &failed, &Some(Full::Heap), "a full heap");
    Ok(())
}
