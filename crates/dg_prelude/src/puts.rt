// Parts of a tree, made of short forms.
ghost use Rattle.std.specs.Prelude.{◌≡◌, ◌++◌, ◌∷◌, [], map, IfOk, OnOk};
ghost use Rattle.dg_base.specs.Tree as tree;
ghost use Rattle.dg_base.specs.Tree.{parts_of, values_of, stmts_of, arms_of};
ghost use Rattle.dg_base.specs.TreeView.{part_view, value_view, stmt_view, arm_view, body_view, head_view, item_view};
ghost use Rattle.dg_prelude.specs.inside.Short.{short_value, short_part, asking};

use dg_base::{Arm, Body, Boxed, Head, Item, ItemBody, Items, Name, Part, Stmt, Value};
use std::alloc::{AllocError, Global};

/// A variable, by its name, or an anonymous one.
#[derive(Clone, Copy)]
pub enum Short {
    Any,
    Var(&'static str),
}

/// A part of a head: a word, a variable, the empty list, or a list of one variable with a tail.
#[derive(Clone, Copy)]
pub enum Bit {
    Word(&'static str),
    Value(Short),
    Nil,
    Cons(Short, Short),
}

fn name_of(alloc: Global, text: &[u8]) -> Result<Name, AllocError>
    ensures { IfOk result (λ name. name ≡ text.now) }
{
    Items::from_slice(alloc, text)
}

fn value_of(alloc: Global, short: Short) -> Result<Value, AllocError>
    ensures { IfOk result (λ value. value_view value ≡ short_value short) }
{
    match short {
        Short::Any => Ok(Value::Any),
        Short::Var(name) => name_of(alloc, name.as_bytes()).map(Value::Var),
    }
}

fn one_value(alloc: Global, value: Value) -> Result<Items<Value>, AllocError>
    ensures { IfOk result (λ new. values_of (map value_view new) ≡ tree.value (value_view value) tree.no_values) }
{
    let mut values = Items::new(alloc);
    values.push(value)?;
    Ok(values)
}

fn with_tail(values: Items<Value>, tail: Boxed<Value>) -> Value
    ensures { value_view result ≡ tree.tailed_list (values_of (map value_view values)) (value_view tail) }
{
    Value::List(values, Some(tail))
}

fn tailed(alloc: Global, values: Items<Value>, tail: Value) -> Result<Value, AllocError>
    ensures { IfOk result (λ new. value_view new ≡ tree.tailed_list (values_of (map value_view values)) (value_view tail)) }
{
    Ok(with_tail(values, Boxed::new(alloc, tail)?))
}

// A list of one variable with a tail.
fn list_of(alloc: Global, head: Short, tail: Short) -> Result<Value, AllocError>
    ensures { IfOk result (λ value. value_view value ≡ tree.tailed_list (tree.value (short_value head) tree.no_values) (short_value tail)) }
{
    let elements = one_value(alloc, value_of(alloc, head)?)?;
    tailed(alloc, elements, value_of(alloc, tail)?)
}

fn part_of(alloc: Global, bit: Bit) -> Result<Part, AllocError>
    ensures { IfOk result (λ part. part_view part ≡ short_part bit) }
{
    match bit {
        Bit::Word(text) => name_of(alloc, text.as_bytes()).map(Part::Word),
        Bit::Value(short) => value_of(alloc, short).map(Part::Value),
        Bit::Nil => Ok(Part::Value(Value::List(Items::new(alloc), None))),
        Bit::Cons(head, tail) => list_of(alloc, head, tail).map(Part::Value),
    }
}

fn parts_from(alloc: Global, bits: &[Bit]) -> Result<Items<Part>, AllocError>
    ensures { IfOk result (λ parts. map part_view parts ≡ map short_part bits.now) }
{
    let mut parts = Items::new(alloc);
    for bit in bits {
        parts.push(part_of(alloc, *bit)?)?;
    }
    Ok(parts)
}

fn head_of(alloc: Global, bits: &[Bit]) -> Result<Head, AllocError>
    ensures { IfOk result (λ head. head_view head ≡ parts_of (map short_part bits.now)) }
{
    let parts = parts_from(alloc, bits)?;
    Ok(Head { parts })
}

/// A query of the first answer.
pub fn ask(alloc: Global, bits: &[Bit]) -> Result<Stmt, AllocError>
    ensures { IfOk result (λ new. stmt_view new ≡ tree.ask (parts_of (map short_part bits.now))) }
{
    head_of(alloc, bits).map(Stmt::Ask)
}

/// A query of all answers.
pub fn ask_all(alloc: Global, bits: &[Bit]) -> Result<Stmt, AllocError>
    ensures { IfOk result (λ new. stmt_view new ≡ tree.ask_all (parts_of (map short_part bits.now))) }
{
    head_of(alloc, bits).map(Stmt::AskAll)
}

fn body_of(alloc: Global, stmts: Items<Stmt>) -> Result<Body, AllocError>
    ensures { IfOk result (λ new. body_view new ≡ tree.branch (stmts_of (map stmt_view stmts)) tree.no_branches) }
{
    let mut branches = Items::new(alloc);
    branches.push(stmts)?;
    Ok(Body { branches })
}

/// A body without statements.
pub fn no_body(alloc: Global) -> Result<Body, AllocError>
    ensures { IfOk result (λ new. body_view new ≡ tree.branch tree.no_stmts tree.no_branches) }
{
    body_of(alloc, Items::new(alloc))
}

/// A body of one statement.
pub fn one_stmt(alloc: Global, stmt: Stmt) -> Result<Body, AllocError>
    ensures { IfOk result (λ new. body_view new ≡ tree.branch (tree.stmt (stmt_view stmt) tree.no_stmts) tree.no_branches) }
{
    let mut stmts = Items::new(alloc);
    stmts.push(stmt)?;
    body_of(alloc, stmts)
}

fn ask_body(alloc: Global, bits: &[Bit]) -> Result<Body, AllocError>
    ensures { IfOk result (λ new. body_view new ≡ asking bits.now) }
{
    one_stmt(alloc, ask(alloc, bits)?)
}

fn one_arm(alloc: Global, condition: Body, body: Body) -> Result<Items<Arm>, AllocError>
    ensures { IfOk result (λ new. arms_of (map arm_view new) ≡ tree.arm (body_view condition) (body_view body) tree.no_arms) }
{
    let mut arms = Items::new(alloc);
    arms.push(Arm { condition, body })?;
    Ok(arms)
}

fn choice_of(arms: Items<Arm>, other: Body) -> Stmt
    ensures { stmt_view result ≡ tree.choice_else (arms_of (map arm_view arms)) (body_view other) }
{
    Stmt::If(arms, Some(other))
}

/// A choice between two queries by a third.
pub fn choice(alloc: Global, test: &[Bit], then: &[Bit], other: &[Bit]) -> Result<Stmt, AllocError>
    ensures { IfOk result
        (λ new. stmt_view new ≡ tree.choice_else (tree.arm (asking test.now) (asking then.now) tree.no_arms) (asking other.now)) }
{
    let condition = ask_body(alloc, test)?;
    let body = ask_body(alloc, then)?;
    let arms = one_arm(alloc, condition, body)?;
    Ok(choice_of(arms, ask_body(alloc, other)?))
}

/// A rule, by its line.
pub fn rule(alloc: Global, line: u32, bits: &[Bit], body: Body) -> Result<Item, AllocError>
    ensures { IfOk result (λ new. item_view new ≡ record { line = line; said = tree.rule (parts_of (map short_part bits.now)) (body_view body) }) }
{
    let head = head_of(alloc, bits)?;
    Ok(Item {
        line,
        body: ItemBody::Rule(head, body),
    })
}
