// What a choice of words puts before the body of its rule.
ghost use Rattle.std.specs.Prelude.{◌≡◌, map, IfOk};
ghost use Rattle.dg_base.specs.Tree as tree;
ghost use Rattle.dg_base.specs.Tree.{parts_of, stmts_of};
ghost use Rattle.dg_base.specs.TreeView.{part_view, stmt_view, body_view, head_view, branches_view};
ghost use Rattle.dg_plain.specs.Plain as spec;

use crate::fresh::copied;
use dg_base::{Body, Head, Items, Name, Part, Stmt, Value, put};
use std::alloc::{AllocError, Global};

/// A head of these parts.
fn head_of(parts: Vec<Part>) -> Head
    ensures { head_view result ≡ parts_of (map part_view parts.items) }
{
    Head {
        parts: Items::from_vec(parts),
    }
}

/// A body of these branches.
pub fn body_of(branches: Vec<Items<Stmt>>) -> Body
    ensures { body_view result ≡ branches_view (map (map stmt_view) branches.items) }
{
    Body {
        branches: Items::from_vec(branches),
    }
}

/// One statement.
pub fn one_stmt(alloc: Global, stmt: Stmt) -> Result<Items<Stmt>, AllocError>
    ensures { IfOk result (λ new. stmts_of (map stmt_view new) ≡ tree.stmt (stmt_view stmt) tree.no_stmts) }
{
    let mut stmts = Items::new(alloc);
    stmts.push(stmt)?;
    Ok(stmts)
}

// The parts of `($S = @word)`, of a variable and a word.
fn test_parts(alloc: Global, name: &[u8], word: &[u8]) -> Result<Vec<Part>, AllocError>
    ensures { IfOk result (λ new. parts_of (map part_view new.items) ≡ spec.test_parts name.now word.now) }
{
    let mut parts = Vec::new(alloc);
    put(&mut parts, Part::Value(Value::Var(copied(alloc, name)?)))?;
    put(&mut parts, Part::Word(copied(alloc, b"=")?))?;
    put(&mut parts, Part::Value(Value::Word(copied(alloc, word)?)))?;
    Ok(parts)
}

fn word_branch(alloc: Global, name: &[u8], word: &[u8]) -> Result<Items<Stmt>, AllocError>
    ensures { IfOk result (λ new. stmts_of (map stmt_view new) ≡ tree.stmt (tree.ask (spec.test_parts name.now word.now)) tree.no_stmts) }
{
    one_stmt(alloc, Stmt::Ask(head_of(test_parts(alloc, name, word)?)))
}

// A branch for each word.
#[tactic(auto, using(std::proofs::lemmas::Grind::common_steps, crate::proofs::Before::branches_end, crate::proofs::Before::branches_push))]
fn word_branches(alloc: Global, name: &[u8], words: &[Name]) -> Result<Body, AllocError>
    ensures { IfOk result (λ new. body_view new ≡ spec.word_branches name.now words.now) }
{
    let mut branches = Vec::new(alloc);
    for word in words {
        put(&mut branches, word_branch(alloc, name, word.as_slice())?)?;
    }
    Ok(body_of(branches))
}

/// A choice between the words for a variable of this name.
pub fn choice_test(alloc: Global, name: &[u8], words: &[Name]) -> Result<Stmt, AllocError>
    ensures { IfOk result (λ new. stmt_view new ≡ tree.group (spec.word_branches name.now words.now)) }
{
    word_branches(alloc, name, words).map(Stmt::Group)
}
