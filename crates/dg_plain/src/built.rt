// What is built of an item, and how its constructs are closed.
ghost use Rattle.std.specs.Prelude.{◌≡◌, map, OnOk, IfOk};
ghost use Rattle.dg_base.specs.Tree as tree;
ghost use Rattle.dg_base.specs.Tree.{parts_of, values_of, arms_of};
ghost use Rattle.dg_base.specs.TreeView.{value_view, part_view, stmt_view, arm_view, body_view, head_view, change_view, branch_view};
ghost use Rattle.dg_plain.specs.Building.{built_view, front, behind, init, last_or, wrapped, asked, no_stmt, closing, unbuilt};
ghost use Rattle.dg_plain.specs.State.{setting_view};

use crate::release::let_go;
use crate::setting::Setting;
use crate::standing::standing_for;
use crate::work::{Asking, Close, Wrap};
use dg_base::{Arm, Body, Boxed, Head, Items, Mode, NowChange, Part, Stmt, Value, put};
use std::alloc::{AllocError, Global};
use std::mem;

/// The number of the next new name, and what is built so far of each kind, the last of it at the end.
pub struct Built {
    pub at: usize,
    pub values: Vec<Value>,
    pub parts: Vec<Part>,
    pub stmts: Vec<Stmt>,
    pub branches: Vec<Items<Stmt>>,
    pub bodies: Vec<Body>,
    pub arms: Vec<Arm>,
    pub changes: Vec<NowChange>,
    pub puts: Vec<Stmt>,
}

/// Nothing yet.
pub fn unbuilt(alloc: Global) -> Built
    ensures { built_view result ≡ unbuilt }
{
    Built {
        at: 0,
        values: Vec::new(alloc),
        parts: Vec::new(alloc),
        stmts: Vec::new(alloc),
        branches: Vec::new(alloc),
        bodies: Vec::new(alloc),
        arms: Vec::new(alloc),
        changes: Vec::new(alloc),
        puts: Vec::new(alloc),
    }
}

/// The parts of a head, the bodies, and what is put before them. All else that was built stands in these.
pub fn rule_of(alloc: Global, mut built: Built) -> (Vec<Part>, Vec<Body>, Vec<Stmt>)
    ensures parts { result.0 ≡ built.parts }
    ensures bodies { result.1 ≡ built.bodies }
    ensures puts { result.2 ≡ built.puts }
{
    let parts = mem::replace(&mut built.parts, Vec::new(alloc));
    let bodies = mem::replace(&mut built.bodies, Vec::new(alloc));
    let puts = mem::replace(&mut built.puts, Vec::new(alloc));
    let_go(built);
    (parts, bodies, puts)
}

// The last so many of these.
fn last_of<T: Drop>(from: &mut Vec<T>, count: usize) -> Result<Items<T>, AllocError>
    ensures front { OnOk result (from.new.items ≡ front count from.old.items) }
    ensures last { IfOk result (λ last. last ≡ behind count from.old.items) }
{
    let at = from.len().saturating_sub(count);
    Ok(Items::from_vec(from.split_off(at)?))
}

fn last_values(from: &mut Vec<Value>, count: usize) -> Result<Items<Value>, AllocError>
    ensures last { IfOk result (λ last. map value_view last ≡ behind count (map value_view from.old.items)) }
    ensures front { OnOk result (map value_view from.new.items ≡ front count (map value_view from.old.items)) }
{
    Ok(last_of(from, count)?)
}

fn last_stmts(from: &mut Vec<Stmt>, count: usize) -> Result<Items<Stmt>, AllocError>
    ensures last { IfOk result (λ last. map stmt_view last ≡ behind count (map stmt_view from.old.items)) }
    ensures front { OnOk result (map stmt_view from.new.items ≡ front count (map stmt_view from.old.items)) }
{
    Ok(last_of(from, count)?)
}

fn last_branches(
    from: &mut Vec<Items<Stmt>>,
    count: usize,
) -> Result<Items<Items<Stmt>>, AllocError>
    ensures last { IfOk result (λ last. map branch_view last ≡ behind count (map branch_view from.old.items)) }
    ensures front { OnOk result (map branch_view from.new.items ≡ front count (map branch_view from.old.items)) }
{
    Ok(last_of(from, count)?)
}

fn last_arms(from: &mut Vec<Arm>, count: usize) -> Result<Items<Arm>, AllocError>
    ensures last { IfOk result (λ last. map arm_view last ≡ behind count (map arm_view from.old.items)) }
    ensures front { OnOk result (map arm_view from.new.items ≡ front count (map arm_view from.old.items)) }
{
    Ok(last_of(from, count)?)
}

fn last_changes(from: &mut Vec<NowChange>, count: usize) -> Result<Items<NowChange>, AllocError>
    ensures last { IfOk result (λ last. map change_view last ≡ behind count (map change_view from.old.items)) }
    ensures front { OnOk result (map change_view from.new.items ≡ front count (map change_view from.old.items)) }
{
    Ok(last_of(from, count)?)
}

fn pop_value(values: &mut Vec<Value>) -> Value
    ensures value { value_view result ≡ last_or tree.current_topic (map value_view values.old.items) }
    ensures values { map value_view values.new.items ≡ init (map value_view values.old.items) }
{
    match values.pop() {
        Some(value) => value,
        None => Value::Topic,
    }
}

fn pop_stmt(alloc: Global, stmts: &mut Vec<Stmt>) -> Stmt
    ensures stmt { stmt_view result ≡ last_or no_stmt (map stmt_view stmts.old.items) }
    ensures stmts { map stmt_view stmts.new.items ≡ init (map stmt_view stmts.old.items) }
{
    match stmts.pop() {
        Some(stmt) => stmt,
        None => Stmt::Group(no_body(alloc)),
    }
}

fn no_body(alloc: Global) -> Body
    ensures { body_view result ≡ tree.no_branches }
{
    Body {
        branches: Items::new(alloc),
    }
}

/// The last of these bodies, or one without branches.
pub fn pop_body(alloc: Global, bodies: &mut Vec<Body>) -> Body
    ensures body { body_view result ≡ last_or tree.no_branches (map body_view bodies.old.items) }
    ensures bodies { map body_view bodies.new.items ≡ init (map body_view bodies.old.items) }
{
    match bodies.pop() {
        Some(body) => body,
        None => no_body(alloc),
    }
}

fn close_list(setting: Setting<'_>, built: &mut Built, count: usize) -> Result<(), AllocError>
    ensures { OnOk result (built_view built.new ≡ closing (setting_view setting.entry) (Close.List count) (built_view built.old)) }
{
    let values = last_values(&mut built.values, count)?;
    put(&mut built.values, Value::List(values, None))
}

fn tailed(alloc: Global, values: Items<Value>, tail: Value) -> Result<Value, AllocError>
    ensures { IfOk result (λ new. value_view new ≡ tree.tailed_list (values_of (map value_view values)) (value_view tail)) }
{
    let tail = Boxed::new(alloc, tail)?;
    Ok(Value::List(values, Some(tail)))
}

fn close_tailed(
    alloc: Global,
    setting: Setting<'_>,
    built: &mut Built,
    count: usize,
) -> Result<(), AllocError>
    ensures { OnOk result (built_view built.new ≡ closing (setting_view setting.entry) (Close.Tailed count) (built_view built.old)) }
{
    let tail = pop_value(&mut built.values);
    let values = last_values(&mut built.values, count)?;
    put(&mut built.values, tailed(alloc, values, tail)?)
}

fn close_closure(alloc: Global, setting: Setting<'_>, built: &mut Built) -> Result<(), AllocError>
    ensures { OnOk result (built_view built.new ≡ closing (setting_view setting.entry) Close.Closure (built_view built.old)) }
{
    let body = pop_body(alloc, &mut built.bodies);
    put(&mut built.values, Value::Closure(body))
}

fn last_head(built: &mut Built, count: usize) -> Result<Head, AllocError>
    ensures head { IfOk result (λ head. head_view head ≡ parts_of (behind count (map part_view built.old.parts.items))) }
    ensures built { OnOk result (built_view built.new ≡ record (built_view built.old) { parts = front count (map part_view built.old.parts.items) }) }
{
    let parts = last_of(&mut built.parts, count)?;
    Ok(Head { parts })
}

fn close_nested(
    alloc: Global,
    setting: Setting<'_>,
    built: &mut Built,
    count: usize,
) -> Result<(), AllocError>
    ensures { OnOk result (built_view built.new ≡ closing (setting_view setting.entry) (Close.Nested count) (built_view built.old)) }
{
    let head = last_head(built, count)?;
    put(&mut built.values, standing_for(alloc, setting, head))
}

fn close_put(
    setting: Setting<'_>,
    built: &mut Built,
    count: usize,
    number: usize,
) -> Result<(), AllocError>
    ensures { OnOk result (built_view built.new ≡ closing (setting_view setting.entry) (Close.Put count number) (built_view built.old)) }
{
    let head = last_head(built, count)?;
    put(&mut built.puts, Stmt::AskAll(head))?;
    built.at = number;
    Ok(())
}

fn close_part(setting: Setting<'_>, built: &mut Built) -> Result<(), AllocError>
    ensures { OnOk result (built_view built.new ≡ closing (setting_view setting.entry) Close.Part (built_view built.old)) }
{
    let value = pop_value(&mut built.values);
    put(&mut built.parts, Part::Value(value))
}

fn close_print(setting: Setting<'_>, built: &mut Built) -> Result<(), AllocError>
    ensures { OnOk result (built_view built.new ≡ closing (setting_view setting.entry) Close.Print (built_view built.old)) }
{
    let value = pop_value(&mut built.values);
    put(&mut built.stmts, Stmt::Print(value))
}

fn asked(asking: Asking, head: Head) -> Stmt
    ensures { stmt_view result ≡ asked asking (head_view head) }
{
    match asking {
        Asking::One => Stmt::Ask(head),
        Asking::All => Stmt::AskAll(head),
        Asking::Not => Stmt::AskNot(head),
    }
}

fn close_query(
    setting: Setting<'_>,
    built: &mut Built,
    asking: Asking,
    count: usize,
) -> Result<(), AllocError>
    ensures { OnOk result (built_view built.new ≡ closing (setting_view setting.entry) (Close.Query asking count) (built_view built.old)) }
{
    let head = last_head(built, count)?;
    put(&mut built.stmts, asked(asking, head))
}

fn wrapped(wrap: Wrap, body: Body) -> Stmt
    ensures { stmt_view result ≡ wrapped wrap (body_view body) }
{
    match wrap {
        Wrap::Group => Stmt::Group(body),
        Wrap::NotGroup => Stmt::NotGroup(body),
        Wrap::First => Stmt::First(body),
    }
}

fn close_wrapped(
    alloc: Global,
    setting: Setting<'_>,
    built: &mut Built,
    wrap: Wrap,
) -> Result<(), AllocError>
    ensures { OnOk result (built_view built.new ≡ closing (setting_view setting.entry) (Close.Wrapped wrap) (built_view built.old)) }
{
    let body = pop_body(alloc, &mut built.bodies);
    put(&mut built.stmts, wrapped(wrap, body))
}

fn close_now(setting: Setting<'_>, built: &mut Built, count: usize) -> Result<(), AllocError>
    ensures { OnOk result (built_view built.new ≡ closing (setting_view setting.entry) (Close.Now count) (built_view built.old)) }
{
    let changes = last_changes(&mut built.changes, count)?;
    put(&mut built.stmts, Stmt::Now(changes))
}

fn close_if(setting: Setting<'_>, built: &mut Built, count: usize) -> Result<(), AllocError>
    ensures { OnOk result (built_view built.new ≡ closing (setting_view setting.entry) (Close.If count) (built_view built.old)) }
{
    let arms = last_arms(&mut built.arms, count)?;
    put(&mut built.stmts, Stmt::If(arms, None))
}

fn with_other(arms: Items<Arm>, other: Body) -> Stmt
    ensures { stmt_view result ≡ tree.choice_else (arms_of (map arm_view arms)) (body_view other) }
{
    Stmt::If(arms, Some(other))
}

fn close_if_else(
    alloc: Global,
    setting: Setting<'_>,
    built: &mut Built,
    count: usize,
) -> Result<(), AllocError>
    ensures { OnOk result (built_view built.new ≡ closing (setting_view setting.entry) (Close.IfElse count) (built_view built.old)) }
{
    let other = pop_body(alloc, &mut built.bodies);
    let arms = last_arms(&mut built.arms, count)?;
    put(&mut built.stmts, with_other(arms, other))
}

fn close_exhaust(alloc: Global, setting: Setting<'_>, built: &mut Built) -> Result<(), AllocError>
    ensures { OnOk result (built_view built.new ≡ closing (setting_view setting.entry) Close.Exhaust (built_view built.old)) }
{
    let inner = Boxed::new(alloc, pop_stmt(alloc, &mut built.stmts))?;
    put(&mut built.stmts, Stmt::Exhaust(inner))
}

fn close_stoppable(alloc: Global, setting: Setting<'_>, built: &mut Built) -> Result<(), AllocError>
    ensures { OnOk result (built_view built.new ≡ closing (setting_view setting.entry) Close.Stoppable (built_view built.old)) }
{
    let inner = Boxed::new(alloc, pop_stmt(alloc, &mut built.stmts))?;
    put(&mut built.stmts, Stmt::Stoppable(inner))
}

fn close_collect(alloc: Global, setting: Setting<'_>, built: &mut Built) -> Result<(), AllocError>
    ensures { OnOk result (built_view built.new ≡ closing (setting_view setting.entry) Close.Collect (built_view built.old)) }
{
    let into = pop_value(&mut built.values);
    let value = pop_value(&mut built.values);
    let body = pop_body(alloc, &mut built.bodies);
    put(&mut built.stmts, Stmt::Collect(value, body, into))
}

fn close_accumulate(
    alloc: Global,
    setting: Setting<'_>,
    built: &mut Built,
) -> Result<(), AllocError>
    ensures { OnOk result (built_view built.new ≡ closing (setting_view setting.entry) Close.Accumulate (built_view built.old)) }
{
    let into = pop_value(&mut built.values);
    let value = pop_value(&mut built.values);
    let body = pop_body(alloc, &mut built.bodies);
    put(&mut built.stmts, Stmt::Accumulate(value, body, into))
}

#[tactic(auto, using(std::proofs::lemmas::Grind::common_steps, crate::proofs::Views::branches_seen))]
fn close_select(
    setting: Setting<'_>,
    built: &mut Built,
    mode: Mode,
    count: usize,
) -> Result<(), AllocError>
    ensures { OnOk result (built_view built.new ≡ closing (setting_view setting.entry) (Close.Select mode count) (built_view built.old)) }
{
    let branches = last_branches(&mut built.branches, count)?;
    put(&mut built.stmts, Stmt::Select(mode, branches))
}

fn close_branch(setting: Setting<'_>, built: &mut Built, count: usize) -> Result<(), AllocError>
    ensures { OnOk result (built_view built.new ≡ closing (setting_view setting.entry) (Close.Branch count) (built_view built.old)) }
{
    let stmts = last_stmts(&mut built.stmts, count)?;
    put(&mut built.branches, stmts)
}

#[tactic(auto, using(std::proofs::lemmas::Grind::common_steps, crate::proofs::Views::branches_seen))]
fn close_body(setting: Setting<'_>, built: &mut Built, count: usize) -> Result<(), AllocError>
    ensures { OnOk result (built_view built.new ≡ closing (setting_view setting.entry) (Close.Body count) (built_view built.old)) }
{
    let branches = last_branches(&mut built.branches, count)?;
    put(&mut built.bodies, Body { branches })
}

fn close_arm(alloc: Global, setting: Setting<'_>, built: &mut Built) -> Result<(), AllocError>
    ensures { OnOk result (built_view built.new ≡ closing (setting_view setting.entry) Close.Arm (built_view built.old)) }
{
    let body = pop_body(alloc, &mut built.bodies);
    let condition = pop_body(alloc, &mut built.bodies);
    put(&mut built.arms, Arm { condition, body })
}

fn close_change(
    setting: Setting<'_>,
    built: &mut Built,
    set: bool,
    count: usize,
) -> Result<(), AllocError>
    ensures { OnOk result (built_view built.new ≡ closing (setting_view setting.entry) (Close.Change set count) (built_view built.old)) }
{
    let head = last_head(built, count)?;
    put(&mut built.changes, NowChange { head, set })
}

/// Closes a construct, whose parts were built last.
pub fn close(
    alloc: Global,
    setting: Setting<'_>,
    built: &mut Built,
    close: Close,
) -> Result<(), AllocError>
    ensures { OnOk result (built_view built.new ≡ closing (setting_view setting.entry) close (built_view built.old)) }
{
    match close {
        Close::List(count) => close_list(setting, built, count),
        Close::Tailed(count) => close_tailed(alloc, setting, built, count),
        Close::Closure => close_closure(alloc, setting, built),
        Close::Nested(count) => close_nested(alloc, setting, built, count),
        Close::Put(count, number) => close_put(setting, built, count, number),
        Close::Part => close_part(setting, built),
        Close::Print => close_print(setting, built),
        Close::Query(asking, count) => close_query(setting, built, asking, count),
        Close::Wrapped(wrap) => close_wrapped(alloc, setting, built, wrap),
        Close::Now(count) => close_now(setting, built, count),
        Close::If(count) => close_if(setting, built, count),
        Close::IfElse(count) => close_if_else(alloc, setting, built, count),
        Close::Exhaust => close_exhaust(alloc, setting, built),
        Close::Stoppable => close_stoppable(alloc, setting, built),
        Close::Collect => close_collect(alloc, setting, built),
        Close::Accumulate => close_accumulate(alloc, setting, built),
        Close::Select(mode, count) => close_select(setting, built, mode, count),
        Close::Branch(count) => close_branch(setting, built, count),
        Close::Body(count) => close_body(setting, built, count),
        Close::Arm => close_arm(alloc, setting, built),
        Close::Change(set, count) => close_change(setting, built, set, count),
    }
}
