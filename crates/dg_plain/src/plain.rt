// Heads and bodies with new names, without recursion.
ghost use Rattle.std.specs.Prelude.{◌≡◌, ◌∷◌, [], true, false, map, IfOk, OnOk};
ghost use Rattle.dg_base.specs.TreeView.{stmt_view, body_view, head_view};
ghost use Rattle.dg_plain.specs.Building.{built_view, run, unbuilt};
ghost use Rattle.dg_plain.specs.Plain as spec;
ghost use Rattle.dg_plain.specs.State.{setting_view};

use crate::built::{Built, pop_body, rule_of, unbuilt};
use crate::release::let_go;
use crate::setting::Setting;
use crate::steps::step;
use crate::work::Work;
use dg_base::{Body, Head, Items, Part, Stmt, put};
use std::alloc::{AllocError, Global};

// Does all that is left. More steps than a machine counts take more memory than it has.
fn run_all<'a>(
    alloc: Global,
    setting: Setting<'_>,
    mut left: Vec<Work<'a>>,
    built: &mut Built,
) -> Result<(), AllocError>
    ensures { OnOk result (built_view built.new ≡ run (setting_view setting.entry) left.entry.items (built_view built.old)) }
{
    for turn in 0..u64::MAX {
        match left.pop() {
            Some(work) => step(alloc, setting, &mut left, built, work)?,
            None => return Ok(()),
        }
    }
    Err(AllocError)
}

// What all that is left comes to.
fn built_of<'a>(
    alloc: Global,
    setting: Setting<'_>,
    left: Vec<Work<'a>>,
) -> Result<Built, AllocError>
    ensures { IfOk result (λ built. built_view built ≡ run (setting_view setting.entry) left.entry.items unbuilt) }
{
    let mut built = unbuilt(alloc);
    match run_all(alloc, setting, left, &mut built) {
        Ok(()) => Ok(built),
        Err(fault) => {
            let_go(built);
            Err(fault)
        }
    }
}

// What is to be done for a rule: its head, and then its body.
fn work_of<'a>(
    alloc: Global,
    parts: &'a [Part],
    body: &'a Body,
) -> Result<Vec<Work<'a>>, AllocError>
    ensures { IfOk result (λ left. left.items ≡ Work.Body body.entry ∷ Work.Parts true parts.entry ∷ []) }
{
    let mut left = Vec::new(alloc);
    put(&mut left, Work::Body(body))?;
    put(&mut left, Work::Parts(true, parts))?;
    Ok(left)
}

// What is to be done for a head alone.
fn head_work<'a>(alloc: Global, parts: &'a [Part]) -> Result<Vec<Work<'a>>, AllocError>
    ensures { IfOk result (λ left. left.items ≡ Work.Parts false parts.entry ∷ []) }
{
    let mut left = Vec::new(alloc);
    put(&mut left, Work::Parts(false, parts))?;
    Ok(left)
}

/// A rule that is made plain: its head, what this puts before the body, and the body.
pub struct Plain {
    pub head: Head,
    pub puts: Vec<Stmt>,
    pub body: Body,
}

/// A head and a body with new names.
pub fn plain_parts_of(
    alloc: Global,
    setting: Setting<'_>,
    head: &Head,
    body: &Body,
) -> Result<Plain, AllocError>
    ensures head { IfOk result (λ new. head_view new.head ≡ spec.plain_parts (setting_view setting.entry) 0 (head_view head.now)) }
    ensures puts { IfOk result (λ new. map stmt_view new.puts.items ≡ spec.puts_of_parts (setting_view setting.entry) 0 (head_view head.now)) }
    ensures body { IfOk result (λ new. body_view new.body ≡ spec.plain_body (setting_view setting.entry) (spec.new_in_parts (head_view head.now))
        (body_view body.now)) }
{
    let parts = head.parts.as_slice();
    let left = work_of(alloc, parts, body)?;
    let built = built_of(alloc, setting, left)?;
    let (parts, mut bodies, puts) = rule_of(alloc, built);
    let head = Head {
        parts: Items::from_vec(parts),
    };
    let body = pop_body(alloc, &mut bodies);
    drop(bodies);
    Ok(Plain { head, puts, body })
}

/// A head with new names, which puts nothing before a body.
pub fn plain_head(alloc: Global, setting: Setting<'_>, head: &Head) -> Result<Head, AllocError>
    ensures { IfOk result (λ new. head_view new ≡ spec.plain_parts (setting_view setting.entry) 0 (head_view head.now)) }
{
    let parts = head.parts.as_slice();
    let left = head_work(alloc, parts)?;
    let built = built_of(alloc, setting, left)?;
    let (parts, bodies, puts) = rule_of(alloc, built);
    drop(bodies);
    drop(puts);
    Ok(Head {
        parts: Items::from_vec(parts),
    })
}
