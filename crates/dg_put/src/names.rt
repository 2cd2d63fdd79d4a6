// The names of variables where access rules are put in.
ghost use Rattle.std.specs.Prelude.{◌≡◌, ℕ, ◌++◌, List, IfOk, nat_lt, if◌then◌else◌};
ghost use Rattle.dg_scopes.specs.Counts.{times};
ghost use Rattle.dg_put.specs.Put as spec;
ghost use Rattle.dg_put.specs.inside.Putting.{around, around_in};

use crate::place::{Place, Uses, is_shared};
use dg_base::{Items, Name};
use dg_plain::copied;
use std::alloc::{AllocError, Global};

const UNNAMED: &[u8] = b"$";

fn begun(mut front: Vec<u8>, name: &[u8]) -> Result<Name, AllocError>
    ensures { IfOk result (λ new. new ≡ front.items ++ name.now) }
{
    front.extend_from_slice(name)?;
    Ok(Items::from_vec(front))
}

fn use_mark(alloc: Global, mark: usize, number: usize) -> Result<Vec<u8>, AllocError>
    ensures { IfOk result (λ front. front.items ≡ spec.use_mark mark number) }
{
    let text = format!(in alloc; "S{mark}-{number}-")?;
    Ok(text.into_bytes())
}

fn copy_mark(alloc: Global, number: usize) -> Result<Vec<u8>, AllocError>
    ensures { IfOk result (λ front. front.items ≡ spec.copy_mark number) }
{
    let text = format!(in alloc; "${number}")?;
    Ok(text.into_bytes())
}

fn new_name(
    alloc: Global,
    mark: usize,
    number: Option<usize>,
    name: &[u8],
) -> Result<Name, AllocError>
    ensures { IfOk result (λ new. new ≡ spec.marked (spec.use_mark mark) number name.now) }
{
    match number {
        Some(number) => begun(use_mark(alloc, mark, number)?, name),
        None => copied(alloc, name),
    }
}

fn new_unnamed(alloc: Global, number: Option<usize>, name: &[u8]) -> Result<Name, AllocError>
    ensures { IfOk result (λ new. new ≡ spec.marked spec.copy_mark number name.now) }
{
    match number {
        Some(number) => begun(copy_mark(alloc, number)?, name),
        None => copied(alloc, name),
    }
}

// The number with which an anonymous variable is new.
fn unnamed_number(at: &Place<'_>, name: &[u8]) -> Option<usize>
    ensures { (rules : List spec.Access) (mark : ℕ) → result
        ≡ (if nat_lt 1 (times name.now (around_in rules mark at.now).place.names) then at.now.use_number else at.now.copy_number) }
{
    if is_shared(at, name) {
        at.use_number
    } else {
        at.copy_number
    }
}

/// The name of a variable that is no parameter, where it stands.
pub fn own_name(
    alloc: Global,
    uses: Uses<'_>,
    at: &Place<'_>,
    name: &[u8],
) -> Result<Name, AllocError>
    ensures { IfOk result (λ new. new ≡ spec.own_name uses.entry.mark (around uses.entry at.now).place name.now) }
{
    if name.starts_with(UNNAMED) {
        new_unnamed(alloc, unnamed_number(at, name), name)
    } else {
        new_name(alloc, uses.mark, at.use_number, name)
    }
}
