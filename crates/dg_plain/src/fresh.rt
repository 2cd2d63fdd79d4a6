// New names.
ghost use Rattle.std.specs.Prelude.{◌≡◌, ◌+◌, IfOk, OnOk};
ghost use Rattle.dg_plain.specs.Plain as spec;

use dg_base::{Items, Name};
use std::alloc::{AllocError, Global};

/// The next number. More numbers than a machine counts take more memory than it has.
pub fn take_number(at: &mut usize) -> Result<usize, AllocError>
    ensures number { IfOk result (λ n. n ≡ at.old) }
    ensures at { OnOk result (at.new ≡ at.old + 1) }
{
    let number = *at;
    match number.checked_add(1) {
        Some(next) => {
            *at = next;
            Ok(number)
        }
        None => Err(AllocError),
    }
}

/// The name of an anonymous variable.
pub fn unnamed_name(alloc: Global, number: usize) -> Result<Name, AllocError>
    ensures { IfOk result (λ name. name ≡ spec.unnamed_name number) }
{
    let text = format!(in alloc; "${number}")?;
    Ok(Items::from_vec(text.into_bytes()))
}

/// The name of the variable of a choice of words.
pub fn choice_name(alloc: Global, mark: usize, number: usize) -> Result<Name, AllocError>
    ensures { IfOk result (λ name. name ≡ spec.choice_name mark number) }
{
    let text = format!(in alloc; "S{mark}-{number}")?;
    Ok(Items::from_vec(text.into_bytes()))
}

/// A name once more.
pub fn copied(alloc: Global, name: &[u8]) -> Result<Name, AllocError>
    ensures { IfOk result (λ new. new ≡ name.now) }
{
    Items::from_slice(alloc, name)
}
