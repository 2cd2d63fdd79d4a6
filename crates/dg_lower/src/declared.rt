// How declared variables start.
ghost use Rattle.std.specs.Prelude.{◌≡◌, ◌++◌, map, OnOk, IfOk};
ghost use Rattle.dg_base.specs.TreeView.{head_view, value_view, said_view, item_view};
ghost use Rattle.dg_names.specs.State.{names_view};
ghost use Rattle.dg_core.specs.Given as given;
ghost use Rattle.dg_core.specs.Places.{declarations, declaration_in};
ghost use Rattle.dg_core.specs.inside.View.{places_view, values_view, outer_in};
ghost use Rattle.dg_lower.specs.Starts as spec;
ghost use Rattle.dg_lower.specs.inside.View.{heads_view};

use dg_base::{Head, Item, ItemBody, Items, Term, Value, is_named};
use dg_core::{Places, outer_term, values_in};
use dg_names::Names;
use std::alloc::{AllocError, Global};

fn add_declaration<'a>(heads: &mut Vec<&'a Head>, said: &'a ItemBody) -> Result<(), AllocError>
    ensures { OnOk result (heads_view heads.new.items ≡ heads_view heads.old.items ++ declaration_in (said_view said.now)) }
{
    if let ItemBody::Variable(head) = said {
        heads.push(head)?;
    }
    Ok(())
}

/// The heads of declarations.
pub fn declarations_of(alloc: Global, items: &[Item]) -> Result<Vec<&Head>, AllocError>
    ensures { IfOk result (λ heads. heads_view heads.items ≡ declarations (map item_view items.now)) }
{
    let mut heads = Vec::new(alloc);
    for item in items {
        add_declaration(&mut heads, &item.body)?;
    }
    Ok(heads)
}

fn is_unset(value: &Value) -> bool
    ensures { result ≡ given.is_unset (value_view value.now) }
{
    matches!(value, Value::Any)
}

fn value_start(
    alloc: Global,
    names: &Names,
    places: &Places,
    values: &[&Value],
) -> Result<Items<(u16, Term)>, AllocError>
    ensures { IfOk result (λ start. start ≡ spec.value_start (outer_in (names_view names.now) (places_view places.now).names) (values_view values.now)) }
{
    let mut start = Items::new(alloc);
    if let [value, ..] = values {
        if !is_unset(value) {
            let term = outer_term(alloc, names, places, value)?;
            start.push((0, term))?;
        }
    }
    Ok(start)
}

// How a declaration lets the variable of this name start.
fn head_start(
    alloc: Global,
    names: &Names,
    places: &Places,
    name: &[u8],
    head: &Head,
) -> Result<Items<(u16, Term)>, AllocError>
    ensures { IfOk result (λ start. start
        ≡ spec.head_start (outer_in (names_view names.now) (places_view places.now).names) name.now (head_view head.now)) }
{
    if !is_named(head.parts.as_slice(), name) {
        return Ok(Items::new(alloc));
    }
    let values = values_in(alloc, head.parts.as_slice())?;
    value_start(alloc, names, places, values.as_slice())
}

/// How the first declaration that sets a name lets its variable start.
pub fn declared_start(
    alloc: Global,
    names: &Names,
    places: &Places,
    name: &[u8],
    heads: &[&Head],
) -> Result<Items<(u16, Term)>, AllocError>
    ensures { IfOk result (λ start. start
        ≡ spec.declared_start (outer_in (names_view names.now) (places_view places.now).names) name.now (heads_view heads.now)) }
{
    for head in heads {
        let start = head_start(alloc, names, places, name, head)?;
        if !start.is_empty() {
            return Ok(start);
        }
    }
    Ok(Items::new(alloc))
}
