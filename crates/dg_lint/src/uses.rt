// What a source does with its predicates.
ghost use Rattle.std.specs.Prelude.{◌≡◌, ◌||◌, ◌∷◌, [], map, OnOk, IfOk, if◌then◌else◌};
ghost use Rattle.dg_base.specs.Mentions.{query, things_in};
ghost use Rattle.dg_base.specs.TreeView.{head_view, item_view, said_view};
ghost use Rattle.dg_base.specs.Walk.{mention_view, seen, thing_at, things_at};
ghost use Rattle.dg_names.specs.Scopes.{with_names};
ghost use Rattle.dg_names.specs.State.{listed};
ghost use Rattle.dg_lint.specs.Uses as spec;
ghost use Rattle.dg_lint.specs.Uses.{uses_of};
ghost use Rattle.dg_lint.specs.inside.View.{uses_view, unused, used, used_by};

use dg_base::{Head, Item, ItemBody, Mention, Role, mentions_of, name_of};
use dg_core::add_name;
use indexmap::IndexSet;
use std::alloc::{AllocError, Global};

/// The names of the predicates that are asked, given and changed.
#[derive(Drop)]
pub struct Uses {
    pub asked: IndexSet<Vec<u8>>,
    pub given: IndexSet<Vec<u8>>,
    pub changed: IndexSet<Vec<u8>>,
}

fn asks(role: Role) -> bool
    ensures { result ≡ spec.asks role }
{
    match role {
        Role::Asked | Role::AskedAll | Role::AskedNot | Role::Nested => true,
        Role::Rule | Role::Access | Role::Declared | Role::Changed(_) => false,
    }
}

fn changes(role: Role) -> bool
    ensures { result ≡ spec.changes role }
{
    matches!(role, Role::Changed(_))
}

fn is_access(said: &ItemBody) -> bool
    ensures { result ≡ spec.is_access (said_view said.now) }
{
    matches!(said, ItemBody::Access(_, _))
}

fn add_where(
    alloc: Global,
    names: &mut IndexSet<Vec<u8>>,
    does: bool,
    name: &[u8],
) -> Result<(), AllocError>
    ensures { OnOk result (listed names.new ≡ with_names (listed names.old) (if does then name.now ∷ [] else [])) }
{
    if does {
        add_name(alloc, names, name)?;
    }
    Ok(())
}

fn note_query(
    alloc: Global,
    uses: &mut Uses,
    all: bool,
    role: Role,
    head: &Head,
) -> Result<(), AllocError>
    ensures { OnOk result (uses_view uses.new ≡ used all (query role (head_view head.now) ∷ []) (uses_view uses.old)) }
{
    let name = name_of(alloc, head)?;
    add_where(alloc, &mut uses.asked, all || asks(role), name.as_slice())?;
    add_where(alloc, &mut uses.given, all || !asks(role), name.as_slice())?;
    add_where(
        alloc,
        &mut uses.changed,
        all || changes(role),
        name.as_slice(),
    )
}

fn note(alloc: Global, uses: &mut Uses, all: bool, mention: Mention<'_>) -> Result<(), AllocError>
    ensures { OnOk result (uses_view uses.new ≡ used all (thing_at (mention_view mention.entry)) (uses_view uses.old)) }
{
    match mention {
        Mention::Query(role, head) => note_query(alloc, uses, all, role, head),
        _ => Ok(()),
    }
}

fn note_all(
    alloc: Global,
    uses: &mut Uses,
    all: bool,
    mentions: &[Mention<'_>],
) -> Result<(), AllocError>
    ensures { OnOk result (uses_view uses.new ≡ used all (things_at (seen mentions.now)) (uses_view uses.old)) }
{
    for mention in mentions {
        note(alloc, uses, all, *mention)?;
    }
    Ok(())
}

fn note_item(alloc: Global, uses: &mut Uses, said: &ItemBody) -> Result<(), AllocError>
    ensures { OnOk result (uses_view uses.new ≡ used (spec.is_access (said_view said.now)) (things_in (said_view said.now)) (uses_view uses.old)) }
{
    let mentions = mentions_of(alloc, said)?;
    note_all(alloc, uses, is_access(said), mentions.as_slice())
}

fn note_items(alloc: Global, uses: &mut Uses, items: &[Item]) -> Result<(), AllocError>
    ensures { OnOk result (uses_view uses.new ≡ used_by (map item_view items.now) (uses_view uses.old)) }
{
    for item in items {
        note_item(alloc, uses, &item.body)?;
    }
    Ok(())
}

fn unused(alloc: Global) -> Uses
    ensures { uses_view result ≡ unused }
{
    Uses {
        asked: IndexSet::new(alloc),
        given: IndexSet::new(alloc),
        changed: IndexSet::new(alloc),
    }
}

/// What items do with predicates.
pub fn uses_of(alloc: Global, items: &[Item]) -> Result<Uses, AllocError>
    ensures { IfOk result (λ uses. uses_view uses ≡ uses_of (map item_view items.now)) }
{
    let mut uses = unused(alloc);
    note_items(alloc, &mut uses, items)?;
    Ok(uses)
}
