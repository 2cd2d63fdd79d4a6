// The counts of one item: variables, places and branches.
ghost use Rattle.std.specs.Prelude.{◌≡◌, ◌<◌, [], false, true, length, map, nat_lt, OnOk, IfOk, IsErr};
ghost use Rattle.std.specs.List.{list_any};
ghost use Rattle.std.specs.Str.{bytes_eq};
ghost use Rattle.dg_base.specs.Tree.{parts_of};
ghost use Rattle.dg_base.specs.TreeView.{part_view, head_view};
ghost use Rattle.dg_base.specs.Mentions.{variable, unnamed};
ghost use Rattle.dg_base.specs.Walk as walk;
ghost use Rattle.dg_base.specs.Walk.{met, opens, closes, mention_view, thing_at, things_at};
ghost use Rattle.dg_names.specs.Counts as spec;
ghost use Rattle.dg_names.specs.Scopes.{with_name, with_names, no_variables, is_over, passes};
ghost use Rattle.dg_names.specs.State.{seen, scope_view, stack_of, IsNoted};

use crate::state::{Scope, Scopes};
use crate::tally::sum;
use dg_base::{Head, Mention, Part};
use std::alloc::{AllocError, Global};
use std::mem;

const PLACES: usize = 12;

const VARIABLES: usize = 64;

const BRANCHES: usize = 500;

const PARAMETER: &[u8] = b"_";

fn is_among(names: &[&[u8]], name: &[u8]) -> bool
    ensures { result ≡ list_any (bytes_eq name.now) (seen names.now) }
{
    for known in names {
        if name == *known {
            return true;
        }
    }
    false
}

fn add_name<'a>(names: &mut Vec<&'a [u8]>, name: &'a [u8]) -> Result<(), AllocError>
    ensures { OnOk result (seen names.new.items ≡ with_name (seen names.old.items) name.now) }
{
    if !is_among(names.as_slice(), name) {
        names.push(name)?;
    }
    Ok(())
}

/// Adds to names those of others that aren't among them, in order.
pub fn add_names<'a>(names: &mut Vec<&'a [u8]>, more: &[&'a [u8]]) -> Result<(), AllocError>
    ensures names { OnOk result (seen names.new.items ≡ with_names (seen names.old.items) (seen more.now)) }
    ensures memory { IsErr result → 0 < length more.now }
{
    for name in more {
        add_name(names, *name)?;
    }
    Ok(())
}

fn is_over(scope: &Scope<'_>) -> bool
    ensures { result ≡ is_over (scope_view scope.now) }
{
    let named = scope.names.len();
    named > VARIABLES
        || scope.own > VARIABLES - named
        || scope.shared > VARIABLES - named - scope.own
}

fn places_in(parts: &[Part]) -> usize
    ensures { result ≡ spec.places_in (parts_of (map part_view parts.now)) }
{
    let mut places = 0;
    for part in parts {
        match part {
            Part::Word(_) => {}
            Part::Value(_) => places += 1,
        }
    }
    places
}

fn has_many_places(head: &Head) -> bool
    ensures { result ≡ nat_lt 12 (spec.places_in (head_view head.now)) }
{
    places_in(head.parts.as_slice()) > PLACES
}

fn is_excess(mention: Mention<'_>) -> bool
    ensures { result ≡ list_any spec.is_excess (thing_at (mention_view mention.entry)) }
{
    match mention {
        Mention::Query(_, head) => has_many_places(head),
        Mention::Branches(count) | Mention::Select(count) => count > BRANCHES,
        _ => false,
    }
}

/// Whether one of these has too many places or branches.
pub fn has_excess(mentions: &[Mention<'_>]) -> bool
    ensures { result ≡ list_any spec.is_excess (things_at (walk.seen mentions.now)) }
{
    for mention in mentions {
        if is_excess(*mention) {
            return true;
        }
    }
    false
}

fn note_variable<'a>(scopes: &mut Scopes<'a>, name: &'a [u8]) -> Result<bool, AllocError>
    requires { is_over (scope_view scopes.old.inner) ≡ false }
    ensures { IfOk result (IsNoted (met (variable name.now)) scopes.old scopes.new) }
{
    if name == PARAMETER {
        return Ok(false);
    }
    add_name(&mut scopes.inner.names, name)?;
    Ok(is_over(&scopes.inner))
}

fn note_own(scopes: &mut Scopes<'_>) -> bool
    requires { is_over (scope_view scopes.old.inner) ≡ false }
    ensures { IsNoted (met (unnamed false)) scopes.old scopes.new result }
{
    scopes.inner.own += 1;
    is_over(&scopes.inner)
}

fn note_shared(scopes: &mut Scopes<'_>) -> bool
    requires { is_over (scope_view scopes.old.inner) ≡ false }
    ensures { IsNoted (met (unnamed true)) scopes.old scopes.new result }
{
    scopes.inner.shared += 1;
    is_over(&scopes.inner)
}

fn note_opened(alloc: Global, scopes: &mut Scopes<'_>) -> Result<bool, AllocError>
    ensures { IfOk result (IsNoted opens scopes.old scopes.new) }
{
    let inner = Scope {
        names: Vec::new(alloc),
        own: 0,
        shared: 0,
    };
    let outer = mem::replace(&mut scopes.inner, inner);
    scopes.outer.push(outer)?;
    Ok(false)
}

fn note_closed(scopes: &mut Scopes<'_>) -> Result<bool, AllocError>
    requires { is_over (scope_view scopes.old.inner) ≡ false }
    ensures { IfOk result (IsNoted closes scopes.old scopes.new) }
{
    match scopes.outer.pop() {
        Some(mut outer) => {
            add_names(&mut outer.names, scopes.inner.names.as_slice())?;
            outer.shared = sum(outer.shared, scopes.inner.shared)?;
            scopes.inner = outer;
            Ok(is_over(&scopes.inner))
        }
        None => Ok(false),
    }
}

// Notes what is met: whether there are too many variables there.
fn note<'a>(
    alloc: Global,
    scopes: &mut Scopes<'a>,
    mention: Mention<'a>,
) -> Result<bool, AllocError>
    requires { is_over (scope_view scopes.old.inner) ≡ false }
    ensures { IfOk result (IsNoted (mention_view mention.entry) scopes.old scopes.new) }
{
    match mention {
        Mention::Variable(name) => note_variable(scopes, name),
        Mention::Unnamed(false) => Ok(note_own(scopes)),
        Mention::Unnamed(true) | Mention::Choice(_) => Ok(note_shared(scopes)),
        Mention::Opened => note_opened(alloc, scopes),
        Mention::Closed => note_closed(scopes),
        _ => Ok(false),
    }
}

/// Whether there are too many variables in an item that mentions this, or in a closure of it.
pub fn has_many_variables(alloc: Global, mentions: &[Mention<'_>]) -> Result<bool, AllocError>
    ensures { IfOk result (λ many. many ≡ passes (walk.seen mentions.now) no_variables []) }
{
    let mut scopes = Scopes {
        inner: Scope {
            names: Vec::new(alloc),
            own: 0,
            shared: 0,
        },
        outer: Vec::new(alloc),
    };
    for mention in mentions {
        if note(alloc, &mut scopes, *mention)? {
            return Ok(true);
        }
    }
    Ok(false)
}
