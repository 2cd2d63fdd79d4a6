// The variables of one item.
ghost use Rattle.std.specs.Prelude.{◌≡◌, ◌∷◌, [], IfOk, OnOk};
ghost use Rattle.dg_base.specs.TreeView.{said_view};
ghost use Rattle.dg_scopes.specs.Counts as spec;
ghost use Rattle.dg_scopes.specs.Counts.{counted_of};
ghost use Rattle.dg_base.specs.Mentions.{variable, things};
ghost use Rattle.dg_base.specs.Walk.{met, opens, closes, walk, mention_view, seen, things_at};
ghost use Rattle.dg_scopes.specs.Scopes.{with_places, place_of, is_full, stays, merged, passes};
ghost use Rattle.dg_scopes.specs.State.{entry_view, scope_view, stack_of, total_in, IsNoted};

use crate::totals::{sum, total_of, totals_among};
use dg_base::{ItemBody, Mention, put};
use indexmap::IndexMap;
use std::alloc::{AllocError, Global};
use std::mem;

const VARIABLES: usize = 64;

const PARAMETER: &[u8] = b"_";

const UNNAMED: &[u8] = b"$";

/// A name, and how often it stands in a scope.
#[derive(Clone, Copy)]
pub struct Entry<'a> {
    pub name: &'a [u8],
    pub places: usize,
}

/// The scope that is open, and those outside it, the nearest last.
#[derive(Drop)]
pub struct Scopes<'a> {
    pub inner: Vec<Entry<'a>>,
    pub outer: Vec<Vec<Entry<'a>>>,
}

fn place_of(scope: &[Entry<'_>], name: &[u8]) -> usize
    ensures { result ≡ place_of (scope_view scope.now) name.now }
{
    for at in 0..scope.len() {
        if name == scope[at].name {
            return at;
        }
    }
    scope.len()
}

/// Adds places of a name to a scope.
pub fn add_places<'a>(
    scope: &mut Vec<Entry<'a>>,
    name: &'a [u8],
    places: usize,
) -> Result<(), AllocError>
    ensures { OnOk result (scope_view scope.new.items ≡ with_places (scope_view scope.old.items) name.now places) }
{
    let at = place_of(scope.as_slice(), name);
    if at < scope.len() {
        scope[at].places = sum(scope[at].places, places)?;
    } else {
        put(scope, Entry { name, places })?;
    }
    Ok(())
}

fn is_full(scope: &[Entry<'_>]) -> bool
    ensures { result ≡ is_full (scope_view scope.now) }
{
    scope.len() > VARIABLES
}

/// Whether a variable of a closure is left behind there.
pub fn stays(totals: &IndexMap<&[u8], usize>, entry: Entry<'_>) -> bool
    ensures { result ≡ stays (total_in totals.now) (entry_view entry.entry) }
{
    entry.name.starts_with(UNNAMED) && entry.places == total_of(totals, entry.name)
}

/// Adds to a scope what comes from a closure in it.
pub fn merge<'a>(
    totals: &IndexMap<&[u8], usize>,
    outer: &mut Vec<Entry<'a>>,
    inner: &[Entry<'a>],
) -> Result<(), AllocError>
    ensures { OnOk result (scope_view outer.new.items ≡ merged (total_in totals.now) (scope_view outer.old.items) (scope_view inner.now)) }
{
    for entry in inner {
        if !stays(totals, *entry) {
            add_places(outer, entry.name, entry.places)?;
        }
    }
    Ok(())
}

fn note_named<'a>(
    totals: &IndexMap<&[u8], usize>,
    scopes: &mut Scopes<'a>,
    name: &'a [u8],
) -> Result<bool, AllocError>
    ensures { IfOk result (IsNoted (total_in totals.now) (met (variable name.now)) scopes.old scopes.new) }
{
    if name != PARAMETER {
        add_places(&mut scopes.inner, name, 1)?;
    }
    Ok(is_full(scopes.inner.as_slice()))
}

// Opens a scope in the one that is open.
fn open(alloc: Global, scopes: &mut Scopes<'_>) -> Result<(), AllocError>
    ensures inner { OnOk result (scope_view scopes.new.inner.items ≡ []) }
    ensures outer { OnOk result (stack_of scopes.new.outer.items ≡ scope_view scopes.old.inner.items ∷ stack_of scopes.old.outer.items) }
{
    let outer = mem::replace(&mut scopes.inner, Vec::new(alloc));
    put(&mut scopes.outer, outer)?;
    Ok(())
}

fn note_closed(totals: &IndexMap<&[u8], usize>, scopes: &mut Scopes<'_>) -> Result<bool, AllocError>
    ensures { IfOk result (IsNoted (total_in totals.now) closes scopes.old scopes.new) }
{
    match scopes.outer.pop() {
        Some(mut outer) => {
            merge(totals, &mut outer, scopes.inner.as_slice())?;
            scopes.inner = outer;
            Ok(is_full(scopes.inner.as_slice()))
        }
        None => Ok(false),
    }
}

// Notes what is met: whether a scope is full there.
fn note<'a>(
    alloc: Global,
    totals: &IndexMap<&[u8], usize>,
    scopes: &mut Scopes<'a>,
    mention: Mention<'a>,
) -> Result<bool, AllocError>
    ensures { IfOk result (IsNoted (total_in totals.now) (mention_view mention.entry) scopes.old scopes.new) }
{
    match mention {
        Mention::Variable(name) => note_named(totals, scopes, name),
        Mention::Opened => {
            open(alloc, scopes)?;
            Ok(false)
        }
        Mention::Closed => note_closed(totals, scopes),
        _ => Ok(false),
    }
}

fn is_full_along<'a>(
    alloc: Global,
    totals: &IndexMap<&[u8], usize>,
    mentions: &[Mention<'a>],
) -> Result<bool, AllocError>
    ensures { IfOk result (λ full. full ≡ passes (total_in totals.now) (seen mentions.now) [] []) }
{
    let mut scopes = Scopes {
        inner: Vec::new(alloc),
        outer: Vec::new(alloc),
    };
    for mention in mentions {
        if note(alloc, totals, &mut scopes, *mention)? {
            return Ok(true);
        }
    }
    Ok(false)
}

/// Whether a rule or a closure of an item that mentions this has too many variables.
pub fn has_many_variables(
    alloc: Global,
    said: &ItemBody,
    mentions: &[Mention<'_>],
) -> Result<bool, AllocError>
    requires walk { seen mentions.now ≡ walk (counted_of (said_view said.now)) }
    requires things { things_at (seen mentions.now) ≡ things (counted_of (said_view said.now)) }
    ensures { IfOk result (λ many. many ≡ spec.has_many_variables (said_view said.now)) }
{
    let totals = totals_among(alloc, mentions)?;
    is_full_along(alloc, &totals, mentions)
}
