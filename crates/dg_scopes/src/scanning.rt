// One pass over what an item mentions.
ghost use Rattle.std.specs.Prelude.{◌≡◌, ◌++◌, ◌∷◌, [], map, set, IfOk, OnOk};
ghost use Rattle.dg_scopes.specs.State.{entry_view, total_in};
ghost use Rattle.dg_base.specs.Mentions.{variable, names_in, variable_in, of_said, things_in};
ghost use Rattle.dg_base.specs.TreeView.{said_view};
ghost use Rattle.dg_base.specs.Walk.{met, opens, closes, mention_view, seen};
ghost use Rattle.dg_scopes.specs.Closures as spec;
ghost use Rattle.dg_scopes.specs.inside.Scanning.{layout_by_entries, step, scanned, one_captured, one_own, start};
ghost use Rattle.dg_scopes.specs.inside.View.{layout_view, layouts_view, open_view, scan_view, names_view, stack_of};

use crate::layouts::{Layout, Layouts, Open, Scan};
use crate::totals::totals_among;
use crate::variables::{Entry, add_places, merge, stays};
use dg_base::{ItemBody, Mention, mentions_of};
use indexmap::IndexMap;
use std::alloc::{AllocError, Global};
use std::mem;

const PARAMETER: &[u8] = b"_";

/// The layout of a closure without variables or closures in it.
pub fn blank<'a>(alloc: Global) -> Layout<'a>
    ensures { layout_view result ≡ record { captured = []; own = []; places = [] } }
{
    Layout {
        captured: Vec::new(alloc),
        own: Vec::new(alloc),
        places: Vec::new(alloc),
    }
}

fn opened<'a>(alloc: Global, at: usize) -> Open<'a>
    ensures { open_view result ≡ record { entries = []; places = []; at = at } }
{
    Open {
        entries: Vec::new(alloc),
        places: Vec::new(alloc),
        at,
    }
}

fn note_named<'a>(
    totals: &IndexMap<&[u8], usize>,
    scan: &mut Scan<'a>,
    name: &'a [u8],
) -> Result<(), AllocError>
    ensures { OnOk result (scan_view scan.new ≡ step (total_in totals.now) (met (variable name.now)) (scan_view scan.old)) }
{
    if scan.outer.is_empty() || name != PARAMETER {
        add_places(&mut scan.inner.entries, name, 1)?;
    }
    Ok(())
}

// Opens a closure in what is open.
fn note_opened(
    alloc: Global,
    totals: &IndexMap<&[u8], usize>,
    scan: &mut Scan<'_>,
) -> Result<(), AllocError>
    ensures { OnOk result (scan_view scan.new ≡ step (total_in totals.now) opens (scan_view scan.old)) }
{
    let at = scan.layouts.len();
    scan.layouts.push(blank(alloc))?;
    scan.inner.places.push(at)?;
    let outer = mem::replace(&mut scan.inner, opened(alloc, at));
    scan.outer.push(outer)?;
    Ok(())
}

// Adds a variable of a closure to those that it captures, or to its own.
fn add_entry<'a>(
    totals: &IndexMap<&[u8], usize>,
    captured: &mut Vec<&'a [u8]>,
    own: &mut Vec<&'a [u8]>,
    entry: Entry<'a>,
) -> Result<(), AllocError>
    ensures captured { OnOk result (names_view captured.new.items
        ≡ names_view captured.old.items ++ one_captured (total_in totals.now) (entry_view entry.entry)) }
    ensures own { OnOk result (names_view own.new.items ≡ names_view own.old.items ++ one_own (total_in totals.now) (entry_view entry.entry)) }
{
    if stays(totals, entry) {
        own.push(entry.name)?;
    } else {
        captured.push(entry.name)?;
    }
    Ok(())
}

// The layout of a closure that ends.
fn layout_of<'a>(
    alloc: Global,
    totals: &IndexMap<&[u8], usize>,
    ended: Open<'a>,
) -> Result<Layout<'a>, AllocError>
    ensures { IfOk result (λ layout. layout_view layout ≡ layout_by_entries (total_in totals.now) (open_view ended.entry)) }
{
    let mut captured = Vec::new(alloc);
    let mut own = Vec::new(alloc);
    own.push(PARAMETER)?;
    let entries = ended.entries.as_slice();
    for entry in entries {
        add_entry(totals, &mut captured, &mut own, *entry)?;
    }
    Ok(Layout {
        captured,
        own,
        places: ended.places,
    })
}

fn put<'a>(layouts: &mut Vec<Layout<'a>>, at: usize, layout: Layout<'a>)
    ensures { layouts.new.items ≡ set layouts.old.items at layout.entry }
{
    if at < layouts.len() {
        layouts[at] = layout;
    }
}

fn note_closed(
    alloc: Global,
    totals: &IndexMap<&[u8], usize>,
    scan: &mut Scan<'_>,
) -> Result<(), AllocError>
    ensures { OnOk result (scan_view scan.new ≡ step (total_in totals.now) closes (scan_view scan.old)) }
{
    if let Some(mut outer) = scan.outer.pop() {
        merge(totals, &mut outer.entries, scan.inner.entries.as_slice())?;
        let ended = mem::replace(&mut scan.inner, outer);
        let at = ended.at;
        let layout = layout_of(alloc, totals, ended)?;
        put(&mut scan.layouts, at, layout);
    }
    Ok(())
}

fn note<'a>(
    alloc: Global,
    totals: &IndexMap<&[u8], usize>,
    scan: &mut Scan<'a>,
    mention: Mention<'a>,
) -> Result<(), AllocError>
    ensures { OnOk result (scan_view scan.new ≡ step (total_in totals.now) (mention_view mention.entry) (scan_view scan.old)) }
{
    match mention {
        Mention::Variable(name) => note_named(totals, scan, name),
        Mention::Opened => note_opened(alloc, totals, scan),
        Mention::Closed => note_closed(alloc, totals, scan),
        _ => Ok(()),
    }
}

fn scanned<'a>(
    alloc: Global,
    totals: &IndexMap<&[u8], usize>,
    mentions: &[Mention<'a>],
) -> Result<Scan<'a>, AllocError>
    ensures { IfOk result (λ scan. scan_view scan ≡ scanned (total_in totals.now) (seen mentions.now) start) }
{
    let mut scan = Scan {
        inner: opened(alloc, 0),
        outer: Vec::new(alloc),
        layouts: Vec::new(alloc),
    };
    for mention in mentions {
        note(alloc, totals, &mut scan, *mention)?;
    }
    Ok(scan)
}

fn names_of<'a>(alloc: Global, entries: &[Entry<'a>]) -> Result<Vec<&'a [u8]>, AllocError>
    ensures { IfOk result (λ names. names_view names.items ≡ map (λ e. e.name.now) entries.now) }
{
    let mut names = Vec::new(alloc);
    for entry in entries {
        names.push(entry.name)?;
    }
    Ok(names)
}

/// The variables of an item's rule, the places of the closures that stand directly in it, and the layouts of all its closures.
pub fn layouts_of(alloc: Global, said: &ItemBody) -> Result<Layouts<'_>, AllocError>
    ensures { IfOk result (λ layouts. layouts_view layouts
        ≡ spec.layouts_of (names_in variable_in (things_in (said_view said.now))) (of_said (said_view said.now))) }
{
    let mentions = mentions_of(alloc, said)?;
    let totals = totals_among(alloc, mentions.as_slice())?;
    let scan = scanned(alloc, &totals, mentions.as_slice())?;
    let inner = scan.inner;
    Ok(Layouts {
        variables: names_of(alloc, inner.entries.as_slice())?,
        places: inner.places,
        closures: scan.layouts,
    })
}
