// From the closures of a rule to their rows.
ghost use Rattle.std.specs.Prelude.{◌≡◌, ◌+◌, ◌++◌, ◌∷◌, [], map, min, length, get_or, IfOk, OnOk};
ghost use Rattle.dg_base.specs.TreeView.{body_view};
ghost use Rattle.dg_scopes.specs.Closures as closures;
ghost use Rattle.dg_scopes.specs.inside.View.{layout_view};
ghost use Rattle.dg_names.specs.State.{seen};
ghost use Rattle.dg_core.specs.Goals.{number_in};
ghost use Rattle.dg_core.specs.inside.Making.{bodies_view};
ghost use Rattle.dg_core.specs.Rows as spec;
ghost use Rattle.dg_core.specs.inside.View.{scope_view};
ghost use Rattle.dg_core.specs.inside.Waiting.{stack_of, waiting_view, waiting_at, waiting_from, home_view, home_of, pending, selects_left, rows_kept, selects_kept, IsNext};

use crate::goals::goals_of;
use crate::scope::Scope;
use crate::terms::number_among;
use dg_base::{Body, ClosureBody, Goal, Items};
use dg_scopes::{Layout, blank};
use std::alloc::{AllocError, Global};

/// What the closures of a rule are made in: what names stand for outside it, the layouts of its closures, and how many closures stand in the
/// items before.
#[derive(Drop)]
pub struct Home<'s, 'l> {
    pub around: &'s Scope<'s>,
    pub layouts: &'l [Layout<'l>],
    pub first: u16,
}

/// A closure that waits for its row: its body, its place among those of its rule, and the numbers of what it captures.
#[derive(Drop)]
pub struct Waiting<'a> {
    pub body: &'a Body,
    pub place: usize,
    pub captured: Items<u16>,
}

/// A rule whose closures wait: the layouts of all, how many closures stand in the items before, and those that wait for their rows.
#[derive(Drop)]
pub struct Kept<'a> {
    pub layouts: Vec<Layout<'a>>,
    pub first: u16,
    pub left: Items<Waiting<'a>>,
}

/// The number of a closure. More of them than a program can number take more memory than it has.
pub fn number_at(first: u16, place: usize) -> Result<u16, AllocError>
    ensures { IfOk result (λ number. number ≡ first + place) }
{
    match place.checked_add(usize::from(first)) {
        Some(number) if number <= 65535 => Ok(number as u16),
        _ => Err(AllocError),
    }
}

// The numbers of the closures at these places.
fn numbers_from(alloc: Global, first: u16, places: &[usize]) -> Result<Vec<u16>, AllocError>
    ensures { IfOk result (λ numbers. numbers.items ≡ map (λ p. first + p) places.now) }
{
    let mut numbers = Vec::new(alloc);
    for place in places {
        numbers.push(number_at(first, *place)?)?;
    }
    Ok(numbers)
}

// Adds names to variables.
fn add_names<'a>(variables: &mut Vec<&'a [u8]>, names: &[&'a [u8]]) -> Result<(), AllocError>
    ensures { OnOk result (variables.new.items ≡ variables.old.items ++ names.now) }
{
    for name in names {
        variables.push(*name)?;
    }
    Ok(())
}

// The variables of a closure.
fn variables_in<'a>(alloc: Global, layout: &Layout<'a>) -> Result<Vec<&'a [u8]>, AllocError>
    ensures { IfOk result (λ variables. seen variables.items ≡ closures.variables_in (layout_view layout.now)) }
{
    let mut variables = Vec::new(alloc);
    add_names(&mut variables, layout.captured.as_slice())?;
    add_names(&mut variables, layout.own.as_slice())?;
    Ok(variables)
}

fn numbers_among(
    alloc: Global,
    variables: &[&[u8]],
    names: &[&[u8]],
) -> Result<Items<u16>, AllocError>
    ensures { IfOk result (λ numbers. numbers ≡ map (number_in (seen variables.now)) (seen names.now)) }
{
    let mut numbers = Items::new(alloc);
    for name in names {
        numbers.push(number_among(variables, *name))?;
    }
    Ok(numbers)
}

/// The numbers of what a closure captures, among the variables of what it stands in.
pub fn captured_in(
    alloc: Global,
    variables: &[&[u8]],
    layout: &Layout<'_>,
) -> Result<Items<u16>, AllocError>
    ensures { IfOk result (λ numbers. numbers ≡ spec.captured_in (seen variables.now) (layout_view layout.now)) }
{
    numbers_among(alloc, variables, layout.captured.as_slice())
}

/// What names stand for in a rule or a closure with these variables and places of closures.
pub fn scope_in<'a>(
    alloc: Global,
    around: &Scope<'a>,
    first: u16,
    variables: Vec<&'a [u8]>,
    places: &[usize],
) -> Result<Scope<'a>, AllocError>
    ensures { IfOk result (λ scope. scope_view scope
        ≡ record (scope_view around.now) { variables = seen variables.entry.items; closures = map (λ p. first + p) places.now; before = 0 }) }
{
    Ok(Scope {
        names: around.names,
        places: around.places,
        variables,
        closures: numbers_from(alloc, first, places)?,
    })
}

fn captured_by(
    alloc: Global,
    layouts: &[Layout<'_>],
    variables: &[&[u8]],
    place: usize,
) -> Result<Items<u16>, AllocError>
    ensures { IfOk result (λ numbers. numbers ≡ spec.captured_in (seen variables.now) (spec.layout_at (map layout_view layouts.now) place)) }
{
    match layouts.get(place) {
        Some(layout) => captured_in(alloc, variables, layout),
        None => Ok(Items::new(alloc)),
    }
}

fn place_at(places: &[usize], at: usize) -> usize
    ensures { result ≡ get_or places.now at 0 }
{
    match places.get(at) {
        Some(place) => *place,
        None => 0,
    }
}

// Puts a closure on what is left.
fn put_waiting<'a>(
    alloc: Global,
    layouts: &[Layout<'_>],
    variables: &[&[u8]],
    places: &[usize],
    at: usize,
    body: &'a Body,
    left: &mut Items<Waiting<'a>>,
) -> Result<(), AllocError>
    ensures { OnOk result (stack_of left.new
        ≡ waiting_at (map layout_view layouts.now) (seen variables.now) places.now at (body_view body.now) ∷ stack_of left.old) }
{
    let place = place_at(places, at);
    let captured = captured_by(alloc, layouts, variables, place)?;
    left.push(Waiting {
        body,
        place,
        captured,
    })
}

/// Puts the closures of these bodies on what is left, the first of them to be taken first.
pub fn put_found<'a>(
    alloc: Global,
    layouts: &[Layout<'_>],
    variables: &[&[u8]],
    places: &[usize],
    mut found: Items<&'a Body>,
    left: &mut Items<Waiting<'a>>,
) -> Result<(), AllocError>
    ensures { OnOk result (stack_of left.new
        ≡ waiting_from (map layout_view layouts.now) (seen variables.now) places.now 0 (bodies_view found.entry) ++ stack_of left.old) }
{
    while let Some(body) = found.pop() {
        put_waiting(alloc, layouts, variables, places, found.len(), body, left)?;
    }
    Ok(())
}

/// A rule whose closures, found in something of this scope with these places, all wait.
pub fn kept_of<'a>(
    alloc: Global,
    first: u16,
    scope: &Scope<'_>,
    layouts: Vec<Layout<'a>>,
    places: &[usize],
    found: Items<&'a Body>,
) -> Result<Kept<'a>, AllocError>
    ensures layouts { IfOk result (λ kept. kept.layouts.items ≡ layouts.entry.items) }
    ensures first { IfOk result (λ kept. kept.first ≡ first) }
    ensures left { IfOk result (λ kept. stack_of kept.left
        ≡ waiting_from (map layout_view layouts.entry.items) (scope_view scope.now).variables places.now 0 (bodies_view found.entry)) }
{
    let mut left = Items::new(alloc);
    let variables = scope.variables.as_slice();
    put_found(
        alloc,
        layouts.as_slice(),
        variables,
        places,
        found,
        &mut left,
    )?;
    Ok(Kept {
        layouts,
        first,
        left,
    })
}

fn row_of(captured: Items<u16>, layout: &Layout<'_>, body: Items<Goal>) -> ClosureBody
    ensures { result ≡ record { captured = captured; own = min (length (layout_view layout.now).own) 65535; body = body } }
{
    ClosureBody {
        captured,
        own: layout.own.len().min(65535) as u16,
        body,
    }
}

// Makes the row of a closure of this layout, and lets the closures directly in it wait.
fn add_row_with<'a>(
    alloc: Global,
    home: &Home<'_, '_>,
    sites: &mut u16,
    layout: &Layout<'_>,
    waiting: Waiting<'a>,
    left: &mut Items<Waiting<'a>>,
    rows: &mut Items<ClosureBody>,
) -> Result<(), AllocError>
    requires { layout_view layout.now ≡ spec.layout_at (home_view home.now).layouts waiting.place }
    ensures { OnOk result (IsNext (home_view home.now) (waiting_view waiting.entry) sites.old (stack_of left.old) rows.old
        sites.new (stack_of left.new) rows.new) }
{
    let places = layout.places.as_slice();
    let variables = variables_in(alloc, layout)?;
    let scope = scope_in(alloc, home.around, home.first, variables, places)?;
    let (goals, found) = goals_of(alloc, &scope, sites, Items::new(alloc), waiting.body)?;
    rows.push(row_of(waiting.captured, layout, goals))?;
    put_found(
        alloc,
        home.layouts,
        scope.variables.as_slice(),
        places,
        found,
        left,
    )
}

// Makes the row of a closure, and lets the closures directly in it wait.
fn add_row<'a>(
    alloc: Global,
    home: &Home<'_, '_>,
    sites: &mut u16,
    waiting: Waiting<'a>,
    left: &mut Items<Waiting<'a>>,
    rows: &mut Items<ClosureBody>,
) -> Result<(), AllocError>
    ensures { OnOk result (IsNext (home_view home.now) (waiting_view waiting.entry) sites.old (stack_of left.old) rows.old
        sites.new (stack_of left.new) rows.new) }
{
    match home.layouts.get(waiting.place) {
        Some(layout) => add_row_with(alloc, home, sites, layout, waiting, left, rows),
        None => {
            let layout = blank(alloc);
            add_row_with(alloc, home, sites, &layout, waiting, left, rows)
        }
    }
}

// Adds the rows of a rule's closures, each before those within it.
fn add_rows(
    alloc: Global,
    around: &Scope<'_>,
    sites: &mut u16,
    kept: Kept<'_>,
    rows: &mut Items<ClosureBody>,
) -> Result<(), AllocError>
    ensures rows { OnOk result (rows.new ≡ rows.old ++ pending (home_of (scope_view around.now) kept.entry) sites.old (stack_of kept.entry.left)) }
    ensures sites { OnOk result (sites.new ≡ sites.old + selects_left (stack_of kept.entry.left)) }
{
    let Kept {
        layouts,
        first,
        mut left,
    } = kept;
    let home = Home {
        around,
        layouts: layouts.as_slice(),
        first,
    };
    while let Some(waiting) = left.pop() {
        add_row(alloc, &home, sites, waiting, &mut left, rows)?;
    }
    Ok(())
}

/// The rows of the closures of rules, one rule after the other. The number of selects grows by those in them.
pub fn all_rows(
    alloc: Global,
    around: &Scope<'_>,
    sites: &mut u16,
    kept: Vec<Kept<'_>>,
) -> Result<Items<ClosureBody>, AllocError>
    ensures rows { IfOk result (λ rows. rows ≡ rows_kept (scope_view around.now) sites.old kept.entry.items) }
    ensures sites { OnOk result (sites.new ≡ sites.old + selects_kept kept.entry.items) }
{
    let mut rows = Items::new(alloc);
    for rule in kept {
        add_rows(alloc, around, sites, rule, &mut rows)?;
    }
    Ok(rows)
}
