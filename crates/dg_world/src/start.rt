// What starts set: slots and cells of terms without variables.
ghost use Rattle.std.specs.Prelude.{◌≡◌, List, ◌∷◌, ◌++◌, IfOk, OnOk, replicate, None};
ghost use Rattle.dg_base.specs.declared.program.Term.{out-Term};
ghost use Rattle.dg_meaning.specs.ValueCells.{cells_of};
ghost use Rattle.dg_meaning.specs.Facts.{start_value};
ghost use Rattle.dg_world.specs.Tables.{width_of};
ghost use Rattle.dg_world.specs.Starts.{slot_of as slot_in_start, filled, top_cell, unwritten, cells_at_start, starting_table, starting_cells};

use crate::table::Row;
use dg_base::{Cell, Place, PlaceKind, Simple, Term};
use std::alloc::{AllocError, Global};

// What a slot is to hold of a term.
fn slot_of(term: &Term) -> Option<Simple>
    ensures { result ≡ slot_in_start (out-Term term.now) }
{
    match term {
        Term::Num(n) => Some(Simple::Num(*n)),
        Term::Word(n) => Some(Simple::Word(*n)),
        Term::Object(n) => Some(Simple::Object(*n)),
        Term::Nil => Some(Simple::Nil),
        Term::Var(_) => None,
        Term::Pair(_, _) => None,
        Term::Closure(_) => None,
    }
}

// Sets what starts set, from the last to the first.
fn fill(table: &mut Row, starts: &[(u16, Term)])
    ensures { table.new ≡ record table.old { slots = filled starts.now table.old.slots } }
{
    let mut at = starts.len();
    while at > 0 {
        at -= 1;
        let (number, term) = &starts[at];
        table.set(*number, slot_of(term));
    }
}

/// The table of a place.
pub fn table_of(alloc: Global, place: &Place, objects: u16) -> Result<Row, AllocError>
    ensures { IfOk result (λ t. t ≡ starting_table objects place.now) }
{
    let mut table = Row::new(alloc, place.kind, objects)?;
    fill(&mut table, place.start.as_slice());
    Ok(table)
}

// The cell at the top of a term.
fn cell_of(term: &Term) -> Cell
    ensures { result ≡ top_cell (out-Term term.now) }
{
    match term {
        Term::Num(n) => Cell::Num(*n),
        Term::Word(n) => Cell::Word(*n),
        Term::Object(n) => Cell::Object(*n),
        Term::Nil => Cell::Nil,
        Term::Var(_) => Cell::Nil,
        Term::Pair(_, _) => Cell::Pair,
        Term::Closure(place) => Cell::Closure(*place, 0),
    }
}

// Puts the parts of a term on the list of what is left.
fn put_parts<'t>(left: &mut Vec<&'t Term>, term: &'t Term) -> Result<(), AllocError>
    ensures { OnOk result (top_cell (out-Term term.now) ∷ unwritten left.new.items ≡ cells_of (start_value term.now) ++ unwritten left.old.items) }
{
    match term {
        Term::Pair(head, tail) => {
            let rest = tail.get();
            left.push(rest)?;
            let first = head.get();
            left.push(first)?;
        }
        _ => {}
    }
    Ok(())
}

// The cells of a term.
fn write_term(alloc: Global, term: &Term) -> Result<Vec<Cell>, AllocError>
    ensures { IfOk result (λ cells. cells.items ≡ cells_of (start_value term.now)) }
{
    let mut cells = Vec::new(alloc);
    let mut left = Vec::new(alloc);
    left.push(term)?;
    'left: while let Some(next) = left.pop() {
        cells.push(cell_of(next))?;
        put_parts(&mut left, next)?;
    }
    Ok(cells)
}

/// The cells that are kept for a place.
pub fn cells_of_place(alloc: Global, place: &Place) -> Result<Vec<Cell>, AllocError>
    ensures { IfOk result (λ cells. cells.items ≡ starting_cells place.now) }
{
    match (place.kind, place.start.as_slice()) {
        (PlaceKind::Global, [(_, term), ..]) => write_term(alloc, term),
        _ => Ok(Vec::new(alloc)),
    }
}
