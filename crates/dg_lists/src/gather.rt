// Gathered lists, whose room is taken at once.
ghost use Rattle.std.specs.Prelude.{◌≡◌, ◌+◌, ◌-◌, ◌<◌, ◌≤◌, List, [], ◌∷◌, IfOk, IfSome, OnOk, OnErr, MatchOption, Some, slice_get, slice_index, length, drop};
ghost use Rattle.dg_meaning.specs.ValueCells.{cells_of};
ghost use Rattle.dg_unify.specs.Store.{Saved, Holds};
ghost use Rattle.dg_lists.specs.Formed.{IsFormed};
ghost use Rattle.dg_lists.specs.Gathered.{gathered_size, added};
ghost use Rattle.dg_lists.specs.Writing.{value_at, Writes};

use crate::writing::to_cells;
use dg_base::Cell;
use dg_unify::{Bindings, Ref};
use std::alloc::{AllocError, Global};
use std::marker::Model;
use thiserror::Error;

/// A place among the open gatherings: how many are below it.
#[derive(Clone, Copy, Debug, PartialEq, Eq)]
pub struct GatherMark(pub usize);

/// What would be gathered is more than there is room for.
#[derive(Clone, Copy, Debug, PartialEq, Eq, Error)]
#[error("too much is gathered")]
pub struct AuxFull;

/// Open gatherings, one inside another, each with the cells of what was gathered.
#[derive(Drop)]
pub struct Gather {
    cells: Vec<Cell>,
    starts: Vec<usize>,
    row: Vec<Cell>,
    aux: usize,
}

impl Model for Gather {
    ghost use Rattle.std.specs.Prelude.{◌≡◌, ◌≤◌, ◌+◌, ◌*◌, true, reverse, length, vec_capacity};
    ghost use Rattle.dg_lists.specs.Gathered.{Gathered, gathered_size, cut, is_stacked};

    ghost Value = { Gathered };

    ghost view = { λ g. record { rows = cut (reverse g.starts.items) g.cells.items; aux = g.aux } };

    ghost invariant = { λ g.
        (is_stacked (reverse g.starts.items) g.cells.items ≡ true)
        × (gathered_size (cut (reverse g.starts.items) g.cells.items) ≤ g.aux)
        × (g.aux ≤ vec_capacity g.cells)
        × (g.aux ≤ 2 * vec_capacity g.starts + 1)
        × (length g.row.items ≡ g.aux) };
}

// The place of that number.
fn place_at(starts: &[usize], index: usize) -> usize
    requires { index < length starts.now }
    ensures { result ≡ slice_index starts.now index }
{
    starts[index]
}

// The cells of a row from a place on.
fn cells_from(row: &[Cell], start: usize) -> &[Cell]
    requires { start ≤ length row.now }
    ensures { result.now ≡ drop start row.now }
{
    &row[start..]
}

// Writes the cells of a value to the front of a row; so many, or none where it is too short.
fn write_into<B: Bindings>(store: &mut B, value: Ref, row: &mut Vec<Cell>) -> Option<usize>
    requires { Holds (B.meaning store.old) value }
    ensures same { B.meaning store.new ≡ B.meaning store.old }
    ensures saved { (ms : List Saved) → B.saves store.old ms → B.saves store.new ms }
    ensures length { length row.new.items ≡ length row.old.items }
    ensures written { Writes (value_at (B.meaning store.old) value) row.new.items result }
    ensures formed { IfSome result (λ _. IsFormed (value_at (B.meaning store.old) value)) }
{
    to_cells(store, value, row.as_mut_slice())
}

impl Gather {
    /// None is open; together they may count so much.
    pub fn new(alloc: Global, aux: u32) -> Result<Gather, AllocError>
        ensures { IfOk result (λ g. g ≡ record { rows = []; aux = aux }) }
    {
        let aux = aux as usize;
        let cells = Vec::with_capacity(alloc, aux)?;
        let starts = Vec::with_capacity(alloc, aux / 2)?;
        let mut row = Vec::new(alloc);
        row.resize(aux, Cell::Nil)?;
        Ok(Gather {
            cells,
            starts,
            row,
            aux,
        })
    }

    /// The mark that the next one would have.
    pub fn height(&self) -> GatherMark
        ensures { result.0 ≡ length self.now.rows }
    {
        GatherMark(self.starts.len())
    }

    // How much more they may count.
    fn room(&self) -> usize
        ensures { gathered_size self.now.rows + result ≡ self.now.aux }
    {
        self.aux - 2 * self.starts.len() - self.cells.len()
    }

    /// Opens one, in which nothing is gathered.
    pub fn open(&mut self) -> Result<GatherMark, AuxFull>
        ensures ok { OnOk result (self.new ≡ record self.old { rows = [] ∷ self.old.rows }) }
        ensures mark { IfOk result (λ mark. mark.0 ≡ length self.old.rows) }
        ensures fits { OnOk result (gathered_size ([] ∷ self.old.rows) ≤ self.old.aux) }
        ensures err { OnErr result (self.new ≡ self.old) }
        ensures full { OnErr result (self.old.aux < gathered_size ([] ∷ self.old.rows)) }
    {
        if self.room() < 2 {
            return Err(AuxFull);
        }
        let mark = self.height();
        self.starts.push_reserved(self.cells.len());
        Ok(mark)
    }

    /// Gathers cells in the newest.
    pub fn add(&mut self, cells: &[Cell]) -> Result<(), AuxFull>
        requires { 0 < length self.old.rows }
        ensures ok { OnOk result (self.new ≡ record self.old { rows = added cells.now self.old.rows }) }
        ensures fits { OnOk result (gathered_size (added cells.now self.old.rows) ≤ self.old.aux) }
        ensures err { OnErr result (self.new ≡ self.old) }
        ensures full { OnErr result (self.old.aux < gathered_size (added cells.now self.old.rows)) }
    {
        if cells.len() > self.room() {
            return Err(AuxFull);
        }
        self.cells.extend_from_slice(cells).unwrap();
        Ok(())
    }

    /// Gathers a value of a store in the newest, if one is open. What waits in the store meanwhile is dropped.
    pub fn keep<B: Bindings>(&mut self, store: &mut B, value: Ref) -> Result<(), AuxFull>
        requires { Holds (B.meaning store.old) value }
        ensures same { B.meaning store.new ≡ B.meaning store.old }
        ensures saved { (ms : List Saved) → B.saves store.old ms → B.saves store.new ms }
        ensures ok { OnOk result (self.new ≡ record self.old { rows = added (cells_of (value_at (B.meaning store.old) value)) self.old.rows }) }
        ensures formed { OnOk result (0 < length self.old.rows → IsFormed (value_at (B.meaning store.old) value)) }
        ensures fits { OnOk result (gathered_size (added (cells_of (value_at (B.meaning store.old) value)) self.old.rows) ≤ self.old.aux) }
        ensures err { OnErr result (self.new ≡ self.old) }
        ensures full { OnErr result (self.old.aux < gathered_size (added (cells_of (value_at (B.meaning store.old) value)) self.old.rows)) }
    {
        if self.starts.is_empty() {
            return Ok(());
        }
        let Some(count) = write_into(store, value, &mut self.row) else {
            return Err(AuxFull);
        };
        if count > self.room() {
            return Err(AuxFull);
        }
        self.cells.extend_from_slice(&self.row[..count]).unwrap();
        Ok(())
    }

    /// The cells of the newest, if one is open.
    pub fn newest(&self) -> Option<&[Cell]>
        ensures { MatchOption result (self.now.rows ≡ []) (λ cells. slice_get self.now.rows 0 ≡ Some cells.now) }
    {
        let start = self.starts.last()?;
        Some(cells_from(&self.cells, *start))
    }

    /// The cells of the newest, whose mark is given.
    pub fn cells(&self, mark: GatherMark) -> &[Cell]
        requires { length self.now.rows ≡ mark.0 + 1 }
        ensures { slice_get self.now.rows 0 ≡ Some result.now }
    {
        cells_from(&self.cells, place_at(&self.starts, mark.0))
    }

    // Drops the newest.
    fn drop_newest(&mut self)
        requires { 0 < length self.old.rows }
        ensures { self.new ≡ record self.old { rows = drop 1 self.old.rows } }
    {
        if let Some(start) = self.starts.pop() {
            self.cells.truncate(start);
        }
    }

    /// Drops those that were opened at a mark or behind it.
    pub fn drop_to(&mut self, mark: GatherMark)
        requires { mark.0 ≤ length self.old.rows }
        ensures { self.new ≡ record self.old { rows = drop (length self.old.rows - mark.0) self.old.rows } }
    {
        'newest: while self.height().0 > mark.0 {
            self.drop_newest();
        }
    }
}
