// The values of global variables: lists of cells, one after another in one row, whose room is taken at once.
ghost use Rattle.std.specs.Prelude.{◌≡◌, ℕ, ◌+◌, ◌-◌, ◌^◌, ◌<◌, ◌≤◌, List, [], ◌∷◌, ◌++◌, All, IfOk, OnOk, OnErr, map, length, get_or, slice_index, slice_set, take, drop, vec_capacity};
ghost use Rattle.dg_world.specs.Lists.{joined};

use crate::change::KeepFull;
use dg_base::Cell;
use std::alloc::{AllocError, Global};
use std::marker::Model;

/// Lists of cells, in order.
#[derive(Drop)]
pub struct Area {
    cells: Vec<Cell>,
    starts: Vec<usize>,
    keep: usize,
}

impl Model for Area {
    ghost use Rattle.std.specs.Prelude.{◌≤◌, length, vec_capacity};
    ghost use Rattle.dg_world.specs.Lists.{Lists, cut, IsCut};

    ghost Value = { Lists };

    ghost view = { λ a. record { lists = cut a.starts.items a.cells.items; keep = a.keep } };

    ghost invariant = { λ a. IsCut a.starts.items a.cells.items × (length a.cells.items ≤ a.keep) × (a.keep ≤ vec_capacity a.cells) };
}

// The place at an index, and the next.
fn two_at(starts: &[usize], index: usize) -> (usize, usize)
    requires { index + 1 < length starts.now }
    ensures { result ≡ (slice_index starts.now index, slice_index starts.now (index + 1)) }
{
    (starts[index], starts[index + 1])
}

// A part of a row.
fn part(row: &[Cell], from: usize, to: usize) -> &[Cell]
    requires order { from ≤ to }
    requires within { to ≤ length row.now }
    ensures { result.now ≡ take (to - from) (drop from row.now) }
{
    &row[from..to]
}

// Moves cells to the end of a row.
fn move_to_end(row: &mut Vec<Cell>, from: usize, count: usize)
    requires { from + count ≤ length row.old.items }
    ensures items { row.new.items ≡ take from row.old.items ++ (drop (from + count) row.old.items ++ take count (drop from row.old.items)) }
    ensures len { length row.new.items ≡ length row.old.items }
    ensures room { vec_capacity row.new ≡ vec_capacity row.old }
{
    row[from..].rotate_left(count);
}

// Moves the last cells of a row to a place in it.
fn move_from_end(row: &mut Vec<Cell>, to: usize, count: usize)
    requires { to + count ≤ length row.old.items }
    ensures items { row.new.items ≡ take to row.old.items ++ (drop (length row.old.items - count) row.old.items
        ++ take (length row.old.items - count - to) (drop to row.old.items)) }
    ensures room { vec_capacity row.new ≡ vec_capacity row.old }
{
    row[to..].rotate_right(count);
}

// Puts cells in the place of so many of a row, in the room that is there.
fn splice(row: &mut Vec<Cell>, from: usize, gone: usize, cells: &[Cell])
    requires within { from + gone ≤ length row.old.items }
    requires room { (length row.old.items - gone) + length cells.now ≤ vec_capacity row.old }
    ensures items { row.new.items ≡ take from row.old.items ++ (cells.now ++ drop (from + gone) row.old.items) }
    ensures room { vec_capacity row.old ≤ vec_capacity row.new }
{
    move_to_end(row, from, gone);
    row.truncate(row.len() - gone);
    row.extend_from_slice(cells).unwrap();
    move_from_end(row, from, cells.len());
}

// Moves places in a row from which some cells went and to which some came.
fn shift(starts: &mut [usize], gone: usize, come: usize)
    requires { All (λ s. (gone ≤ s) × (s - gone + come < 2 ^ 64)) starts.old }
    ensures { starts.new ≡ map (λ s. s - gone + come) starts.old }
{
    for start in starts.iter_mut() {
        *start = *start - gone + come;
    }
}

// Moves the places behind one.
fn shift_behind(starts: &mut Vec<usize>, index: usize, gone: usize, come: usize)
    requires index { index + 1 ≤ length starts.old.items }
    requires fits { All (λ s. (gone ≤ s) × (s - gone + come < 2 ^ 64)) (drop (index + 1) starts.old.items) }
    ensures { starts.new.items ≡ take (index + 1) starts.old.items ++ map (λ s. s - gone + come) (drop (index + 1) starts.old.items) }
{
    shift(&mut starts[index + 1..], gone, come);
}

// Puts cells in the place of all of a row, in the room that is there.
fn refill(row: &mut Vec<Cell>, cells: &[Cell])
    requires room { length cells.now ≤ vec_capacity row.old }
    ensures items { row.new.items ≡ cells.now }
    ensures room { vec_capacity row.old ≤ vec_capacity row.new }
{
    row.clear();
    row.extend_from_slice(cells).unwrap();
}

// Sets each place as in others.
fn copy(starts: &mut [usize], others: &[usize])
    requires { length others.now ≡ length starts.old }
    ensures { starts.new ≡ others.now }
{
    starts.copy_from_slice(others);
}

impl Area {
    /// No lists, with room for so many cells.
    pub fn new(alloc: Global, keep: usize) -> Result<Area, AllocError>
        ensures { IfOk result (λ a. a ≡ record { lists = []; keep = keep }) }
    {
        let cells = Vec::with_capacity(alloc, keep)?;
        let mut starts = Vec::new(alloc);
        starts.push(0)?;
        Ok(Area {
            cells,
            starts,
            keep,
        })
    }

    /// Puts a list behind the others.
    pub fn push(&mut self, cells: &[Cell]) -> Result<(), AllocError>
        requires { length (joined self.old.lists) + length cells.now ≤ self.old.keep }
        ensures { OnOk result (self.new ≡ record self.old { lists = self.old.lists ++ cells.now ∷ [] }) }
    {
        self.starts.push(self.cells.len() + cells.len())?;
        self.cells.extend_from_slice(cells).unwrap();
        Ok(())
    }

    /// Takes the lists of another, which has as many and may hold as much.
    pub fn set_to(&mut self, other: &Area)
        requires lists { length other.now.lists ≡ length self.old.lists }
        requires keep { other.now.keep ≡ self.old.keep }
        ensures { self.new ≡ other.now }
    {
        refill(&mut self.cells, &other.cells);
        copy(&mut self.starts, &other.starts);
    }

    /// How many cells the lists have together.
    pub fn len(&self) -> usize
        ensures { result ≡ length (joined self.now.lists) }
    {
        self.cells.len()
    }

    // How many lists there are.
    fn count(&self) -> usize
        ensures { result ≡ length self.now.lists }
    {
        self.starts.len() - 1
    }

    // Where a list begins and ends.
    fn ends(&self, index: usize) -> (usize, usize)
        requires { index < length self.now.lists }
        ensures from { result.0 ≡ length (joined (take index self.now.lists)) }
        ensures to { result.1 ≡ length (joined (take index self.now.lists)) + length (get_or self.now.lists index []) }
    {
        two_at(&self.starts, index)
    }

    /// The list of a place; no cells where there is none.
    pub fn get(&self, place: u16) -> &[Cell]
        ensures { result.now ≡ get_or self.now.lists place [] }
    {
        let index = place as usize;
        if index >= self.count() {
            return &[];
        }
        let (from, to) = self.ends(index);
        part(&self.cells, from, to)
    }

    // Puts a list in the place of another.
    fn replace(&mut self, index: usize, cells: &[Cell])
        requires index { index < length self.old.lists }
        requires room { (length (joined self.old.lists) - length (get_or self.old.lists index [])) + length cells.now ≤ self.old.keep }
        ensures { self.new ≡ record self.old { lists = slice_set self.old.lists index cells.now } }
    {
        let (from, to) = self.ends(index);
        splice(&mut self.cells, from, to - from, cells);
        shift_behind(&mut self.starts, index, to - from, cells.len());
    }

    /// Puts a list in the place of that of a place, where there is room.
    pub fn set(&mut self, place: u16, cells: &[Cell]) -> Result<(), KeepFull>
        ensures ok { OnOk result (self.new ≡ record self.old { lists = slice_set self.old.lists place cells.now }) }
        ensures fits { OnOk result ((length (joined self.old.lists) - length (get_or self.old.lists place [])) + length cells.now ≤ self.old.keep) }
        ensures err { OnErr result (self.new ≡ self.old) }
        ensures full { OnErr result (self.old.keep < (length (joined self.old.lists) - length (get_or self.old.lists place [])) + length cells.now) }
    {
        let gone = self.get(place).len();
        if self.len() - gone + cells.len() > self.keep {
            return Err(KeepFull);
        }
        if (place as usize) < self.count() {
            self.replace(place as usize, cells);
        }
        Ok(())
    }

    /// Takes the list of a place away.
    pub fn clear(&mut self, place: u16)
        ensures { self.new ≡ record self.old { lists = slice_set self.old.lists place [] } }
    {
        let index = place as usize;
        if index < self.starts.len() - 1 {
            self.replace(index, &[]);
        }
    }
}
