// What is counted so far.
ghost use Rattle.std.specs.Prelude.{◌≤◌};
ghost use Rattle.indexmap.specs.IndexSet.{index_set_len};

use indexmap::IndexSet;

/// The variables of a rule or a closure so far: the names, how many of its own have none, and how many it shares.
#[derive(Drop)]
pub struct Scope<'a> {
    pub names: Vec<&'a [u8]>,
    pub own: usize,
    pub shared: usize,
}

/// The scope that is open, and those outside it, the nearest last.
#[derive(Drop)]
pub struct Scopes<'a> {
    pub inner: Scope<'a>,
    pub outer: Vec<Scope<'a>>,
}

/// Names in order of first appearance.
#[derive(Drop)]
pub struct Sets {
    pub preds: IndexSet<Vec<u8>>,
    pub objects: IndexSet<Vec<u8>>,
    pub words: IndexSet<Vec<u8>>,
}

/// Numbers of things in a source.
#[derive(Clone, Copy)]
pub struct Numbers {
    pub closures: usize,
    pub selects: usize,
    pub rules: usize,
}

/// The counts of a source.
#[derive(Drop)]
pub struct Tally {
    pub sets: Sets,
    pub numbers: Numbers,
}

/// The names of a source, in order of first appearance. At most 65,535 are predicates.
#[derive(Drop)]
pub struct Names {
    pub preds: IndexSet<Vec<u8>>,
    pub objects: IndexSet<Vec<u8>>,
    pub words: IndexSet<Vec<u8>>,
    ghost numbered: { index_set_len preds ≤ 65535 },
}
