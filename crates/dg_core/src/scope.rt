// What names stand for.

use dg_names::Names;
use indexmap::IndexSet;

/// The names of the places of a tree in order of first appearance, and those of them that are declared.
#[derive(Drop)]
pub struct Places {
    pub names: IndexSet<Vec<u8>>,
    pub declared: IndexSet<Vec<u8>>,
}

/// The names of the program, its places, the variables of a rule in order of first appearance, and the numbers of the closures that stand
/// directly in it.
#[derive(Drop)]
pub struct Scope<'a> {
    pub names: &'a Names,
    pub places: &'a Places,
    pub variables: Vec<&'a [u8]>,
    pub closures: Vec<u16>,
}
