// Whose variables are whose, and what is known of that along the mentions of an item.

use crate::variables::Entry;

/// What a closure captures, what it has by itself, and the places of the closures that stand directly in it.
#[derive(Drop)]
pub struct Layout<'a> {
    pub captured: Vec<&'a [u8]>,
    pub own: Vec<&'a [u8]>,
    pub places: Vec<usize>,
}

/// The variables of a rule, the places of the closures that stand directly in it, and the layouts of all.
#[derive(Drop)]
pub struct Layouts<'a> {
    pub variables: Vec<&'a [u8]>,
    pub places: Vec<usize>,
    pub closures: Vec<Layout<'a>>,
}

/// A rule or a closure that hasn't ended: its variables so far, the places of the closures directly in it, and its own place.
#[derive(Drop)]
pub struct Open<'a> {
    pub entries: Vec<Entry<'a>>,
    pub places: Vec<usize>,
    pub at: usize,
}

/// The innermost one that is open, those outside it, the nearest last, and the layouts so far, blank where a closure is open.
#[derive(Drop)]
pub struct Scan<'a> {
    pub inner: Open<'a>,
    pub outer: Vec<Open<'a>>,
    pub layouts: Vec<Layout<'a>>,
}
