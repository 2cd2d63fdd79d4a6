// What an item is rewritten with.

/// The name of the topic, the number with which the names of an item's choices begin, and whether the item is a declaration.
#[derive(Clone, Copy)]
pub struct Setting<'a> {
    pub topic: Option<&'a [u8]>,
    pub number: usize,
    pub declares: bool,
}
