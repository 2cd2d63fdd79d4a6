// Letting go of what was built of a source that is refused: however deep it is, without recursion.
use dg_base::{Item, Items, Tree};

// A tree is let go so.
fn let_go_tree(_tree: Tree) {}

/// Lets go of items.
pub fn let_go_items(items: Vec<Item>) {
    let_go_tree(Tree {
        items: Items::from_vec(items),
    });
}
