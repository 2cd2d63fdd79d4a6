// Letting go of what was built of an item that is refused: however deep it is, without recursion.
use dg_base::{Body, Items, NowChange, Scraps};

/// Lets go of a body.
pub fn let_go_body(body: Body) {
    let mut scraps = Scraps::new();
    scraps.add_body(body);
    scraps.let_go();
}

/// Lets go of heads.
pub fn let_go_heads(heads: Vec<NowChange>) {
    let mut scraps = Scraps::new();
    scraps.add_changes(Items::from_vec(heads));
    scraps.let_go();
}

/// Lets go of a head, and of those behind it.
pub fn let_go_head(first: NowChange, others: Vec<NowChange>) {
    let NowChange { head, set: _ } = first;
    let mut scraps = Scraps::new();
    scraps.add_head(head);
    scraps.add_changes(Items::from_vec(others));
    scraps.let_go();
}
