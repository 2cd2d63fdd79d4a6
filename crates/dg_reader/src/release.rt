// Lets go of what was read and isn't wanted, however deep, without recursion.

use crate::keyword::Keyword;
use dg_base::{ItemBody, Scraps, Stmt};

/// Lets go of a statement.
pub fn let_go_stmt(stmt: Stmt) {
    let mut scraps = Scraps::new();
    scraps.add_stmt(stmt);
    scraps.let_go();
}

/// Lets go of a keyword.
pub fn let_go_keyword(keyword: Keyword) {
    let mut scraps = Scraps::new();
    match keyword {
        Keyword::Bare(_) => {}
        Keyword::Collect(value) | Keyword::Accumulate(value) | Keyword::Into(value) => {
            scraps.add_value(value);
        }
    }
    scraps.let_go();
}

/// Lets go of an item.
pub fn let_go_item(said: ItemBody) {
    let mut scraps = Scraps::new();
    match said {
        ItemBody::Topic(_name) => {}
        ItemBody::Variable(head) => scraps.add_head(head),
        ItemBody::Rule(head, body) | ItemBody::Deny(head, body) | ItemBody::Access(head, body) => {
            scraps.add_head(head);
            scraps.add_body(body);
        }
    }
    scraps.let_go();
}
