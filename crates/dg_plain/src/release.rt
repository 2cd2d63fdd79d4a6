// Lets go of what was built of an item.

use crate::built::Built;
use dg_base::{Items, Scraps, Value};

/// Lets go of what was built, however deep, without recursion.
pub fn let_go(built: Built) {
    let Built {
        at: _,
        values,
        parts,
        stmts,
        branches,
        mut bodies,
        arms,
        changes,
        puts,
    } = built;
    let mut scraps = Scraps::new();
    scraps.add_values(Items::from_vec(values));
    scraps.add_parts(Items::from_vec(parts));
    scraps.add_stmts(Items::from_vec(stmts));
    scraps.add_branches(Items::from_vec(branches));
    scraps.add_arms(Items::from_vec(arms));
    scraps.add_changes(Items::from_vec(changes));
    scraps.add_stmts(Items::from_vec(puts));
    for _ in 0..u64::MAX {
        match bodies.pop() {
            Some(body) => scraps.add_body(body),
            None => break,
        }
    }
    scraps.let_go();
}

/// Lets go of a value, however deep, without recursion.
pub fn let_go_value(value: Value) {
    let mut scraps = Scraps::new();
    scraps.add_value(value);
    scraps.let_go();
}
