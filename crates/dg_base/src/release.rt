// Lets go of what a tree holds, however deep, without recursion.

use crate::tree::{Arm, Body, Head, Item, ItemBody, NowChange, Part, Stmt, Value};
use sqlite_items::{Boxed, Items};

/// What is left of trees that are let go: lists of each kind. A list joins the one that waits already, so no list is made; where
/// no memory is found for that, it is let go at once, by recursion.
#[derive(Drop)]
pub struct Scraps {
    values: Option<Items<Value>>,
    parts: Option<Items<Part>>,
    branches: Option<Items<Items<Stmt>>>,
    stmts: Option<Items<Stmt>>,
    changes: Option<Items<NowChange>>,
    arms: Option<Items<Arm>>,
}

// Joins a list to one that waits.
fn join<T: Drop>(waiting: &mut Option<Items<T>>, more: Items<T>) {
    match waiting {
        Some(list) => {
            let _room = list.append(more);
        }
        None => *waiting = Some(more),
    }
}

// The last of a list that waits.
fn last<T>(waiting: &mut Option<Items<T>>) -> Option<T> {
    match waiting {
        Some(list) => list.pop(),
        None => None,
    }
}

impl Scraps {
    /// Nothing.
    pub fn new() -> Scraps {
        Scraps {
            values: None,
            parts: None,
            branches: None,
            stmts: None,
            changes: None,
            arms: None,
        }
    }

    pub fn add_values(&mut self, values: Items<Value>) {
        join(&mut self.values, values);
    }

    pub fn add_parts(&mut self, parts: Items<Part>) {
        join(&mut self.parts, parts);
    }

    pub fn add_branches(&mut self, branches: Items<Items<Stmt>>) {
        join(&mut self.branches, branches);
    }

    pub fn add_stmts(&mut self, stmts: Items<Stmt>) {
        join(&mut self.stmts, stmts);
    }

    pub fn add_changes(&mut self, changes: Items<NowChange>) {
        join(&mut self.changes, changes);
    }

    pub fn add_arms(&mut self, arms: Items<Arm>) {
        join(&mut self.arms, arms);
    }

    // A list without its elements, and then its tail, which may be one.
    pub fn add_value(&mut self, value: Value) {
        let mut tail = self.take_value(value);
        for _ in 0..u64::MAX {
            match tail {
                Some(value) => tail = self.take_value(value.into_inner()),
                None => return,
            }
        }
    }

    // Takes a value apart but for its tail.
    fn take_value(&mut self, value: Value) -> Option<Boxed<Value>> {
        match value {
            Value::List(values, tail) => {
                self.add_values(values);
                return tail;
            }
            Value::Closure(body) => self.add_body(body),
            Value::Query(head) => self.add_head(head),
            Value::Word(_name) | Value::Object(_name) | Value::Var(_name) => {}
            Value::Words(_words) => {}
            Value::Num(_) | Value::Topic | Value::Any => {}
        }
        None
    }

    pub fn add_head(&mut self, head: Head) {
        let Head { parts } = head;
        self.add_parts(parts);
    }

    pub fn add_body(&mut self, body: Body) {
        let Body { branches } = body;
        self.add_branches(branches);
    }

    pub fn add_stmt(&mut self, stmt: Stmt) {
        let mut inner = self.take_stmt(stmt);
        for _ in 0..u64::MAX {
            match inner {
                Some(stmt) => inner = self.take_stmt(stmt.into_inner()),
                None => return,
            }
        }
    }

    // Takes a statement apart but for one that it is in front of.
    fn take_stmt(&mut self, stmt: Stmt) -> Option<Boxed<Stmt>> {
        match stmt {
            Stmt::Exhaust(inner) | Stmt::Stoppable(inner) => return Some(inner),
            Stmt::Text(_word) => {}
            Stmt::Print(value) => self.add_value(value),
            Stmt::Ask(head) | Stmt::AskAll(head) | Stmt::AskNot(head) => self.add_head(head),
            Stmt::Group(body) | Stmt::NotGroup(body) | Stmt::First(body) => self.add_body(body),
            Stmt::Now(changes) => self.add_changes(changes),
            Stmt::If(arms, other) => self.add_choice(arms, other),
            Stmt::Collect(value, body, into) | Stmt::Accumulate(value, body, into) => {
                self.add_value(value);
                self.add_body(body);
                self.add_value(into);
            }
            Stmt::Select(_mode, branches) => self.add_branches(branches),
        }
        None
    }

    fn add_choice(&mut self, arms: Items<Arm>, other: Option<Body>) {
        self.add_arms(arms);
        if let Some(body) = other {
            self.add_body(body);
        }
    }

    pub fn add_item(&mut self, item: Item) {
        match item.body {
            ItemBody::Topic(_name) => {}
            ItemBody::Rule(head, body)
            | ItemBody::Deny(head, body)
            | ItemBody::Access(head, body) => {
                self.add_head(head);
                self.add_body(body);
            }
            ItemBody::Variable(head) => self.add_head(head),
        }
    }

    // Takes one piece apart, where one is left.
    fn take(&mut self) -> bool {
        if let Some(value) = last(&mut self.values) {
            self.add_value(value);
        } else if let Some(part) = last(&mut self.parts) {
            self.add_part(part);
        } else if let Some(stmts) = last(&mut self.branches) {
            self.add_stmts(stmts);
        } else if let Some(stmt) = last(&mut self.stmts) {
            self.add_stmt(stmt);
        } else if let Some(change) = last(&mut self.changes) {
            self.add_head(change.head);
        } else if let Some(arm) = last(&mut self.arms) {
            self.add_body(arm.condition);
            self.add_body(arm.body);
        } else {
            return false;
        }
        true
    }

    fn add_part(&mut self, part: Part) {
        if let Part::Value(value) = part {
            self.add_value(value);
        }
    }

    /// Lets go of all that is left.
    pub fn let_go(mut self) {
        for _ in 0..u64::MAX {
            if !self.take() {
                return;
            }
        }
    }
}
