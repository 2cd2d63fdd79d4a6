// Which variables are bound, and in which order they were bound.

ghost use Rattle.std.specs.Prelude.{◌≡◌, ◌+◌, ◌<◌, ◌≤◌, ℕ, [], ◌∷◌, ◌++◌, None, IfOk, OnOk, OnErr, List, length, take, reverse, vec_len, vec_capacity};
ghost use Rattle.dg_unify.specs.Links.{to_of, Once, AreLinked};
ghost use Rattle.dg_unify.specs.Props.{are_linked_prop};

use crate::bindings::Ref;
use crate::slots::Link;
use std::alloc::{AllocError, Global};

// So many places are made at once.
const PLACES: usize = 1024;

/// What each variable is bound to, and all bindings, the oldest first. Behind the variables stand places of further ones, none of
/// which is bound.
#[derive(Drop)]
pub struct Links {
    to: Vec<Option<Ref>>,
    log: Vec<Link>,
    vars: usize,
    ghost linked: { AreLinked vars to.items log.items } by { are_linked_prop vars to.items log.items },
}

impl Links {
    ghost use Rattle.dg_unify.specs.Linked.{log_of, vars_of, var_room, link_room, KeepsRoom};

    /// No variable and no binding.
    pub fn new(alloc: Global) -> Links
        ensures log { log_of result ≡ [] }
        ensures vars { vars_of result ≡ 0 }
    {
        Links {
            to: Vec::new(alloc),
            log: Vec::new(alloc),
            vars: 0,
        }
    }

    /// The same, with room for so many variables and so many bindings.
    pub fn with_room(alloc: Global, vars: usize, links: usize) -> Result<Links, AllocError>
        ensures log { IfOk result (λ l. log_of l ≡ []) }
        ensures vars { IfOk result (λ l. vars_of l ≡ 0) }
        ensures var_room { IfOk result (λ l. vars ≤ var_room l) }
        ensures link_room { IfOk result (λ l. links ≤ link_room l) }
    {
        let to = Vec::with_capacity(alloc, vars)?;
        let log = Vec::with_capacity(alloc, links)?;
        Ok(Links { to, log, vars: 0 })
    }

    /// How many variables there are.
    pub fn vars(&self) -> usize
        ensures { result ≡ vars_of self.now }
    {
        self.vars
    }

    /// How many bindings there are.
    pub fn len(&self) -> usize
        ensures { result ≡ length (log_of self.now) }
    {
        self.log.len()
    }

    /// What a variable is bound to.
    pub fn to(&self, var: u32) -> Option<Ref>
        requires { var < vars_of self.now }
        ensures { result ≡ to_of var (reverse (log_of self.now)) }
    {
        self.to[var as usize]
    }

    /// One more variable, which isn't bound.
    pub fn add_var(&mut self) -> Result<(), AllocError>
        ensures ok { OnOk result (vars_of self.new ≡ vars_of self.old + 1) }
        ensures err { OnErr result (vars_of self.new ≡ vars_of self.old) }
        ensures log { log_of self.new ≡ log_of self.old }
    {
        if self.vars < self.to.len() {
            self.vars += 1;
            return Ok(());
        }
        match self.to.push(None) {
            Ok(()) => {
                self.vars += 1;
                Ok(())
            }
            Err(_) => Err(AllocError),
        }
    }

    /// The same, where there is room.
    pub fn add_var_reserved(&mut self)
        requires { vars_of self.old < var_room self.old }
        ensures vars { vars_of self.new ≡ vars_of self.old + 1 }
        ensures log { log_of self.new ≡ log_of self.old }
        ensures room { KeepsRoom self.old self.new }
    {
        if self.vars < self.to.len() {
            self.vars += 1;
            return;
        }
        self.to.push_reserved(None);
        self.vars += 1;
    }

    /// So many more variables, which aren't bound, where there is room.
    #[inline(always)]
    pub fn add_vars_reserved(&mut self, count: u16)
        requires { vars_of self.old + count ≤ var_room self.old }
        ensures vars { vars_of self.new ≡ vars_of self.old + count }
        ensures log { log_of self.new ≡ log_of self.old }
        ensures room { KeepsRoom self.old self.new }
    {
        let vars = self.vars + count as usize;
        self.see_places(vars);
        self.vars = vars;
    }

    // Sees that there are places for so many variables, where there is room.
    #[inline(always)]
    fn see_places(&mut self, vars: usize)
        requires { vars ≤ var_room self.old }
        ensures places { vars ≤ vec_len self.new.to }
        ensures vars { vars_of self.new ≡ vars_of self.old }
        ensures log { log_of self.new ≡ log_of self.old }
        ensures room { KeepsRoom self.old self.new }
    {
        if self.to.len() < vars {
            self.make_places(vars);
        }
    }

    // Makes places for so many variables, and for some more, where there is room.
    #[inline(never)]
    fn make_places(&mut self, vars: usize)
        requires { vars ≤ var_room self.old }
        ensures places { vars ≤ vec_len self.new.to }
        ensures vars { vars_of self.new ≡ vars_of self.old }
        ensures log { log_of self.new ≡ log_of self.old }
        ensures room { KeepsRoom self.old self.new }
    {
        let most = vars.saturating_add(PLACES).min(self.to.capacity());
        push_places(&mut self.to, most);
    }

    /// Binds an unbound variable.
    pub fn bind(&mut self, var: u32, to: Ref) -> Result<(), AllocError>
        requires within { var < vars_of self.old }
        requires unbound { to_of var (reverse (log_of self.old)) ≡ None }
        ensures ok { OnOk result (log_of self.new ≡ log_of self.old ++ record { var = var; to = to } ∷ []) }
        ensures err { OnErr result (log_of self.new ≡ log_of self.old) }
        ensures vars { vars_of self.new ≡ vars_of self.old }
    {
        match self.log.push(Link { var, to }) {
            Ok(()) => {
                self.to[var as usize] = Some(to);
                Ok(())
            }
            Err(_) => Err(AllocError),
        }
    }

    /// The same, where there is room.
    pub fn bind_reserved(&mut self, var: u32, to: Ref)
        requires within { var < vars_of self.old }
        requires unbound { to_of var (reverse (log_of self.old)) ≡ None }
        requires room { length (log_of self.old) < link_room self.old }
        ensures log { log_of self.new ≡ log_of self.old ++ record { var = var; to = to } ∷ [] }
        ensures vars { vars_of self.new ≡ vars_of self.old }
        ensures room { KeepsRoom self.old self.new }
    {
        self.log.push_reserved(Link { var, to });
        self.to[var as usize] = Some(to);
    }

    /// Takes back all bindings but so many, and all variables but so many, of which those are.
    pub fn undo(&mut self, links: usize, vars: usize)
        requires links_in { links ≤ length (log_of self.old) }
        requires vars_in { vars ≤ vars_of self.old }
        requires once { Once vars (reverse (take links (log_of self.old))) }
        ensures log { log_of self.new ≡ take links (log_of self.old) }
        ensures vars { vars_of self.new ≡ vars }
        ensures room { KeepsRoom self.old self.new }
    {
        self.unlink(links);
        self.vars = vars;
    }

    // Takes back all bindings but so many.
    fn unlink(&mut self, links: usize)
        requires { links ≤ length (log_of self.old) }
        ensures log { log_of self.new ≡ take links (log_of self.old) }
        ensures vars { vars_of self.new ≡ vars_of self.old }
        ensures room { KeepsRoom self.old self.new }
    {
        unbind(self.to.as_mut_slice(), &self.log[links..]);
        self.log.truncate(links);
    }
}

// Makes places up to so many, for which there is room.
fn push_places(to: &mut Vec<Option<Ref>>, most: usize)
    requires { most ≤ vec_capacity to.old }
    ensures linked { (vars : ℕ) → (log : List Link) → AreLinked vars to.old.items log → AreLinked vars to.new.items log }
    ensures places { most ≤ vec_len to.new }
    ensures capacity { vec_capacity to.new ≡ vec_capacity to.old }
{
    'places: while to.len() < most {
        to.push_reserved(None);
    }
}

// Takes back the newest bindings, from the last of them on.
fn unbind(to: &mut [Option<Ref>], newest: &[Link])
    requires { (vars : ℕ) × (log : List Link) × AreLinked vars to.old (log ++ newest.now) }
    ensures linked { (vars : ℕ) → (log : List Link) → AreLinked vars to.old (log ++ newest.now) → AreLinked vars to.new log }
    ensures vars { length to.new ≡ length to.old }
{
    let mut left = newest.len();
    'links: while left > 0 {
        left -= 1;
        to[newest[left].var as usize] = None;
    }
}
