// Objects, properties and tables, as the instructions ask for them.
ghost use Rattle.std.specs.Prelude.{◌≡◌, ◌≤◌, Bool};
ghost use Rattle.z_model.specs.Memory.{guarded};
ghost use Rattle.z_model.specs.Objects.{parent_at, sibling_at, child_at, link_in, is_inside, has_attribute, with_attribute, removed, inserted};
ghost use Rattle.z_model.specs.Properties.{property_value, property_place, next_number, with_property, length_before};
ghost use Rattle.z_model.specs.Tables.{table_copied};
ghost use Rattle.z_model.specs.Effects.{answers_or, tests_or, answers_and_tests, answers_object, answers_place, objects_in, sought, write_effect};
ghost use Rattle.z_play.specs.View.{machine, layout_in, Sound, Kept};
ghost use Rattle.z_play.specs.inside.Effects.{GivesEffect};

use crate::engine::Engine;
use z_full::{
    attr, child, copy, find, get_prop, insert, is_child, next_prop, parent, prop_addr, prop_len,
    put_prop, remove, set_attr, sibling,
};
use z_model::{Args, Branch, Effect, Op, ZFault, word_of};

impl Engine {
    /// The address of the table of objects.
    pub fn objects(&self) -> u16
        requires { Sound self.now }
        ensures { result ≡ objects_in (machine self.now) }
    {
        word_of(self.memory.bytes[10], self.memory.bytes[11])
    }

    fn test_or(
        &mut self,
        end: u32,
        branch: Option<Branch>,
        test: Result<bool, ZFault>,
    ) -> Result<Effect, ZFault>
        requires sound { Sound self.old }
        requires near { end ≤ 524288 }
        ensures kept { Kept self.old self.new }
        ensures tested { GivesEffect result (layout_in self.old) (machine self.new) (tests_or (layout_in self.old) (machine self.old) end branch test) }
    {
        match test {
            Ok(test) => self.test(end, branch, test),
            Err(fault) => Err(fault),
        }
    }

    // Stores an answer, and tests.
    #[inline(always)]
    fn answer_and_test(&mut self, end: u32, op: &Op, x: u16, test: bool) -> Result<Effect, ZFault>
        requires sound { Sound self.old }
        requires near { end ≤ 524288 }
        ensures kept { Kept self.old self.new }
        ensures answered { GivesEffect result (layout_in self.old) (machine self.new)
            (answers_and_tests (layout_in self.old) (machine self.old) end op.now.store op.now.branch x test) }
    {
        self.store_if(op.store, x)?;
        self.test(end, op.branch, test)
    }

    // Stores an object, and tests whether it is one.
    #[inline(always)]
    fn answer_object(&mut self, end: u32, op: &Op, x: Result<u16, ZFault>) -> Result<Effect, ZFault>
        requires sound { Sound self.old }
        requires near { end ≤ 524288 }
        ensures kept { Kept self.old self.new }
        ensures answered { GivesEffect result (layout_in self.old) (machine self.new)
            (answers_object (layout_in self.old) (machine self.old) end op.now.store op.now.branch x) }
    {
        match x {
            Ok(x) => self.answer_and_test(end, op, x, x != 0),
            Err(fault) => Err(fault),
        }
    }
}

// ---- the tree and its attributes

impl Engine {
    pub fn load_sibling(&mut self, end: u32, op: &Op, n: u16) -> Result<Effect, ZFault>
        requires sound { Sound self.old }
        requires near { end ≤ 524288 }
        ensures kept { Kept self.old self.new }
        ensures done { GivesEffect result (layout_in self.old) (machine self.new)
            (answers_object (layout_in self.old) (machine self.old) end op.now.store op.now.branch
            (link_in (guarded (layout_in self.old) (machine self.old).memory) n (sibling_at (objects_in (machine self.old)) n))) }
    {
        let found = sibling(&self.memory, self.objects(), n);
        self.answer_object(end, op, found)
    }

    pub fn load_child(&mut self, end: u32, op: &Op, n: u16) -> Result<Effect, ZFault>
        requires sound { Sound self.old }
        requires near { end ≤ 524288 }
        ensures kept { Kept self.old self.new }
        ensures done { GivesEffect result (layout_in self.old) (machine self.new)
            (answers_object (layout_in self.old) (machine self.old) end op.now.store op.now.branch
            (link_in (guarded (layout_in self.old) (machine self.old).memory) n (child_at (objects_in (machine self.old)) n))) }
    {
        let found = child(&self.memory, self.objects(), n);
        self.answer_object(end, op, found)
    }

    pub fn load_parent(&mut self, end: u32, store: Option<u8>, n: u16) -> Result<Effect, ZFault>
        requires { Sound self.old }
        ensures kept { Kept self.old self.new }
        ensures done { GivesEffect result (layout_in self.old) (machine self.new)
            (answers_or (layout_in self.old) (machine self.old) end store
            (link_in (guarded (layout_in self.old) (machine self.old).memory) n (parent_at (objects_in (machine self.old)) n))) }
    {
        let found = parent(&self.memory, self.objects(), n);
        self.answer_or(end, store, found)
    }

    pub fn test_child(
        &mut self,
        end: u32,
        branch: Option<Branch>,
        a: u16,
        b: u16,
    ) -> Result<Effect, ZFault>
        requires sound { Sound self.old }
        requires near { end ≤ 524288 }
        ensures kept { Kept self.old self.new }
        ensures done { GivesEffect result (layout_in self.old) (machine self.new)
            (tests_or (layout_in self.old) (machine self.old) end branch
            (is_inside (guarded (layout_in self.old) (machine self.old).memory) (objects_in (machine self.old)) a b)) }
    {
        let test = is_child(&self.memory, self.objects(), a, b);
        self.test_or(end, branch, test)
    }

    pub fn test_attribute(
        &mut self,
        end: u32,
        branch: Option<Branch>,
        n: u16,
        at: u16,
    ) -> Result<Effect, ZFault>
        requires sound { Sound self.old }
        requires near { end ≤ 524288 }
        ensures kept { Kept self.old self.new }
        ensures done { GivesEffect result (layout_in self.old) (machine self.new)
            (tests_or (layout_in self.old) (machine self.old) end branch
            (has_attribute (guarded (layout_in self.old) (machine self.old).memory) (objects_in (machine self.old)) n at)) }
    {
        let test = attr(&self.memory, self.objects(), n, at);
        self.test_or(end, branch, test)
    }

    pub fn set_attribute(&mut self, end: u32, n: u16, at: u16, on: bool) -> Result<Effect, ZFault>
        requires { Sound self.old }
        ensures kept { Kept self.old self.new }
        ensures done { GivesEffect result (layout_in self.old) (machine self.new)
            (write_effect (machine self.old) end
            (with_attribute (guarded (layout_in self.old) (machine self.old).memory) (objects_in (machine self.old)) n at on)) }
    {
        let objects = self.objects();
        match set_attr(&mut self.memory, objects, n, at, on) {
            Ok(()) => {
                self.pc = end;
                Ok(Effect::Goes)
            }
            Err(fault) => Err(fault),
        }
    }

    pub fn insert_object(&mut self, end: u32, a: u16, b: u16) -> Result<Effect, ZFault>
        requires { Sound self.old }
        ensures kept { Kept self.old self.new }
        ensures done { GivesEffect result (layout_in self.old) (machine self.new)
            (write_effect (machine self.old) end (inserted (guarded (layout_in self.old) (machine self.old).memory) (objects_in (machine self.old)) a b)) }
    {
        let objects = self.objects();
        match insert(&mut self.memory, objects, a, b) {
            Ok(()) => {
                self.pc = end;
                Ok(Effect::Goes)
            }
            Err(fault) => Err(fault),
        }
    }

    pub fn remove_object(&mut self, end: u32, a: u16) -> Result<Effect, ZFault>
        requires { Sound self.old }
        ensures kept { Kept self.old self.new }
        ensures done { GivesEffect result (layout_in self.old) (machine self.new)
            (write_effect (machine self.old) end (removed (guarded (layout_in self.old) (machine self.old).memory) (objects_in (machine self.old)) a)) }
    {
        let objects = self.objects();
        match remove(&mut self.memory, objects, a) {
            Ok(()) => {
                self.pc = end;
                Ok(Effect::Goes)
            }
            Err(fault) => Err(fault),
        }
    }
}

// ---- properties

impl Engine {
    pub fn load_property(
        &mut self,
        end: u32,
        store: Option<u8>,
        n: u16,
        p: u16,
    ) -> Result<Effect, ZFault>
        requires { Sound self.old }
        ensures kept { Kept self.old self.new }
        ensures done { GivesEffect result (layout_in self.old) (machine self.new)
            (answers_or (layout_in self.old) (machine self.old) end store
            (property_value (guarded (layout_in self.old) (machine self.old).memory) (objects_in (machine self.old)) n p)) }
    {
        let value = get_prop(&self.memory, self.objects(), n, p);
        self.answer_or(end, store, value)
    }

    pub fn load_property_place(
        &mut self,
        end: u32,
        store: Option<u8>,
        n: u16,
        p: u16,
    ) -> Result<Effect, ZFault>
        requires { Sound self.old }
        ensures kept { Kept self.old self.new }
        ensures done { GivesEffect result (layout_in self.old) (machine self.new)
            (answers_or (layout_in self.old) (machine self.old) end store
            (property_place (guarded (layout_in self.old) (machine self.old).memory) (objects_in (machine self.old)) n p)) }
    {
        let place = prop_addr(&self.memory, self.objects(), n, p);
        self.answer_or(end, store, place)
    }

    pub fn load_next_property(
        &mut self,
        end: u32,
        store: Option<u8>,
        n: u16,
        p: u16,
    ) -> Result<Effect, ZFault>
        requires { Sound self.old }
        ensures kept { Kept self.old self.new }
        ensures done { GivesEffect result (layout_in self.old) (machine self.new)
            (answers_or (layout_in self.old) (machine self.old) end store
            (next_number (guarded (layout_in self.old) (machine self.old).memory) (objects_in (machine self.old)) n p)) }
    {
        let next = next_prop(&self.memory, self.objects(), n, p);
        self.answer_or(end, store, next)
    }

    pub fn load_property_length(
        &mut self,
        end: u32,
        store: Option<u8>,
        at: u16,
    ) -> Result<Effect, ZFault>
        requires { Sound self.old }
        ensures kept { Kept self.old self.new }
        ensures done { GivesEffect result (layout_in self.old) (machine self.new)
            (answers_or (layout_in self.old) (machine self.old) end store (length_before (guarded (layout_in self.old) (machine self.old).memory) at)) }
    {
        let length = prop_len(&self.memory, at);
        self.answer_or(end, store, length)
    }

    pub fn set_property(&mut self, end: u32, n: u16, p: u16, x: u16) -> Result<Effect, ZFault>
        requires { Sound self.old }
        ensures kept { Kept self.old self.new }
        ensures done { GivesEffect result (layout_in self.old) (machine self.new)
            (write_effect (machine self.old) end
            (with_property (guarded (layout_in self.old) (machine self.old).memory) (objects_in (machine self.old)) n p x)) }
    {
        let objects = self.objects();
        match put_prop(&mut self.memory, objects, n, p, x) {
            Ok(()) => {
                self.pc = end;
                Ok(Effect::Goes)
            }
            Err(fault) => Err(fault),
        }
    }
}

// ---- tables

impl Engine {
    // Where a value stands in a table; without a fourth operand the entries are words of two bytes.
    fn seek(&self, a: &Args) -> Result<Option<u16>, ZFault>
        requires { Sound self.now }
        ensures { result ≡ sought (layout_in self.now) (machine self.now) a.now }
    {
        let form = if a.count > 3 { a.fourth } else { 0x82 };
        find(&self.memory, a.first, a.second, a.third, form)
    }

    pub fn search_table(&mut self, end: u32, op: &Op, a: &Args) -> Result<Effect, ZFault>
        requires sound { Sound self.old }
        requires near { end ≤ 524288 }
        ensures kept { Kept self.old self.new }
        ensures done { GivesEffect result (layout_in self.old) (machine self.new)
            (answers_place (layout_in self.old) (machine self.old) end op.now.store op.now.branch (sought (layout_in self.old) (machine self.old) a.now)) }
    {
        match self.seek(a) {
            Ok(Some(at)) => self.answer_and_test(end, op, at, true),
            Ok(None) => self.answer_and_test(end, op, 0, false),
            Err(fault) => Err(fault),
        }
    }

    pub fn copy_table(&mut self, end: u32, a: u16, b: u16, n: u16) -> Result<Effect, ZFault>
        requires { Sound self.old }
        ensures kept { Kept self.old self.new }
        ensures done { GivesEffect result (layout_in self.old) (machine self.new)
            (write_effect (machine self.old) end (table_copied (guarded (layout_in self.old) (machine self.old).memory) a b n)) }
    {
        match copy(&mut self.memory, a, b, n) {
            Ok(()) => {
                self.pc = end;
                Ok(Effect::Goes)
            }
            Err(fault) => Err(fault),
        }
    }
}
