// The first argument of a query.
ghost use Rattle.dg_interp.specs.inside.Frames.{EndsBy, values_in};
ghost use Rattle.dg_interp.specs.inside.Engine.{IsSound, store_in};
ghost use Rattle.dg_terms.specs.Passing.{IsFirst};
ghost use Rattle.std.specs.Prelude.{length};

use super::{Engine, stretch};
use dg_choices::Env;
use dg_unify::{Bindings, View};

impl<'p> Engine<'p> {
    /// What the first of some arguments is, where there is one.
    pub fn first_of(&self, args: Env) -> Option<View>
        requires sound { IsSound self.now }
        requires args { EndsBy (length self.now.refs.items) args }
        ensures { IsFirst (store_in self.now.store) (values_in (store_in self.now.store) self.now.refs.items args) result }
    {
        match stretch(&self.refs, args).first() {
            None => None,
            Some(value) => Some(self.store.walk(*value)),
        }
    }
}
