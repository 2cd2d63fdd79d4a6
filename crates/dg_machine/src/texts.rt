// Values as they are printed.
ghost use Rattle.std.specs.Prelude.{◌≡◌, [], ◌∷◌};
ghost use Rattle.dg_base.specs.declared.program.CoreProgram.{CoreProgram};
ghost use Rattle.dg_base.specs.declared.run.Limits.{Limits};
ghost use Rattle.dg_meaning.specs.Pieces.{pieces};
ghost use Rattle.dg_meaning.specs.Substitutions.{resolved};
ghost use Rattle.dg_meaning.specs.Values.{Value};
ghost use Rattle.dg_arena.specs.Held.{meaning_of};
ghost use Rattle.dg_mid.specs.declared.code.Code.{Code};
ghost use Rattle.dg_mid.specs.State.{Mid};
ghost use Rattle.dg_texts.specs.Printing.{Printed};
ghost use Rattle.dg_machine.specs.Tables.{IsOf};
ghost use Rattle.dg_machine.specs.Refs.{RefsAt};
ghost use Rattle.dg_machine.specs.Layout.{Holds};

use crate::memory::Memory;
use crate::tables::Tables;
use dg_base::{Sink, WriteFault};
use dg_spacing::Spacer;
use dg_texts::print_value;

impl Memory {
    /// Prints the argument.
    pub fn print_arg<K: Sink>(
        &mut self,
        tables: &Tables,
        spacer: &mut Spacer,
        sink: &mut K,
    ) -> Result<(), WriteFault>
        requires { (v : Value) × RefsAt (meaning_of self.old.arena) self.old.args.items (v ∷ []) }
        ensures held { (code : Code) → (l : Limits) → (m : Mid) → Holds code l self.old m → Holds code l self.new m }
        ensures printed { (code : Code) → (l : Limits) → (m : Mid) → (p : CoreProgram) → (v : Value) → IsOf p tables.now →
            Holds code l self.old m → RefsAt (meaning_of self.old.arena) self.old.args.items (v ∷ []) →
            Printed (pieces p (resolved m.state.subst v)) spacer.old spacer.new (K.view sink.old) (K.view sink.new) result }
    {
        let value = self.arg(0);
        let words = tables.words.as_slice();
        let objects = tables.objects.as_slice();
        print_value(&mut self.arena, words, objects, spacer, sink, value)
    }
}
