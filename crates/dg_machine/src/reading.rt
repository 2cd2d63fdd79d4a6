// Lines that goals read.
ghost use Rattle.std.specs.Prelude.{◌≡◌, ◌∷◌, IfErr, IfOk, MatchOption, OnErr, List, ℕ};
ghost use Rattle.dg_base.specs.declared.run.Limits.{Limits};
ghost use Rattle.dg_base.specs.declared.run.Fault.TheVariants.{Write};
ghost use Rattle.dg_base.specs.Written.{BrokeOff, SinkView};
ghost use Rattle.dg_meaning.specs.Render.{render};
ghost use Rattle.dg_meaning.specs.World.{Print};
ghost use Rattle.dg_mid.specs.declared.code.Code.{Code};
ghost use Rattle.dg_mid.specs.declared.code.Op.TheVariants as op;
ghost use Rattle.dg_mid.specs.declared.code.Action.TheVariants as action;
ghost use Rattle.dg_mid.specs.State.{Mid};
ghost use Rattle.dg_mid.specs.Step.{followed};
ghost use Rattle.dg_lasting.specs.declared.lasting.Lasting.{Lasting};
ghost use Rattle.dg_machine.specs.Built.{OpsBuilt};
ghost use Rattle.dg_machine.specs.Layout.{Holds, Roomy};
ghost use Rattle.dg_machine.specs.inside.Reading.{ReadsNone, line_behind};
ghost use Rattle.dg_machine.specs.inside.Running.{HasText, ReadsGoal, BreaksGoal};

use crate::memory::Memory;
use crate::now::Now;
use crate::tables::Tables;
use dg_base::{Ending, Fault, Sink, Source, Term};
use dg_mid::{Action, Op};
use dg_spacing::{Event, Spacer};
use dg_words::Line;

/// The term for which an instruction reads a line, if it reads one.
pub fn line_term(first: &Op) -> Option<&Term>
    ensures { MatchOption result (ReadsNone first.now) (λ t. first.now ≡ op.Do (action.Input t.now)) }
{
    match first {
        Op::Do(action) => match action {
            Action::Input(term) => Some(term),
            _ => None,
        },
        _ => None,
    }
}

/// The newline behind a line that was read is printed, where the run goes on.
fn print_line<'p, K: Sink>(
    now: Now<'p>,
    spacer: &mut Spacer,
    sink: &mut K,
) -> Result<Now<'p>, Fault>
    ensures same { IfOk result (λ after. after ≡ now.entry) }
    ensures text { IfOk result (λ after. (start : SinkView) → (ps : List Print) → HasText spacer.old start (K.view sink.old) ps →
        HasText spacer.new start (K.view sink.new) (followed ps (line_behind now.entry))) }
    ensures err { IfErr result (λ fault. (fault ≡ Write) × ((start : SinkView) → (ps : List Print) → HasText spacer.old start (K.view sink.old) ps →
        BrokeOff start (K.view sink.new) (render ps))) }
{
    match now {
        Now::Ended(ending) => Ok(Now::Ended(ending)),
        now => match spacer.event(sink, Event::Line) {
            Ok(()) => Ok(now),
            Err(_) => Err(Fault::Write),
        },
    }
}

/// A line is read for a term, whose value is unified with its words.
pub fn read_line<'p, S: Source, K: Sink>(
    memory: &mut Memory,
    tables: &Tables,
    ops: &'p [Op],
    term: &'p Term,
    rest: &'p [Op],
    source: &mut S,
    spacer: &mut Spacer,
    sink: &mut K,
) -> Result<Now<'p>, Fault>
    requires some { (code : Code) × (l : Limits) × (m : Mid) × Holds code l memory.old m }
    requires whole { ops.now ≡ op.Do (action.Input term.now) ∷ rest.now }
    requires built { OpsBuilt rest.now }
    ensures ok { (code : Code) → (out : Lasting) → IfOk result (λ now. ReadsGoal tables.now code memory.old out ops.now memory.new out now
        spacer.old spacer.new (K.view sink.old) (K.view sink.new) (S.view source.old) (S.view source.new)) }
    ensures err { (code : Code) → IfErr result (λ fault. BreaksGoal fault tables.now code memory.old ops.now spacer.old spacer.new
        (K.view sink.old) (K.view sink.new) (S.view source.old) (S.view source.new)) }
    ensures roomy { OnErr result ((code : Code) → (l : Limits) → (m : Mid) → Holds code l memory.old m → Roomy l memory.new) }
{
    match memory.put_one(tables, term) {
        Err(_) => Ok(Now::Ended(Ending::HeapLimit)),
        Ok(()) => {
            let into = memory.arg(0);
            let mut line = Line::new();
            match line.read(source) {
                Err(_) => Err(Fault::Read),
                Ok(false) => Ok(Now::Ended(Ending::InputEnded)),
                Ok(true) => {
                    let now = memory.give_line(tables, line.spelling(), into, rest);
                    print_line(now, spacer, sink)
                }
            }
        }
    }
}
