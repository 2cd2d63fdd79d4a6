// The machine: it runs its code from the start.
ghost use Rattle.std.specs.Prelude.{◌≡◌, ◌<◌, ◌≤◌, IfOk, IsErrOf, List, ℕ, length};
ghost use Rattle.dg_base.specs.Causes.{Rose};
ghost use Rattle.dg_base.specs.Sound.{IsSound};
ghost use Rattle.dg_base.specs.declared.program.CoreProgram.{CoreProgram};
ghost use Rattle.dg_meaning.specs.Few.{AllHoldFew, HeadsAreFew};
ghost use Rattle.dg_meaning.specs.Transcript.{line_of};
ghost use Rattle.dg_base.specs.Streams.{SourceView};
ghost use Rattle.dg_base.specs.declared.run.Limits.{Limits as TheLimits};
ghost use Rattle.dg_meaning.specs.Facts.{kinds_of, kept_size, start_facts};
ghost use Rattle.dg_lasting.specs.Lasting.{StartsLasting};
ghost use Rattle.dg_lasting.specs.Resting.{extent_of};
ghost use Rattle.dg_mid.specs.Codes.{Codes};
ghost use Rattle.dg_mid.specs.Potential.{Tidy};
ghost use Rattle.dg_mid.specs.Programs.{IsMidOf};
ghost use Rattle.dg_machine.specs.Built.{IsBuilt};
ghost use Rattle.dg_machine.specs.Tables.{IsOf};
ghost use Rattle.dg_machine.specs.Layout.{Roomy};
ghost use Rattle.dg_machine.specs.Program.{IsReady, HasLostText};
ghost use Rattle.dg_meaning.specs.Engines.{game, left_told, HasShown, HasLostInput};
ghost use Rattle.dg_meaning.specs.inside.Engines.{ForTyped};

use crate::doing::code_at;
use crate::memory::Memory;
use crate::now::Now;
use crate::steps::go;
use crate::tables::Tables;
use dg_base::{Ending, Fault, Limits, Outcome, Sink, Source, write_all};
use dg_lasting::{Lasting, Resting};
use dg_mid::{Code, MidProgram, let_go, let_go_places};
use dg_spacing::Spacer;
use std::alloc::{AllocError, Global};

/// Code with the tables of its program, the limits of its runs, a memory that was taken once, and what lasts, between runs. Where more
/// starts kept than may be, nothing lasts.
#[derive(Drop)]
pub struct Machine {
    code: Code,
    tables: Tables,
    limits: Limits,
    memory: Memory,
    resting: Option<Resting>,
    ghost roomy: { Roomy limits memory },
}

fn line(ending: Ending) -> &'static [u8]
    ensures { result.now ≡ line_of ending }
{
    match ending {
        Ending::Done | Ending::Quit => b"",
        Ending::Failed => b"[Failed]\n",
        Ending::Stopped => b"[Stopped]\n",
        Ending::InputEnded => b"[End of input]\n",
        Ending::StepLimit => b"[Step limit]\n",
        Ending::HeapLimit => b"[Heap limit]\n",
        Ending::TrailLimit => b"[Trail limit]\n",
        Ending::AuxLimit => b"[Aux limit]\n",
        Ending::KeepLimit => b"[Keep limit]\n",
    }
}

/// Writes the text of a run that ends before its first goal, since more starts kept than may be.
fn write_keep<K: Sink>(sink: &mut K) -> Result<Outcome, Fault>
    ensures shows { (p : CoreProgram) → (dice : List ℕ) → (l : TheLimits) →
        l.keep < kept_size (kinds_of p) (start_facts p.places) → (i : SourceView) →
        IfOk result (λ outcome. ForTyped i.left (λ typed. HasShown (game p dice) typed l outcome (left_told i i) (K.view sink.old) (K.view sink.new))) }
    ensures output { IsErrOf result Fault.Write → (p : CoreProgram) → (dice : List ℕ) → (l : TheLimits) →
        l.keep < kept_size (kinds_of p) (start_facts p.places) → (i : SourceView) →
        ForTyped i.left (λ typed. HasLostText (game p dice) typed l i i (K.view sink.old) (K.view sink.new)) }
    ensures read { IsErrOf result Fault.Read → ⊥ }
{
    match write_all(sink, b"[Keep limit]\n") {
        Ok(()) => Ok(Outcome {
            ending: Ending::KeepLimit,
            goals: 0,
        }),
        Err(_) => Err(Fault::Write),
    }
}

impl Machine {
    /// A machine for the runs of a sound program whose goals and heads hold few terms, with all the memory that they take.
    pub fn new(alloc: Global, program: MidProgram, limits: &Limits) -> Result<Machine, AllocError>
        requires sound { (p : CoreProgram) × IsSound p × AllHoldFew 12 p × HeadsAreFew 12 p × IsMidOf p program }
        ensures ready { (p : CoreProgram) → IsMidOf p program → IfOk result (λ m. IsReady p m.limits m.code m.tables m.resting) }
        ensures limits { IfOk result (λ m. m.limits ≡ limits.now) }
    {
        let MidProgram {
            code,
            places,
            objects,
            words,
            captured,
            sites,
            entry: _entry,
        } = program;
        let many = objects.len() as u16;
        let resting = Resting::new(alloc, places.as_slice(), many, sites, limits);
        let tables = Tables::of(alloc, places.as_slice(), objects, words, captured);
        let memory = Memory::new(alloc, limits.heap, limits.trail);
        let_go_places(alloc, places);
        match (tables, resting, memory) {
            (Ok(tables), Ok(resting), Ok(memory)) => Ok(Machine {
                code,
                tables,
                limits: *limits,
                memory,
                resting,
            }),
            _ => {
                let_go(alloc, code);
                Err(AllocError)
            }
        }
    }

    /// Lets go of its code without recursion, and of its memory.
    pub fn let_go(self, alloc: Global) {
        let_go(alloc, self.code);
    }

    /// Runs the code with what lasts, as it is at the start.
    fn run_with<S: Source, K: Sink>(
        &mut self,
        lasting: &mut Lasting<'_>,
        source: &mut S,
        sink: &mut K,
    ) -> Result<Outcome, Fault>
        requires built { IsBuilt self.old.code }
        requires tidy { Tidy self.old.code }
        requires lasting { (p : CoreProgram) × (dice : List ℕ) × IsOf p self.old.tables × StartsLasting p self.old.limits dice lasting.old }
        ensures shows { IfOk result (λ outcome. (p : CoreProgram) → (dice : List ℕ) → Codes p self.old.code → IsOf p self.old.tables →
            StartsLasting p self.old.limits dice lasting.old → ForTyped (S.view source.old).left (λ typed. HasShown (game p dice) typed
            self.old.limits outcome (left_told (S.view source.old) (S.view source.new)) (K.view sink.old) (K.view sink.new))) }
        ensures input { IsErrOf result Fault.Read → (p : CoreProgram) → (dice : List ℕ) → Codes p self.old.code → IsOf p self.old.tables →
            StartsLasting p self.old.limits dice lasting.old → ForTyped (S.view source.old).left (λ typed. HasLostInput (game p dice) typed
            self.old.limits (S.view source.new).left (K.view sink.old) (K.view sink.new)) }
        ensures output { IsErrOf result Fault.Write → (p : CoreProgram) → (dice : List ℕ) → Codes p self.old.code → IsOf p self.old.tables →
            StartsLasting p self.old.limits dice lasting.old → ForTyped (S.view source.old).left (λ typed. HasLostText (game p dice) typed
            self.old.limits (S.view source.old) (S.view source.new) (K.view sink.old) (K.view sink.new)) }
        ensures read { IsErrOf result Fault.Read → Rose (S.view source.old).faults (S.view source.new).faults }
        ensures later { (S.view source.old).faults ≤ (S.view source.new).faults }
        ensures code { self.new.code ≡ self.old.code }
        ensures tables { self.new.tables ≡ self.old.tables }
        ensures limits { self.new.limits ≡ self.old.limits }
        ensures extent { extent_of lasting.new ≡ extent_of lasting.old }
    {
        self.memory.clear();
        let mut spacer = Spacer::new();
        let start = Now::Runs(code_at(&self.code, 1));
        let steps = self.limits.steps;
        match go(
            &mut self.memory,
            &self.code,
            &self.tables,
            lasting,
            start,
            steps,
            source,
            &mut spacer,
            sink,
        ) {
            Err(Fault::Write) => Err(Fault::Write),
            Err(Fault::Read) => match spacer.close(sink, b"[Input fault]\n") {
                Err(_) => Err(Fault::Write),
                Ok(()) => Err(Fault::Read),
            },
            Ok((ending, left)) => match spacer.close(sink, line(ending)) {
                Err(_) => Err(Fault::Write),
                Ok(()) => Ok(Outcome {
                    ending,
                    goals: steps - left,
                }),
            },
        }
    }

    /// Runs the code from its start on the typed bytes of a source, with these dice words, and writes the transcript: whatever was run before, and
    /// however that ended. It takes no memory.
    pub fn run<S: Source, K: Sink>(
        &mut self,
        source: &mut S,
        dice: &[u16],
        sink: &mut K,
    ) -> Result<Outcome, Fault>
        requires dice { 0 < length dice.now }
        requires ready { (p : CoreProgram) × IsReady p self.old.limits self.old.code self.old.tables self.old.resting }
        ensures shows { IfOk result (λ outcome. (p : CoreProgram) → IsReady p self.old.limits self.old.code self.old.tables self.old.resting →
            ForTyped (S.view source.old).left (λ typed. HasShown (game p dice.now) typed self.old.limits outcome
            (left_told (S.view source.old) (S.view source.new)) (K.view sink.old) (K.view sink.new))) }
        ensures input { IsErrOf result Fault.Read → (p : CoreProgram) → IsReady p self.old.limits self.old.code self.old.tables self.old.resting →
            ForTyped (S.view source.old).left (λ typed. HasLostInput (game p dice.now) typed self.old.limits (S.view source.new).left
            (K.view sink.old) (K.view sink.new)) }
        ensures output { IsErrOf result Fault.Write → (p : CoreProgram) → IsReady p self.old.limits self.old.code self.old.tables self.old.resting →
            ForTyped (S.view source.old).left (λ typed. HasLostText (game p dice.now) typed self.old.limits (S.view source.old) (S.view source.new)
            (K.view sink.old) (K.view sink.new)) }
        ensures read { IsErrOf result Fault.Read → Rose (S.view source.old).faults (S.view source.new).faults }
        ensures later { (S.view source.old).faults ≤ (S.view source.new).faults }
        ensures ready { (p : CoreProgram) → IsReady p self.old.limits self.old.code self.old.tables self.old.resting →
            IsReady p self.new.limits self.new.code self.new.tables self.new.resting }
        ensures code { self.new.code ≡ self.old.code }
        ensures tables { self.new.tables ≡ self.old.tables }
        ensures limits { self.new.limits ≡ self.old.limits }
    {
        let Some(resting) = self.resting.take() else {
            return write_keep(sink);
        };
        let (mut lasting, start) = resting.begin(dice);
        let result = self.run_with(&mut lasting, source, sink);
        self.resting = Some(lasting.rest(start));
        result
    }
}
