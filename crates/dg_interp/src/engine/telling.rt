// Calls that are told.
ghost use Rattle.std.specs.Prelude.{◌≡◌, OnOk, replicate};
ghost use Rattle.dg_watch.specs.declared.watch.CallEvent.TheVariants.{Retried as RetriedCall};
ghost use Rattle.dg_interp.specs.inside.Engine.{Forgets, with_all, again};

use super::Engine;
use dg_choices::Left;
use dg_unify::Full;
use dg_watch::CallEvent;

/// Tells that a query goes on to its next rule, so often.
pub fn tell_retries(told: &mut Vec<CallEvent>, pred: u16, count: usize) -> Result<(), Full>
    ensures { OnOk result (told.new.items ≡ with_all told.old.items (replicate count (RetriedCall pred))) }
{
    let mut done = 0;
    'rules: while done < count {
        if let Err(_) = told.push(CallEvent::Retried(pred)) {
            return Err(Full::OutOfMemory);
        }
        done += 1;
    }
    Ok(())
}

/// Tells that a query goes on to its next rule, where a choice with these branches left is tried again.
pub fn tell_again(told: &mut Vec<CallEvent>, left: Left<'_>) -> Result<(), Full>
    ensures { OnOk result (told.new.items ≡ with_all told.old.items (again left.entry)) }
{
    match left {
        Left::Rules(query, _, [_, ..]) => match told.push(CallEvent::Retried(query.pred)) {
            Ok(()) => Ok(()),
            Err(_) => Err(Full::OutOfMemory),
        },
        _ => Ok(()),
    }
}

impl Engine<'_> {
    /// Forgets the calls that were told.
    pub fn hush(&mut self)
        ensures { Forgets self.old self.new }
    {
        self.told.clear();
    }
}
