// The objects of which places speak.

ghost use Rattle.dg_meaning.specs.Values.{Value};
ghost use Rattle.dg_unify.specs.Store.{Store, Shows};
ghost use Rattle.dg_lasting.specs.Subjects.{IsSubject};

use dg_base::Simple;
use dg_unify::View;

/// What stands for an object in a query or a change: an unbound variable, an object, or another value.
#[derive(Clone, Copy, Drop)]
pub enum Subject {
    Open,
    Thing(u16),
    Other,
}

/// What stands for an object, as it is shown.
pub fn subject_of(view: View) -> Subject
    ensures { (s : Store) → (w : Value) → Shows s w view → IsSubject w result }
{
    match view {
        View::Unbound(_) => Subject::Open,
        View::Simple(Simple::Object(object)) => Subject::Thing(object),
        _ => Subject::Other,
    }
}
