// Paths into a term, and terms that are known at fronts of one.
ghost use Rattle.std.specs.Prelude.{◌≡◌, List, length};
ghost use Rattle.dg_base.specs.declared.program.Term.{Term};
ghost use Rattle.dg_machine.specs.declared.now.Side.{Side};
ghost use Rattle.dg_machine.specs.inside.Writing.{part_of, reached, IsMark, IsMarkBelow, AreMarks, AreMarksBelow};

use crate::now::Side;
use dg_base::Term;

/// A term to which a front of a path leads, and how long that is.
#[derive(Clone, Copy)]
pub struct Mark<'t> {
    pub term: &'t Term,
    pub depth: usize,
}

/// The part of a term on a side.
fn part(term: &Term, side: Side) -> &Term
    ensures { result.now ≡ part_of side term.now }
{
    match term {
        Term::Pair(head, tail) => match side {
            Side::Head => head.get(),
            Side::Tail(_) => tail.get(),
        },
        _ => term,
    }
}

/// The part of a term to which a path leads.
pub fn reach<'t>(whole: &'t Term, path: &[Side]) -> &'t Term
    ensures { result.now ≡ reached path.now whole.now }
{
    let mut term = whole;
    'sides: for side in path {
        term = part(term, *side);
    }
    term
}

// A mark where it is shorter than a path so long, and else that of the whole.
fn shorter<'t>(mark: Mark<'t>, whole: &'t Term, below: usize) -> Mark<'t>
    ensures { (path : List Side) → length path ≡ below → IsMarkBelow path whole.now mark.entry → IsMark path whole.now result }
{
    if mark.depth < below {
        mark
    } else {
        Mark {
            term: whole,
            depth: 0,
        }
    }
}

// The deeper one of two.
fn deeper<'t>(a: Mark<'t>, b: Mark<'t>) -> Mark<'t>
    ensures { (path : List Side) → (t : Term) → IsMark path t a.entry → IsMark path t b.entry → IsMark path t result }
{
    if a.depth < b.depth { b } else { a }
}

// The deepest mark that is shorter than a path so long. All that aren't are dropped: they stand behind its last side, which has changed.
fn deepest<'t>(marks: &mut [Mark<'t>], whole: &'t Term, below: usize) -> Mark<'t>
    ensures marks { (path : List Side) → length path ≡ below → AreMarksBelow path whole.now marks.old → AreMarks path whole.now marks.new }
    ensures deepest { (path : List Side) → length path ≡ below → AreMarksBelow path whole.now marks.old → IsMark path whole.now result }
{
    let mut best = Mark {
        term: whole,
        depth: 0,
    };
    'marks: for mark in marks.iter_mut() {
        *mark = shorter(*mark, whole, below);
        best = deeper(best, *mark);
    }
    best
}

// Keeps a mark, in the place of one whose depth is divided by two as often: so the farther behind, the fewer stay.
fn put<'t>(marks: &mut [Mark<'t>], mark: Mark<'t>)
    ensures { (path : List Side) → (t : Term) → AreMarks path t marks.old → IsMark path t mark.entry → AreMarks path t marks.new }
{
    let place = mark.depth.trailing_zeros() as usize;
    if place < marks.len() {
        marks[place] = mark;
    }
}

/// The part of a term to which a path leads, from the deepest mark on that is shorter than the path.
pub fn find<'t>(marks: &mut [Mark<'t>], whole: &'t Term, path: &[Side]) -> &'t Term
    requires { AreMarksBelow path.now whole.now marks.old }
    ensures found { result.now ≡ reached path.now whole.now }
    ensures marks { AreMarks path.now whole.now marks.new }
{
    let Mark {
        mut term,
        mut depth,
    } = deepest(marks, whole, path.len());
    'sides: while depth < path.len() {
        term = part(term, path[depth]);
        depth += 1;
        put(marks, Mark { term, depth });
    }
    term
}
