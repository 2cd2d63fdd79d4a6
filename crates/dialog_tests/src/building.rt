// Sources that are built and run, and what a letter of a source changes in its story.
use crate::calls::{answers, play_all, story_of};
use crate::checks::same;
use dg_base::{SureShelf, SureSource};
use std::alloc::Global;
use std::process::Abort;
use std::test::Fail;

const SOURCE: &str = "(a) x (b)\n(a) y\n(b) (c)\n(program entry point) (a) z\n";

// A search behind a choice, with lists.
const SEARCH: &str = "
(joined [] $L $L)
(joined [$H | $T] $L [$H | $R]) (joined $T $L $R)
(program entry point) (joined $A [c $] [a b c d]) ($A = [a b]) yes
";

// Calls one after another: the words, the status, and what is written.
const CALLS: &[(&str, (u8, &str))] = &[
    ("build p.dg s.z8", (0, "")),
    ("play s.z8", (0, "x y z\n")),
    ("run p.dg", (0, "x y z\n")),
    ("build search.dg t.z8", (0, "")),
    ("play t.z8", (0, "yes\n")),
    ("run p.dg --steps 1", (3, "[Step limit]\n")),
    (
        "build q.dg s.z8",
        (1, "q.dg:1: no rule for (program entry point)\n"),
    ),
];

#[test]
fn sources_are_built_and_run(rt: HostRuntime) -> Result<(), Fail> {
    let mut shelf = SureShelf::new(rt.alloc());
    shelf.add("p.dg", SOURCE.as_bytes())?;
    shelf.add("search.dg", SEARCH.as_bytes())?;
    for (line, wanted) in CALLS {
        let mut input = SureSource::new(Vec::new(rt.alloc()));
        answers(&rt, rt.alloc(), line, &mut shelf, &mut input, 200, *wanted)?;
    }
    Ok(())
}

// The places where two stories differ, but for their checksums.
fn differing(alloc: Global, first: &[u8], second: &[u8]) -> Result<Vec<usize>, Fail> {
    let mut places = Vec::new(alloc);
    for (place, (a, b)) in first.iter().zip(second).enumerate() {
        if a != b && place != 0x1C && place != 0x1D {
            places.push(place)?;
        }
    }
    Ok(places)
}

// Whether the story of a source differs from another in two bytes of its memory.
fn differs_in_two(rt: &impl Abort, alloc: Global, story: &[u8], source: &str) -> Result<(), Fail> {
    let other = story_of(rt, alloc, source)?;
    let places = differing(alloc, story, &other)?;
    let in_memory = places.first() >= Some(&64);
    let found = (other.len(), places.len(), in_memory);
    same(rt, &found, &(story.len(), 2, true), source);
    Ok(())
}

// The source with another letter each.
const OTHERS: &[&str] = &[
    "(a) w (b)\n(a) y\n(b) (c)\n(program entry point) (a) z\n",
    "(a) x (b)\n(a) \u{FF}\n(b) (c)\n(program entry point) (a) z\n",
    "(a) x (b)\n(a) y\n(b) (c)\n(program entry point) (a) Z\n",
];

// The letter with which a rule's text begins stands in its routine alone: it is handed to what separates it from the text before, and printed.
#[test]
fn a_first_letter_is_two_bytes_of_a_story(rt: HostRuntime) -> Result<(), Fail> {
    let story = story_of(&rt, rt.alloc(), SOURCE)?;
    for source in OTHERS {
        differs_in_two(&rt, rt.alloc(), &story, source)?;
    }
    Ok(())
}

// What sources print that are run as stories, up to a limit of stories.
const STORIES: &str = r#"
>>> run p.dg
(p 1)
(p 2)
(program entry point) *(p $X) ($X > 1) two
=== 0
two
>>> run p.dg
(joined [] $L $L)
(joined [$H | $T] $L [$H | $R]) (joined $T $L $R)
(program entry point)
  (joined $A [c $] [a b c d]) ($A = [a b]) yes
=== 0
yes
>>> run p.dg
(q 3)
(q 5)
(program entry point)
  (if) ~(q 4) (then) no (else) yes (endif)
  (line) (exhaust) { *(q $) x } y
=== 0
no
x x y
>>> run p.dg
(f 0 1)
(f $N $R) ($N > 0) ($N minus 1 into $M) (f $M $S) ($N times $S into $R)
(program entry point) (f 7 $R) ($R = 5040) right (f 8 $) wrong
=== 0
right
[Failed]
>>> run p.dg
(program entry point)
  (uppercase) once (space 3) x (no space) y (par)
  (stoppable) { a { (stop) (or) b } } c (fail)
=== 0
Once   xy

a c
[Failed]
>>> run p.dg
(r $X) (r [$X])
(program entry point) deep (r 1)
=== 0
deep
[Heap limit]
>>> run p.dg
(s) x (just)
(s) y
(t $X) { ($X = 1) one (or) ($X = 2) two }
(program entry point)
  (s) *(t $X) ($X = 2) (bound $X) ~(unbound $X) z (list []) (quit)
=== 0
x one two z
>>> run p.dg
(program entry point)
  (split word 120 into $A) $A (split word @cat into $B) $B (split word @lighthousekeeper into [$C $D | $]) $C $D (line)
  (join words [@1 2] into $E) ($E = 12) twelve (join words [light house] into $F) $F
  (if) ($F = @lighthouse) (then) known (endif) (join words [a 12 @b] into $G) $G (unknown word $G) (split word $G into $H) $H (line)
  (if) (split word $ into $) (or) (split word [] into $) (or) (join words [a $] into $) (or) (join words [] into $) (then) wrong (else) none (endif)
  (join words [1 2] into 13)
=== 0
[1 2 0] [c a t] l i
twelve lighthouse known a12b [a 1 2 b]
none
[Failed]
"#;

#[test]
fn stories_give_their_transcript(rt: HostRuntime) -> Result<(), Fail> {
    play_all(&rt, rt.alloc(), STORIES)
}
