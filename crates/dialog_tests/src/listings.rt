// Listings that are read back, and the first bad lines of others; the listing of a source's story, joined, and played with a rule left out.
use crate::calls::{answers, output_of, shelf_of, story_of};
use crate::checks::same;
use crate::typing::{GAME, game};
use dg_base::SureSource;
use dg_compile::compile;
use std::alloc::Global;
use std::process::Abort;
use std::test::Fail;
use z_list::{ListFault, listing, read_listing};

const STORY: &[u8] = &[0x01, 0x0D, 0x01, 0x05, 0xB0, 0x00];

const LISTING: &str = "story 6
rule 0 1.0
locals 0 01
op 1 0d 01 05 ; store 1 5
op 4 b0 ; rtrue
end 5
data 5 00
";

const UNMARKED: &str = "story 6\ndata 0 01 0d 01 05 b0 00\n";

// Texts, and which line of each is the first bad one.
const BAD: &[(&str, u32)] = &[
    ("", 1),
    ("story 06\ndata 0 01 0d 01 05 b0 00\n", 1),
    ("story 6\ndata 0 01 0D 01 05 b0 00\n", 2),
    ("story 6\ndata 0 01 0d 01 05 b0 00", 2),
    ("story 6\ndata 0 01 0d 01 05 b0 00\n\n", 3),
    (
        "story 6\nrule 0 1.0\nlocals 0 01\nop 1 0d 01 05 ; store 1 6\n",
        4,
    ),
    (
        "story 6\nrule 0 1.0\nlocals 0 01\ndata 1 0d 01 05 b0\nend 5\ndata 5 00\n",
        4,
    ),
    (
        "story 6\nrule 0 1.0\nlocals 0 01\nop 1 0d 01 05 ; store 1 5\n",
        5,
    ),
];

#[test]
fn a_listing_is_read_back(rt: HostRuntime) -> Result<(), Fail> {
    for text in [LISTING, UNMARKED] {
        let read = read_listing(rt.alloc(), text.as_bytes()).ok();
        same(&rt, &read.as_deref(), &Some(STORY), text);
    }
    let text = listing(rt.alloc(), STORY, &[])?;
    same(&rt, &text.as_slice(), &UNMARKED.as_bytes(), UNMARKED);
    Ok(())
}

// The first bad line; 0 where there is none.
fn bad_line(alloc: Global, text: &str) -> u32 {
    match read_listing(alloc, text.as_bytes()) {
        Ok(_) => 0,
        Err(ListFault::BadLine(line)) => line,
        Err(ListFault::OutOfMemory) => u32::MAX,
    }
}

#[test]
fn the_first_bad_line_is_named(rt: HostRuntime) -> Result<(), Fail> {
    for (text, line) in BAD {
        same(&rt, &bad_line(rt.alloc(), text), line, text);
    }
    Ok(())
}

const SOURCE: &str = "(a) x (b)\n(a) y\n(b) (c)\n(program entry point) (a) z\n";

// What `list` prints of a source.
fn listed(rt: &impl Abort, alloc: Global, source: &str) -> Result<Vec<u8>, Fail> {
    let file = source.as_bytes();
    let (status, out) = output_of(alloc, "list p.dg", "p.dg", file, b"", 4_000_000)?;
    same(rt, &status, &0, "list");
    Ok(Vec::from_slice(alloc, out.taken())?)
}

#[test]
fn the_listing_of_a_source_is_joined_to_its_story(rt: HostRuntime) -> Result<(), Fail> {
    let alloc = rt.alloc();
    let source = game().expect(&rt, GAME).source;
    let text = listed(&rt, alloc, source)?;
    let mut input = SureSource::new(Vec::new(alloc));
    let mut shelf = shelf_of(alloc, "l.txt", &text)?;
    let line = "join l.txt s.z8";
    answers(&rt, alloc, line, &mut shelf, &mut input, 99, (0, ""))?;
    let story = story_of(&rt, alloc, source)?;
    same(
        &rt,
        &shelf.contents("s.z8"),
        &Some(story.as_slice()),
        "s.z8",
    );
    Ok(())
}

// The places of marks in a listing.
fn places_of(alloc: Global, text: &[u8]) -> Result<Vec<usize>, Fail> {
    let mut places = Vec::new(alloc);
    for line in text.split(|byte| *byte == b'\n') {
        if let [b'r', b'u', b'l', b'e', b' ', digits @ ..] = line {
            places.push(number_of(digits))?;
        }
    }
    Ok(places)
}

// The number with which a text begins.
fn number_of(text: &[u8]) -> usize {
    let mut number = 0_usize;
    for digit in text.iter().take_while(|byte| byte.is_ascii_digit()) {
        number = number
            .wrapping_mul(10)
            .wrapping_add((*digit - b'0') as usize);
    }
    number
}

#[test]
fn each_rule_has_a_mark(rt: HostRuntime) -> Result<(), Fail> {
    let alloc = rt.alloc();
    let program = compile(alloc, SOURCE.as_bytes())?;
    let mut rules = 0_usize;
    for pred in program.preds.as_slice() {
        rules = rules.wrapping_add(pred.rules.len());
    }
    let places = places_of(alloc, &listed(&rt, alloc, SOURCE)?)?;
    same(&rt, &places.len(), &rules, "marks");
    Ok(())
}

// What a story may print whose routine of a rule quits at once: of the rules of the source in order, and of each one behind them.
const WITHOUT: &[&[&str]] = &[&[""], &["", "x"], &["", "x"], &[""]];

const ALL: &[&str] = &["x y z\n"];

// Plays a story.
fn printed(rt: &impl Abort, alloc: Global, story: &[u8]) -> Result<Vec<u8>, Fail> {
    let (status, out) = output_of(alloc, "play s.z8", "s.z8", story, b"", 99)?;
    same(rt, &status, &0, "play");
    Ok(Vec::from_slice(alloc, out.taken())?)
}

#[test]
fn a_mark_is_where_the_routine_of_its_rule_stands(rt: HostRuntime) -> Result<(), Fail> {
    let alloc = rt.alloc();
    let places = places_of(alloc, &listed(&rt, alloc, SOURCE)?)?;
    for (number, place) in places.iter().enumerate() {
        let mut story = story_of(&rt, alloc, SOURCE)?;
        if let Some(first) = story.get_mut(place.wrapping_add(1)) {
            *first = 0xBA;
        }
        let text = printed(&rt, alloc, &story)?;
        let wanted = WITHOUT.get(number).unwrap_or(&ALL);
        let found = wanted.iter().any(|one| one.as_bytes() == text.as_slice());
        same(&rt, &found, &true, "what is printed without a rule");
    }
    Ok(())
}
