// The forms in memory of the outside: each call that takes memory gives its answer where memory is ample.
use crate::checks::same;
use dg_base::{
    Builtin, ByteSink, Failed, Items, MapShelf, Part, Shelf, Sink, StoreFault, SureShelf, SureSink,
    Value, WriteFault, builtin_of, is_keyword, is_named, is_prelude_name, is_refused_name,
    write_all, write_both,
};
use std::alloc::{AllocError, Global};
use std::test::Fail;

const PIECES: &[(&[u8], Result<usize, Failed>)] = &[
    (b"ab", Ok(2)),
    (b"cd", Err(Failed)),
    (b"cd", Ok(2)),
    (b"e", Err(Failed)),
];

#[test]
fn a_sink_takes_a_piece_and_refuses_the_listed_call(rt: HostRuntime) -> Result<(), Fail> {
    let mut sink = ByteSink::new(rt.alloc(), 4, vec![in rt.alloc(); 1]?)?;
    for (piece, wanted) in PIECES {
        same(&rt, &sink.put(piece), wanted, "a piece");
    }
    same(&rt, &sink.taken(), &b"abcd".as_slice(), "what was taken");
    Ok(())
}

#[test]
fn a_short_sink_takes_a_piece_in_parts(rt: HostRuntime) -> Result<(), Fail> {
    let mut sink = ByteSink::short(rt.alloc(), 5, 2, vec![in rt.alloc(); 3]?)?;
    let whole = write_all(&mut sink, b"abcde");
    let none = write_all(&mut sink, b"f");
    let again = sink.put(b"f");
    let wanted = (Ok(()), Err(WriteFault), Err(Failed), b"abcde".as_slice());
    same(&rt, &(whole, none, again, sink.taken()), &wanted, "parts");
    Ok(())
}

#[test]
fn a_sure_sink_takes_what_it_has_room_for(rt: HostRuntime) -> Result<(), Fail> {
    let mut sink = SureSink::new(rt.alloc(), 3)?;
    let both = write_both(&mut sink, b"a", b"b");
    let more = write_all(&mut sink, b"cd");
    let wanted = (Ok(()), Err(WriteFault), b"ab".as_slice());
    same(&rt, &(both, more, sink.taken()), &wanted, "three bytes");
    Ok(())
}

#[test]
fn a_shelf_keeps_what_is_added_and_stored(rt: HostRuntime) -> Result<(), Fail> {
    let alloc = rt.alloc();
    let mut shelf = MapShelf::new(alloc, vec![in alloc; 2]?);
    shelf.add("p.dg", b"(p)")?;
    let first = shelf.store("s.z8", b"story");
    let fetched = shelf.fetch(alloc, "p.dg", 3).expect(&rt, "it has contents");
    let second = shelf.store("s.z8", b"other");
    let stores = (first, second);
    same(&rt, &stores, &(Ok(()), Err(StoreFault::Failed)), "stores");
    let found = (Some(fetched.as_slice()), shelf.contents("s.z8"));
    let wanted = (Some(b"(p)".as_slice()), Some(b"story".as_slice()));
    same(&rt, &found, &wanted, "contents");
    Ok(())
}

#[test]
fn a_sure_shelf_has_no_bytes_for_a_name_without_contents(rt: HostRuntime) -> Result<(), Fail> {
    let alloc = rt.alloc();
    let mut shelf = SureShelf::new(alloc);
    shelf.add("p.dg", b"(p)")?;
    let stored = shelf.store("q.dg", b"(q)");
    let fetched = shelf.fetch(alloc, "q.dg", 9).expect(&rt, "it never fails");
    let nothing = shelf.fetch(alloc, "r.dg", 0).expect(&rt, "it never fails");
    let found = (stored, fetched.as_slice(), nothing.len());
    same(&rt, &found, &(Ok(()), b"(q)".as_slice(), 0), "contents");
    Ok(())
}

// The parts that these words write, `$` for a value.
fn parts_of(alloc: Global, words: &[&str]) -> Result<Vec<Part>, AllocError> {
    let mut parts = Vec::new(alloc);
    for word in words {
        let part = match *word {
            "$" => Part::Value(Value::Any),
            _ => Part::Word(Items::from_slice(alloc, word.as_bytes())?),
        };
        parts.push(part)?;
    }
    Ok(parts)
}

// The words of a name, the name, whether it is a keyword's, one that the profile refuses, or the prelude's, and whether it is built in.
const NAMES: &[(&[&str], &[u8], (bool, bool, bool), bool)] = &[
    (&["elseif"], b"(elseif)", (true, false, false), false),
    (&["bold"], b"(bold)", (false, true, false), false),
    (
        &["save", "undo", "$"],
        b"(save undo $)",
        (false, true, false),
        false,
    ),
    (
        &["$", "is", "one", "of", "$"],
        b"($ is one of $)",
        (false, false, true),
        false,
    ),
    (
        &["repeat", "forever"],
        b"(repeat forever)",
        (false, false, false),
        true,
    ),
    (&["repeat"], b"(repeat)", (false, false, false), false),
];

#[test]
fn names_are_found_in_the_tables(rt: HostRuntime) -> Result<(), Fail> {
    for (words, name, tables, builtin) in NAMES {
        let parts = parts_of(rt.alloc(), words)?;
        let parts = parts.as_slice();
        let found = (
            is_keyword(parts),
            is_refused_name(parts),
            is_prelude_name(parts),
        );
        same(&rt, &found, tables, "tables");
        let forever = matches!(builtin_of(parts), Some(Builtin::RepeatForever));
        let named = (is_named(parts, name), builtin_of(parts).is_some(), forever);
        same(&rt, &named, &(true, *builtin, *builtin), "a name");
    }
    Ok(())
}
