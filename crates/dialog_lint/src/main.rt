//! The program `dialog-lint`: an author's slips in a source.
#![tactic(auto)]

use dg_lint::lint_words;
use dialog_tool::{FileShelf, StdoutSink, no_memory};
use std::io::ErrorKind;
use std::process::ExitCode;
use std::{env, io};

// The words behind the program's name; none where one isn't UTF-8, which is no file's name here.
fn words(rt: &HostRuntime) -> io::Result<Vec<String>> {
    let mut words = Vec::new(rt.alloc());
    let all = match env::args(rt) {
        Ok(all) => all,
        Err(error) if error.kind() == ErrorKind::InvalidData => return Ok(words),
        Err(error) => return Err(error),
    };
    for word in all.skip(1) {
        words.push(word)?;
    }
    Ok(words)
}

fn run(rt: &HostRuntime) -> io::Result<u8> {
    let words = words(rt)?;
    let mut shelf = FileShelf::new(rt);
    let mut out = StdoutSink::new(io::writer(rt));
    Ok(lint_words(rt.alloc(), &words, &mut shelf, &mut out))
}

fn main(rt: HostRuntime) -> ExitCode {
    match run(&rt) {
        Ok(status) => ExitCode::from(status),
        Err(_) => ExitCode::from(no_memory(&mut StdoutSink::new(io::writer(&rt)))),
    }
}
