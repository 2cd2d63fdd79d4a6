//! The program `dialog`: the commands over the words, files and streams of the system.
#![tactic(auto)]

use dialog_tool::{FileShelf, StdinSource, StdoutSink, dice_of, no_memory, tool};
use std::io::ErrorKind;
use std::process::ExitCode;
use std::time::{SystemTime, UNIX_EPOCH};
use std::{env, io};

// The words behind the program's name; none where one isn't UTF-8, which is no word of a command.
fn words(rt: &HostRuntime) -> io::Result<Vec<String>> {
    let mut words = Vec::new(rt.alloc());
    let all = match env::args(rt) {
        Ok(all) => all,
        Err(error) if error.kind() == ErrorKind::InvalidData => return Ok(words),
        Err(error) => return Err(error),
    };
    for word in all.skip(1) {
        words.push(word)?;
    }
    Ok(words)
}

// The seconds of the clock since 1970, or 0 where it fails.
fn seed(rt: &HostRuntime) -> u64 {
    match SystemTime::now(rt) {
        Ok(now) => now
            .duration_since(UNIX_EPOCH)
            .map_or(0, |since| since.as_secs()),
        Err(_) => 0,
    }
}

fn run(rt: &HostRuntime) -> io::Result<u8> {
    let words = words(rt)?;
    let dice = dice_of(rt.alloc(), seed(rt))?;
    let mut shelf = FileShelf::new(rt);
    let mut input = StdinSource::new(rt.reader());
    let mut out = StdoutSink::new(io::writer(rt));
    Ok(tool(rt.alloc(), &words, &mut shelf, &mut input, &mut out, &dice))
}

fn main(rt: HostRuntime) -> ExitCode {
    match run(&rt) {
        Ok(status) => ExitCode::from(status),
        Err(_) => ExitCode::from(no_memory(&mut StdoutSink::new(io::writer(&rt)))),
    }
}
