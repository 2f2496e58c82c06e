//! The program: it takes its words from the command line, files from the file system, and writes to
//! standard output, and why it doesn't do what is asked for to standard error. A terminal there is
//! told how far the work is.
//!
//! This is the trusted edge. What a real file gives and a real terminal takes is told by no
//! contract; what the program does with it is the contract of `ac_core::autocorres`, and what it
//! says of that the contract of `remarks::remark`.
#![tactic(auto)]

mod file_shelf;
mod stdout_sink;
mod terminal;
#[cfg(test)]
mod tests;

use ac_base::{Nobody, write_whole};
use ac_core::{Status, autocorres};
use file_shelf::FileShelf;
use remarks::remark;
use std::alloc::Global;
use std::io::ErrorKind;
use std::process::ExitCode;
use std::time::Duration;
use std::{env, io};
use stdout_sink::StdoutSink;
use terminal::Terminal;

fn main(rt: HostRuntime) -> ExitCode {
    let status = match words(&rt, rt.alloc()) {
        Ok(words) => call(&rt, &words),
        Err(error) if error.kind() == ErrorKind::OutOfMemory => Status::Memory,
        // A word that isn't UTF-8 is of no form.
        Err(_) => call(&rt, &[]),
    };
    ExitCode::from(status.code())
}

// Does what the words ask for, and says why it doesn't.
fn call(rt: &HostRuntime, words: &[String]) -> Status {
    let mut shelf = FileShelf::new(rt);
    let mut sink = StdoutSink::new(io::writer(rt), Terminal::new(rt, patience(words)));
    let status = autocorres(rt.alloc(), words, &mut shelf, &mut sink);
    if status != Status::Done {
        say(rt, words, status, &mut shelf);
    }
    status
}

// How long work goes on before it is said how far it is. A trial is run to see the program at work,
// so it says so from the start.
fn patience(words: &[String]) -> Duration {
    match words.first() {
        Some(word) if word.as_str() == "trial" => Duration::ZERO,
        _ => Duration::from_secs(1),
    }
}

// Writes what is said of the call to standard error. Where that can't be made or written the answer
// stands alone.
fn say(rt: &HostRuntime, words: &[String], status: Status, shelf: &mut FileShelf<'_, HostRuntime>) {
    if let Ok(lines) = remark(rt.alloc(), words, status, shelf) {
        let mut sink = StdoutSink::new(rt.stderr(), Nobody);
        let _ = write_whole(&mut sink, &lines);
    }
}

// The words after the program's name.
fn words(rt: &HostRuntime, alloc: Global) -> io::Result<Vec<String>> {
    let mut words = env::args(rt)?;
    let _name = words.next();
    Ok(words.collect(alloc)?)
}
