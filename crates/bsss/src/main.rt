//! The program `bsss`: gives its words and its standard streams to the top call, writes help to
//! standard error, and ends with the code of the status.
#![tactic(auto)]

use bsss_cli::{Argv, OpenGate, run};
use bsss_help::write_help;
use port_io::{StdSink, StdSource};
use std::env;
use std::io::ErrorKind;
use std::process::ExitCode;

/// The code where no memory is left for the words.
const NO_MEMORY: u8 = 8;

/// The code where the words can't be read.
const UNREAD_WORDS: u8 = 20;

fn main(rt: HostRuntime) -> ExitCode {
    match words_of(&rt) {
        Ok(words) => {
            let mut source = StdSource::new(rt.stdin());
            let mut sink = StdSink::new(rt.stdout());
            let status = run(&rt, rt.alloc(), &words, &mut source, &mut sink, &OpenGate);
            // Where the help can't be written, the run has ended all the same.
            let _ = write_help(&words, status, &mut StdSink::new(rt.stderr()));
            ExitCode::from(status.code())
        }
        Err(code) => ExitCode::from(code),
    }
}

/// The words after the program's name, or the code to end with.
fn words_of(rt: &HostRuntime) -> Result<Argv, u8> {
    let mut words = Argv::new(rt.alloc());
    let all = match env::args(rt) {
        Ok(all) => all,
        Err(error) => return Err(code_of(error.kind())),
    };
    for word in all.skip(1) {
        if words.push(word.as_str()).is_err() {
            return Err(NO_MEMORY);
        }
    }
    Ok(words)
}

/// The code for a fault of reading the words.
fn code_of(kind: ErrorKind) -> u8 {
    if kind == ErrorKind::OutOfMemory {
        NO_MEMORY
    } else {
        UNREAD_WORDS
    }
}
