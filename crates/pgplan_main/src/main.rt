//! The program `pgplan`: the top call over the words of the command line and the standard streams, of which interrupted reads
//! and writes are made again. Its tests run the top call over sources and outs that fail, and count what its machine fetches
//! and looks at.
#![tactic(auto)]

#[cfg(test)]
mod counts;
#[cfg(test)]
mod outside;
#[cfg(test)]
mod pace;
#[cfg(test)]
mod product;
mod retried;
#[cfg(test)]
mod runs;

use pg_base::{StdSink, StdSource, write_all};
use pgplan::pgplan;
use retried::Retried;
use std::process::ExitCode;
use std::rt::Env;
use std::{env, io};

/// The words after the program's own name.
fn words(rt: &(impl Env + AllocGlobal)) -> io::Result<Vec<String>> {
    let mut words = Vec::new(rt.alloc());
    for word in env::args(rt)?.skip(1) {
        words.push(word)?;
    }
    Ok(words)
}

fn main(rt: HostRuntime) -> ExitCode {
    let mut errors = StdSink::new(Retried::new(rt.stderr()));
    let words = match words(&rt) {
        Ok(words) => words,
        Err(error) if error.kind() == io::ErrorKind::OutOfMemory => {
            let _ = write_all(&mut errors, b"ERROR 53200 out of memory\n");
            return ExitCode::from(5);
        }
        // Words that are no text are no command.
        Err(_) => Vec::new(rt.alloc()),
    };
    let mut source = StdSource::new(Retried::new(rt.stdin()));
    let mut out = StdSink::new(Retried::new(rt.stdout()));
    ExitCode::from(pgplan(rt.alloc(), &words, &mut source, &mut out, &mut errors))
}
