//! The program: the top call over files, standard input and standard output.
#![tactic(auto)]

mod adapters;
mod faults;
#[cfg(test)]
mod tests;

use adapters::{FileShelf, InputSource, OutputSink};
use ceu_top::{Status, ceu};
use faults::fault_line;
use std::alloc::AllocError;
use std::env;
use std::io::ErrorKind;
use std::process::ExitCode;

fn main(rt: HostRuntime) -> ExitCode {
    let status = run(&rt);
    let line = fault_line(status);
    if !line.is_empty() {
        let _ = rt.eprintln(line);
    }
    ExitCode::from(status as u8)
}

fn run(rt: &HostRuntime) -> Status {
    match env::args(rt) {
        Ok(args) => {
            let words: Result<Vec<String>, AllocError> = args.collect(rt.alloc());
            match words {
                Ok(words) => with_words(rt, words.as_slice()),
                Err(_) => Status::Memory,
            }
        }
        Err(error) => {
            if error.kind() == ErrorKind::OutOfMemory {
                Status::Memory
            } else {
                // A word that is no text is no word of a command.
                Status::Words
            }
        }
    }
}

fn with_words(rt: &HostRuntime, words: &[String]) -> Status {
    let mut shelf = FileShelf::new(rt);
    let mut input = InputSource::new(rt.stdin());
    let mut output = OutputSink::new(rt.stdout());
    let mut left = None;
    ceu(
        rt.alloc(),
        words,
        &mut shelf,
        &mut input,
        &mut output,
        &mut left,
    )
}
