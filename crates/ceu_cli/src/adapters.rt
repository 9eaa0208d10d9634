// Files, standard input and standard output as the outside of the top call. Each counts the calls that failed and doesn't tell what it
// holds.
ghost use Rattle.std.specs.Prelude.{◌≡◌, None, IfOk};
ghost use Rattle.ceu_io.specs.Shelves.{IsWithin};

use ceu_io::{Failed, Fetched, Shelf, ShelfError, Sink, Source};
use std::alloc::Global;
use std::fs::File;
use std::io;
use std::io::{ErrorKind, Read, Write};
use std::rt::Files;

/// The files by their paths.
#[derive(Drop)]
pub struct FileShelf<'a, R: Files> {
    files: &'a R,
    faults: u64,
}

impl<'a, R: Files> FileShelf<'a, R> {
    pub fn new(files: &'a R) -> FileShelf<'a, R>
        ensures unfailed { result.faults ≡ 0 }
    {
        FileShelf { files, faults: 0 }
    }
}

impl<'a, R: Files> Shelf for FileShelf<'a, R> {
    ghost faults = { λ s. s.faults };

    ghost files = { λ _. None };

    fn fetch(&mut self, alloc: Global, name: &str, limit: usize) -> Result<Fetched, ShelfError> {
        match fetched(self.files, alloc, name, limit) {
            Err(ShelfError::Failed) => {
                self.faults = self.faults.saturating_add(1);
                Err(ShelfError::Failed)
            }
            Err(ShelfError::Memory) => Err(ShelfError::Memory),
            Ok(found) => Ok(found),
        }
    }
}

fn fetched<R: Files>(
    files: &R,
    alloc: Global,
    name: &str,
    limit: usize,
) -> Result<Fetched, ShelfError>
    ensures { IfOk result (λ found. IsWithin found limit) }
{
    match File::open(files, name) {
        Ok(mut file) => read_file(&mut file, alloc, limit),
        Err(error) => {
            if error.kind() == ErrorKind::NotFound {
                Ok(Fetched::Absent)
            } else {
                Err(ShelfError::Failed)
            }
        }
    }
}

// The bytes of a file, if they are at most `limit`.
fn read_file<F: Read>(file: &mut F, alloc: Global, limit: usize) -> Result<Fetched, ShelfError>
    ensures { IfOk result (λ found. IsWithin found limit) }
{
    let mut bytes = Vec::new(alloc);
    let mut piece = [0u8; 4096];
    'pieces: loop {
        let count = match file.read(&mut piece) {
            Ok(count) => count,
            Err(_) => return Err(ShelfError::Failed),
        };
        if count == 0 {
            return Ok(Fetched::Bytes(bytes));
        }
        if count > limit - bytes.len() {
            return Ok(Fetched::TooLong);
        }
        if bytes.extend_from_slice(&piece[..count]).is_err() {
            return Err(ShelfError::Memory);
        }
    }
}

/// What is read from a reader.
#[derive(Drop)]
pub struct InputSource<F: Read + Drop> {
    reader: F,
    faults: u64,
}

impl<F: Read + Drop> InputSource<F> {
    pub fn new(reader: F) -> InputSource<F>
        ensures unfailed { result.faults ≡ 0 }
    {
        InputSource { reader, faults: 0 }
    }
}

impl<F: Read + Drop> Source for InputSource<F> {
    ghost faults = { λ s. s.faults };

    ghost left = { λ _. None };

    fn read(&mut self, buf: &mut [u8]) -> Result<usize, Failed> {
        match self.reader.read(buf) {
            Ok(count) => Ok(count),
            Err(_) => {
                self.faults = self.faults.saturating_add(1);
                Err(Failed)
            }
        }
    }
}

/// What is written to a writer.
#[derive(Drop)]
pub struct OutputSink<F: Write + Drop> {
    writer: F,
    faults: u64,
}

impl<F: Write + Drop> OutputSink<F> {
    pub fn new(writer: F) -> OutputSink<F>
        ensures unfailed { result.faults ≡ 0 }
    {
        OutputSink { writer, faults: 0 }
    }
}

impl<F: Write + Drop> Sink for OutputSink<F> {
    ghost faults = { λ s. s.faults };

    ghost held = { λ _. None };

    fn write(&mut self, buf: &[u8]) -> Result<usize, Failed> {
        match self.writer.write(buf) {
            Ok(count) => {
                if count == 0 && !buf.is_empty() {
                    self.faults = self.faults.saturating_add(1);
                    return Err(Failed);
                }
                Ok(count)
            }
            Err(_) => {
                self.faults = self.faults.saturating_add(1);
                Err(Failed)
            }
        }
    }
}
