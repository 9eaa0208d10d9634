// The program's text, from the shelf.
ghost use Rattle.std.specs.Prelude.{◌≡◌};
ghost use Rattle.ceu_top.specs.Fetching as spec;
ghost use Rattle.ceu_top.specs.Fetching.{IsFetch};

use crate::status::Status;
use ceu_io::{Fetched, Shelf, ShelfError};
use std::alloc::Global;

const LONGEST_TEXT: usize = 1_048_576;

/// The bytes of a file, or the status that says why there are none.
pub(crate) fn fetch<S: Shelf>(alloc: Global, file: &str, shelf: &mut S) -> Result<Vec<u8>, Status>
    ensures { IsFetch (S.files shelf.old) file.now (S.faults shelf.old) (S.faults shelf.new) result }
{
    answer_of(shelf.fetch(alloc, file, LONGEST_TEXT))
}

fn answer_of(fetched: Result<Fetched, ShelfError>) -> Result<Vec<u8>, Status>
    ensures { result ≡ spec.answer_of fetched }
{
    match fetched {
        Ok(Fetched::Bytes(text)) => Ok(text),
        Ok(Fetched::Absent) => Err(Status::Absent),
        Ok(Fetched::TooLong) => Err(Status::TooLong),
        Err(ShelfError::Failed) => Err(Status::Read),
        Err(ShelfError::Memory) => Err(Status::Memory),
    }
}
