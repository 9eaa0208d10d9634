// The mode `show`.
ghost use Rattle.ceu_top.specs.Answering.{IsPrintAnswer};

use crate::status::Status;
use crate::words::Mode;
use crate::writing::{refuse_bytes, show_image};
use ceu_code::{DecodeError, decode};
use ceu_io::Sink;
use std::alloc::Global;

/// Prints the listing of the image that the bytes spell, or the line of bytes that spell none.
pub(crate) fn show_bytes<O: Sink>(alloc: Global, bytes: &[u8], out: &mut O) -> Status
    ensures { IsPrintAnswer Mode.Show result bytes.now (O.held out.old) (O.held out.new) (O.faults out.old) (O.faults out.new) }
{
    match decode(alloc, bytes) {
        Ok(image) => show_image(&image, out),
        Err(e) => match e {
            DecodeError::Bad(at) => refuse_bytes(at, out),
            DecodeError::Memory => Status::Memory,
        },
    }
}
