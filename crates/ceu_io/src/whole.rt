// A sink may take less than it is offered.
ghost use Rattle.std.specs.Prelude.{OnOk, OnErr};
ghost use Rattle.ceu_io.specs.Counts.{HasCause};
ghost use Rattle.ceu_io.specs.Bytes.{Appends, AppendsProperFront};

use crate::{Failed, Sink};

/// Offers the bytes, and again what the sink left of them, until all are taken.
pub fn write_all<O: Sink>(out: &mut O, bytes: &[u8]) -> Result<(), Failed>
    ensures whole { OnOk result (Appends bytes.now (O.held out.old) (O.held out.new)) }
    // What was written when it failed is a proper prefix of the bytes.
    ensures front { OnErr result (AppendsProperFront bytes.now (O.held out.old) (O.held out.new)) }
    ensures cause { HasCause (O.faults out.old) (O.faults out.new) result }
{
    let mut rest = bytes;
    while !rest.is_empty() {
        let taken = out.write(rest)?;
        rest = &rest[taken..];
    }
    Ok(())
}
