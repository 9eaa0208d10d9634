// What the codes cost, each once, in the order of the codes.
ghost use Rattle.std.specs.Prelude.{◌≡◌, [], List, OnOk};
ghost use Rattle.ceu_tree.specs.Costs.{Cost, enters_from, stays_from};
ghost use Rattle.ceu_bound.specs.Parts.{costs, SameTables};

use crate::measures::block_measure;
use crate::tables::Tables;
use ceu_tree::KCode;
use std::alloc::{AllocError, Global};

/// Measures each code from its start, by the codes above it.
pub fn enter_codes(alloc: Global, tables: &mut Tables, codes: &[KCode]) -> Result<(), AllocError>
    requires { tables.old.entering.items ≡ [] }
    ensures same { OnOk result (tables.new ≡ record tables.old { entering = tables.new.entering }) }
    ensures entering { OnOk result ((E : List Cost) → SameTables tables.old.part (costs tables.old.events.items) E →
        SameTables tables.old.part (costs tables.new.entering.items) (enters_from tables.old.passing.items E [] codes.now)) }
{
    for code in codes {
        let cost = block_measure(alloc, tables, &code.body)?;
        tables.entering.push(cost.enter)?;
    }
    Ok(())
}

/// Measures each code where it stood waiting, by the codes above it.
pub fn stay_codes(alloc: Global, tables: &mut Tables, codes: &[KCode]) -> Result<(), AllocError>
    requires { tables.old.staying.items ≡ [] }
    ensures same { OnOk result (tables.new ≡ record tables.old { staying = tables.new.staying }) }
    ensures staying { OnOk result ((E N : List Cost) → SameTables tables.old.part (costs tables.old.events.items) E → SameTables tables.old.part (costs tables.old.entering.items) N →
        SameTables tables.old.part (costs tables.new.staying.items) (stays_from tables.old.passing.items E N [] codes.now)) }
{
    for code in codes {
        let cost = block_measure(alloc, tables, &code.body)?;
        tables.staying.push(cost.stay)?;
    }
    Ok(())
}
