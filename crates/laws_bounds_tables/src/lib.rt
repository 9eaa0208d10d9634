//! The tables of costs say of each code what its body costs: laws on the reference semantics, each the contract of a function with an empty body.
//!
//! The tables are filled from the first code to the last, each row by the rows before it. As the body of a code uses only codes above it, the whole
//! table says the same of the body as the rows before it did. An emission costs what the loops that it wakes cost, where the emissions inside them
//! cost what the table says.
//!
//! What the rules on exits and on loops say of every statement of a program: laws on the reference semantics, each the contract of a function with an
//! empty body.
//!
//! An exit leads to a do, a loop or a body around it, and these have lower numbers than all that lies inside them: so no exit leads to a block or to an if,
//! escapes lead to no loop, breaks and continues to no do, and a code's body is left by its end alone.
#![tactic(auto)]

ghost use Rattle.laws_bounds_tables.specs.KeptLaws.{CodesLeave, ExitsLead, RulesAreKept};
ghost use Rattle.laws_bounds_tables.specs.TablesLaws.{BodiesBelow, EmissionsSettle, EntersAgree, PassesAgree, StaysAgree};

/// The body of a code uses only codes above it.
pub fn bodies_below()
    ensures { BodiesBelow }
{}

/// The whole table of the codes that may go on at once says of each whether its body may, by that table.
pub fn passes_agree()
    ensures { PassesAgree }
{}

/// The whole table of what codes cost from their start says of each what its body costs by that table,
pub fn enters_agree()
    ensures { EntersAgree }
{}

/// and so does the one of what they cost where they stood waiting.
pub fn stays_agree()
    ensures { StaysAgree }
{}

/// In a kernel that keeps the rules on loops the table of emissions is settled: another round changes nothing in it.
pub fn emissions_settle()
    ensures { EmissionsSettle }
{}

/// A block is left at its end, or by an exit to one of the aims around it,
pub fn exits_lead()
    ensures { ExitsLead }
{}

/// so a proper kernel whose loops break no rule keeps the rules that the laws on costs ask for,
pub fn rules_are_kept()
    ensures { RulesAreKept }
{}

/// and each of its codes is left by its end alone.
pub fn codes_leave()
    ensures { CodesLeave }
{}
