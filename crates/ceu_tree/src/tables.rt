// Tables of numbers by code, as bounds and needs are kept: one number for each code, in the order of the codes.
ghost use Rattle.std.specs.Prelude.{◌≡◌};
ghost use Rattle.ceu_tree.specs.Needs as spec;

/// The number of a code, 0 for a code that the table doesn't have.
#[tactic(auto, using(crate::proofs::TableLaws::entries))]
pub fn entry(table: &[u32], code: u32) -> u32
    ensures { result ≡ spec.entry code table.now }
{
    let at = code as usize;
    if at < table.len() { table[at] } else { 0 }
}

/// The greatest of the numbers, 0 where there is none.
#[tactic(auto, using(crate::proofs::TableLaws::greatest_of_more))]
pub fn greatest(table: &[u32]) -> u32
    ensures { result ≡ spec.greatest_of table.now }
{
    let mut most = 0;
    for number in table {
        most = most.max(*number);
    }
    most
}
