use ceu_base::Seq;
use ceu_tree::{Class, Decl};

/// The declarations of a program in the order of its text, and for each use of a name, in pre-order, the number of its declaration.
/// A use is each name that neither declares nor is a label.
#[derive(Drop)]
pub struct Scopes {
    pub decls: Seq<Decl>,
    pub uses: Seq<u32>,
}

/// A declaration that an open block shows: its number in the order of the text, its class, for a pool or an alias the number of its
/// code (else 0), and the number of its block.
#[derive(Clone, Copy, Debug, PartialEq, Eq)]
pub struct Known {
    pub number: u32,
    pub class: Class,
    pub code: u32,
    pub block: u32,
}

/// What a name is used for.
#[derive(Clone, Copy, Debug, PartialEq, Eq)]
pub enum Role {
    /// The value of a variable.
    Read,
    /// The variable that takes a value.
    Written,
    /// A variable in the list of an async.
    Listed,
    /// An input that is awaited.
    Input,
    /// An internal event that is awaited.
    Event,
    /// An output or an internal event that is emitted.
    Emitted,
    /// The alias of `c?`.
    Asked,
    /// The alias that is killed or that a spawn sets.
    Alias,
    /// A pool that a spawn takes a place in.
    Pool,
    /// Code that is awaited, spawned, or held by a pool or an alias.
    Code,
}
