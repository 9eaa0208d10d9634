//! The source tree and the kernel tree, and what a program means.
#![tactic(auto)]

mod command;
mod kept;
mod kernel;
mod marks;
mod source;
mod tables;

pub use command::Command;
pub use kept::KeptMarks;
pub use kernel::{
    KArm, KBlock, KCode, KDecl, KEvent, KExp, KExpNode, KKind, KLoop, KNode, KStmt, Kernel, Loc,
    ParKind, Unit,
};
pub use marks::MarkSink;
pub use source::{
    Arm, Await, Block, Call, Class, Decl, Do, Exp, ExpNode, Ident, Item, Label, Node, Param, Range,
    Source, Spawn, Stmt, Target, Tree,
};
pub use tables::{entry, greatest};
