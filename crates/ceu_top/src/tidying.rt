// The mode `tidy`.
ghost use Rattle.std.specs.Prelude.{ℕ, List, ◌≤◌, length};
ghost use Rattle.ceu_compile.specs.Trees.{HasTree};
ghost use Rattle.ceu_lex.specs.declared.token.Token.{Token};
ghost use Rattle.ceu_top.specs.Answering.{IsPrintAnswer};

use crate::status::Status;
use crate::words::Mode;
use crate::writing::{refuse, show_text};
use ceu_compile::{CompileError, syntax_of};
use ceu_io::Sink;
use ceu_print::print_tree;
use ceu_tree::Tree;
use std::alloc::Global;

/// Prints the printed form of a text that breaks no rule on tokens and on grammar, or the line of the first that it breaks.
pub(crate) fn tidy_text<O: Sink>(alloc: Global, text: &[u8], out: &mut O) -> Status
    requires { length text.now ≤ 1048576 }
    ensures { IsPrintAnswer Mode.Tidy result text.now (O.held out.old) (O.held out.new) (O.faults out.old) (O.faults out.new) }
{
    match syntax_of(alloc, text) {
        Ok(found) => tidy_tree(alloc, &found.tree, out),
        Err(e) => match e {
            CompileError::Refused(rule, pos) => refuse(rule, pos, out),
            CompileError::Memory => Status::Memory,
        },
    }
}

// Memory for the whole form is taken before its first byte is written.
fn tidy_tree<O: Sink>(alloc: Global, tree: &Tree, out: &mut O) -> Status
    ensures { (text : List ℕ) (tokens : List Token) → HasTree text tokens tree.now → IsPrintAnswer Mode.Tidy result text (O.held out.old) (O.held out.new) (O.faults out.old) (O.faults out.new) }
{
    match print_tree(alloc, tree) {
        Ok(form) => show_text(form.text().as_bytes(), out),
        Err(_) => Status::Memory,
    }
}
