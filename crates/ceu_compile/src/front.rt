// From a text to its tree.
ghost use Rattle.std.specs.Prelude.{◌≡◌, ◌≤◌, length, IfOk, IfErr};
ghost use Rattle.ceu_lex.specs.Texts.{Reads};
ghost use Rattle.ceu_compile.specs.Errors as spec;
ghost use Rattle.ceu_compile.specs.Trees.{HasTree, IsTreeRefusal};

use crate::errors::CompileError;
use ceu_base::Seq;
use ceu_grammar::{ParseError, parse};
use ceu_lex::{LexError, Token, lex};
use ceu_tree::Tree;
use std::alloc::Global;

/// A text's tokens and its tree.
#[derive(Drop)]
pub struct Parsed {
    pub tokens: Seq<Token>,
    pub tree: Tree,
}

fn lex_error(error: LexError) -> CompileError
    ensures { result ≡ spec.of_lex error }
{
    match error {
        LexError::Refused(rule, pos) => CompileError::Refused(rule, pos),
        LexError::Memory => CompileError::Memory,
    }
}

fn parse_error(error: ParseError) -> CompileError
    ensures { result ≡ spec.of_parse error }
{
    match error {
        ParseError::Refused(rule, pos, _) => CompileError::Refused(rule, pos),
        ParseError::Memory => CompileError::Memory,
    }
}

/// The tokens and the tree of a text, or the first rule on tokens or grammar that it breaks.
pub fn syntax_of(alloc: Global, text: &[u8]) -> Result<Parsed, CompileError>
    requires { length text.now ≤ 1048576 }
    ensures tree { IfOk result (λ p. HasTree text.now p.tokens p.tree) }
    ensures refused { IfErr result (λ e. IsTreeRefusal text.now e) }
{
    match lex(alloc, text) {
        Ok(tokens) => with_tokens(alloc, text, tokens),
        Err(e) => Err(lex_error(e)),
    }
}

fn with_tokens(alloc: Global, text: &[u8], tokens: Seq<Token>) -> Result<Parsed, CompileError>
    requires text { length text.now ≤ 1048576 }
    requires tokens { Reads text.now tokens }
    ensures tree { IfOk result (λ p. HasTree text.now p.tokens p.tree) }
    ensures refused { IfErr result (λ e. IsTreeRefusal text.now e) }
{
    match parse(alloc, text, &tokens) {
        Ok(tree) => Ok(Parsed { tokens, tree }),
        Err(e) => Err(parse_error(e)),
    }
}
