//! What the printer prints reads back, as the grammar sees it: laws, each the contract of a function with an empty body.
//!
//! What the tokens of a text are, and how names, numbers and times are read where they are printed: laws, each the contract of a
//! function with an empty body.
//!
//! What the printer prints reads back: laws, each the contract of a function with an empty body.
#![tactic(auto)]

ghost use Rattle.std.specs.Prelude.{◌≡◌, List, map, ◌<◌, ◌++◌, ◌^◌, ℕ, decimal, length};
ghost use Rattle.ceu_lex.specs.Lexemes.{lexeme, time_limit};
ghost use Rattle.ceu_lex.specs.Texts.{Reads};
ghost use Rattle.ceu_lex.specs.declared.token.Token.{Token};
ghost use Rattle.ceu_lex.specs.declared.token.TokenKind.TheVariants.{Number, Time};
ghost use Rattle.ceu_lex.specs.declared.token.TokenKind.{TokenKind};
ghost use Rattle.ceu_print.specs.Statements.{program_text};
ghost use Rattle.ceu_print.specs.Words.{time_text};
ghost use Rattle.ceu_syntax.specs.Grammar.{Program, Derives};
ghost use Rattle.ceu_syntax.specs.Terminals.{terminals};
ghost use Rattle.ceu_syntax.specs.Trees.{tree};
ghost use Rattle.ceu_syntax.specs.declared.terminal.Terminal.{Terminal};
ghost use Rattle.ceu_tree.specs.declared.source.Node.{Node};
ghost use Rattle.ceu_tree.specs.declared.source.Tree.{Tree};
ghost use Rattle.laws_text_printed.specs.Again.{ReadsBack};
ghost use Rattle.laws_text_printed.specs.Kinds.{HasKinds};
ghost use Rattle.laws_text_printed.specs.Places.{unplaced};
ghost use Rattle.laws_text_printed.specs.Spelled.{AllSpelled, TokensSpelled};
ghost use Rattle.laws_text_printed.specs.SpellingWords.{Ends, IsName};
ghost use Rattle.laws_text_printed.specs.Statements.{kinds_of};

/// Where tokens are a program, any tokens of the kinds that its tree's printed text has are a program too, whose tree is the same but
/// for positions. The names, numbers and times of the first tokens have to be such as tokens of some text have.
pub fn printed_kinds_read_back()
    ensures { (tokens : List Terminal) (nodes : List Node) → Program tokens nodes → TokensSpelled tokens → (printed : List Terminal) → map (λ t. t.kind) printed ≡ kinds_of (tree nodes) → (again : List Node) × Program printed again × (unplaced (tree again) ≡ unplaced (tree nodes)) }
{}

/// Of such a program also the tokens of the printed text have names, numbers and times such as tokens of some text have.
pub fn printed_kinds_are_spelled()
    ensures { (tokens : List Terminal) (nodes : List Node) → Program tokens nodes → TokensSpelled tokens → AllSpelled (kinds_of (tree nodes)) }
{}

/// The tokens of a text are spelled: a name by itself is a token of its class, and numbers and times are within their limits.
pub fn tokens_are_spelled()
    ensures { (text : List ℕ) (tokens : List Token) → Reads text tokens → TokensSpelled (terminals text tokens) }
{}

/// So are the names, numbers and times of a tree that the tokens of some text derive.
pub fn derived_trees_are_spelled()
    ensures { (text : List ℕ) (tokens : List Token) (t : Tree) → Reads text tokens → Derives text tokens t → AllSpelled (kinds_of t) }
{}

/// Before anything but a letter, a digit or `_` stands what is printed of a name, a number or a time as one token of its kind.
pub fn printed_words_are_tokens()
    ensures names { (x rest : List ℕ) (kind : TokenKind) → IsName kind → lexeme x ≡ Ok (kind, length x) → Ends rest → lexeme (x ++ rest) ≡ Ok (kind, length x) }
    ensures numbers { (n : ℕ) (rest : List ℕ) → n < 2 ^ 64 → Ends rest → lexeme (decimal n ++ rest) ≡ Ok (Number n, length (decimal n)) }
    ensures times { (us : ℕ) (rest : List ℕ) → us < time_limit → Ends rest → lexeme (time_text us ++ rest) ≡ Ok (Time us, length (time_text us)) }
{}

/// The printed text of a tree whose kinds of tokens are spelled has tokens, and just of these kinds; so it has where the tokens of
/// some text derive the tree.
pub fn printed_texts_have_tokens()
    ensures spelled { (t : Tree) → AllSpelled (kinds_of t) → HasKinds (program_text t) (kinds_of t) }
    ensures derived { (text : List ℕ) (tokens : List Token) (t : Tree) → Reads text tokens → Derives text tokens t → HasKinds (program_text t) (kinds_of t) }
{}

/// What the printer prints reads back: the printed text of a tree that the tokens of some text derive has tokens, and these derive the
/// same tree but for positions (`back`). The text has no other tokens, and derives no other tree (`alone`); and what it derives prints
/// the same text again (`steady`).
pub fn printed_text_reads_back()
    ensures back { (text : List ℕ) (tokens : List Token) (t : Tree) → Reads text tokens → Derives text tokens t → ReadsBack t }
    ensures alone { (text : List ℕ) (tokens : List Token) (t : Tree) → Reads text tokens → Derives text tokens t → (read : List Token) (u : Tree) → Reads (program_text t) read → Derives (program_text t) read u → unplaced u ≡ unplaced t }
    ensures steady { (text : List ℕ) (tokens : List Token) (t : Tree) → Reads text tokens → Derives text tokens t → (read : List Token) (u : Tree) → Reads (program_text t) read → Derives (program_text t) read u → program_text u ≡ program_text t }
{}
