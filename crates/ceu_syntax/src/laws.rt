// What the grammar says of each list of tokens.
ghost use Rattle.std.specs.Prelude.{◌≡◌, ◌⊎◌, ℕ, List};
ghost use Rattle.ceu_base.specs.declared.kinds.Rule.{Rule};
ghost use Rattle.ceu_lex.specs.declared.token.Token.{Token};
ghost use Rattle.ceu_syntax.specs.Grammar.{Derives, FirstWrong, Program};
ghost use Rattle.ceu_syntax.specs.Limits.{FirstBroken, WithinLimits};
ghost use Rattle.ceu_syntax.specs.Runs.{Accepts, Ends};
ghost use Rattle.ceu_syntax.specs.declared.terminal.Terminal.{Terminal};
ghost use Rattle.ceu_tree.specs.declared.source.Node.{Node};
ghost use Rattle.ceu_tree.specs.declared.source.Tree.{Tree};

/// A list of tokens derives at most one tree.
pub fn one_tree()
    ensures { (text : List ℕ) (tokens : List Token) (a b : Tree) → Derives text tokens a → Derives text tokens b → a ≡ b }
{}

/// The machine accepts just the lists of tokens that are a program, and makes its statements of them.
pub fn accepts_programs()
    ensures accepted { (tokens : List Terminal) (nodes : List Node) → Accepts tokens nodes → Program tokens nodes }
    ensures all { (tokens : List Terminal) (nodes : List Node) → Program tokens nodes → Accepts tokens nodes }
{}

/// Where the machine doesn't go on, no program does.
pub fn ends_at_first_wrong()
    ensures { (tokens : List Terminal) (k : ℕ) → Ends tokens k → FirstWrong tokens k }
{}

/// Each list of tokens has one outcome: it is a program within the limits on nesting and on operators, or it breaks one rule first.
pub fn one_outcome()
    ensures some { (tokens : List Terminal) → ((nodes : List Node) × Program tokens nodes × WithinLimits tokens) ⊎ ((rule : Rule) × (k : ℕ) × FirstBroken tokens rule k) }
    ensures either { (tokens : List Terminal) (nodes : List Node) (rule : Rule) (k : ℕ) → Program tokens nodes → WithinLimits tokens → FirstBroken tokens rule k → ⊥ }
    ensures first { (tokens : List Terminal) (r s : Rule) (j k : ℕ) → FirstBroken tokens r j → FirstBroken tokens s k → (r ≡ s) × (j ≡ k) }
{}
