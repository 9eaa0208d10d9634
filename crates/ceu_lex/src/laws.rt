// What the definitions say of every text.
ghost use Rattle.std.specs.Prelude.{◌≡◌, ◌≤◌, ◌<◌, ◌||◌, ℕ, List, length, take, not, nat_eq, nat_le, true};
ghost use Rattle.std.specs.List.{list_all, starts_with};
ghost use Rattle.ceu_base.specs.declared.kinds.Pos.{Pos};
ghost use Rattle.ceu_base.specs.declared.kinds.Rule.{Rule};
ghost use Rattle.ceu_lex.specs.declared.token.Token.{Token};
ghost use Rattle.ceu_lex.specs.declared.token.TokenKind.{TokenKind};
ghost use Rattle.ceu_lex.specs.Lexemes.{lexeme, symbol};
ghost use Rattle.ceu_lex.specs.Tables.{symbols};
ghost use Rattle.ceu_lex.specs.Texts.{Reads, Breaks};

/// A text has at most one outcome: these tokens, or this first broken rule at this place.
pub fn one_outcome()
    ensures tokens { (text : List ℕ) (a b : List Token) → Reads text a → Reads text b → a ≡ b }
    ensures either { (text : List ℕ) (a : List Token) (rule : Rule) (pos : Pos) → Reads text a → Breaks text rule pos → ⊥ }
    ensures first { (text : List ℕ) (r s : Rule) (p q : Pos) → Breaks text r p → Breaks text s q → (r ≡ s) × (p ≡ q) }
{}

/// The token at the front of a text is the longest one: every piece of the text that holds it begins with it, no longer piece is a
/// token, and no longer symbol stands there.
pub fn longest_token()
    ensures begins { (text : List ℕ) (kind : TokenKind) (n m : ℕ) → lexeme text ≡ Ok (kind, n) → n ≤ m → lexeme (take m text) ≡ Ok (kind, n) }
    ensures longest { (text : List ℕ) (kind other : TokenKind) (n m : ℕ) → lexeme text ≡ Ok (kind, n) → n < m → lexeme (take m text) ≡ Ok (other, m) → ⊥ }
    ensures symbols { (text : List ℕ) (kind : TokenKind) (n : ℕ) → symbol text ≡ Ok (kind, n) → list_all (λ e. not (starts_with nat_eq text e.0) || nat_le (length e.0) n) symbols ≡ true }
{}
