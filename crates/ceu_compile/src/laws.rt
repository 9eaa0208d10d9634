// What the definitions say of each text.
ghost use Rattle.std.specs.Prelude.{◌≡◌, ℕ, List};
ghost use Rattle.ceu_base.specs.declared.kinds.Pos.{Pos};
ghost use Rattle.ceu_base.specs.declared.kinds.Rule.{Rule};
ghost use Rattle.ceu_tree.specs.declared.kernel.Kernel.{Kernel};
ghost use Rattle.ceu_compile.specs.Programs.{Breaks, IsProgram};

/// A text has at most one outcome: the kernel of one program, or one rule that it breaks first at one place.
pub fn one_outcome()
    ensures program { (text : List ℕ) (K L : Kernel) → IsProgram text K → IsProgram text L → K ≡ L }
    ensures either { (text : List ℕ) (K : Kernel) (rule : Rule) (place : Pos) → IsProgram text K → Breaks text rule place → ⊥ }
    ensures first { (text : List ℕ) (r s : Rule) (p q : Pos) → Breaks text r p → Breaks text s q → (r ≡ s) × (p ≡ q) }
{}
