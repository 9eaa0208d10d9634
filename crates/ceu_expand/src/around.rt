ghost use Rattle.std.specs.Prelude.{◌≡◌};
ghost use Rattle.ceu_expand.specs.Draft as spec;

use ceu_tree::Label;

/// What stands around a statement: the node that a plain escape leaves, that of the innermost loop (0 where there is none), and the
/// number of the code in whose body it stands.
#[derive(Clone, Copy, Debug, PartialEq, Eq)]
pub struct Around {
    pub plain: u32,
    pub turns: u32,
    pub code: Option<u32>,
}

impl Around {
    /// The program's text, whose block is the first node.
    pub fn of_program() -> Around
        ensures { result ≡ spec.of_program }
    {
        Around {
            plain: 0,
            turns: 0,
            code: None,
        }
    }

    /// The text of this code, whose block is at this node.
    pub fn of_code(node: u32, code: u32) -> Around
        ensures { result ≡ spec.of_code node code }
    {
        Around {
            plain: node,
            turns: 0,
            code: Some(code),
        }
    }

    /// Inside the loop at this node.
    #[tactic(auto, unfolding(crate::specs::Draft::in_loop))]
    pub fn in_loop(self, node: u32) -> Around
        ensures { result ≡ spec.in_loop node self }
    {
        Around {
            turns: node,
            ..self
        }
    }

    /// Inside the `do` at this node.
    #[tactic(auto, unfolding(crate::specs::Draft::in_do))]
    pub fn in_do(self, label: &Label, node: u32) -> Around
        ensures { result ≡ spec.in_do label.now node self }
    {
        match label {
            Label::Plain => Around {
                plain: node,
                ..self
            },
            Label::Under => self,
            Label::Named(_) => self,
        }
    }
}
