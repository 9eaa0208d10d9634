ghost use Rattle.std.specs.Prelude.{◌≡◌, ◌+◌, OnOk, IfOk};
ghost use Rattle.ceu_expand.specs.Draft as spec;

use ceu_base::{Name, Port, Pos, Seq, Ty};
use ceu_tree::{Ident, KBlock, KCode, KDecl, KEvent, KKind, KNode, KStmt, Label, Loc};
use sqlite_items::Items;
use std::alloc::{AllocError, Global};
use std::mem::replace;

/// A `do` with a label, and its node.
#[derive(Drop)]
pub struct LabelNode {
    pub name: Name,
    pub node: u32,
}

/// What a block has so far: its declarations, its statements, and the slot of its next declaration.
#[derive(Drop)]
pub struct Parts {
    pub decls: Seq<KDecl>,
    pub list: Seq<KNode>,
    pub slot: u32,
}

/// A block that isn't finished: its node, and what the block around it has so far.
#[derive(Drop)]
pub struct Outside {
    pub node: u32,
    pub parts: Parts,
}

/// A kernel that is being written, in the order of the text.
#[derive(Drop)]
pub struct Draft {
    /// How many uses of names the text had so far.
    pub uses: usize,
    /// How many expressions the text had so far.
    pub exps: usize,
    /// What each declaration so far stands for: the number of its slot, or among the inputs, the outputs, the events or the codes.
    pub numbers: Seq<u32>,
    /// The labels around the place.
    pub labels: Items<LabelNode>,
    /// The next node and the next slot.
    pub node: u32,
    pub slot: u32,
    /// The next node and the next slot of the other part of the text: of code while the program's text is written, and the other way round.
    pub other_node: u32,
    pub other_slot: u32,
    /// The innermost block.
    pub parts: Parts,
    pub codes: Seq<KCode>,
    pub inputs: Seq<Port>,
    pub outputs: Seq<Port>,
    pub events: Seq<KEvent>,
}

pub fn more(number: u32, count: u32) -> Result<u32, AllocError>
    ensures { IfOk result (λ n. n ≡ number + count) }
{
    number.checked_add(count).ok_or(AllocError)
}

pub fn more_text(number: usize) -> Result<usize, AllocError>
    ensures { IfOk result (λ n. n ≡ number + 1) }
{
    number.checked_add(1).ok_or(AllocError)
}

pub fn count_of(length: usize) -> Result<u32, AllocError>
    ensures { IfOk result (λ n. n ≡ length) }
{
    u32::try_from(length).map_err(|_| AllocError)
}

fn nothing(alloc: Global, slot: u32) -> Parts
    ensures { result ≡ spec.no_parts slot }
{
    Parts {
        decls: Seq::new(alloc),
        list: Seq::new(alloc),
        slot,
    }
}

impl Draft {
    /// Before the first token, where nodes and slots of code begin here.
    #[tactic(auto, unfolding(crate::specs::Draft::nothing_written))]
    pub fn new(alloc: Global, node: u32, slot: u32) -> Draft
        ensures { result ≡ spec.nothing_written node slot }
    {
        Draft {
            uses: 0,
            exps: 0,
            numbers: Seq::new(alloc),
            labels: Items::new(alloc),
            node: 0,
            slot: 0,
            other_node: node,
            other_slot: slot,
            parts: nothing(alloc, 0),
            codes: Seq::new(alloc),
            inputs: Seq::new(alloc),
            outputs: Seq::new(alloc),
            events: Seq::new(alloc),
        }
    }

    /// A statement begins. Its node.
    #[tactic(auto, unfolding(crate::specs::Draft::begun))]
    pub fn begin(&mut self) -> Result<u32, AllocError>
        ensures node { IfOk result (λ n. n ≡ self.old.node) }
        ensures after { OnOk result (self.new ≡ spec.begun self.old) }
    {
        let node = self.node;
        self.node = more(node, 1)?;
        Ok(node)
    }

    /// Hidden slots. The first of them.
    #[tactic(auto, unfolding(crate::specs::Draft::hidden))]
    pub fn hide(&mut self, count: u32) -> Result<u32, AllocError>
        ensures slot { IfOk result (λ n. n ≡ self.old.slot) }
        ensures after { OnOk result (self.new ≡ spec.hidden count self.old) }
    {
        let slot = self.slot;
        self.slot = more(slot, count)?;
        Ok(slot)
    }

    /// A statement is finished.
    #[tactic(auto, unfolding(crate::specs::Draft::placed))]
    pub fn place(&mut self, node: u32, pos: Pos, stmt: KStmt) -> Result<(), AllocError>
        ensures { OnOk result (self.new ≡ spec.placed node pos stmt self.old) }
    {
        self.parts.list.push(KNode { node, pos, stmt })
    }

    /// A block begins that has so many declarations.
    #[tactic(auto, unfolding(crate::specs::Draft::opened, crate::specs::Draft::outside, crate::specs::Draft::begun, crate::specs::Draft::hidden))]
    pub fn open(&mut self, alloc: Global, count: u32) -> Result<Outside, AllocError>
        ensures outside { IfOk result (λ o. o ≡ spec.outside self.old) }
        ensures after { OnOk result (self.new ≡ spec.opened count self.old) }
    {
        let node = self.begin()?;
        let slot = self.hide(count)?;
        let parts = replace(&mut self.parts, nothing(alloc, slot));
        Ok(Outside { node, parts })
    }

    /// The innermost block is finished.
    #[tactic(auto, unfolding(crate::specs::Draft::written, crate::specs::Draft::closed))]
    pub fn close(&mut self, outside: Outside) -> KBlock
        ensures block { result ≡ spec.written outside self.old }
        ensures after { self.new ≡ spec.closed outside self.old }
    {
        let Outside { node, parts } = outside;
        let Parts { decls, list, .. } = replace(&mut self.parts, parts);
        KBlock { node, decls, list }
    }

    /// The next declaration of the text stands for this number.
    #[tactic(auto, unfolding(crate::specs::Draft::standing))]
    pub fn stand(&mut self, number: u32) -> Result<(), AllocError>
        ensures { OnOk result (self.new ≡ spec.standing number self.old) }
    {
        self.numbers.push(number)
    }

    /// A declaration that has a slot. Its slot.
    #[tactic(auto, unfolding(crate::specs::Draft::declared, crate::specs::Draft::standing))]
    pub fn declare(&mut self, alloc: Global, kind: KKind, x: &Ident) -> Result<u32, AllocError>
        ensures slot { IfOk result (λ n. n ≡ self.old.parts.slot) }
        ensures after { OnOk result (self.new ≡ spec.declared kind x.now self.old) }
    {
        let slot = self.parts.slot;
        self.parts.slot = more(slot, 1)?;
        let name = Name::new(alloc, x.name.text())?;
        self.parts.decls.push(KDecl {
            slot,
            kind,
            name,
            pos: x.pos,
        })?;
        self.stand(slot)?;
        Ok(slot)
    }

    #[tactic(auto, unfolding(crate::specs::Draft::event_declared, crate::specs::Draft::standing))]
    pub fn event(&mut self, code: Option<u32>, ty: Ty, x: &Ident) -> Result<(), AllocError>
        ensures { OnOk result (self.new ≡ spec.event_declared code ty x.now self.old) }
    {
        let number = count_of(self.events.items().len())?;
        self.events.push(KEvent {
            ty,
            code,
            pos: x.pos,
        })?;
        self.stand(number)
    }

    #[tactic(auto, unfolding(crate::specs::Draft::input_declared, crate::specs::Draft::standing))]
    pub fn input(&mut self, alloc: Global, ty: Ty, x: &Ident) -> Result<(), AllocError>
        ensures { OnOk result (self.new ≡ spec.input_declared ty x.now self.old) }
    {
        let number = count_of(self.inputs.items().len())?;
        let name = Name::new(alloc, x.name.text())?;
        self.inputs.push(Port { ty, name })?;
        self.stand(number)
    }

    #[tactic(auto, unfolding(crate::specs::Draft::output_declared, crate::specs::Draft::standing))]
    pub fn output(&mut self, alloc: Global, ty: Ty, x: &Ident) -> Result<(), AllocError>
        ensures { OnOk result (self.new ≡ spec.output_declared ty x.now self.old) }
    {
        let number = count_of(self.outputs.items().len())?;
        let name = Name::new(alloc, x.name.text())?;
        self.outputs.push(Port { ty, name })?;
        self.stand(number)
    }

    fn swap(&mut self)
        ensures { self.new ≡ spec.swapped self.old }
    {
        let node = self.node;
        let slot = self.slot;
        self.node = self.other_node;
        self.slot = self.other_slot;
        self.other_node = node;
        self.other_slot = slot;
    }

    /// The text goes from the program's to that of code with so many parameters.
    #[tactic(auto, unfolding(crate::specs::Draft::entered, crate::specs::Draft::hidden))]
    pub fn enter(&mut self, alloc: Global, count: u32) -> Result<Parts, AllocError>
        ensures outside { IfOk result (λ o. o ≡ self.old.parts) }
        ensures after { OnOk result (self.new ≡ spec.entered count self.old) }
    {
        self.swap();
        let slot = self.hide(count)?;
        Ok(replace(&mut self.parts, nothing(alloc, slot)))
    }

    /// The text goes back to the program's. The parameters.
    #[tactic(auto, unfolding(crate::specs::Draft::left))]
    pub fn leave(&mut self, outside: Parts) -> Seq<KDecl>
        ensures params { result ≡ self.old.parts.decls }
        ensures after { self.new ≡ spec.left outside self.old }
    {
        self.swap();
        let Parts { decls, .. } = replace(&mut self.parts, outside);
        decls
    }

    #[tactic(auto, unfolding(crate::specs::Draft::with_code))]
    pub fn code(&mut self, code: KCode) -> Result<(), AllocError>
        ensures { OnOk result (self.new ≡ spec.with_code code self.old) }
    {
        self.codes.push(code)
    }

    /// A `do` with this label begins at a node.
    #[tactic(auto, unfolding(crate::specs::Draft::labelled))]
    pub fn labelled(&mut self, alloc: Global, label: &Label, node: u32) -> Result<(), AllocError>
        ensures { OnOk result (self.new ≡ spec.labelled label.now node self.old) }
    {
        match label {
            Label::Plain => Ok(()),
            Label::Under => Ok(()),
            Label::Named(x) => {
                let name = Name::new(alloc, x.name.text())?;
                self.labels.push(LabelNode { name, node })
            }
        }
    }

    #[tactic(auto, using(crate::proofs::Labels::labels), unfolding(crate::specs::Draft::unlabelled))]
    pub fn unlabelled(&mut self, label: &Label)
        ensures { self.new ≡ spec.unlabelled label.now self.old }
    {
        match label {
            Label::Plain => {}
            Label::Under => {}
            Label::Named(_) => {
                self.labels.pop();
            }
        }
    }
}

/// A variable of the innermost block.
pub fn own(slot: u32, ty: Ty) -> Loc
    ensures { result ≡ spec.own slot ty }
{
    Loc {
        outer: false,
        slot,
        ty,
    }
}
