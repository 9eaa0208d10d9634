ghost use Rattle.std.specs.Prelude.{◌≡◌, [], None, Option, IfOk, IfErr, OnOk, OnErr};
ghost use Rattle.ceu_base.specs.declared.kinds.CheckError.TheVariants.{Memory};
ghost use Rattle.ceu_scopes.specs.Answers.{Gives, Walks};
ghost use Rattle.ceu_scopes.specs.Names.{fresh_walk};
ghost use Rattle.ceu_scopes.specs.Walk as spec;
ghost use Rattle.ceu_scopes.specs.Rules as rules;

use crate::known::{Known, Role};
use crate::names::Names;
use crate::rules::{is_taken, resolved, set_broken};
use crate::scope::{Border, Scope, block_of};
use crate::stack::Stack;
use ceu_base::{CheckError, Name, Rule, Seq, Ty};
use ceu_tree::{Class, Decl, Ident, Spawn};
use std::alloc::{AllocError, Global};

/// How far a program is walked: the open blocks and the labels around the place; how many blocks were opened so far; the
/// declarations and the numbers of the uses' declarations so far.
#[derive(Drop)]
pub struct Walk {
    pub scopes: Stack<Scope>,
    pub labels: Stack<Name>,
    pub blocks: u32,
    pub decls: Seq<Decl>,
    pub uses: Seq<u32>,
}

pub fn in_memory<T>(answer: Result<T, AllocError>) -> Result<T, CheckError>
where
    T: Drop,
    ensures ok { IfOk result (λ x. answer ≡ Ok x) }
    ensures err { IfErr result (λ e. e ≡ Memory) }
{
    answer.map_err(|_| CheckError::Memory)
}

#[tactic(auto, using(crate::proofs::Laws::steps))]
impl Walk {
    /// Before the first token of a program.
    pub fn new(alloc: Global) -> Walk
        ensures { result ≡ fresh_walk }
    {
        Walk {
            scopes: Stack::new(alloc),
            labels: Stack::new(alloc),
            blocks: 0,
            decls: Seq::new(alloc),
            uses: Seq::new(alloc),
        }
    }

    /// A block opens behind this border.
    #[tactic(auto, unfolding(crate::specs::Walk::opened))]
    pub fn open(&mut self, alloc: Global, border: Border) -> Result<(), CheckError>
        ensures ok { OnOk result (self.new ≡ spec.opened border self.old) }
        ensures err { IfErr result (λ e. e ≡ Memory) }
    {
        let block = self.blocks;
        self.blocks = block.checked_add(1).ok_or(CheckError::Memory)?;
        self.scopes.push(Scope {
            block,
            border,
            names: Names::new(alloc),
        })?;
        Ok(())
    }

    /// The innermost block ends.
    #[tactic(auto, unfolding(crate::specs::Walk::closed))]
    pub fn close(&mut self)
        ensures { spec.closed self.old ≡ Ok self.new }
    {
        self.scopes.pop();
    }

    /// From here on the innermost block shows the name.
    #[tactic(auto, using(crate::proofs::Laws::steps), unfolding(crate::specs::Walk::shown))]
    pub fn show(&mut self, alloc: Global, name: &Ident, known: Known) -> Result<(), CheckError>
        ensures { Walks result self.new (spec.shown name.now known self.old) }
    {
        if let Some(mut scope) = self.scopes.pop() {
            in_memory(scope.names.enter(alloc, name.name.text(), known))?;
            self.scopes.push(scope)?;
        }
        Ok(())
    }

    /// The declaration that comes next in the text.
    #[tactic(auto, unfolding(crate::specs::Walk::fresh))]
    pub fn fresh(&self, class: Class, code: u32) -> Result<Known, CheckError>
        ensures ok { IfOk result (λ known. known ≡ spec.fresh class code self.now) }
        ensures err { IfErr result (λ e. e ≡ Memory) }
    {
        match u32::try_from(self.decls.items().len()) {
            Err(_) => Err(CheckError::Memory),
            Ok(number) => Ok(Known {
                number,
                class,
                code,
                block: block_of(self.scopes.outermost_first()),
            }),
        }
    }

    /// Puts a declaration at the end of the list of uses.
    fn note(&mut self, known: Known) -> Result<(), CheckError>
        ensures ok { OnOk result (rules.noted self.old known ≡ Ok (known, self.new)) }
        ensures err { IfErr result (λ e. e ≡ Memory) }
    {
        in_memory(self.uses.push(known.number))
    }

    /// A use of a name.
    #[tactic(auto, using(crate::proofs::Laws::steps), unfolding(crate::specs::Rules::used))]
    pub fn used(&mut self, role: Role, name: &Ident) -> Result<Known, CheckError>
        ensures { Gives result (λ known. (known, self.new)) (rules.used role name.now self.old) }
    {
        let known = resolved(role, self.scopes.outermost_first(), name)?;
        self.note(known)?;
        Ok(known)
    }

    /// A use of which only the place in the list counts.
    #[tactic(auto, using(crate::proofs::Laws::steps), unfolding(crate::specs::Rules::named))]
    pub fn named(&mut self, role: Role, name: &Ident) -> Result<(), CheckError>
        ensures { Walks result self.new (rules.named role name.now self.old) }
    {
        self.used(role, name)?;
        Ok(())
    }

    /// The pool that a spawn of this code takes a place in.
    #[tactic(auto, using(crate::proofs::Laws::steps), unfolding(crate::specs::Rules::pool_used))]
    pub fn pool_used(&mut self, code: u32, name: &Ident) -> Result<(), CheckError>
        ensures { Walks result self.new (rules.pool_used code name.now self.old) }
    {
        let pool = resolved(Role::Pool, self.scopes.outermost_first(), name)?;
        if pool.code != code {
            return Err(CheckError::Refused(Rule::N3, name.pos));
        }
        self.note(pool)
    }

    /// The alias that a spawn sets.
    #[tactic(auto, using(crate::proofs::Laws::steps), unfolding(crate::specs::Rules::alias_used))]
    pub fn alias_used(&mut self, spawn: &Spawn, name: &Ident) -> Result<(), CheckError>
        ensures { Walks result self.new (rules.alias_used spawn.now name.now self.old) }
    {
        let scopes = self.scopes.outermost_first();
        let alias = resolved(Role::Alias, scopes, name)?;
        if let Some(rule) = set_broken(scopes, spawn, alias) {
            return Err(CheckError::Refused(rule, name.pos));
        }
        self.note(alias)
    }

    /// A declaration, with one more rule to ask at its name.
    #[tactic(auto, using(crate::proofs::Laws::steps), unfolding(crate::specs::Rules::declared))]
    pub fn declare(
        &mut self,
        alloc: Global,
        class: Class,
        ty: Ty,
        besides: Option<Rule>,
        name: &Ident,
    ) -> Result<(), CheckError>
        ensures { Walks result self.new (rules.declared class ty besides name.now self.old) }
    {
        let scopes = self.scopes.outermost_first();
        if is_taken(scopes, name.name.text()) {
            return Err(CheckError::Refused(Rule::N2, name.pos));
        }
        if let Some(rule) = besides {
            return Err(CheckError::Refused(rule, name.pos));
        }
        let block = block_of(scopes);
        let copy = in_memory(Name::new(alloc, name.name.text()))?;
        in_memory(
            self.decls.push(Decl {
                class,
                ty,
                pos: name.pos,
                block,
                name: copy,
            }),
        )
    }
}
