ghost use Rattle.std.specs.Prelude.{◌≡◌, [], IfErr, IfOk, None, OnOk, Ok, reverse};
ghost use Rattle.ceu_base.specs.declared.kinds.CheckError.TheVariants.{Memory};
ghost use Rattle.ceu_tree.specs.declared.source.Class.TheVariants.{Code, Event};
ghost use Rattle.ceu_scopes.specs.Answers.{Gives, Walks};
ghost use Rattle.ceu_scopes.specs.Names as spec;
ghost use Rattle.ceu_scopes.specs.Rules as rules;
ghost use Rattle.ceu_scopes.specs.Walk.{each, fresh};

use crate::known::{Known, Role};
use crate::names::Listed;
use crate::rules::{inside_broken, set_broken};
use crate::scope::{Border, Scope};
use crate::walk::{Walk, in_memory};
use ceu_base::{CheckError, Name, Rule, Ty};
use ceu_tree::{Class, Ident, Label, Param, Source, Spawn, Target};
use std::alloc::Global;

fn start_broken(scopes: &[Scope], start: &Option<Spawn>, alias: Known) -> Option<Rule>
    ensures { result ≡ spec.start_broken (reverse scopes.now) start.now alias }
{
    match start {
        None => None,
        Some(spawn) => set_broken(scopes, spawn, alias),
    }
}

fn is_label(labels: &[Name], name: &str) -> bool
    ensures { result ≡ rules.is_label (reverse labels.now) name.now }
{
    match labels.split_last() {
        None => false,
        Some((label, outside)) => name == label.text() || is_label(outside, name),
    }
}

#[tactic(auto, using(crate::proofs::Laws::steps))]
impl Walk {
    /// A name that is shown as soon as it is declared.
    fn ident(
        &mut self,
        alloc: Global,
        class: Class,
        ty: Ty,
        besides: Option<Rule>,
        name: &Ident,
    ) -> Result<(), CheckError>
        ensures { Walks result self.new (spec.ident_declared class ty besides name.now self.old) }
    {
        let known = self.fresh(class, 0)?;
        self.declare(alloc, class, ty, besides, name)?;
        self.show(alloc, name, known)
    }

    pub fn events(&mut self, alloc: Global, ty: Ty, names: &[Ident]) -> Result<(), CheckError>
        ensures { Walks result self.new (each (spec.ident_declared Event ty None) names.now self.old) }
    {
        for name in names {
            self.ident(alloc, Class::Event, ty, None, name)?;
        }
        Ok(())
    }

    /// Inputs or outputs.
    pub fn ports(
        &mut self,
        alloc: Global,
        class: Class,
        ty: Ty,
        names: &[Ident],
    ) -> Result<(), CheckError>
        ensures { Walks result self.new (each (spec.port_declared class ty) names.now self.old) }
    {
        for name in names {
            self.port(alloc, class, ty, name)?;
        }
        Ok(())
    }

    fn port(&mut self, alloc: Global, class: Class, ty: Ty, name: &Ident) -> Result<(), CheckError>
        ensures { Walks result self.new (spec.port_declared class ty name.now self.old) }
    {
        let besides = inside_broken(self.scopes.outermost_first());
        self.ident(alloc, class, ty, besides, name)
    }

    /// The block of a code's parameters opens.
    pub fn params(&mut self, alloc: Global, code: &Name, params: &[Param]) -> Result<(), CheckError>
        ensures { Walks result self.new (spec.params_opened code.now params.now self.old) }
    {
        let own = in_memory(Name::new(alloc, code.text()))?;
        self.open(alloc, Border::Body(own))?;
        self.each_param(alloc, params)
    }

    fn each_param(&mut self, alloc: Global, params: &[Param]) -> Result<(), CheckError>
        ensures { Walks result self.new (each spec.param_declared params.now self.old) }
    {
        for param in params {
            self.param(alloc, param)?;
        }
        Ok(())
    }

    fn param(&mut self, alloc: Global, param: &Param) -> Result<(), CheckError>
        ensures { Walks result self.new (spec.param_declared param.now self.old) }
    {
        self.ident(alloc, Class::Param, param.ty, None, &param.name)
    }

    /// The head of code: its name, and the block of its parameters. Answers the declaration.
    pub fn code_head(
        &mut self,
        alloc: Global,
        name: &Ident,
        params: &[Param],
        ty: Ty,
    ) -> Result<Known, CheckError>
        ensures walked { Walks result self.new (spec.code_opened name.now params.now ty self.old) }
        ensures known { IfOk result (λ known. known ≡ fresh Code 0 self.old) }
    {
        let known = self.fresh(Class::Code, 0)?;
        let besides = inside_broken(self.scopes.outermost_first());
        self.declare(alloc, Class::Code, ty, besides, name)?;
        self.params(alloc, &name.name, params)?;
        Ok(known)
    }

    /// The block of a range's variable opens.
    pub fn range_variable(&mut self, alloc: Global, name: &Ident) -> Result<(), CheckError>
        ensures { Walks result self.new (spec.range_opened name.now self.old) }
    {
        self.open(alloc, Border::Plain)?;
        self.ident(alloc, Class::LoopVar, Ty::S32, None, name)
    }

    pub fn pool(&mut self, alloc: Global, code: &Ident, name: &Ident) -> Result<(), CheckError>
        ensures { Walks result self.new (spec.pool_walked code.now name.now self.old) }
    {
        let code = self.used(Role::Code, code)?;
        let known = self.fresh(Class::Pool, code.number)?;
        self.declare(alloc, Class::Pool, Ty::None, None, name)?;
        self.show(alloc, name, known)
    }

    pub fn alias(
        &mut self,
        alloc: Global,
        code: &Ident,
        name: &Ident,
        start: &Option<Spawn>,
    ) -> Result<(), CheckError>
        ensures { Walks result self.new (spec.alias_walked code.now name.now start.now self.old) }
    {
        let code = self.used(Role::Code, code)?;
        let known = self.fresh(Class::Alias, code.number)?;
        let besides = start_broken(self.scopes.outermost_first(), start, known);
        self.declare(alloc, Class::Alias, Ty::None, besides, name)?;
        self.if_spawn(start)?;
        self.show(alloc, name, known)
    }

    /// The body of a form with this label begins.
    pub fn label(&mut self, alloc: Global, label: &Label) -> Result<(), CheckError>
        ensures ok { OnOk result (self.new ≡ spec.labelled label.now self.old) }
        ensures err { IfErr result (λ e. e ≡ Memory) }
    {
        if let Label::Named(name) = label {
            let copy = in_memory(Name::new(alloc, name.name.text()))?;
            self.labels.push(copy)?;
        }
        Ok(())
    }

    /// The body of a form with this label ends.
    pub fn unlabel(&mut self, label: &Label)
        ensures { spec.unlabelled label.now self.old ≡ Ok self.new }
    {
        if let Label::Named(_) = label {
            self.labels.pop();
        }
    }

    /// The label of an escape.
    pub fn escape(&self, label: &Option<Ident>) -> Result<(), CheckError>
        ensures { Walks result self.now (spec.escape_walked label.now self.now) }
    {
        match label {
            None => Ok(()),
            Some(label) => {
                if is_label(self.labels.outermost_first(), label.name.text()) {
                    Ok(())
                } else {
                    Err(CheckError::Refused(Rule::N1, label.pos))
                }
            }
        }
    }

    /// The list of an async.
    pub fn list(&mut self, alloc: Global, names: &[Ident]) -> Result<Listed, CheckError>
        ensures { Gives result (λ listed. (listed, self.new)) (spec.list_walked names.now ([], self.old)) }
    {
        let mut listed = Listed::new(alloc);
        self.each_listed(&mut listed, names)?;
        Ok(listed)
    }

    fn each_listed(&mut self, listed: &mut Listed, names: &[Ident]) -> Result<(), CheckError>
        ensures { Gives result (λ _. (listed.new, self.new)) (spec.list_walked names.now (listed.old, self.old)) }
    {
        for name in names {
            self.name_listed(listed, name)?;
        }
        Ok(())
    }

    fn name_listed(&mut self, listed: &mut Listed, name: &Ident) -> Result<(), CheckError>
        ensures { Gives result (λ _. (listed.new, self.new)) (spec.name_listed name.now (listed.old, self.old)) }
    {
        let known = self.used(Role::Listed, name)?;
        in_memory(listed.add(known.number))
    }

    /// The target of an assignment.
    pub fn assigned(&mut self, name: &Ident, source: &Source) -> Result<(), CheckError>
        ensures { Walks result self.new (spec.target_assigned source.now name.now self.old) }
    {
        match source {
            Source::Start(spawn) => self.alias_used(spawn, name),
            Source::Value(_) => self.named(Role::Written, name),
            Source::Wait(_) => self.named(Role::Written, name),
            Source::Done(_) => self.named(Role::Written, name),
        }
    }

    pub fn every_head(&mut self, name: &Option<Ident>, target: &Target) -> Result<(), CheckError>
        ensures { Walks result self.new (spec.every_walked name.now target.now self.old) }
    {
        if let Some(name) = name {
            self.named(Role::Written, name)?;
        }
        self.target(target)
    }
}
