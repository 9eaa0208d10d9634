ghost use Rattle.std.specs.Prelude.{◌≡◌, OnOk};
ghost use Rattle.ceu_types.specs.Statements as spec;

use crate::around::{Around, takes_value};
use crate::expressions::{condition, given, time};
use crate::found::{Found, LabelTarget};
use crate::kinds::{holds, is_none};
use crate::operands::or_none;
use crate::uses::{has_parameters, is_output_use, parameter_type, past, use_type};
use ceu_base::{Rule, Ty};
use ceu_scopes::Scopes;
use ceu_tree::{Await, Call, Exp, Ident, Param, Spawn, Target};
use sqlite_items::Items;
use std::alloc::{AllocError, Global};
use std::mem;

impl Found {
    /// An await, or what else waits.
    #[tactic(auto, unfolding(crate::specs::Statements::waits))]
    pub fn waits(&mut self)
        ensures { self.new ≡ spec.waits self.old }
    {
        self.not_in_finalizer();
        self.not_in_async();
        self.not_in_every();
    }

    /// A statement that neither an async nor a finalizer has.
    #[tactic(auto, unfolding(crate::specs::Statements::acts))]
    pub fn acts(&mut self)
        ensures { self.new ≡ spec.acts self.old }
    {
        self.not_in_finalizer();
        self.not_in_async();
    }

    /// A variable of this type takes the value of an await.
    #[tactic(auto, unfolding(crate::specs::Statements::taken))]
    pub fn takes(&mut self, ty: Ty, value: Ty)
        ensures { self.new ≡ spec.taken ty value self.old }
    {
        if is_none(value) {
            self.asks_own(false, Rule::T5);
        } else {
            self.asks_own(holds(ty, value), Rule::T2);
        }
    }

    /// A variable or a parameter has a type with values.
    #[tactic(auto, unfolding(crate::specs::Statements::name_typed))]
    pub fn types_name(&mut self, ty: Ty, name: &Ident)
        ensures { self.new ≡ spec.name_typed ty name.now self.old }
    {
        self.asks(!is_none(ty), Rule::T1, name.pos);
    }
}

fn if_given(
    found: &mut Found,
    scopes: &Scopes,
    value: &Option<Exp>,
    ty: Ty,
) -> Result<(), AllocError>
    ensures { OnOk result (found.new ≡ spec.if_given scopes.now value.now ty found.old) }
{
    match value {
        Some(exp) => given(found, scopes, exp, ty),
        None => Ok(()),
    }
}

/// The arguments of a call of the code whose use stands at this place of the list of uses.
fn arguments_found(
    found: &mut Found,
    scopes: &Scopes,
    code: usize,
    args: &[Exp],
) -> Result<(), AllocError>
    ensures { OnOk result (found.new ≡ spec.arguments_found scopes.now code 0 args.now found.old) }
{
    for (i, exp) in args.iter().enumerate() {
        given(found, scopes, exp, parameter_type(scopes, code, i))?;
    }
    Ok(())
}

#[tactic(auto, unfolding(crate::specs::Statements::call_found))]
fn call_found(found: &mut Found, scopes: &Scopes, call: &Call) -> Result<(), AllocError>
    ensures { OnOk result (found.new ≡ spec.call_found scopes.now call.now found.old) }
{
    let code = found.names;
    found.asks_own(
        has_parameters(scopes, code, call.args.items().len()),
        Rule::T4,
    );
    found.passes(scopes);
    arguments_found(found, scopes, code, call.args.items())
}

#[tactic(auto, unfolding(crate::specs::Statements::spawn_found, crate::specs::Statements::acts))]
pub fn spawn_found(found: &mut Found, scopes: &Scopes, start: &Spawn) -> Result<(), AllocError>
    ensures { OnOk result (found.new ≡ spec.spawn_found scopes.now start.now found.old) }
{
    found.acts();
    call_found(found, scopes, &start.call)?;
    found.passes(scopes);
    Ok(())
}

pub fn if_spawn_found(
    found: &mut Found,
    scopes: &Scopes,
    start: &Option<Spawn>,
) -> Result<(), AllocError>
    ensures { OnOk result (found.new ≡ spec.if_spawn_found scopes.now start.now found.old) }
{
    match start {
        Some(start) => spawn_found(found, scopes, start),
        None => Ok(()),
    }
}

#[tactic(auto, unfolding(crate::specs::Statements::target_found))]
pub fn target_found(found: &mut Found, scopes: &Scopes, target: &Target) -> Result<(), AllocError>
    ensures { OnOk result (found.new ≡ spec.target_found scopes.now target.now found.old) }
{
    match target {
        Target::Ext(_) => {
            found.passes(scopes);
            Ok(())
        }
        Target::Event(_) => {
            found.passes(scopes);
            Ok(())
        }
        Target::Time(_) => Ok(()),
        Target::TimeExp(exp, _) => time(found, scopes, exp),
    }
}

fn until_found(found: &mut Found, scopes: &Scopes, until: &Option<Exp>) -> Result<(), AllocError>
    ensures { OnOk result (found.new ≡ spec.until_found scopes.now until.now found.old) }
{
    match until {
        Some(exp) => condition(found, scopes, exp),
        None => Ok(()),
    }
}

#[tactic(auto, unfolding(crate::specs::Statements::await_found))]
pub fn await_found(found: &mut Found, scopes: &Scopes, wait: &Await) -> Result<(), AllocError>
    ensures { OnOk result (found.new ≡ spec.await_found scopes.now wait.now found.old) }
{
    match wait {
        Await::Forever => Ok(()),
        Await::Code(call) => call_found(found, scopes, call),
        Await::On(target, until) => {
            target_found(found, scopes, target)?;
            until_found(found, scopes, until)
        }
    }
}

/// The type of the value that an occurrence brings; that of a time is its delay.
#[tactic(auto, unfolding(crate::specs::Statements::target_type))]
fn target_type(scopes: &Scopes, target: &Target, place: usize) -> Ty
    ensures { result ≡ spec.target_type scopes.now target.now place }
{
    match target {
        Target::Ext(_) => use_type(scopes, place),
        Target::Event(_) => use_type(scopes, place),
        Target::Time(_) => Ty::S32,
        Target::TimeExp(_, _) => Ty::S32,
    }
}

/// The type of an await's value.
#[tactic(auto, unfolding(crate::specs::Statements::await_type))]
pub fn await_type(scopes: &Scopes, wait: &Await, place: usize) -> Ty
    ensures { result ≡ spec.await_type scopes.now wait.now place }
{
    match wait {
        Await::Forever => Ty::None,
        Await::Code(_) => use_type(scopes, place),
        Await::On(target, _) => target_type(scopes, target, place),
    }
}

#[tactic(auto, unfolding(crate::specs::Statements::emit_found))]
pub fn emit_found(found: &mut Found, scopes: &Scopes, value: &Option<Exp>) -> Result<(), AllocError>
    ensures { OnOk result (found.new ≡ spec.emit_found scopes.now value.now found.old) }
{
    let ty = found.use_type(scopes);
    found.emits(scopes);
    found.asks_own(takes_value(ty, value), Rule::T4);
    found.passes(scopes);
    if_given(found, scopes, value, ty)
}

impl Found {
    /// An emission, which a finalizer has of outputs alone.
    fn emits(&mut self, scopes: &Scopes)
        ensures { self.new ≡ spec.emitted scopes.now self.old }
    {
        if is_output_use(scopes, self.names) {
            self.not_in_async();
        } else {
            self.acts();
        }
    }
}

#[tactic(auto, unfolding(crate::specs::Statements::escape_found))]
pub fn escape_found(
    found: &mut Found,
    scopes: &Scopes,
    around: Around,
    label: &Option<Ident>,
    value: &Option<Exp>,
) -> Result<(), AllocError>
    ensures { OnOk result (found.new ≡ spec.escape_found scopes.now around label.now value.now found.old) }
{
    let takes = found.target_takes(around, label);
    found.not_in_finalizer();
    found.escapes(takes, value);
    if_given(found, scopes, value, or_none(takes))
}

#[tactic(auto, unfolding(crate::specs::Statements::params_found))]
pub fn params_found(found: &mut Found, name: &Ident, params: &[Param])
    ensures { found.new ≡ spec.params_found name.now params.now found.old }
{
    found.acts();
    found.asks(params.len() <= 255, Rule::T4, name.pos);
    for param in params {
        found.types_name(param.ty, &param.name);
    }
}

fn every_takes(found: &mut Found, scopes: &Scopes, variable: &Option<Ident>, target: &Target)
    ensures { found.new ≡ spec.every_takes scopes.now variable.now target.now found.old }
{
    match variable {
        None => (),
        Some(_) => {
            let ty = found.use_type(scopes);
            let place = past(scopes, found.names);
            found.takes(ty, target_type(scopes, target, place));
            found.passes(scopes);
        }
    }
}

#[tactic(auto, unfolding(crate::specs::Statements::every_begun))]
pub fn every_begun(
    found: &mut Found,
    scopes: &Scopes,
    variable: &Option<Ident>,
    target: &Target,
) -> Result<(), AllocError>
    ensures { OnOk result (found.new ≡ spec.every_begun scopes.now variable.now target.now found.old) }
{
    found.acts();
    every_takes(found, scopes, variable, target);
    target_found(found, scopes, target)?;
    found.beyond_every = false;
    Ok(())
}

#[tactic(auto, unfolding(crate::specs::Statements::every_ended))]
pub fn every_ended(found: &mut Found)
    ensures { found.new ≡ spec.every_ended found.old }
{
    found.asks_own(!found.beyond_every, Rule::T6);
    found.not_in_every();
}

#[tactic(auto, unfolding(crate::specs::Statements::finalizer_begun))]
pub fn finalizer_begun(found: &mut Found)
    ensures { found.new ≡ spec.finalizer_begun found.old }
{
    found.beyond_finalizer = false;
}

#[tactic(auto, unfolding(crate::specs::Statements::finalizer_ended))]
pub fn finalizer_ended(found: &mut Found)
    ensures { found.new ≡ spec.finalizer_ended found.old }
{
    found.asks_own(!found.beyond_finalizer, Rule::T6);
    found.acts();
}

fn uses_passed(found: &mut Found, scopes: &Scopes, listed: &[Ident])
    ensures { found.new ≡ spec.uses_passed scopes.now listed.now found.old }
{
    let mut passed = 0;
    while passed < listed.len() {
        found.passes(scopes);
        passed += 1;
    }
}

/// An async begins. The labels around it are handed back, since they don't count in it.
#[tactic(auto, unfolding(crate::specs::Statements::async_begun))]
pub fn async_begun(
    found: &mut Found,
    alloc: Global,
    scopes: &Scopes,
    listed: &[Ident],
) -> Items<LabelTarget>
    ensures state { found.new ≡ spec.async_begun scopes.now listed.now found.old }
    ensures labels { result ≡ found.old.labels }
{
    let labels = mem::replace(&mut found.labels, Items::new(alloc));
    found.beyond_async = false;
    uses_passed(found, scopes, listed);
    labels
}

#[tactic(auto, unfolding(crate::specs::Statements::async_ended))]
pub fn async_ended(found: &mut Found, labels: Items<LabelTarget>)
    ensures { found.new ≡ spec.async_ended labels found.old }
{
    found.asks_own(!found.beyond_async, Rule::T6);
    found.labels = labels;
    found.waits();
}
