ghost use Rattle.std.specs.Prelude.{◌≡◌};
ghost use Rattle.ceu_types.specs.Ranks as ranks;
ghost use Rattle.ceu_types.specs.Places as broken;

use crate::uses::{past, use_type};
use ceu_base::{Name, Pos, Rule, Seq, Ty};
use ceu_scopes::Scopes;
use sqlite_items::Items;
use std::alloc::AllocError;

/// A rule that is broken, and where.
#[derive(Clone, Copy, Debug, PartialEq, Eq)]
pub struct Broken {
    pub rule: Rule,
    pub pos: Pos,
}

/// A `do` with a label, and the type of the value that it takes.
#[derive(Drop)]
pub struct LabelTarget {
    pub name: Name,
    pub takes: Ty,
}

/// What a walk through a program in pre-order has found so far: how many uses of names it has passed, the types of the expressions,
/// the labels around the place, the lowest rule that the statement breaks at its first token, the first broken place after it, and whether something was passed
/// that an `every`, an async or a finalizer around it doesn't allow.
#[derive(Drop)]
pub struct Found {
    pub names: usize,
    pub types: Seq<Ty>,
    pub labels: Items<LabelTarget>,
    pub own: Option<Rule>,
    pub broken: Option<Broken>,
    pub beyond_every: bool,
    pub beyond_async: bool,
    pub beyond_finalizer: bool,
}

fn rank(rule: Rule) -> u8
    ensures { result ≡ ranks.rank rule }
{
    match rule {
        Rule::T1 => 1,
        Rule::T2 => 2,
        Rule::T3 => 3,
        Rule::T4 => 4,
        Rule::T5 => 5,
        Rule::T6 => 6,
        Rule::T7 => 7,
        _ => 0,
    }
}

/// The lower of two rules.
fn lower(own: Option<Rule>, rule: Rule) -> Rule
    ensures { result ≡ ranks.lower own rule }
{
    match own {
        Some(other) => {
            if rank(rule) < rank(other) {
                rule
            } else {
                other
            }
        }
        None => rule,
    }
}

fn at_place(pos: Pos, own: Option<Rule>) -> Option<Broken>
    ensures { result ≡ broken.at_place pos own }
{
    match own {
        Some(rule) => Some(Broken { rule, pos }),
        None => None,
    }
}

/// What stands earlier counts.
fn first(earlier: Option<Broken>, later: Option<Broken>) -> Option<Broken>
    ensures { result ≡ broken.first earlier later }
{
    match earlier {
        Some(broken) => Some(broken),
        None => later,
    }
}

impl Found {
    ghost use Rattle.std.specs.Prelude.{◌≡◌, OnOk};
    ghost use Rattle.ceu_types.specs.Notes as spec;
    ghost use Rattle.ceu_types.specs.Uses as uses;

    /// Notes that a rule is broken at a place, unless the test holds or an earlier place was noted.
    #[tactic(auto, unfolding(crate::specs::Notes::asks))]
    pub fn asks(&mut self, test: bool, rule: Rule, pos: Pos)
        ensures { self.new ≡ spec.asks test rule pos self.old }
    {
        if !test {
            self.broken = first(self.broken, Some(Broken { rule, pos }));
        }
    }

    /// Notes that a rule is broken at the statement's first token, unless the test holds or a lower one was noted.
    #[tactic(auto, unfolding(crate::specs::Notes::asks_own))]
    pub fn asks_own(&mut self, test: bool, rule: Rule)
        ensures { self.new ≡ spec.asks_own test rule self.old }
    {
        if !test {
            self.own = Some(lower(self.own, rule));
        }
    }

    /// Puts the type of an expression at the end of the list.
    #[tactic(auto, unfolding(crate::specs::Notes::typed))]
    pub fn typed(&mut self, ty: Ty) -> Result<(), AllocError>
        ensures { OnOk result (self.new ≡ spec.typed ty self.old) }
    {
        self.types.push(ty)
    }

    /// The declared type of the next use of a name.
    pub fn use_type(&self, scopes: &Scopes) -> Ty
        ensures { result ≡ uses.use_type scopes.now self.now.names }
    {
        use_type(scopes, self.names)
    }

    /// Goes past the next use of a name.
    #[tactic(auto, unfolding(crate::specs::Notes::passed))]
    pub fn passes(&mut self, scopes: &Scopes)
        ensures { self.new ≡ spec.passed scopes.now self.old }
    {
        self.names = past(scopes, self.names);
    }

    #[tactic(auto, unfolding(crate::specs::Notes::not_in_every))]
    pub fn not_in_every(&mut self)
        ensures { self.new ≡ spec.not_in_every self.old }
    {
        self.beyond_every = true;
    }

    #[tactic(auto, unfolding(crate::specs::Notes::not_in_async))]
    pub fn not_in_async(&mut self)
        ensures { self.new ≡ spec.not_in_async self.old }
    {
        self.beyond_async = true;
    }

    #[tactic(auto, unfolding(crate::specs::Notes::not_in_finalizer))]
    pub fn not_in_finalizer(&mut self)
        ensures { self.new ≡ spec.not_in_finalizer self.old }
    {
        self.beyond_finalizer = true;
    }

    /// A statement begins.
    #[tactic(auto, unfolding(crate::specs::Notes::begun))]
    pub fn begins(&mut self)
        ensures { self.new ≡ spec.begun self.old }
    {
        self.own = None;
        self.broken = None;
    }

    /// A statement ends, before which these were noted.
    #[tactic(auto, unfolding(crate::specs::Notes::ended_after))]
    pub fn ends(&mut self, pos: Pos, own: Option<Rule>, broken: Option<Broken>)
        ensures { self.new ≡ spec.ended_after pos own broken self.old }
    {
        let here = first(at_place(pos, self.own), self.broken);
        self.own = own;
        self.broken = first(broken, here);
    }
}
