//! How a configuration of the reference semantics stands in the machine's memory, and what stays true of it when an occurrence changes both. Each law
//! is the contract of a function with an empty body.
#![tactic(auto)]

ghost use Rattle.std.specs.Prelude.{ℕ};
ghost use Rattle.ceu_code.specs.declared.image.Image.{Image};
ghost use Rattle.ceu_isa.specs.Turns.{Machine};
ghost use Rattle.ceu_tree.specs.Residual.{Act, Body, Residual};
ghost use Rattle.ceu_tree.specs.Focus.{Focus};
ghost use Rattle.ceu_tree.specs.World.{World};
ghost use Rattle.laws_machine_layout.specs.Laws.{DueStands, InputStands, PlugStands, RoundStands, TimeStands, UnplugStands};
ghost use Rattle.laws_machine_layout.specs.Tables.{Tables};
ghost use Rattle.laws_machine_layout.specs.Views.{Home, View};

/// Where a configuration stands in the memory, the machine's change of its gates for an input makes it stand as the reference semantics wakes its leaves.
pub fn input_stands()
    ensures { (image : Image) (t : Tables) (home : Body → Home) (r : Residual) (w : World) (m : Machine) → InputStands image t home r w m }
{}

/// So it is when time passes,
pub fn time_stands()
    ensures { (image : Image) (t : Tables) (home : Body → Home) (r : Residual) (w : World) (m : Machine) → TimeStands image t home r w m }
{}

/// when the timers that are due wake,
pub fn due_stands()
    ensures { (image : Image) (t : Tables) (home : Body → Home) (r : Residual) (w : World) (m : Machine) → DueStands image t home r w m }
{}

/// and when a new round of asyncs begins.
pub fn round_stands()
    ensures { (image : Image) (t : Tables) (home : Body → Home) (r : Residual) (w : World) (m : Machine) → RoundStands image t home r w m }
{}

/// Where the frames around a part stand and the part stands where they say, the whole stands,
pub fn plug_stands()
    ensures { (t : Tables) (home : Body → Home) (v : View) (f : Focus Act) (body : Body) (low high : ℕ) (q : Residual) → PlugStands t home v f body low high q }
{}

/// and the other way round.
pub fn unplug_stands()
    ensures { (t : Tables) (home : Body → Home) (v : View) (f : Focus Act) (body : Body) (low high : ℕ) (q : Residual) → UnplugStands t home v f body low high q }
{}
