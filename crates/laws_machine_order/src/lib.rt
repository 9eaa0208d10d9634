//! The order of trails: the machine's order of gates is the lexical order of the leaves that stand there, so the gate that goes next is that of the first
//! leaf in lexical order. Each law is the contract of a function with an empty body.
#![tactic(auto)]

ghost use Rattle.laws_machine_order.specs.Laws.{FirstServedStands, FirstStands, OlderInBodies, OlderStand, TrailsTold};

/// Where a configuration stands in the memory, the machine resumes the gate of the first leaf in lexical order that can run at a level, and finds none where
/// there is none: its choice is never unclear.
pub fn first_stands()
    ensures { FirstStands }
{}

/// So it serves the first async in lexical order that wasn't served in its round.
pub fn first_served_stands()
    ensures { FirstServedStands }
{}

/// A pool's row and its spawner's frame tell which pool it is, so where the instances of each pool stand by age, they do so for the machine.
pub fn older_stand()
    ensures { OlderStand }
{}

/// The instances of each pool stand by age in every tree whose instances stand in their pools, if no slot of an open body is open twice.
pub fn older_in_bodies()
    ensures { OlderInBodies }
{}

/// So a configuration whose memory, instances and open slots stand meets what the first two laws ask for.
pub fn trails_told()
    ensures { TrailsTold }
{}
