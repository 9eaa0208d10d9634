// One instruction.
ghost use Rattle.std.specs.Prelude.{◌≡◌};
ghost use Rattle.ceu_isa.specs.Rows.{effect};
ghost use Rattle.ceu_isa.specs.Layout as layout;
ghost use Rattle.ceu_isa.specs.Cells as cells;
ghost use Rattle.ceu_isa.specs.Slots as slots;
ghost use Rattle.ceu_isa.specs.Pools as pools;
ghost use Rattle.ceu_machine.specs.Holding.{IsMachine, IsRight};
ghost use Rattle.ceu_machine.specs.Performing.{Did};

use crate::cells::{binary, convert, jump_if_false, pop_value, prefix, push, push_value};
use crate::emits::emit;
use crate::frames::{call, return_back};
use crate::outputs::{output, register};
use crate::pools::{Life, alias_life, alive};
use crate::slots::{bound, first_slot, limit, load, next, store};
use crate::spawns::{Seating, make_pool, spawn};
use crate::trails::{aborted_from, end_async, fork, move_to, wait, wait_for, wait_time};
use crate::words::write_number;
use ceu_base::{Fault, Mark, Op1, Op2, Pos, Ty};
use ceu_code::{Image, Instr};
use ceu_isa::Registers;
use ceu_mem::Memory;

/// What an instruction did.
#[derive(Clone, Copy)]
pub enum Done {
    /// The trail goes on.
    Goes,
    /// It goes on, and has left a mark.
    Marks(Mark),
    /// The turn ends.
    Pauses,
    /// The turn ends, and a level opens.
    Opens(u16),
    /// The turn ends: an instance was spawned, and a level opens.
    Spawns(u32, u16),
    /// The program ends.
    Finishes,
    Faults(Fault, Pos),
    /// Gates are to be aborted: from one on, so many.
    Aborts(u16, u16),
    /// The instance in a place is to be aborted, with its gates.
    Kills(u32, u16, u16),
    /// A finalizer ends.
    Leaves,
}

fn prefixed(
    image: &Image,
    mem: &mut Memory,
    regs: &mut Registers,
    op: Op1,
    ty: Ty,
    position: u16,
) -> Done
    requires made { IsMachine image.now mem.old }
    requires right { IsRight (cells.prefix_row image.now op ty position regs.old mem.old.bytes) }
    ensures effect { Did (cells.prefix_row image.now op ty position regs.old mem.old.bytes) result regs.new mem.old.bytes mem.new.bytes }
    ensures made { IsMachine image.now mem.new }
{
    match prefix(image, mem, regs, op, ty, position) {
        Ok(()) => Done::Goes,
        Err((fault, pos)) => Done::Faults(fault, pos),
    }
}

fn combined(
    image: &Image,
    mem: &mut Memory,
    regs: &mut Registers,
    op: Op2,
    ty: Ty,
    position: u16,
) -> Done
    requires made { IsMachine image.now mem.old }
    requires right { IsRight (cells.binary_row image.now op ty position regs.old mem.old.bytes) }
    ensures effect { Did (cells.binary_row image.now op ty position regs.old mem.old.bytes) result regs.new mem.old.bytes mem.new.bytes }
    ensures made { IsMachine image.now mem.new }
{
    match binary(image, mem, regs, op, ty, position) {
        Ok(()) => Done::Goes,
        Err((fault, pos)) => Done::Faults(fault, pos),
    }
}

fn limited(
    image: &Image,
    mem: &mut Memory,
    regs: &mut Registers,
    at: u32,
    n: u32,
    position: u16,
) -> Done
    requires made { IsMachine image.now mem.old }
    requires right { IsRight (slots.limit_at image.now at n position regs.old mem.old.bytes) }
    ensures effect { Did (slots.limit_at image.now at n position regs.old mem.old.bytes) result regs.new mem.old.bytes mem.new.bytes }
    ensures made { IsMachine image.now mem.new }
{
    match limit(image, mem, regs, at, n, position) {
        Ok(()) => Done::Goes,
        Err((fault, pos)) => Done::Faults(fault, pos),
    }
}

fn returned(image: &Image, mem: &mut Memory, regs: &mut Registers) -> Done
    requires made { IsMachine image.now mem.old }
    requires right { IsRight (pools.return_row image.now regs.old mem.old.bytes) }
    ensures effect { Did (pools.return_row image.now regs.old mem.old.bytes) result regs.new mem.old.bytes mem.new.bytes }
    ensures made { IsMachine image.now mem.new }
{
    if return_back(image, mem, regs) {
        Done::Goes
    } else {
        Done::Pauses
    }
}

fn spawned(
    image: &Image,
    mem: &mut Memory,
    regs: &mut Registers,
    code: u16,
    slot: u16,
    n: u16,
    alias: u16,
    position: u16,
) -> Done
    requires made { IsMachine image.now mem.old }
    requires right { IsRight (pools.spawn_row image.now code slot n alias position regs.old mem.old.bytes) }
    ensures effect { Did (pools.spawn_row image.now code slot n alias position regs.old mem.old.bytes) result regs.new mem.old.bytes mem.new.bytes }
    ensures made { IsMachine image.now mem.new }
{
    match spawn(image, mem, regs, code, slot, n, alias, position) {
        Seating::Nowhere => Done::Marks(Mark::Full),
        Seating::Taken(number, level) => Done::Spawns(number, level),
        Seating::NoNumber(pos) => Done::Faults(Fault::SpawnCount, pos),
    }
}

fn killed(image: &Image, mem: &Memory, regs: &Registers, slot: u16) -> Done
    requires made { IsMachine image.now mem.now }
    requires right { IsRight (pools.kill_row image.now slot regs.now mem.now.bytes) }
    ensures { Did (pools.kill_row image.now slot regs.now mem.now.bytes) result regs.now mem.now.bytes mem.now.bytes }
{
    match alias_life(image, mem, here(regs, slot)) {
        Life::Over => Done::Goes,
        Life::Lives(place, from, count) => Done::Kills(place, from, count),
    }
}

fn finish(image: &Image, mem: &mut Memory) -> Done
    requires { IsMachine image.now mem.old }
    ensures effect { (result ≡ Done.Finishes) × (mem.new.bytes ≡ layout.with_state layout.ended mem.old.bytes) }
    ensures made { IsMachine image.now mem.new }
{
    let _slots = image.slots;
    write_number(image, mem, 2, 0, 3);
    Done::Finishes
}

/// The address of a slot of this frame.
fn here(regs: &Registers, slot: u16) -> u32
    ensures { result ≡ slots.here regs.now slot }
{
    u32::from(regs.frame) + u32::from(slot)
}

/// The address of a slot of the program's frame.
fn outer(image: &Image, slot: u16) -> u32
    ensures { result ≡ slots.outer image.now slot }
{
    first_slot(image) + u32::from(slot)
}

fn goes(_: ()) -> Done
    ensures { result ≡ Done.Goes }
{
    Done::Goes
}

fn pauses(_: ()) -> Done
    ensures { result ≡ Done.Pauses }
{
    Done::Pauses
}

fn jump(regs: &mut Registers, to: u16) -> Done
    ensures done { result ≡ Done.Goes }
    ensures there { regs.new ≡ record regs.old { at = to } }
{
    regs.at = to;
    Done::Goes
}

/// Does an instruction, which is allowed there. In the registers stands the offset behind it.
#[tactic(auto, unfolding(ceu_isa::specs::Rows::effect))]
pub fn perform(image: &Image, mem: &mut Memory, regs: &mut Registers, instr: Instr) -> Done
    requires made { IsMachine image.now mem.old }
    requires right { IsRight (effect image.now instr regs.old mem.old.bytes) }
    ensures effect { Did (effect image.now instr regs.old mem.old.bytes) result regs.new mem.old.bytes mem.new.bytes }
    ensures made { IsMachine image.now mem.new }
{
    match instr {
        Instr::Push(_, v) => goes(push(image, mem, regs, v)),
        Instr::Load(ty, slot) => goes(load(image, mem, regs, ty, here(regs, slot))),
        Instr::LoadOuter(ty, slot) => goes(load(image, mem, regs, ty, outer(image, slot))),
        Instr::Store(ty, slot) => goes(store(image, mem, regs, ty, here(regs, slot))),
        Instr::StoreOuter(ty, slot) => goes(store(image, mem, regs, ty, outer(image, slot))),
        Instr::Prefix(op, ty, position) => prefixed(image, mem, regs, op, ty, position),
        Instr::Binary(op, ty, position) => combined(image, mem, regs, op, ty, position),
        Instr::Convert(from, to) => goes(convert(image, mem, regs, from, to)),
        Instr::Jump(to) => jump(regs, to),
        Instr::JumpIfFalse(to) => goes(jump_if_false(image, mem, regs, to)),
        Instr::Value(ty) => goes(push_value(image, mem, regs, ty)),
        Instr::SetValue => goes(pop_value(image, mem, regs)),
        Instr::Output(k, ty) => Done::Marks(Mark::Output(k, output(image, mem, regs, k, ty).value)),
        Instr::End => finish(image, mem),
        Instr::WaitInput(k) => pauses(wait_for(image, mem, regs, 2, k)),
        Instr::WaitTime(unit) => pauses(wait_time(image, mem, regs, unit)),
        Instr::WaitEvent(k) => pauses(wait_for(image, mem, regs, 4, k)),
        Instr::WaitForever => pauses(wait(image, mem, regs, 5)),
        Instr::StartAsync => pauses(wait(image, mem, regs, 6)),
        Instr::YieldAsync => pauses(wait(image, mem, regs, 7)),
        Instr::EndAsync => pauses(end_async(image, mem, regs)),
        Instr::Emit(k, ty) => Done::Opens(emit(image, mem, regs, k, ty)),
        Instr::Fork(g, to) => goes(fork(image, mem, regs, g, to)),
        Instr::Move(g) => goes(move_to(image, mem, regs, g)),
        Instr::Halt => Done::Pauses,
        Instr::AbortGates(g, n) => Done::Aborts(aborted_from(image, mem, regs, g, n), n),
        Instr::Register(g, to, p) => Done::Marks(Mark::Registered(register(
            image, mem, regs, g, to, p,
        ))),
        Instr::EndFinalizer => Done::Leaves,
        Instr::Call(code, slot, g) => goes(call(image, mem, regs, code, slot, g)),
        Instr::Return => returned(image, mem, regs),
        Instr::MakePool(slot, n, pool, g) => goes(make_pool(image, mem, regs, slot, n, pool, g)),
        Instr::Spawn(code, slot, n, alias, p) => spawned(image, mem, regs, code, slot, n, alias, p),
        Instr::Kill(slot) => killed(image, mem, regs, slot),
        Instr::Alive(slot) => goes(alive(image, mem, regs, slot)),
        Instr::RangeBound(slot, d) => goes(bound(image, mem, regs, here(regs, slot), d)),
        Instr::RangeNext(slot, i, to) => goes(next(
            image,
            mem,
            regs,
            here(regs, slot),
            here(regs, i),
            to,
        )),
        Instr::Limit(slot, n, p) => limited(image, mem, regs, here(regs, slot), n, p),
    }
}
