use crate::{Bounds, bound};
use ceu_base::{CheckError, Pos, Rule, Seq, Ty};
use ceu_tree::{KBlock, KEvent, KLoop, KNode, KStmt, Kernel, ParKind};
use std::alloc::{AllocError, Global};
use std::test::Fail;

fn node(number: u32, line: u32, col: u32, stmt: KStmt) -> KNode {
    KNode {
        node: number,
        pos: Pos { line, col },
        stmt,
    }
}

fn one(alloc: Global, first: KNode) -> Result<KBlock, AllocError> {
    let mut list = Seq::new(alloc);
    list.push(first)?;
    Ok(KBlock {
        node: 0,
        decls: Seq::new(alloc),
        list,
    })
}

fn two(alloc: Global, first: KNode, second: KNode) -> Result<KBlock, AllocError> {
    let mut block = one(alloc, first)?;
    block.list.push(second)?;
    Ok(block)
}

// every event do emit other; end
fn every(
    alloc: Global,
    number: u32,
    line: u32,
    col: u32,
    event: u32,
    other: u32,
) -> Result<KNode, AllocError> {
    let await_event = node(
        number.wrapping_add(1),
        line,
        col,
        KStmt::AwaitEvent(event, None),
    );
    let emission = node(number.wrapping_add(2), line, col, KStmt::Emit(other, None));
    let body = two(alloc, await_event, emission)?;
    Ok(node(number, line, col, KStmt::Loop(KLoop::Free, body)))
}

fn par(
    alloc: Global,
    kind: ParKind,
    line: u32,
    first: KBlock,
    second: KBlock,
) -> Result<KNode, AllocError> {
    let mut branches = Seq::new(alloc);
    branches.push(first)?;
    branches.push(second)?;
    Ok(node(1, line, 1, KStmt::Par(kind, 0, branches)))
}

fn kernel(alloc: Global, body: KBlock, events: u32) -> Result<Kernel, AllocError> {
    let mut list = Seq::new(alloc);
    for event in 0..events {
        list.push(KEvent {
            ty: Ty::None,
            code: None,
            pos: Pos {
                line: 1,
                col: 12 + 3 * (event % 9),
            },
        })?;
    }
    Ok(Kernel {
        body,
        codes: Seq::new(alloc),
        inputs: Seq::new(alloc),
        outputs: Seq::new(alloc),
        events: list,
    })
}

// loop/2 do nothing; end
#[test]
fn a_counted_loop(rt: HostRuntime) -> Result<(), Fail> {
    let alloc = rt.alloc();
    let body = one(alloc, node(2, 1, 11, KStmt::Nothing))?;
    let program = one(alloc, node(1, 1, 1, KStmt::Loop(KLoop::Times(0, 2), body)))?;
    let found = bound(alloc, &kernel(alloc, program, 0)?);
    assert_eq!(rt;
        found,
        Ok(Bounds {
            turns: 1,
            levels: 0
        })
    );
    Ok(())
}

// loop/65537 do nothing; end
#[test]
fn a_loop_with_too_many_turns(rt: HostRuntime) -> Result<(), Fail> {
    let alloc = rt.alloc();
    let body = one(alloc, node(2, 1, 15, KStmt::Nothing))?;
    let program = one(
        alloc,
        node(1, 1, 1, KStmt::Loop(KLoop::Times(0, 65_537), body)),
    )?;
    let found = bound(alloc, &kernel(alloc, program, 0)?);
    assert_eq!(rt;
        found,
        Err(CheckError::Refused(Rule::B3, Pos { line: 1, col: 1 }))
    );
    Ok(())
}

// event none e; par/or do every e do nothing; end with emit e; emit e; end
#[test]
fn two_emissions_that_wake_a_loop(rt: HostRuntime) -> Result<(), Fail> {
    let alloc = rt.alloc();
    let waiting = two(
        alloc,
        node(3, 4, 5, KStmt::AwaitEvent(0, None)),
        node(4, 4, 16, KStmt::Out(0, None)),
    )?;
    let paced = one(alloc, node(2, 4, 5, KStmt::Loop(KLoop::Free, waiting)))?;
    let emitting = two(
        alloc,
        node(5, 6, 5, KStmt::Emit(0, None)),
        node(6, 6, 13, KStmt::Emit(0, None)),
    )?;
    let program = one(alloc, par(alloc, ParKind::Or, 3, paced, emitting)?)?;
    let found = bound(alloc, &kernel(alloc, program, 1)?);
    assert_eq!(rt;
        found,
        Ok(Bounds {
            turns: 6,
            levels: 2
        })
    );
    Ok(())
}

// event none e, f; par do every e do emit f; end with every f do emit e; end end
#[test]
fn a_cycle_of_emissions(rt: HostRuntime) -> Result<(), Fail> {
    let alloc = rt.alloc();
    let first = one(alloc, every(alloc, 2, 2, 8, 0, 1)?)?;
    let second = one(alloc, every(alloc, 5, 3, 6, 1, 0)?)?;
    let program = one(alloc, par(alloc, ParKind::Never, 2, first, second)?)?;
    let found = bound(alloc, &kernel(alloc, program, 2)?);
    assert_eq!(rt;
        found,
        Err(CheckError::Refused(Rule::B2, Pos { line: 2, col: 8 }))
    );
    Ok(())
}

// loop do end
#[test]
fn a_loop_without_an_await(rt: HostRuntime) -> Result<(), Fail> {
    let alloc = rt.alloc();
    let body = KBlock {
        node: 2,
        decls: Seq::new(alloc),
        list: Seq::new(alloc),
    };
    let program = one(alloc, node(1, 1, 1, KStmt::Loop(KLoop::Free, body)))?;
    let found = bound(alloc, &kernel(alloc, program, 0)?);
    assert_eq!(rt;
        found,
        Err(CheckError::Refused(Rule::B1, Pos { line: 1, col: 1 }))
    );
    Ok(())
}
