ghost use Rattle.std.specs.Prelude.{IfOk};
ghost use Rattle.ceu_isa.specs.Safety.{IsSound};

use crate::{After, Session, State};
use ceu_base::{Mark, Seq};
use ceu_code::Image;
use ceu_tree::KeptMarks;
use std::alloc::{AllocError, Global};
use std::test::Fail;

// Ends at once, with 0.
fn ending(alloc: Global) -> Result<Image, AllocError>
    ensures { IfOk result (λ image. IsSound image) }
{
    let mut code = Seq::new(alloc);
    code.push(14)?;
    Ok(Image {
        turns: 1,
        levels: 0,
        depth: 0,
        gates: 1,
        slots: 0,
        inputs: Seq::new(alloc),
        outputs: Seq::new(alloc),
        codes: Seq::new(alloc),
        pools: Seq::new(alloc),
        places: Seq::new(alloc),
        code,
    })
}

// Waits for ever.
fn waiting(alloc: Global) -> Result<Image, AllocError>
    ensures { IfOk result (λ image. IsSound image) }
{
    let mut code = Seq::new(alloc);
    code.push(19)?;
    Ok(Image {
        turns: 1,
        levels: 0,
        depth: 0,
        gates: 1,
        slots: 0,
        inputs: Seq::new(alloc),
        outputs: Seq::new(alloc),
        codes: Seq::new(alloc),
        pools: Seq::new(alloc),
        places: Seq::new(alloc),
        code,
    })
}

#[test]
fn a_program_that_ends_at_boot(rt: HostRuntime) -> Result<(), Fail> {
    let alloc = rt.alloc();
    let mut marks = KeptMarks::new(alloc, 4)?;
    let image = ending(alloc)?;
    let Ok(mut session) = Session::new(alloc, image) else {
        panic!(rt; "memory is wanted");
    };
    assert_eq!(rt; session.boot(&mut marks), Ok(After::Ended(0)));
    assert_eq!(rt; session.state(), State::Ended(0));
    assert_eq!(rt; marks.marks(), [Mark::Resume(0)].as_slice());
    assert_eq!(rt; session.memory().len(), 35);
    Ok(())
}

#[test]
fn a_program_that_waits(rt: HostRuntime) -> Result<(), Fail> {
    let alloc = rt.alloc();
    let mut marks = KeptMarks::new(alloc, 4)?;
    let image = waiting(alloc)?;
    let Ok(mut session) = Session::new(alloc, image) else {
        panic!(rt; "memory is wanted");
    };
    let came = session.boot(&mut marks);
    assert_eq!(rt; came, Ok(After::Waiting));
    assert!(rt; session.state() == State::Waiting);
    let came = session.advance(1_000_000, &mut marks);
    assert_eq!(rt; came, Ok(After::Waiting));
    assert!(rt; session.state() == State::Waiting);
    let came = session.idle(&mut marks);
    assert_eq!(rt; came, Ok(After::Waiting));
    assert_eq!(rt; marks.marks(), [Mark::Resume(0)].as_slice());
    Ok(())
}
