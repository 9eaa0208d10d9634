use crate::{TextMarks, has_short_names};
use ceu_base::{Mark, Name, Port, Pos, Seq, Ty};
use ceu_io::{Failed, MemSink};
use ceu_tree::{KeptMarks, MarkSink};
use std::alloc::{AllocError, Global};
use std::test::Fail;

fn port(alloc: Global, name: &str, ty: Ty) -> Result<Port, AllocError> {
    Ok(Port {
        ty,
        name: Name::new(alloc, name)?,
    })
}

#[test]
fn a_line_for_every_mark(rt: HostRuntime) -> Result<(), Fail> {
    let mut outputs = Seq::new(rt.alloc());
    outputs.push(port(rt.alloc(), "ON", Ty::None)?)?;
    outputs.push(port(rt.alloc(), "OB", Ty::Bool)?)?;
    outputs.push(port(rt.alloc(), "O", Ty::S32)?)?;
    let mut sink = MemSink::new(rt.alloc(), 200, 7, Vec::new(rt.alloc()))?;
    let place = Pos { line: 3, col: 14 };
    assert!(rt; has_short_names(&outputs));
    let mut marks = TextMarks::new(&mut sink, &outputs, true);
    for mark in [
        Mark::Resume(0),
        Mark::Push(1),
        Mark::Output(0, 0),
        Mark::Output(1, 0),
        Mark::Output(1, 7),
        Mark::Output(2, -5),
        Mark::Output(3, 5),
        Mark::Pop(1),
        Mark::Registered(place),
        Mark::Ran(place),
        Mark::Spawned(4_294_967_295),
        Mark::Full,
    ] {
        assert_eq!(rt; marks.mark(mark), Ok(()));
    }
    assert_eq!(rt;
        sink.bytes(),
        b"> resume 0\n> push 1\nON\nOB false\nOB true\nO -5\n> pop 1\n> registered 3:14\n> ran 3:14\n> spawned 4294967295\n> full\n".as_slice()
    );
    Ok(())
}

#[test]
fn outputs_alone_up_to_a_failure(rt: HostRuntime) -> Result<(), Fail> {
    let mut outputs = Seq::new(rt.alloc());
    outputs.push(port(rt.alloc(), "O", Ty::U8)?)?;
    let mut sink = MemSink::new(rt.alloc(), 7, 9, Vec::new(rt.alloc()))?;
    assert!(rt; has_short_names(&outputs));
    let mut marks = TextMarks::new(&mut sink, &outputs, false);
    assert_eq!(rt; marks.mark(Mark::Resume(0)), Ok(()));
    assert_eq!(rt; marks.mark(Mark::Output(0, 9)), Ok(()));
    assert_eq!(rt; marks.mark(Mark::Output(0, 255)), Err(Failed));
    assert_eq!(rt; sink.bytes(), b"O 9\nO 2".as_slice());
    Ok(())
}

#[test]
fn marks_are_kept_up_to_the_room(rt: HostRuntime) -> Result<(), Fail> {
    let mut kept = KeptMarks::new(rt.alloc(), 2)?;
    assert_eq!(rt; kept.mark(Mark::Full), Ok(()));
    assert_eq!(rt; kept.mark(Mark::Resume(1)), Ok(()));
    assert_eq!(rt; kept.mark(Mark::Pop(1)), Err(Failed));
    assert_eq!(rt; kept.marks(), [Mark::Full, Mark::Resume(1)].as_slice());
    Ok(())
}
