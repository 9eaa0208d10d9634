// The image that pushes 1 and ends, and the ways in which its listing may fail.
use crate::show;
use ceu_code::{DecodeError, decode};
use ceu_io::{Failed, MemSink};
use std::alloc::Global;
use std::test::Fail;

const ONE: &[u8] =
    b"CEU\x01\x01\0\0\0\0\0\x01\0\x01\0\0\0\0\0\0\0\0\0\0\0\x0c\0\x01\x07\x01\0\0\0\0\0\0\0\x0c\x0e";

const LISTING: &[u8] = b"memory 43 turns 1 levels 0\n0 push s32 1\n10 setv\n11 end\n";

fn shown(alloc: Global, room: usize) -> Result<(Result<(), Failed>, MemSink), Fail> {
    let image = decode(alloc, ONE)?;
    let mut sink = MemSink::new(alloc, room, 9, Vec::new(alloc))?;
    let answer = show(&image, &mut sink);
    Ok((answer, sink))
}

#[test]
fn an_image_of_38_bytes(rt: HostRuntime) -> Result<(), Fail> {
    let (answer, sink) = shown(rt.alloc(), 100)?;
    assert_eq!(rt; answer, Ok(()));
    assert_eq!(rt; sink.bytes(), LISTING);
    assert_eq!(rt;
        decode(rt.alloc(), &ONE[..37]).err(),
        Some(DecodeError::Bad(37))
    );
    Ok(())
}

#[test]
fn a_sink_that_is_full(rt: HostRuntime) -> Result<(), Fail> {
    let (answer, sink) = shown(rt.alloc(), 30)?;
    assert_eq!(rt; answer, Err(Failed));
    assert_eq!(rt; sink.bytes(), &LISTING[..30]);
    Ok(())
}
