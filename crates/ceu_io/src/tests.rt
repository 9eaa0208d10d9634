use crate::{
    Failed, Fetched, MemShelf, MemSink, MemSource, Shelf, ShelfError, Sink, Source, write_all,
};
use std::test::Fail;

#[test]
fn a_source_moves_pieces_and_fails_on_the_listed_call(rt: HostRuntime) -> Result<(), Fail> {
    let bytes = b"abcdef".to_vec(rt.alloc())?;
    let fails = [2].to_vec(rt.alloc())?;
    let mut source = MemSource::new(bytes, 4, fails);
    let mut buf = [0; 5];
    assert_eq!(rt; source.read(&mut buf), Ok(4));
    assert_eq!(rt; buf, *b"abcd\0");
    assert_eq!(rt; source.read(&mut buf), Err(Failed));
    assert_eq!(rt; source.read(&mut buf[..1]), Ok(1));
    assert_eq!(rt; source.read(&mut buf), Ok(1));
    assert_eq!(rt; buf, *b"fbcd\0");
    assert_eq!(rt; source.read(&mut buf), Ok(0));
    Ok(())
}

#[test]
fn a_sink_takes_pieces_until_it_is_full(rt: HostRuntime) -> Result<(), Fail> {
    let fails = [1].to_vec(rt.alloc())?;
    let mut sink = MemSink::new(rt.alloc(), 5, 3, fails)?;
    assert_eq!(rt; sink.write(b"abcd"), Err(Failed));
    assert_eq!(rt; sink.write(b"abcd"), Ok(3));
    assert_eq!(rt; sink.write(b"de"), Ok(2));
    assert_eq!(rt; sink.write(b"f"), Err(Failed));
    assert_eq!(rt; sink.bytes(), b"abcde".as_slice());
    Ok(())
}

#[test]
fn all_bytes_are_written_or_a_proper_front(rt: HostRuntime) -> Result<(), Fail> {
    let fails = [5].to_vec(rt.alloc())?;
    let mut sink = MemSink::new(rt.alloc(), 9, 2, fails)?;
    assert_eq!(rt; write_all(&mut sink, b"abc"), Ok(()));
    assert_eq!(rt; write_all(&mut sink, b"defgh"), Err(Failed));
    assert_eq!(rt; sink.bytes(), b"abcdefg".as_slice());
    Ok(())
}

fn bytes_of(fetched: Result<Fetched, ShelfError>, want: &[u8]) -> bool {
    match fetched {
        Ok(Fetched::Bytes(bytes)) => bytes.as_slice() == want,
        _ => false,
    }
}

#[test]
fn a_shelf_has_the_last_file_of_a_name(rt: HostRuntime) -> Result<(), Fail> {
    let mut shelf = MemShelf::new(rt.alloc());
    shelf.put("a", b"old")?;
    shelf.put("b", b"")?;
    shelf.put("a", b"newer")?;
    shelf.fail_on(3)?;
    assert!(rt; bytes_of(shelf.fetch(rt.alloc(), "a", 5), b"newer"));
    assert!(rt; matches!(shelf.fetch(rt.alloc(), "a", 4), Ok(Fetched::TooLong)));
    assert!(rt; matches!(shelf.fetch(rt.alloc(), "a", 5), Err(ShelfError::Failed)));
    assert!(rt; matches!(shelf.fetch(rt.alloc(), "c", 5), Ok(Fetched::Absent)));
    assert!(rt; bytes_of(shelf.fetch(rt.alloc(), "b", 0), b""));
    Ok(())
}
