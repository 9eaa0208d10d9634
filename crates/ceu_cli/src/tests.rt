// The adapter over a file, and the line on standard error.
use crate::adapters::FileShelf;
use crate::faults::fault_line;
use ceu_io::{Fetched, Shelf};
use ceu_top::Status;
use std::fs;
use std::test::Fail;

#[test]
fn a_file_is_fetched_up_to_its_limit(rt: HostRuntime) -> Result<(), Fail> {
    let name = "ceu_cli_adapter_test.txt";
    fs::write(&rt, name, "emit O(1);")?;
    let mut shelf = FileShelf::new(&rt);
    let whole = match shelf.fetch(rt.alloc(), name, 10) {
        Ok(Fetched::Bytes(bytes)) => bytes.as_slice() == b"emit O(1);".as_slice(),
        _ => false,
    };
    let over = matches!(shelf.fetch(rt.alloc(), name, 9), Ok(Fetched::TooLong));
    fs::remove_file(&rt, name)?;
    let gone = matches!(shelf.fetch(rt.alloc(), name, 10), Ok(Fetched::Absent));
    assert_eq!(rt; (whole, over, gone), (true, true, true));
    Ok(())
}

#[test]
fn the_line_names_the_status(rt: HostRuntime) {
    assert_eq!(rt; fault_line(Status::Absent), "ceu: Absent");
    assert_eq!(rt; fault_line(Status::Done), "");
}
