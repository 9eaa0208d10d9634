ghost use Rattle.std.specs.Prelude.{◌<◌};

use super::*;
use ceu_base::Seq;
use std::alloc::Global;
use std::test::Fail;

#[test]
fn the_smallest_image_is_spelled_by_its_numbers(rt: HostRuntime) -> Result<(), Fail> {
    let alloc = rt.alloc();
    let image = Image {
        turns: 1,
        levels: 0,
        depth: 1,
        gates: 1,
        slots: 0,
        inputs: Seq::new(alloc),
        outputs: Seq::new(alloc),
        codes: Seq::new(alloc),
        pools: Seq::new(alloc),
        places: Seq::new(alloc),
        code: Seq::new(alloc),
    };
    let bytes = encode(alloc, &image)?;
    let expected: &[u8] =
        b"CEU\x01\x01\x00\x00\x00\x00\x00\x01\x00\x01\x00\x00\x00\x00\x00\x00\x00\x00\x00\x00\x00\x00\x00";
    assert_eq!(rt; bytes.items(), expected);
    assert_eq!(rt; memory_size(&image), 43);
    assert_eq!(rt; copy_ports(alloc, &image.inputs)?.items().len(), 0);
    Ok(())
}

/// An image without ports, whose code pushes 1, sets the value and ends.
const ONE: &[u8; 38] =
    b"CEU\x01\x01\x00\x00\x00\x00\x00\x01\x00\x01\x00\x00\x00\x00\x00\x00\x00\x00\x00\x00\x00\x0c\x00\x01\x07\x01\x00\x00\x00\x00\x00\x00\x00\x0c\x0e";

/// Where the bytes are refused.
fn refused_at(alloc: Global, bytes: &[u8]) -> Option<usize> {
    match decode(alloc, bytes) {
        Err(DecodeError::Bad(end)) => Some(end),
        Err(DecodeError::Memory) => None,
        Ok(_) => None,
    }
}

#[test]
fn an_image_is_read_back_from_its_bytes(rt: HostRuntime) -> Result<(), Fail> {
    let alloc = rt.alloc();
    let image = decode(alloc, ONE)?;
    assert_eq!(rt; image.turns, 1);
    assert_eq!(rt; image.code.items().len(), 12);
    let again = encode(alloc, &image)?;
    assert_eq!(rt; again.items(), ONE.as_slice());
    Ok(())
}

#[test]
fn bytes_that_spell_no_image_are_refused_behind_their_longest_beginning(rt: HostRuntime) {
    let alloc = rt.alloc();
    for end in 0..38 {
        assert_eq!(rt; refused_at(alloc, &ONE[..end]), Some(end));
    }
    let mut more = [0u8; 39];
    for (i, byte) in ONE.iter().enumerate() {
        more[i] = *byte;
    }
    assert_eq!(rt; refused_at(alloc, &more), Some(38));
}

/// The bytes with another byte at a place.
fn with_byte(at: usize, byte: u8) -> [u8; 38]
    requires { at < 38 }
{
    let mut bytes = *ONE;
    bytes[at] = byte;
    bytes
}

#[test]
fn a_wrong_byte_is_refused_where_it_stands(rt: HostRuntime) {
    let alloc = rt.alloc();
    // Version 2 without pools, more gates than 3,000, no value of the type u8, and an instruction that doesn't fit.
    assert_eq!(rt; refused_at(alloc, &with_byte(3, 2)), Some(23));
    assert_eq!(rt; refused_at(alloc, &with_byte(13, 12)), Some(13));
    let mut byte_of_256 = with_byte(27, 2);
    byte_of_256[29] = 1;
    assert_eq!(rt; refused_at(alloc, &byte_of_256), Some(29));
    assert_eq!(rt; refused_at(alloc, &with_byte(24, 9)), Some(26));
    // A name is a capital first.
    assert_eq!(rt;
        refused_at(
            alloc,
            b"CEU\x01\x01\x00\x00\x00\x00\x00\x01\x00\x01\x00\x00\x00\x01\x00\x07\x01o"
        ),
        Some(20)
    );
}
