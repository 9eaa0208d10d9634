use super::*;
use ceu_base::Seq;
use ceu_code::Image;
use std::test::Fail;

#[test]
fn a_memory_has_the_bytes_of_its_image(rt: HostRuntime) -> Result<(), Fail> {
    let alloc = rt.alloc();
    let image = Image {
        turns: 1,
        levels: 0,
        depth: 1,
        gates: 1,
        slots: 0,
        inputs: Seq::new(alloc),
        outputs: Seq::new(alloc),
        codes: Seq::new(alloc),
        pools: Seq::new(alloc),
        places: Seq::new(alloc),
        code: Seq::new(alloc),
    };
    let memory = Memory::new(alloc, &image)?;
    assert_eq!(rt; memory.bytes().len(), 43);
    assert!(rt; memory.bytes().iter().all(|byte| *byte == 0));
    Ok(())
}
