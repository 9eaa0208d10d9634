use super::*;
use ceu_base::Seq;
use std::test::Fail;

#[test]
fn no_timer_waits_in_a_new_memory(rt: HostRuntime) -> Result<(), Fail> {
    let alloc = rt.alloc();
    let image = Image {
        turns: 1,
        levels: 0,
        depth: 1,
        gates: 1,
        slots: 0,
        inputs: Seq::new(alloc),
        outputs: Seq::new(alloc),
        codes: Seq::new(alloc),
        pools: Seq::new(alloc),
        places: Seq::new(alloc),
        code: Seq::new(alloc),
    };
    let memory = Memory::new(alloc, &image)?;
    assert_eq!(rt; least(&memory, &image), None);
    Ok(())
}
