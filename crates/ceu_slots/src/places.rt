ghost use Rattle.std.specs.Prelude.{◌≡◌, ◌<◌, ◌≤◌, true, false, IfOk};
ghost use Rattle.ceu_tree.specs.declared.kernel.Kernel.{Kernel};
ghost use Rattle.ceu_tree.specs.Needs.{slots};
ghost use Rattle.ceu_tree.specs.Proper.{Proper};
ghost use Rattle.ceu_slots.specs.Plans.{HasPlaces, Lawful, Planned, planned_of};

use crate::plans::{Layout, layout_of};
use ceu_tree::Kernel;
use std::alloc::{AllocError, Global};

/// Where the slots of a kernel lie: offsets are bytes from the start of the slot's frame. A plan of a kernel fits that kernel, and whatever
/// fits keeps the law: each slot has its size, slots that may live together are disjoint, each lies within its frame or the whole.
pub trait Places {
    ghost fits: { Self → Kernel → Type 0 };

    ghost planned: { Self → Planned };

    fn offset(&self, slot: u32) -> u16
        requires { slot < (planned self.now).slot_count }
        ensures { result ≡ (planned self.now).offset slot };

    fn size(&self, slot: u32) -> u16
        requires { slot < (planned self.now).slot_count }
        ensures { result ≡ (planned self.now).size slot };

    fn frame(&self, code: u32) -> u16
        requires { code < (planned self.now).code_count }
        ensures { result ≡ (planned self.now).frame code };

    fn total(&self) -> u16
        ensures { result ≡ (planned self.now).total };

    ghost lawful: { (p : Self) (K : Kernel) → fits p K → Lawful (planned p) K };
}

/// The layout in which statements of a list, and parts of an `if`, share their bytes.
#[derive(Debug, Drop)]
pub struct OverlapPlaces {
    layout: Layout,
}

impl Places for OverlapPlaces {
    ghost fits = { λ p K. Lawful (planned_of p.layout) K };

    ghost planned = { λ p. planned_of p.layout };

    ghost lawful = { λ p K f. f };

    fn offset(&self, slot: u32) -> u16 {
        self.layout.offset[slot as usize]
    }

    fn size(&self, slot: u32) -> u16 {
        self.layout.size[slot as usize]
    }

    fn frame(&self, code: u32) -> u16 {
        self.layout.frame[code as usize]
    }

    fn total(&self) -> u16 {
        self.layout.total
    }
}

impl OverlapPlaces {
    pub fn plan(alloc: Global, kernel: &Kernel) -> Result<OverlapPlaces, AllocError>
        requires proper { Proper kernel.now }
        requires few { slots false kernel.now ≤ 65535 }
        ensures fits { IfOk result (λ plan. ⟦<OverlapPlaces as Places>⟧.fits plan kernel.now) }
        ensures places { IfOk result (λ plan. HasPlaces false kernel.now (⟦<OverlapPlaces as Places>⟧.planned plan)) }
    {
        let layout = layout_of(alloc, false, kernel)?;
        Ok(OverlapPlaces { layout })
    }
}

/// The layout in which every slot has bytes of its own.
#[derive(Debug, Drop)]
pub struct PlainPlaces {
    layout: Layout,
}

impl Places for PlainPlaces {
    ghost fits = { λ p K. Lawful (planned_of p.layout) K };

    ghost planned = { λ p. planned_of p.layout };

    ghost lawful = { λ p K f. f };

    fn offset(&self, slot: u32) -> u16 {
        self.layout.offset[slot as usize]
    }

    fn size(&self, slot: u32) -> u16 {
        self.layout.size[slot as usize]
    }

    fn frame(&self, code: u32) -> u16 {
        self.layout.frame[code as usize]
    }

    fn total(&self) -> u16 {
        self.layout.total
    }
}

impl PlainPlaces {
    pub fn plan(alloc: Global, kernel: &Kernel) -> Result<PlainPlaces, AllocError>
        requires proper { Proper kernel.now }
        requires few { slots true kernel.now ≤ 65535 }
        ensures fits { IfOk result (λ plan. ⟦<PlainPlaces as Places>⟧.fits plan kernel.now) }
        ensures places { IfOk result (λ plan. HasPlaces true kernel.now (⟦<PlainPlaces as Places>⟧.planned plan)) }
    {
        let layout = layout_of(alloc, true, kernel)?;
        Ok(PlainPlaces { layout })
    }
}
