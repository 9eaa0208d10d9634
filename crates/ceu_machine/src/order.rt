// The order of gates: of two, the one with the older instance goes first, else the one with the lower number.
ghost use Rattle.std.specs.Prelude.{◌≡◌, ◌≤◌, ◌<◌, ◌+◌, IsSome, IfSome, Some, if◌then◌else◌, List, ℕ};
ghost use Rattle.ceu_isa.specs.Layout.{end_of, gate_of};
ghost use Rattle.ceu_isa.specs.Pools.{outer_frame};
ghost use Rattle.ceu_isa.specs.Order as spec;
ghost use Rattle.ceu_isa.specs.Order.{chain};
ghost use Rattle.ceu_machine.specs.Holding.{IsMachine};
ghost use Rattle.ceu_machine.specs.Ordering.{by_last};

use crate::gates::gate;
use ceu_code::Image;
use ceu_mem::Memory;

/// Where a frame's link leads, and the last instance that was walked past.
#[derive(Clone, Copy)]
struct Outer {
    frame: u16,
    last: Option<u16>,
}

fn outwards(image: &Image, mem: &Memory, frame: u16, last: Option<u16>) -> Outer
    requires made { IsMachine image.now mem.now }
    requires within { frame + 8 ≤ end_of image.now }
    ensures frame { result.frame ≡ outer_frame mem.now.bytes frame }
    ensures last { result.last ≡ (if spec.is_instance mem.now.bytes frame then Some frame else last) }
{
    let _slots = image.slots;
    let back = mem.number(2, u32::from(frame));
    let outer = mem.number(2, u32::from(frame) + 2) as u16;
    if back == 65535 {
        return Outer {
            frame: outer,
            last: Some(frame),
        };
    }
    Outer { frame: outer, last }
}

/// Whether the older of two instances is the first, where both are of one pool.
fn older(image: &Image, mem: &Memory, f: u16, g: u16, lower: bool) -> bool
    requires made { IsMachine image.now mem.now }
    requires first { (9 ≤ f) × (f + 8 ≤ end_of image.now) }
    requires second { (9 ≤ g) × (g + 8 ≤ end_of image.now) }
    ensures { result ≡ spec.older mem.now.bytes f g lower }
{
    let _slots = image.slots;
    let f = u32::from(f);
    let g = u32::from(g);
    let one_pool = mem.number(2, f - 2) == mem.number(2, g - 2);
    let one_frame = mem.number(2, f + 2) == mem.number(2, g + 2);
    let first = mem.number(4, f - 8);
    let second = mem.number(4, g - 8);
    if one_pool && one_frame && first != second {
        return first < second;
    }
    lower
}

fn decide(image: &Image, mem: &Memory, f: Option<u16>, g: Option<u16>, lower: bool) -> bool
    requires made { IsMachine image.now mem.now }
    requires first { IfSome f (λ f. (9 ≤ f) × (f + 8 ≤ end_of image.now)) }
    requires second { IfSome g (λ g. (9 ≤ g) × (g + 8 ≤ end_of image.now)) }
    ensures { result ≡ by_last mem.now.bytes f g lower }
{
    match (f, g) {
        (Some(f), Some(g)) => older(image, mem, f, g, lower),
        _ => lower,
    }
}

/// Whether a frame's chain of instances comes before another's, with the answer where they don't tell.
fn earlier(image: &Image, mem: &Memory, f: u16, g: u16, lower: bool) -> bool
    requires made { IsMachine image.now mem.now }
    requires first { IsSome (chain image.now mem.now.bytes f) }
    requires second { IsSome (chain image.now mem.now.bytes g) }
    ensures { (xs ys : List ℕ) → chain image.now mem.now.bytes f ≡ Some xs → chain image.now mem.now.bytes g ≡ Some ys → result ≡ spec.earlier mem.now.bytes xs ys lower }
{
    let mut a = f;
    let mut b = g;
    let mut p = None;
    let mut q = None;
    while a != b {
        if b < a {
            let next = outwards(image, mem, a, p);
            a = next.frame;
            p = next.last;
        } else {
            let next = outwards(image, mem, b, q);
            b = next.frame;
            q = next.last;
        }
    }
    decide(image, mem, p, q, lower)
}

/// Whether a gate goes before another.
#[tactic(auto, unfolding(ceu_isa::specs::Order::before))]
pub fn before(image: &Image, mem: &Memory, g: u16, h: u16) -> bool
    requires made { IsMachine image.now mem.now }
    requires first { (g < image.now.gates) × IsSome (chain image.now mem.now.bytes (gate_of image.now mem.now.bytes g).frame) }
    requires second { (h < image.now.gates) × IsSome (chain image.now mem.now.bytes (gate_of image.now mem.now.bytes h).frame) }
    ensures { result ≡ spec.before image.now mem.now.bytes g h }
{
    let first = gate(image, mem, g);
    let second = gate(image, mem, h);
    earlier(image, mem, first.frame, second.frame, g < h)
}
