ghost use Rattle.std.specs.Prelude.{◌≡◌, ◌≤◌, ◌<◌, ◌+◌, ◌*◌, ◌^◌, length, replicate, IfOk};
ghost use Rattle.ceu_base.specs.Values.{IsValue};
ghost use Rattle.ceu_mem.specs.Bytes.{number_at, with_number};
ghost use Rattle.ceu_mem.specs.Memory as spec;
ghost use Rattle.ceu_mem.specs.Memory.{gate_at, with_gate, value_at, with_value};

use crate::gate::Gate;
use crate::numbers::{number, set_number};
use ceu_base::Ty;
use ceu_code::{Image, memory_size};
use std::alloc::{AllocError, Global};
use std::marker::Model;

/// The bytes of a machine. Contracts see them, and where the gates begin.
#[derive(Drop)]
pub struct Memory {
    bytes: Vec<u8>,
    first_gate: u32,
}

impl Model for Memory {
    ghost use Rattle.ceu_mem.specs.Memory.{Space};

    ghost Value = { Space };

    ghost view = { λ m. record { bytes = m.bytes.items; gates_at = m.first_gate } };
}

/// How many bytes a value has.
pub fn size(ty: Ty) -> u8
    ensures value { result ≡ spec.size ty }
    ensures small { result ≤ 8 }
{
    match ty {
        Ty::None => 0,
        Ty::Bool | Ty::U8 | Ty::S8 => 1,
        Ty::U16 | Ty::S16 => 2,
        Ty::U32 | Ty::S32 => 4,
        Ty::U64 | Ty::S64 => 8,
    }
}

/// What is added at least for a negative number: 2 to the width, where the bits are those of one.
pub fn with_sign(ty: Ty, bits: u64) -> i128
    ensures { result ≡ spec.with_sign ty bits }
{
    let bits = i128::from(bits);
    match ty {
        Ty::S8 => { if bits < 0x80 { bits } else { bits - 0x100 } }
        Ty::S16 => { if bits < 0x8000 { bits } else { bits - 0x1_0000 } }
        Ty::S32 => {
            if bits < 0x8000_0000 {
                bits
            } else {
                bits - 0x1_0000_0000
            }
        }
        Ty::S64 => {
            if bits < 0x8000_0000_0000_0000 {
                bits
            } else {
                bits - 0x1_0000_0000_0000_0000
            }
        }
        Ty::None | Ty::Bool | Ty::U8 | Ty::U16 | Ty::U32 | Ty::U64 => bits,
    }
}

impl Memory {
    /// The memory of a machine that hasn't begun.
    pub fn new(alloc: Global, image: &Image) -> Result<Memory, AllocError>
        ensures zeros { IfOk result (λ m. m.bytes ≡ replicate (16 + 8 * image.now.depth + 19 * image.now.gates + image.now.slots) 0) }
        ensures gates { IfOk result (λ m. m.gates_at ≡ 16 + 8 * image.now.depth) }
    {
        let depth = image.depth;
        let bytes = vec![in alloc; 0; memory_size(image) as usize]?;
        Ok(Memory {
            bytes,
            first_gate: 16 + 8 * depth as u32,
        })
    }

    pub fn bytes(&self) -> &[u8]
        ensures { result.now ≡ self.now.bytes }
    {
        self.bytes.as_slice()
    }

    /// The number that the bytes at a place hold in a type.
    pub fn get(&self, ty: Ty, at: u32) -> i128
        requires { at + spec.size ty ≤ length self.now.bytes }
        ensures { result ≡ value_at ty self.now.bytes at }
    {
        with_sign(ty, number(self.bytes.as_slice(), at as usize, size(ty)))
    }

    /// Writes a value of a type at a place.
    pub fn put(&mut self, ty: Ty, at: u32, v: i128)
        requires within { at + spec.size ty ≤ length self.old.bytes }
        requires value { IsValue ty v }
        ensures bytes { self.new.bytes ≡ with_value ty v self.old.bytes at }
        ensures gates { self.new.gates_at ≡ self.old.gates_at }
    {
        let bits = v.rem_euclid(0x1_0000_0000_0000_0000) as u64;
        set_number(self.bytes.as_mut_slice(), at as usize, size(ty), bits);
    }

    /// The number of so many bytes at a place, at most 8.
    pub fn number(&self, width: u8, at: u32) -> u64
        requires narrow { width ≤ 8 }
        requires within { at + width ≤ length self.now.bytes }
        ensures value { result ≡ number_at width self.now.bytes at }
        ensures below { result < 256 ^ width }
    {
        number(self.bytes.as_slice(), at as usize, width)
    }

    /// Writes a number into so many bytes at a place; what is over is dropped.
    pub fn set_number(&mut self, width: u8, at: u32, n: u64)
        requires { at + width ≤ length self.old.bytes }
        ensures bytes { self.new.bytes ≡ with_number width n self.old.bytes at }
        ensures gates { self.new.gates_at ≡ self.old.gates_at }
    {
        set_number(self.bytes.as_mut_slice(), at as usize, width, n);
    }

    pub fn gate(&self, g: u16) -> Gate
        requires { self.now.gates_at + 19 * g + 19 ≤ length self.now.bytes }
        ensures value { result ≡ gate_at self.now.gates_at self.now.bytes g }
        ensures fits { spec.IsGate result }
    {
        let bytes = self.bytes.as_slice();
        let at = self.first_gate as usize + 19 * g as usize;
        Gate {
            kind: number(bytes, at, 1) as u8,
            level: number(bytes, at + 1, 2) as u16,
            code: number(bytes, at + 3, 2) as u16,
            frame: number(bytes, at + 5, 2) as u16,
            base: number(bytes, at + 7, 2) as u16,
            key: number(bytes, at + 9, 2) as u16,
            value: number(bytes, at + 11, 8),
        }
    }

    pub fn set_gate(&mut self, g: u16, r: Gate)
        requires { self.old.gates_at + 19 * g + 19 ≤ length self.old.bytes }
        ensures bytes { self.new.bytes ≡ with_gate self.old.gates_at r self.old.bytes g }
        ensures gates { self.new.gates_at ≡ self.old.gates_at }
    {
        let at = self.first_gate as usize + 19 * g as usize;
        write_gate(self.bytes.as_mut_slice(), at, r);
    }
}

fn write_gate(bytes: &mut [u8], at: usize, r: Gate)
    requires { at + 19 ≤ length bytes.old }
    ensures { bytes.new ≡ spec.with_gate_fields r bytes.old at }
{
    set_number(bytes, at, 1, u64::from(r.kind));
    set_number(bytes, at + 1, 2, u64::from(r.level));
    set_number(bytes, at + 3, 2, u64::from(r.code));
    set_number(bytes, at + 5, 2, u64::from(r.frame));
    set_number(bytes, at + 7, 2, u64::from(r.base));
    set_number(bytes, at + 9, 2, u64::from(r.key));
    set_number(bytes, at + 11, 8, r.value);
}
