ghost use Rattle.std.specs.Prelude.{◌≡◌, ◌≤◌, ◌⊎◌, IfOk, IfErr, length};
ghost use Rattle.ceu_code.specs.Decoding as spec;
ghost use Rattle.ceu_code.specs.Decoding.{IsCause, IsHead, IsImage, IsLists, IsNumbers, IsPools};
ghost use Rattle.ceu_code.specs.Spelling.{Spells};
ghost use Rattle.ceu_code.specs.Reading.{Reads, Refused, Words};

use crate::code::read_code;
use crate::decoding::DecodeError;
use crate::image::{CodeRow, Image};
use crate::number::{read_byte, read_half, read_word};
use crate::row::read_counted;
use ceu_base::{Port, Pos, Seq};
use std::alloc::{AllocError, Global};

/// The numbers of an image.
#[derive(Clone, Copy, Debug)]
pub struct Numbers {
    pub turns: u32,
    pub levels: u16,
    pub depth: u16,
    pub gates: u16,
    pub slots: u16,
}

/// The lists of an image.
#[derive(Drop)]
pub struct Lists {
    pub inputs: Seq<Port>,
    pub outputs: Seq<Port>,
    pub codes: Seq<CodeRow>,
    pub pools: Seq<u16>,
    pub places: Seq<Pos>,
}

/// Reads the letters CEU and a version.
fn read_head(bytes: &[u8]) -> Result<(u8, usize), DecodeError>
    ensures ok { IfOk result (λ r. Reads IsHead bytes.now 0 r.0 r.1) }
    ensures refused { IfErr result (λ e. Refused (Words IsHead) bytes.now 0 e) }
{
    let (_c, at_e) = read_byte(bytes, 0, 67, 67)?;
    let (_e, at_u) = read_byte(bytes, at_e, 69, 69)?;
    let (_u, at_version) = read_byte(bytes, at_u, 85, 85)?;
    let (version, next) = read_byte(bytes, at_version, 1, 2)?;
    Ok((version, next))
}

/// The greatest number of gates that fit beside so many evaluation cells, at most 3,000.
fn most_gates(depth: u16) -> u16
    requires { depth ≤ 8187 }
    ensures { result ≡ spec.most_gates depth }
{
    ((65519 - 8 * u32::from(depth)) / 19).min(3000) as u16
}

/// The greatest number of bytes of frames that fit beside so many cells and gates.
fn most_slots(depth: u16, gates: u16) -> u16
    requires some { depth ≤ 8187 }
    requires fits { gates ≤ spec.most_gates depth }
    ensures { result ≡ spec.most_slots depth gates }
{
    (65519 - 8 * u32::from(depth) - 19 * u32::from(gates)) as u16
}

fn read_numbers(bytes: &[u8], at: usize) -> Result<(Numbers, usize), DecodeError>
    requires { at ≤ length bytes.now }
    ensures ok { IfOk result (λ r. Reads IsNumbers bytes.now at r.0 r.1) }
    ensures refused { IfErr result (λ e. Refused (Words IsNumbers) bytes.now at e) }
{
    let (turns, at_levels) = read_word(bytes, at)?;
    let (levels, at_depth) = read_half(bytes, at_levels, 0, 65535)?;
    let (depth, at_gates) = read_half(bytes, at_depth, 1, 8187)?;
    let (gates, at_slots) = read_half(bytes, at_gates, 1, most_gates(depth))?;
    let (slots, next) = read_half(bytes, at_slots, 0, most_slots(depth, gates))?;
    Ok((
        Numbers {
            turns,
            levels,
            depth,
            gates,
            slots,
        },
        next,
    ))
}

/// Reads the list of pools, which version 1 doesn't have.
fn read_pools(
    alloc: Global,
    bytes: &[u8],
    at: usize,
    version: u8,
) -> Result<(Seq<u16>, usize), DecodeError>
    requires inside { at ≤ length bytes.now }
    requires known { (version ≡ 1) ⊎ (version ≡ 2) }
    ensures ok { IfOk result (λ r. Reads (IsPools version) bytes.now at r.0 r.1) }
    ensures refused { IfErr result (λ e. Refused (Words (IsPools version)) bytes.now at e) }
{
    if version == 1 {
        return Ok((Seq::new(alloc), at));
    }
    read_counted(alloc, bytes, at, 1)
}

fn read_lists(
    alloc: Global,
    bytes: &[u8],
    at: usize,
    version: u8,
) -> Result<(Lists, usize), DecodeError>
    requires inside { at ≤ length bytes.now }
    requires known { (version ≡ 1) ⊎ (version ≡ 2) }
    ensures ok { IfOk result (λ r. Reads (IsLists version) bytes.now at r.0 r.1) }
    ensures refused { IfErr result (λ e. Refused (Words (IsLists version)) bytes.now at e) }
{
    let (inputs, at_outputs) = read_counted(alloc, bytes, at, 0)?;
    let (outputs, at_codes) = read_counted(alloc, bytes, at_outputs, 0)?;
    let (codes, at_pools) = read_counted(alloc, bytes, at_codes, 0)?;
    let (pools, at_places) = read_pools(alloc, bytes, at_pools, version)?;
    let (places, next) = read_counted(alloc, bytes, at_places, 0)?;
    Ok((
        Lists {
            inputs,
            outputs,
            codes,
            pools,
            places,
        },
        next,
    ))
}

/// An equal list of bytes.
fn copy_bytes(alloc: Global, bytes: &[u8]) -> Result<Seq<u8>, AllocError>
    ensures { IfOk result (λ copy. copy ≡ bytes.now) }
{
    let mut copy = Seq::new(alloc);
    for byte in bytes {
        copy.push(*byte)?;
    }
    Ok(copy)
}

/// Reads an image at the begin of the bytes.
fn read_image(alloc: Global, bytes: &[u8]) -> Result<(Image, usize), DecodeError>
    ensures ok { IfOk result (λ r. Reads IsImage bytes.now 0 r.0 r.1) }
    ensures refused { IfErr result (λ e. Refused (Words IsImage) bytes.now 0 e) }
{
    let (version, at_numbers) = read_head(bytes)?;
    let (numbers, at_lists) = read_numbers(bytes, at_numbers)?;
    let (lists, at_count) = read_lists(alloc, bytes, at_lists, version)?;
    let (count, at_code) = read_half(bytes, at_count, 0, 65535)?;
    let next = read_code(bytes, at_code, count)?;
    let code = copy_bytes(alloc, &bytes[at_code..next])?;
    Ok((image_of(numbers, lists, code), next))
}

fn image_of(numbers: Numbers, lists: Lists, code: Seq<u8>) -> Image
    ensures { result ≡ spec.image_of numbers lists code }
{
    let Numbers {
        turns,
        levels,
        depth,
        gates,
        slots,
    } = numbers;
    let Lists {
        inputs,
        outputs,
        codes,
        pools,
        places,
    } = lists;
    Image {
        turns,
        levels,
        depth,
        gates,
        slots,
        inputs,
        outputs,
        codes,
        pools,
        places,
        code,
    }
}

/// The image that the bytes spell.
pub fn decode(alloc: Global, bytes: &[u8]) -> Result<Image, DecodeError>
    ensures ok { IfOk result (λ image. Spells image bytes.now) }
    ensures bad { IfErr result (λ e. IsCause bytes.now e) }
{
    let (image, next) = read_image(alloc, bytes)?;
    if next < bytes.len() {
        return Err(DecodeError::Bad(next));
    }
    Ok(image)
}
