ghost use Rattle.std.specs.Prelude.{◌≡◌, ◌≤◌, IfOk, IfErr, length, slice_range};
ghost use Rattle.std.specs.Str.{IsAscii};
ghost use Rattle.ceu_code.specs.Spelling as spelling;
ghost use Rattle.ceu_code.specs.Table.{type_at};
ghost use Rattle.ceu_code.specs.Reading.{Counted, IsNameOf, IsNameRest, Items, Reads, Refused, Spelled, Unique, Words};

use crate::decoding::DecodeError;
use crate::image::CodeRow;
use crate::number::{read_byte, read_half, read_word};
use ceu_base::{Name, Port, Pos, Seq, Ty};
use std::alloc::{AllocError, Global};

/// What is read by itself.
pub trait Parse: Sized {
    ghost use Rattle.std.specs.Prelude.{◌≤◌, IfOk, IfErr, List, ℕ, length};
    ghost use Rattle.ceu_code.specs.Reading.{Reads, Refused, Spelled, Words};

    /// Which values have bytes.
    ghost valid: { Self → Type 0 };

    /// Their bytes.
    ghost spelled: { Self → List ℕ };

    fn read(alloc: Global, bytes: &[u8], at: usize) -> Result<(Self, usize), DecodeError>
        requires { at ≤ length bytes.now }
        ensures ok { IfOk result (λ r. Reads (Spelled valid spelled) bytes.now at r.0 r.1) }
        ensures refused { IfErr result (λ e. Refused (Words (Spelled valid spelled)) bytes.now at e) };
}

impl Parse for u16 {
    ghost use Rattle.std.specs.Prelude.{◌^◌, ◌<◌};
    ghost use Rattle.ceu_code.specs.Spelling.{half};

    ghost valid = { λ n. n < 2 ^ 16 };

    ghost spelled = { half };

    fn read(_alloc: Global, bytes: &[u8], at: usize) -> Result<(u16, usize), DecodeError> {
        read_half(bytes, at, 0, 65535)
    }
}

/// The type of a number.
pub fn type_of(number: u8) -> Ty
    ensures { result ≡ type_at number }
{
    match number {
        0 => Ty::None,
        1 => Ty::Bool,
        2 => Ty::U8,
        3 => Ty::S8,
        4 => Ty::U16,
        5 => Ty::S16,
        6 => Ty::U32,
        7 => Ty::S32,
        8 => Ty::U64,
        _ => Ty::S64,
    }
}

impl Parse for Ty {
    ghost use Rattle.std.specs.Prelude.{◌≢◌, ◌∷◌, []};
    ghost use Rattle.ceu_base.specs.declared.kinds.Ty.TheVariants as ty;
    ghost use Rattle.ceu_code.specs.Table.{type_byte};

    ghost valid = { λ t. t ≢ ty.None };

    ghost spelled = { λ t. type_byte t ∷ [] };

    fn read(_alloc: Global, bytes: &[u8], at: usize) -> Result<(Ty, usize), DecodeError> {
        let (number, next) = read_byte(bytes, at, 1, 9)?;
        Ok((type_of(number), next))
    }
}

impl Parse for Pos {
    ghost use Rattle.ceu_code.specs.Spelling.{IsPlace, position};

    ghost valid = { IsPlace };

    ghost spelled = { position };

    fn read(_alloc: Global, bytes: &[u8], at: usize) -> Result<(Pos, usize), DecodeError> {
        let (line, behind) = read_word(bytes, at)?;
        let (col, next) = read_word(bytes, behind)?;
        Ok((Pos { line, col }, next))
    }
}

/// Reads so many items.
pub fn read_items<T: Parse + Drop>(
    alloc: Global,
    bytes: &[u8],
    at: usize,
    count: u16,
) -> Result<(Seq<T>, usize), DecodeError>
    requires inside { at ≤ length bytes.now }
    requires unique { Unique (Spelled T.valid T.spelled) }
    ensures ok { IfOk result (λ r. Reads (Items T.valid T.spelled count) bytes.now at r.0 r.1) }
    ensures refused { IfErr result (λ e. Refused (Words (Items T.valid T.spelled count)) bytes.now at e) }
{
    let mut items = Seq::new(alloc);
    let mut next = at;
    for _ in 0..count {
        let (item, behind) = T::read(alloc, bytes, next)?;
        items.push(item)?;
        next = behind;
    }
    Ok((items, next))
}

/// Reads a count, and so many items.
pub fn read_counted<T: Parse + Drop>(
    alloc: Global,
    bytes: &[u8],
    at: usize,
    least: u16,
) -> Result<(Seq<T>, usize), DecodeError>
    requires inside { at ≤ length bytes.now }
    requires unique { Unique (Spelled T.valid T.spelled) }
    requires some { (v : T) × T.valid v }
    ensures ok { IfOk result (λ r. Reads (Counted T.valid T.spelled least) bytes.now at r.0 r.1) }
    ensures refused { IfErr result (λ e. Refused (Words (Counted T.valid T.spelled least)) bytes.now at e) }
{
    let (count, behind) = read_half(bytes, at, least, 65535)?;
    let (items, next) = read_items(alloc, bytes, behind, count)?;
    Ok((items, next))
}

impl Parse for CodeRow {
    ghost use Rattle.ceu_code.specs.Spelling.{IsCodeRow, code_row};

    ghost valid = { IsCodeRow };

    ghost spelled = { code_row };

    fn read(alloc: Global, bytes: &[u8], at: usize) -> Result<(CodeRow, usize), DecodeError> {
        let (entry, at_frame) = read_half(bytes, at, 0, 65535)?;
        let (frame, at_gates) = read_half(bytes, at_frame, 0, 65535)?;
        let (gates, at_count) = read_half(bytes, at_gates, 0, 65535)?;
        let (count, at_params) = read_byte(bytes, at_count, 0, 255)?;
        let (params, next) = read_items(alloc, bytes, at_params, u16::from(count))?;
        let row = CodeRow {
            entry,
            frame,
            gates,
            params,
        };
        Ok((row, next))
    }
}

fn is_capital(byte: u8) -> bool
    ensures { result ≡ spelling.is_capital byte }
{
    byte >= 65 && byte <= 90
}

fn is_name_byte(byte: u8) -> bool
    ensures { result ≡ spelling.is_name_byte byte }
{
    is_capital(byte) || byte >= 48 && byte <= 57 || byte == 95
}

/// Reads so many capitals, digits and underscores.
fn read_name_bytes(bytes: &[u8], at: usize, count: u8) -> Result<usize, DecodeError>
    requires { at ≤ length bytes.now }
    ensures ok { IfOk result (λ next. Reads (IsNameRest count) bytes.now at (slice_range bytes.now at next) next) }
    ensures refused { IfErr result (λ e. Refused (Words (IsNameRest count)) bytes.now at e) }
{
    if count == 0 {
        return Ok(at);
    }
    if at == bytes.len() {
        return Err(DecodeError::Bad(at));
    }
    if !is_name_byte(bytes[at]) {
        return Err(DecodeError::Bad(at));
    }
    read_name_bytes(bytes, at + 1, count - 1)
}

/// Reads a capital, and so many capitals, digits and underscores.
fn read_name(bytes: &[u8], at: usize, behind: u8) -> Result<usize, DecodeError>
    requires { at ≤ length bytes.now }
    ensures ok { IfOk result (λ next. Reads (IsNameOf behind) bytes.now at (slice_range bytes.now at next) next) }
    ensures refused { IfErr result (λ e. Refused (Words (IsNameOf behind)) bytes.now at e) }
{
    if at == bytes.len() {
        return Err(DecodeError::Bad(at));
    }
    if !is_capital(bytes[at]) {
        return Err(DecodeError::Bad(at));
    }
    read_name_bytes(bytes, at + 1, behind)
}

/// The name that these bytes are.
fn name_of(alloc: Global, bytes: &[u8]) -> Result<Name, AllocError>
    requires { IsAscii bytes.now }
    ensures { IfOk result (λ name. name ≡ bytes.now) }
{
    match str::from_utf8(bytes) {
        Ok(text) => Name::new(alloc, text),
        Err(_) => unreachable!(),
    }
}

impl Parse for Port {
    ghost use Rattle.ceu_code.specs.Spelling.{IsPort, port};

    ghost valid = { IsPort };

    ghost spelled = { port };

    fn read(alloc: Global, bytes: &[u8], at: usize) -> Result<(Port, usize), DecodeError> {
        let (number, at_length) = read_byte(bytes, at, 0, 9)?;
        let (length, at_name) = read_byte(bytes, at_length, 1, 64)?;
        let next = read_name(bytes, at_name, length - 1)?;
        let name = name_of(alloc, &bytes[at_name..next])?;
        let ty = type_of(number);
        Ok((Port { ty, name }, next))
    }
}
