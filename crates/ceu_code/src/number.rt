ghost use Rattle.std.specs.Prelude.{◌≡◌, ◌+◌, ◌*◌, ◌^◌, ◌<◌, ◌≤◌, ◌⊎◌, IfOk, IfErr, IsTrue, ◌↔◌, length};
ghost use Rattle.ceu_code.specs.Reading as spec;
ghost use Rattle.ceu_code.specs.Reading.{HasNumbers, IsBetween, IsIn, Reads, Refused, Words};

use crate::decoding::DecodeError;
use crate::span::Span;

/// No number.
const EMPTY: Span = Span { from: 1, to: 0 };

/// What is left of the span's numbers, divided by 256, where their lowest byte is this one.
fn narrowed(span: Span, byte: u8) -> Span
    ensures value { result ≡ spec.narrowed span byte }
    ensures small { 256 * result.to ≤ span.to }
{
    let byte = u64::from(byte);
    if span.to < byte {
        return EMPTY;
    }
    let from = if span.from <= byte {
        0
    } else {
        (span.from - byte - 1) / 256 + 1
    };
    Span {
        from,
        to: (span.to - byte) / 256,
    }
}

fn have_numbers(low: Span, high: Span) -> bool
    ensures { IsTrue result ↔ (HasNumbers low ⊎ HasNumbers high) }
{
    low.from <= low.to || high.from <= high.to
}

/// Reads a number of so many bytes that lies in one of two spans. The first byte with which no such number begins is refused.
pub fn read_in_spans(
    bytes: &[u8],
    at: usize,
    width: u8,
    low: Span,
    high: Span,
) -> Result<(u64, usize), DecodeError>
    requires inside { at ≤ length bytes.now }
    requires some { HasNumbers low ⊎ HasNumbers high }
    requires low_fits { low.to < 256 ^ width }
    requires high_fits { high.to < 256 ^ width }
    ensures ok { IfOk result (λ r. Reads (IsIn width low high) bytes.now at r.0 r.1) }
    ensures refused { IfErr result (λ e. Refused (Words (IsIn width low high)) bytes.now at e) }
{
    if width == 0 {
        return Ok((0, at));
    }
    if at == bytes.len() {
        return Err(DecodeError::Bad(at));
    }
    let byte = bytes[at];
    let low_rest = narrowed(low, byte);
    let high_rest = narrowed(high, byte);
    if !have_numbers(low_rest, high_rest) {
        return Err(DecodeError::Bad(at));
    }
    let (rest, next) = read_in_spans(bytes, at + 1, width - 1, low_rest, high_rest)?;
    Ok((u64::from(byte) + 256 * rest, next))
}

pub fn read_between(
    bytes: &[u8],
    at: usize,
    width: u8,
    least: u64,
    greatest: u64,
) -> Result<(u64, usize), DecodeError>
    requires inside { at ≤ length bytes.now }
    requires some { least ≤ greatest }
    requires fits { greatest < 256 ^ width }
    ensures ok { IfOk result (λ r. Reads (IsBetween width least greatest) bytes.now at r.0 r.1) }
    ensures refused { IfErr result (λ e. Refused (Words (IsBetween width least greatest)) bytes.now at e) }
{
    read_in_spans(
        bytes,
        at,
        width,
        Span {
            from: least,
            to: greatest,
        },
        EMPTY,
    )
}

/// Reads a byte from one number to another.
pub fn read_byte(
    bytes: &[u8],
    at: usize,
    least: u8,
    greatest: u8,
) -> Result<(u8, usize), DecodeError>
    requires inside { at ≤ length bytes.now }
    requires some { least ≤ greatest }
    ensures ok { IfOk result (λ r. Reads (IsBetween 1 least greatest) bytes.now at r.0 r.1) }
    ensures refused { IfErr result (λ e. Refused (Words (IsBetween 1 least greatest)) bytes.now at e) }
{
    let (number, next) = read_between(bytes, at, 1, u64::from(least), u64::from(greatest))?;
    Ok((number as u8, next))
}

/// Reads two bytes.
pub fn read_half(
    bytes: &[u8],
    at: usize,
    least: u16,
    greatest: u16,
) -> Result<(u16, usize), DecodeError>
    requires inside { at ≤ length bytes.now }
    requires some { least ≤ greatest }
    ensures ok { IfOk result (λ r. Reads (IsBetween 2 least greatest) bytes.now at r.0 r.1) }
    ensures refused { IfErr result (λ e. Refused (Words (IsBetween 2 least greatest)) bytes.now at e) }
{
    let (number, next) = read_between(bytes, at, 2, u64::from(least), u64::from(greatest))?;
    Ok((number as u16, next))
}

/// Reads four bytes, a number of at least 1.
pub fn read_word(bytes: &[u8], at: usize) -> Result<(u32, usize), DecodeError>
    requires inside { at ≤ length bytes.now }
    ensures ok { IfOk result (λ r. Reads (IsBetween 4 1 4294967295) bytes.now at r.0 r.1) }
    ensures refused { IfErr result (λ e. Refused (Words (IsBetween 4 1 4294967295)) bytes.now at e) }
{
    let (number, next) = read_between(bytes, at, 4, 1, 4294967295)?;
    Ok((number as u32, next))
}
