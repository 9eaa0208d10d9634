// The token at the front of a text.
ghost use Rattle.std.specs.Prelude.{◌≡◌, ◌≤◌, ◌<◌, ◌+◌, ◌*◌, ◌^◌, length, map, take, drop, slice_index, IfOk, true, nat_lt};
ghost use Rattle.std.specs.List.{list_any, list_all};
ghost use Rattle.std.specs.Prelude.{◌⊎◌};
ghost use Rattle.std.specs.Char.{is_ascii_lowercase, is_ascii_hexdigit};
ghost use Rattle.ceu_lex.specs.Bytes.{is_word_byte};
ghost use Rattle.ceu_lex.specs.Lexemes as spec;

use crate::times::time;
use crate::token::{RESERVED, SYMBOLS, Sym, TokenKind, Word};
use ceu_base::Rule;

fn is_word_byte(b: u8) -> bool
    ensures { result ≡ is_word_byte b }
{
    b.is_ascii_alphanumeric() || b == b'_'
}

// How many letters, digits and `_` stand at the front.
fn word_len(bytes: &[u8]) -> usize
    ensures value { result ≡ spec.word_len bytes.now }
    ensures within { result ≤ length bytes.now }
{
    let mut len = 0;
    while len < bytes.len() && is_word_byte(bytes[len]) {
        len += 1;
    }
    len
}

fn word_in(mut table: &[(&[u8], Word)], text: &[u8]) -> Option<Word>
    ensures { result ≡ spec.word_in (map (λ e. (e.0.now, e.1)) table.entry.now) text.now }
{
    while let [entry, rest @ ..] = table {
        if entry.0 == text {
            return Some(entry.1);
        }
        table = rest;
    }
    None
}

#[tactic(auto, unfolding(crate::specs::Lexemes::reserved, crate::specs::Tables::reserved_words))]
fn reserved(text: &[u8]) -> Option<Word>
    ensures { result ≡ spec.reserved text.now }
{
    word_in(&RESERVED, text)
}

fn has_lowercase(text: &[u8]) -> bool
    ensures { result ≡ list_any (λ b. is_ascii_lowercase b) text.now }
{
    text.iter().any(|b| b.is_ascii_lowercase())
}

fn name_kind(text: &[u8]) -> TokenKind
    requires { 0 < length text.now }
    ensures { result ≡ spec.name_kind text.now }
{
    if !text[0].is_ascii_uppercase() {
        TokenKind::Lower
    } else if has_lowercase(text) {
        TokenKind::Abs
    } else {
        TokenKind::Ext
    }
}

#[tactic(auto, unfolding(crate::specs::Lexemes::word))]
fn word(bytes: &[u8]) -> Result<(TokenKind, usize), Rule>
    requires { is_word_byte (slice_index bytes.now 0) ≡ true }
    ensures value { result ≡ spec.word bytes.now }
    ensures within { IfOk result (λ found. (1 ≤ found.1) × (found.1 ≤ length bytes.now)) }
{
    let len = word_len(bytes);
    let text = &bytes[..len];
    if len > 64 {
        return Err(Rule::L5);
    }
    match reserved(text) {
        Some(word) => Ok((TokenKind::Reserved(word), len)),
        None => Ok((name_kind(text), len)),
    }
}

#[tactic(auto, unfolding(crate::specs::Lexemes::underscore))]
fn underscore(bytes: &[u8]) -> Result<(TokenKind, usize), Rule>
    requires { is_word_byte (slice_index bytes.now 0) ≡ true }
    ensures value { result ≡ spec.underscore bytes.now }
    ensures within { IfOk result (λ found. (1 ≤ found.1) × (found.1 ≤ length bytes.now)) }
{
    if word_len(bytes) == 1 {
        Ok((TokenKind::Under, 1))
    } else {
        Err(Rule::L1)
    }
}

fn symbol_in(mut table: &[(&[u8], Sym)], bytes: &[u8]) -> Result<(TokenKind, usize), Rule>
    requires { list_all (λ e. nat_lt 0 (length e.0.now)) table.now ≡ true }
    ensures value { result ≡ spec.symbol_in (map (λ e. (e.0.now, e.1)) table.entry.now) bytes.now }
    ensures within { IfOk result (λ found. (1 ≤ found.1) × (found.1 ≤ length bytes.now)) }
{
    while let [entry, rest @ ..] = table {
        if bytes.starts_with(entry.0) {
            return Ok((TokenKind::Symbol(entry.1), entry.0.len()));
        }
        table = rest;
    }
    Err(Rule::L1)
}

#[tactic(auto, unfolding(crate::specs::Lexemes::symbol, crate::specs::Tables::symbols))]
fn symbol(bytes: &[u8]) -> Result<(TokenKind, usize), Rule>
    requires { 0 < length bytes.now }
    ensures value { result ≡ spec.symbol bytes.now }
    ensures within { IfOk result (λ found. (1 ≤ found.1) × (found.1 ≤ length bytes.now)) }
{
    symbol_in(&SYMBOLS, bytes)
}

// ---- numbers

pub fn digit(b: u8) -> u64
    requires { is_ascii_hexdigit b ≡ true }
    ensures value { result ≡ spec.digit b }
    ensures small { result < 16 }
{
    if b.is_ascii_digit() {
        u64::from(b - b'0')
    } else if b.is_ascii_lowercase() {
        u64::from(b - b'a') + 10
    } else {
        u64::from(b - b'A') + 10
    }
}

fn all_digits(text: &[u8]) -> bool
    ensures { result ≡ spec.all_digits text.now }
{
    text.iter().all(|b| b.is_ascii_digit())
}

fn all_hex_digits(text: &[u8]) -> bool
    ensures { result ≡ spec.all_hex_digits text.now }
{
    text.iter().all(|b| b.is_ascii_hexdigit())
}

// What the digits stand for, where 64 bits hold it.
fn number_in(base: u64, mut text: &[u8]) -> Result<TokenKind, Rule>
    requires base { (1 ≤ base) × (base < 2 ^ 64) }
    requires digits { spec.all_hex_digits text.now ≡ true }
    ensures { result ≡ spec.within_u64 (spec.value base 0 text.entry.now) }
{
    let mut high: u64 = 0;
    while let [b, rest @ ..] = text {
        let Some(shifted) = high.checked_mul(base) else {
            return Err(Rule::L3);
        };
        let Some(next) = shifted.checked_add(digit(*b)) else {
            return Err(Rule::L3);
        };
        high = next;
        text = rest;
    }
    Ok(TokenKind::Number(high))
}

fn is_hex(text: &[u8]) -> bool
    ensures value { result ≡ spec.is_hex text.now }
    ensures digits { result ≡ true → (2 < length text.now) × (spec.all_hex_digits (drop 2 text.now) ≡ true) }
{
    text.len() > 2
        && text[0] == b'0'
        && (text[1] == b'x' || text[1] == b'X')
        && all_hex_digits(&text[2..])
}

/// A run of letters, digits and `_` that begins with a digit, as a number or a time.
#[tactic(auto, unfolding(crate::specs::Lexemes::literal))]
pub fn literal(text: &[u8]) -> Result<TokenKind, Rule>
    ensures { result ≡ spec.literal text.now }
{
    if all_digits(text) {
        number_in(10, text)
    } else if is_hex(text) {
        number_in(16, &text[2..])
    } else {
        time(text)
    }
}

#[tactic(auto, unfolding(crate::specs::Lexemes::number))]
fn number(bytes: &[u8]) -> Result<(TokenKind, usize), Rule>
    requires { is_word_byte (slice_index bytes.now 0) ≡ true }
    ensures value { result ≡ spec.number bytes.now }
    ensures within { IfOk result (λ found. (1 ≤ found.1) × (found.1 ≤ length bytes.now)) }
{
    let len = word_len(bytes);
    let kind = literal(&bytes[..len])?;
    Ok((kind, len))
}

/// The longest token at the front, with its length, or the rule that is broken there.
#[tactic(auto, unfolding(crate::specs::Lexemes::lexeme))]
pub fn lexeme(bytes: &[u8]) -> Result<(TokenKind, usize), Rule>
    requires { 0 < length bytes.now }
    ensures value { result ≡ spec.lexeme bytes.now }
    ensures within { IfOk result (λ found. (1 ≤ found.1) × (found.1 ≤ length bytes.now)) }
{
    let b = bytes[0];
    if b.is_ascii_alphabetic() {
        word(bytes)
    } else if b == b'_' {
        underscore(bytes)
    } else if b.is_ascii_digit() {
        number(bytes)
    } else {
        symbol(bytes)
    }
}
