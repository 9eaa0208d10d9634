// The command of a line.
ghost use Rattle.std.specs.Prelude.{◌≡◌, ◌<◌, ◌≤◌, length, IfOk};
ghost use Rattle.ceu_script.specs.Commands.{IsCommand};
ghost use Rattle.ceu_script.specs.Content.{first_word, after_word, word_len};
ghost use Rattle.ceu_script.specs.Shapes as spec;

use crate::BadKind;
use crate::content::{is_blank, leading_blanks};
use ceu_base::{Port, Rule, Seq, Ty, is_value};
use ceu_lex::{TokenKind, literal};
use ceu_tree::Command;

fn word_length(text: &[u8]) -> usize
    ensures value { result ≡ word_len text.now }
    ensures within { result ≤ length text.now }
{
    text.iter().take_while(|b| !is_blank(**b)).count()
}

// The first word, and what follows it.
fn split_word(text: &[u8]) -> (&[u8], &[u8])
    ensures first { result.0.now ≡ first_word text.now }
    ensures after { result.1.now ≡ after_word text.now }
{
    let text = &text[leading_blanks(text)..];
    text.split_at(word_length(text))
}

fn all_digits(text: &[u8]) -> bool
    ensures { result ≡ spec.all_digits text.now }
{
    text.iter().all(|b| b.is_ascii_digit())
}

fn number_of(token: Result<TokenKind, Rule>) -> Option<u64>
    ensures { result ≡ spec.number_of token }
{
    match token {
        Ok(TokenKind::Number(n)) => Some(n),
        _ => None,
    }
}

// Decimal digits, for a number that 64 bits hold.
fn natural(text: &[u8]) -> Option<u64>
    ensures { result ≡ spec.natural text.now }
{
    if text.len() > 0 && all_digits(text) {
        number_of(literal(text))
    } else {
        None
    }
}

fn number(text: &[u8]) -> Option<i128>
    ensures { result ≡ spec.number text.now }
{
    match text {
        [b'-', digits @ ..] => natural(digits).map(|n| -i128::from(n)),
        _ => natural(text).map(i128::from),
    }
}

// The value that a word gives an input of a type; no word is the empty one.
fn value(ty: Ty, word: &[u8]) -> Option<i128>
    ensures { result ≡ spec.value ty word.now }
{
    match ty {
        Ty::None => if word.is_empty() { Some(0) } else { None },
        Ty::Bool => truth(word),
        _ => number(word).filter(|v| is_value(ty, *v)),
    }
}

fn truth(word: &[u8]) -> Option<i128>
    ensures { result ≡ spec.truth word.now }
{
    if word == b"true".as_slice() {
        Some(1)
    } else if word == b"false".as_slice() {
        Some(0)
    } else {
        None
    }
}

fn is_event_byte(byte: u8) -> bool
    ensures { result ≡ spec.is_event_byte byte }
{
    byte.is_ascii_uppercase() || byte.is_ascii_digit() || byte == b'_'
}

fn all_event_bytes(name: &[u8]) -> bool
    ensures { result ≡ spec.all_event_bytes name.now }
{
    name.iter().all(|b| is_event_byte(*b))
}

fn is_event_name(name: &[u8]) -> bool
    ensures { result ≡ spec.is_event_name name.now }
{
    name.len() > 0 && name[0].is_ascii_uppercase() && all_event_bytes(name)
}

// The number of the input with that name.
fn input_named(name: &[u8], inputs: &[Port]) -> Option<usize>
    ensures { result ≡ spec.input_named name.now inputs.now }
{
    inputs
        .iter()
        .position(|port| port.name.text().as_bytes() == name)
}

fn type_at(inputs: &[Port], event: usize) -> Ty
    requires { event < length inputs.now }
    ensures { result ≡ spec.type_at inputs.now event }
{
    inputs[event].ty
}

fn advance(word: &[u8]) -> Result<Command, BadKind>
    ensures { result ≡ spec.advance word.now }
{
    match literal(word) {
        Ok(TokenKind::Time(us)) => Ok(Command::Advance(us)),
        _ => Err(BadKind::Time),
    }
}

fn idle(word: &[u8]) -> Result<Command, BadKind>
    ensures { result ≡ spec.idle word.now }
{
    if word.is_empty() {
        return Ok(Command::Idle(1));
    }
    match number(word) {
        Some(turns) if 1 <= turns && turns <= 0xffff_ffff => Ok(Command::Idle(turns as u32)),
        _ => Err(BadKind::Value),
    }
}

fn input(name: &[u8], word: &[u8], inputs: &[Port]) -> Result<Command, BadKind>
    requires { length inputs.now ≤ 65535 }
    ensures { result ≡ spec.input name.now word.now inputs.now }
{
    let Some(event) = input_named(name, inputs) else {
        return Err(BadKind::Unknown);
    };
    match value(type_at(inputs, event), word) {
        Some(v) => Ok(Command::Input(event as u16, v)),
        None => Err(BadKind::Value),
    }
}

// The command of one or two words; no second word is the empty one.
fn of_words(first: &[u8], second: &[u8], inputs: &[Port]) -> Result<Command, BadKind>
    requires { length inputs.now ≤ 65535 }
    ensures { result ≡ spec.of_words first.now second.now inputs.now }
{
    if let [b'+', time @ ..] = first {
        return if second.is_empty() && !time.is_empty() {
            advance(time)
        } else {
            Err(BadKind::Form)
        };
    }
    if first == b"idle".as_slice() {
        return idle(second);
    }
    if is_event_name(first) {
        input(first, second, inputs)
    } else {
        Err(BadKind::Form)
    }
}

/// The command of a line's bytes, for a program with these inputs; or the first cause that holds.
#[tactic(auto, unfolding(crate::specs::Shapes::command_of))]
pub fn command_of(text: &[u8], inputs: &Seq<Port>) -> Result<Command, BadKind>
    requires { length inputs.now ≤ 65535 }
    ensures command { result ≡ spec.command_of text.now inputs.now }
    ensures allowed { IfOk result (IsCommand inputs.now) }
{
    let (first, rest) = split_word(text);
    let (second, rest) = split_word(rest);
    if leading_blanks(rest) < rest.len() {
        return Err(BadKind::Form);
    }
    of_words(first, second, inputs.items())
}
