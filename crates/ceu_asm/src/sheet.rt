ghost use Rattle.std.specs.Prelude.{◌≡◌, ◌+◌, ◌<◌, ◌≤◌, [], ◌∷◌, ◌++◌, OnOk, OnErr, IfOk, Some, length, slice_get};
ghost use Rattle.ceu_asm.specs.Lines as spec;
ghost use Rattle.ceu_asm.specs.Lines.{code_size, offset_of};
ghost use Rattle.ceu_asm.specs.Places as places;
ghost use Rattle.ceu_asm.specs.Places.{with_place};

use crate::line::Line;
use ceu_base::{Pos, Seq};
use ceu_code::size_of_instruction;
use std::alloc::{AllocError, Global};
use std::marker::Model;

/// Lines that are added one after the other, the labels that they may name, and the positions that they may name by number.
/// Contracts see it as its lines, the number of labels that were given, and its list of positions.
#[derive(Drop)]
pub struct Sheet {
    lines: Seq<Line>,
    given: u32,
    places: Seq<Pos>,
}

impl Model for Sheet {
    ghost use Rattle.ceu_asm.specs.Pages.{Page};

    ghost Value = { Page };

    ghost view = { λ s. record { lines = s.lines; labels = s.given; places = s.places } };
}

impl Sheet {
    pub fn new(alloc: Global) -> Sheet
        ensures { result ≡ record { lines = []; labels = 0; places = [] } }
    {
        Sheet {
            lines: Seq::new(alloc),
            given: 0,
            places: Seq::new(alloc),
        }
    }

    pub fn lines(&self) -> &[Line]
        ensures { result.now ≡ self.now.lines }
    {
        self.lines.items()
    }

    /// Puts a line at the end.
    pub fn add(&mut self, line: Line) -> Result<(), AllocError>
        ensures ok { OnOk result (self.new ≡ record self.old { lines = self.old.lines ++ line ∷ [] }) }
        ensures err { OnErr result (self.new ≡ self.old) }
    {
        self.lines.push(line)?;
        Ok(())
    }

    /// A label that this sheet hasn't given before: they are numbered in the order in which they are given.
    pub fn label(&mut self) -> u32
        requires { self.old.labels < 4294967295 }
        ensures fresh { result ≡ self.old.labels }
        ensures given { self.new ≡ record self.old { labels = self.old.labels + 1 } }
    {
        let label = self.given;
        self.given += 1;
        label
    }

    /// The number of a position in the list of positions. It is put at the list's end where it isn't there. Linear in the list.
    pub fn place(&mut self, pos: Pos) -> Result<u16, AllocError>
        requires { length self.old.places < 65535 }
        ensures number { IfOk result (λ n. n ≡ places.number_of pos self.old.places) }
        ensures there { IfOk result (λ n. slice_get self.new.places n ≡ Some pos) }
        ensures ok { OnOk result (self.new ≡ record self.old { places = with_place pos self.old.places }) }
        ensures err { OnErr result (self.new ≡ self.old) }
    {
        let number = find(self.places.items(), pos);
        if number == self.places.items().len() {
            self.places.push(pos)?;
        }
        Ok(number as u16)
    }

    /// The list of positions.
    pub fn places(&self) -> &Seq<Pos>
        ensures { result.now ≡ self.now.places }
    {
        &self.places
    }

    /// The code offset at which a label stands.
    pub fn offset(&self, label: u32) -> u16
        requires marked { spec.marks label self.now.lines ≡ 1 }
        requires fits { code_size self.now.lines ≤ 65535 }
        ensures { result ≡ offset_of label self.now.lines }
    {
        find_mark(self.lines.items(), label)
    }
}

/// How many positions stand before the first that is equal to this one.
fn find(list: &[Pos], pos: Pos) -> usize
    ensures value { result ≡ places.number_of pos list.now }
    ensures within { result ≤ length list.now }
{
    let mut before: usize = 0;
    for place in list {
        if *place == pos {
            return before;
        }
        before += 1;
    }
    before
}

/// How many bytes a line becomes.
pub(crate) fn size_of_line(line: &Line) -> u16
    ensures value { result ≡ spec.line_size line.now }
    ensures small { result ≤ 11 }
{
    match *line {
        Line::Mark(_) => 0,
        Line::Plain(instr) => size_of_instruction(instr),
        Line::Jump(instr, _) => size_of_instruction(instr),
    }
}

fn is_mark(line: &Line, label: u32) -> bool
    ensures { result ≡ spec.is_mark label line.now }
{
    match *line {
        Line::Mark(marked) => marked == label,
        Line::Plain(_) => false,
        Line::Jump(..) => false,
    }
}

fn find_mark(lines: &[Line], label: u32) -> u16
    requires { code_size lines.now ≤ 65535 }
    ensures { result ≡ offset_of label lines.now }
{
    let mut at: u16 = 0;
    for line in lines {
        if is_mark(line, label) {
            return at;
        }
        at += size_of_line(line);
    }
    at
}
