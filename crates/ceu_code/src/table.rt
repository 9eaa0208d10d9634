/// What may stand behind an opcode: a type, one that may be `none`, a number of a prefix or binary operator or of a unit, 0 to 2,
/// a number of two or of four bytes, a type with a value of it in eight bytes, or nothing.
#[derive(Clone, Copy, Debug, PartialEq, Eq)]
pub enum Operand {
    Nothing,
    Typed,
    AnyType,
    Prefix,
    Binary,
    Unit,
    Open,
    Half,
    Word,
    Constant,
}

use Operand::{AnyType, Binary, Constant, Half, Nothing, Open, Prefix, Typed, Unit, Word};

/// The operands of an instruction, with nothing behind the last.
#[derive(Clone, Copy, Debug)]
pub struct Row {
    pub first: Operand,
    pub second: Operand,
    pub third: Operand,
    pub fourth: Operand,
    pub fifth: Operand,
}

const NONE: Row = Row {
    first: Nothing,
    second: Nothing,
    third: Nothing,
    fourth: Nothing,
    fifth: Nothing,
};

const TYPE: Row = Row {
    first: Typed,
    second: Nothing,
    third: Nothing,
    fourth: Nothing,
    fifth: Nothing,
};

const TYPE_HALF: Row = Row {
    first: Typed,
    second: Half,
    third: Nothing,
    fourth: Nothing,
    fifth: Nothing,
};

const HALF: Row = Row {
    first: Half,
    second: Nothing,
    third: Nothing,
    fourth: Nothing,
    fifth: Nothing,
};

const HALF_TYPE: Row = Row {
    first: Half,
    second: AnyType,
    third: Nothing,
    fourth: Nothing,
    fifth: Nothing,
};

const HALVES: Row = Row {
    first: Half,
    second: Half,
    third: Nothing,
    fourth: Nothing,
    fifth: Nothing,
};

const THREE_HALVES: Row = Row {
    first: Half,
    second: Half,
    third: Half,
    fourth: Nothing,
    fifth: Nothing,
};

/// By opcode, 0 to 38, the operands. No instruction has the opcode 0 or 15.
pub const TABLE: [Option<Row>; 39] = [
    None,
    Some(Row {
        first: Constant,
        second: Nothing,
        third: Nothing,
        fourth: Nothing,
        fifth: Nothing,
    }),
    Some(TYPE_HALF),
    Some(TYPE_HALF),
    Some(TYPE_HALF),
    Some(TYPE_HALF),
    Some(Row {
        first: Prefix,
        second: Typed,
        third: Half,
        fourth: Nothing,
        fifth: Nothing,
    }),
    Some(Row {
        first: Binary,
        second: Typed,
        third: Half,
        fourth: Nothing,
        fifth: Nothing,
    }),
    Some(Row {
        first: Typed,
        second: Typed,
        third: Nothing,
        fourth: Nothing,
        fifth: Nothing,
    }),
    Some(HALF),
    Some(HALF),
    Some(TYPE),
    Some(NONE),
    Some(HALF_TYPE),
    Some(NONE),
    None,
    Some(HALF),
    Some(Row {
        first: Unit,
        second: Nothing,
        third: Nothing,
        fourth: Nothing,
        fifth: Nothing,
    }),
    Some(HALF),
    Some(NONE),
    Some(NONE),
    Some(NONE),
    Some(NONE),
    Some(HALF_TYPE),
    Some(HALVES),
    Some(HALF),
    Some(NONE),
    Some(HALVES),
    Some(THREE_HALVES),
    Some(NONE),
    Some(THREE_HALVES),
    Some(NONE),
    Some(Row {
        first: Half,
        second: Half,
        third: Half,
        fourth: Half,
        fifth: Nothing,
    }),
    Some(Row {
        first: Half,
        second: Half,
        third: Half,
        fourth: Half,
        fifth: Half,
    }),
    Some(HALF),
    Some(HALF),
    Some(Row {
        first: Half,
        second: Open,
        third: Nothing,
        fourth: Nothing,
        fifth: Nothing,
    }),
    Some(THREE_HALVES),
    Some(Row {
        first: Half,
        second: Word,
        third: Half,
        fourth: Nothing,
        fifth: Nothing,
    }),
];
