// What crosses the C interface of the static library: the answers as structs of numbers (module `inner` has how each call's answer becomes one), and rows, points and gates
// out of slices and numbers.
#![tactic(auto)]

pub mod inner;

// An answer by numbers; all zeros beside a refusal.
#[repr(C)]
#[derive(Clone, Copy)]
pub struct Reply {
    pub refusal: u32,
    pub kind: u32,
    pub a: u32,
    pub b: u32,
}

// A completion by numbers; all zeros beside a refusal.
#[repr(C)]
#[derive(Clone, Copy)]
pub struct ResidualReply {
    pub refusal: u32,
    pub kind: u32,
    pub gate: u32,
    pub a: u32,
    pub b: u32,
}

// A word; 0 beside a refusal.
#[repr(C)]
#[derive(Clone, Copy)]
pub struct WordReply {
    pub refusal: u32,
    pub word: u64,
}

// A cost; zeros beside a refusal.
#[repr(C)]
#[derive(Clone, Copy)]
pub struct CostReply {
    pub refusal: u32,
    pub size: u32,
    pub products: u32,
    pub depth: u32,
}

// A row; zeros beside a refusal.
#[repr(C)]
#[derive(Clone, Copy)]
pub struct RowReply {
    pub refusal: u32,
    pub row: [u64; 16],
}

// A point's six words.
#[repr(C)]
#[derive(Clone, Copy)]
pub struct PointWords {
    pub words: [u64; 6],
}

// Sixteen points; zeros beside a refusal.
#[repr(C)]
#[derive(Clone, Copy)]
pub struct PointsReply {
    pub refusal: u32,
    pub points: [PointWords; 16],
}

// A state of splitmix64, and the word that it gave.
#[repr(C)]
#[derive(Clone, Copy)]
pub struct DrawReply {
    pub state: u64,
    pub word: u64,
}

// A token: its opcode, 255 for what is none, and its operand.
#[repr(C)]
#[derive(Clone, Copy)]
pub struct TokenReply {
    pub opcode: u32,
    pub operand: u64,
}

// The length of a text; 0 beside a refusal.
#[repr(C)]
#[derive(Clone, Copy)]
pub struct TextReply {
    pub refusal: u32,
    pub length: usize,
}

// How many tokens were drawn, and the state handed on; no token and the state as it was beside a refusal.
#[repr(C)]
#[derive(Clone, Copy)]
pub struct FormulaReply {
    pub refusal: u32,
    pub count: usize,
    pub state: u64,
}

// The state after a run's records; as it was beside a refusal.
#[repr(C)]
#[derive(Clone, Copy)]
pub struct RuleReply {
    pub refusal: u32,
    pub state: u64,
}

// The closing log of a station's soundings: whether one is open (0 for no, any other number for yes), the rank that closed it (0 for none), the number of its last record, the number of the record
// that closed it (0 for none), how many later records had a firing, and what each rule's window has seen.
#[repr(C)]
#[derive(Clone, Copy)]
pub struct LogState {
    pub open: u32,
    pub rank: u32,
    pub number: u64,
    pub closed_at: u64,
    pub later: u64,
    pub windows: [u64; 8],
}

// The log after a run's records, `open` 0 or 1; as it was beside a refusal, bit for bit.
#[repr(C)]
#[derive(Clone, Copy)]
pub struct LogReply {
    pub refusal: u32,
    pub log: LogState,
}
