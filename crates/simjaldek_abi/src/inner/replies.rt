// The calls' answers as replies: an enum's case as a number beside its values; rows, points and tokens by their words. A refusal has zeros beside it.
ghost use Rattle.std.specs.Prelude.{◌≡◌, map};
ghost use Rattle.limits.specs.Refusal.{says, says_by};
ghost use Rattle.row_gates.specs.Gates.{gate_at};
ghost use Rattle.rule_run.specs.Window.{replied};
ghost use Rattle.bank_lookup.specs.Lookup.{slot_number};
ghost use Rattle.search_candidates.specs.Candidates.{counted};
ghost use Rattle.search_product_trial.specs.Stages.{found_says};
ghost use Rattle.search_residual_trial.specs.Steps.{found_says as completion_says};
ghost use Rattle.simjaldek_abi.specs.Slices.{row_in, two_short, gate_refusal};
ghost use Rattle.simjaldek_abi.specs.Reply.{refused_reply, reply, mark_of, number_reply, index_reply, product_reply, refused_residual, completed, residual_reply, option_reply, match_reply, word_reply, cost_reply, row_reply, refused_row, point_words, gate_call, or_else, token_parts, token_reply, formula_reply, rule_reply, log_of, log_state};

use crate::inner::slices;
use crate::{
    CostReply, FormulaReply, LogState, PointWords, Reply, ResidualReply, RowReply, RuleReply,
    TokenReply, WordReply,
};
use expr::Token;
use expr_cost::Cost;
use index::BuiltIndex;
use limits::Refusal;
use load_draw::DrawnFormula;
use log_run::{Log, Shown};
use probe_points::{POINT_WORDS, POINTS, Point};
use row_gates::{Gate, ROW_WORDS};
use row_lent::AtomSlot;
use rule_run::RuleState;
use search_product_trial::inner::Found;
use search_residual_trial::inner::Found as Completion;

// A reply that is only a refusal, by the number that C knows.
pub fn refused(refusal: u32) -> Reply
    ensures { result ≡ refused_reply refusal }
{
    Reply {
        refusal,
        kind: 0,
        a: 0,
        b: 0,
    }
}

// A reply that is no refusal.
pub fn answer(kind: u32, a: u32, b: u32) -> Reply
    ensures { result ≡ reply kind a b }
{
    Reply {
        refusal: 0,
        kind,
        a,
        b,
    }
}

// Kind 0 nothing, 1 two atoms, 2 an atom and a pair.
pub fn of_product(x: Result<Option<Found>, Refusal>) -> Reply
    ensures { result ≡ product_reply (says_by found_says x) }
{
    match x {
        Ok(Some(Found::Atoms(a, b))) => answer(1, a.0, b.0),
        Ok(Some(Found::AtomPair(a, s))) => answer(2, a.0, s.0),
        Ok(None) => answer(0, 0, 0),
        Err(refusal) => refused(u32::from(refusal)),
    }
}

// A completion's reply that is only a refusal.
pub fn refused_residual(refusal: u32) -> ResidualReply
    ensures { result ≡ refused_residual refusal }
{
    ResidualReply {
        refusal,
        kind: 0,
        gate: 0,
        a: 0,
        b: 0,
    }
}

// A completion's reply that is no refusal.
pub fn completion(kind: u32, gate: u32, a: u32, b: u32) -> ResidualReply
    ensures { result ≡ completed kind gate a b }
{
    ResidualReply {
        refusal: 0,
        kind,
        gate,
        a,
        b,
    }
}

// Kind 0 nothing, 1 two atoms, 2 an atom and a pair; the outer gate by its number.
pub fn of_residual(x: Result<Option<Completion>, Refusal>) -> ResidualReply
    ensures { result ≡ residual_reply (says_by completion_says x) }
{
    match x {
        Ok(Some(Completion::Atoms(g, a, b))) => completion(1, u32::from(g), a.0, b.0),
        Ok(Some(Completion::AtomPair(g, a, s))) => completion(2, u32::from(g), a.0, s.0),
        Ok(None) => completion(0, 0, 0, 0),
        Err(refusal) => refused_residual(u32::from(refusal)),
    }
}

// Kind 1 with the slot, 0 none.
pub fn of_slot(x: Result<Option<AtomSlot>, Refusal>) -> Reply
    ensures { result ≡ option_reply (says_by slot_number x) }
{
    match x {
        Ok(Some(slot)) => answer(1, slot.0, 0),
        Ok(None) => answer(0, 0, 0),
        Err(refusal) => refused(u32::from(refusal)),
    }
}

// A number: the count of atoms, or where a row begins.
pub fn of_number(x: Result<u32, Refusal>) -> Reply
    ensures { result ≡ number_reply (says x) }
{
    match x {
        Ok(count) => answer(0, count, 0),
        Err(refusal) => refused(u32::from(refusal)),
    }
}

// 1 for true, 0 for false.
pub fn mark_of(mark: bool) -> u32
    ensures { result ≡ mark_of mark }
{
    u32::from(mark)
}

// The count of pairs, and the mark "cut".
pub fn of_index(x: Result<BuiltIndex, Refusal>) -> Reply
    ensures { result ≡ index_reply (says x) }
{
    match x {
        Ok(index) => answer(0, index.pairs, mark_of(index.cut)),
        Err(reason) => refused(u32::from(reason)),
    }
}

// Kind 1 with the count of candidates, 0 "not used".
pub fn of_candidates(x: Result<Option<u32>, Refusal>) -> Reply
    ensures { result ≡ option_reply (says_by counted x) }
{
    match x {
        Ok(Some(count)) => answer(1, count, 0),
        Ok(None) => answer(0, 0, 0),
        Err(refusal) => refused(u32::from(refusal)),
    }
}

// Kind 1 the same, 0 different.
pub fn of_match(x: Result<bool, Refusal>) -> Reply
    ensures { result ≡ match_reply (says x) }
{
    match x {
        Ok(true) => answer(1, 0, 0),
        Ok(false) => answer(0, 0, 0),
        Err(refusal) => refused(u32::from(refusal)),
    }
}

pub fn of_value(x: Result<u64, Refusal>) -> WordReply
    ensures { result ≡ word_reply (says x) }
{
    match x {
        Ok(word) => WordReply { refusal: 0, word },
        Err(refusal) => WordReply {
            refusal: u32::from(refusal),
            word: 0,
        },
    }
}

pub fn of_cost(x: Result<Cost, Refusal>) -> CostReply
    ensures { result ≡ cost_reply (says x) }
{
    match x {
        Ok(cost) => CostReply {
            refusal: 0,
            size: cost.size,
            products: cost.products,
            depth: cost.depth,
        },
        Err(refusal) => CostReply {
            refusal: u32::from(refusal),
            size: 0,
            products: 0,
            depth: 0,
        },
    }
}

// Beside a refusal the state that was lent.
pub fn of_rule(x: Result<RuleState, Refusal>, lent: u64) -> RuleReply
    ensures { result ≡ rule_reply (replied (record { past = lent }) x) }
{
    match x {
        Ok(state) => RuleReply {
            refusal: 0,
            state: state.past,
        },
        Err(refusal) => RuleReply {
            refusal: u32::from(refusal),
            state: lent,
        },
    }
}

pub fn of_row(x: Result<[u64; 16], Refusal>) -> RowReply
    ensures { result ≡ row_reply (says x) }
{
    match x {
        Ok(row) => RowReply { refusal: 0, row },
        Err(refusal) => refused_row(u32::from(refusal)),
    }
}

// A row of zeros beside a refusal.
pub fn refused_row(refusal: u32) -> RowReply
    ensures { result ≡ refused_row refusal }
{
    let row = [0u64; ROW_WORDS];
    RowReply { refusal, row }
}

pub fn of_points(made: [Point; 16]) -> [PointWords; 16]
    ensures { result ≡ map point_words made }
{
    let mut points = [PointWords {
        words: [0; POINT_WORDS],
    }; POINTS];
    for k in 0..POINTS {
        points[k] = PointWords {
            words: made[k].words,
        };
    }
    points
}

fn token(opcode: u8, operand: u64) -> TokenReply
    ensures { result ≡ token_parts opcode operand }
{
    TokenReply {
        opcode: opcode as u32,
        operand,
    }
}

pub fn of_token(t: Token) -> TokenReply
    ensures { result ≡ token_reply t }
{
    match t {
        Token::Constant(k) => token(0, k),
        Token::Variable(i) => token(1, i),
        Token::Binary(g) => token(bank_atom::inner::gate_opcode(g), 0),
        Token::Not => token(7, 0),
        Token::Neg => token(8, 0),
        Token::Bad => token(255, 0),
    }
}

// How many tokens were drawn, and the state handed on; no token and the state as it was lent beside a refusal.
pub fn of_formula(x: Result<DrawnFormula, Refusal>, lent: u64) -> FormulaReply
    ensures { result ≡ formula_reply lent (says x) }
{
    match x {
        Ok(drawn) => FormulaReply {
            refusal: 0,
            count: drawn.count,
            state: drawn.state,
        },
        Err(refusal) => FormulaReply {
            refusal: u32::from(refusal),
            count: 0,
            state: lent,
        },
    }
}

// A log out of its numbers: one is open where `open` isn't 0.
pub fn log_of(log: LogState) -> Log
    ensures { result ≡ log_of log }
{
    let windows = log.windows;
    Log {
        begun: log.open != 0,
        shown: Shown {
            number: log.number,
            close: log.closed_at,
            rank: log.rank,
            later: log.later,
        },
        windows,
    }
}

// A log by its numbers: `open` is 1 or 0.
pub fn log_state(log: Log) -> LogState
    ensures { result ≡ log_state log }
{
    let shown = log.shown;
    let windows = log.windows;
    LogState {
        open: mark_of(log.begun),
        rank: shown.rank,
        number: shown.number,
        closed_at: shown.close,
        later: shown.later,
        windows,
    }
}

// The gate with number g on two rows, or, where `undo` is set, the row that completes b to the target a under it. Refuses 2, 4, and 6 for a number above 4.
pub fn of_gate(undo: bool, a: &[u64], b: &[u64], g: u32, w: u32) -> RowReply
    ensures { result ≡ row_reply (or_else (gate_refusal w (two_short a.now b.now) g) (gate_call undo (gate_at g) w (row_in a.now) (row_in b.now))) }
{
    // no `?` in a function of its own: a row in two results, one in the other, is copied twice more
    let gate = match slices::gate_in(w, slices::two_short(a, b), g) {
        Ok(gate) => gate,
        Err(refusal) => return refused_row(u32::from(refusal)),
    };
    let left = row_lent::inner::load_row(a, 0);
    let right = row_lent::inner::load_row(b, 0);
    if undo {
        return of_row(row_gates::gate_residual(left, right, gate, w));
    }
    of_row(row_gates::gate_apply(left, right, gate, w))
}
