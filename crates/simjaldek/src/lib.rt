// The static library for Rust and C callers: public calls, each under a name of its own, over numbers and slices.
// A refusal is a number of 01's table, 0 for none; a row is the first sixteen words of its slice, and a shorter slice is refused 4.
#![tactic(auto)]

ghost use Rattle.std.specs.Prelude.{◌≡◌, ◌+◌, ◌-◌, ◌*◌, ◌%◌, ◌^◌};
ghost use Rattle.arith.specs.Word.{modulus, not_of, neg_of, sub_of};
ghost use Rattle.arith.specs.Cong.{Inverse};
ghost use Rattle.limits.specs.Refusal.{refuse, outcome, says, says_by};
ghost use Rattle.row_gates.specs.Gates.{gate_at, applied, residual, matched};
ghost use Rattle.expr.specs.Formula.{token_at, tokens, is_formula};
ghost use Rattle.expr_eval.specs.Answers.{evaluated};
ghost use Rattle.expr_cost.specs.Answers.{costed};
ghost use Rattle.expr_cost.specs.Cost.{is_better};
ghost use Rattle.load_draw.specs.Draw.{called};
ghost use Rattle.rule_run.specs.Window.{ran};
ghost use Rattle.log_rules.specs.Rules.{rules_in};
ghost use Rattle.log_run.specs.Step.{opened, logged};
ghost use Rattle.probe_points.specs.Points.{drawn, made_points};
ghost use Rattle.probe.specs.FormulaRow.{probed};
ghost use Rattle.row_fingerprint.specs.Fingerprint.{fingerprint_of};
ghost use Rattle.bank_parts.specs.Parts.{arrays};
ghost use Rattle.bank_lookup.specs.Lookup.{found, slot_number, hand_refusal};
ghost use Rattle.index.specs.Build.{arrays_of};
ghost use Rattle.search_product_forms.specs.Written.{forms};
ghost use Rattle.search_product.specs.Answer.{product};
ghost use Rattle.search_product_trial.specs.Stages.{found_says as product_says};
ghost use Rattle.search_residual.specs.Answer.{completion};
ghost use Rattle.search_residual_trial.specs.Steps.{found_says as completion_says};
ghost use Rattle.simjaldek_abi.specs.Slices.{row_in, short_row, row_refusal, points_in, points_refusal, two_short, three_short, gate_refusal};
ghost use Rattle.simjaldek_abi.specs.Reply.{or_else, row_reply, word_reply, cost_reply, points_reply, draw_reply, cost_from, mark_of, match_reply, option_reply, number_reply, product_reply, residual_reply, token_reply, formula_reply, rule_reply, log_of, log_state, log_reply};
ghost use Rattle.simjaldek.specs.Beside.{Indexed, Listed, BankReplied, Texted};

use bank_parts::LentBank;
use bank_unary::Setting;
use expr_cost::Cost;
use limits::Refusal;
use log_rules::LentRules;
use log_run::Shown;
use row_lent::AtomSlot;
use rule_run::{LentRule, Records, RuleState};
use search_product_forms::inner::LentForms;
use search_product_trial::inner::Search;
use simjaldek_abi::inner::{replies, slices};
use simjaldek_abi::{
    CostReply, DrawReply, FormulaReply, LogReply, LogState, PointsReply, Reply, ResidualReply,
    RowReply, RuleReply, TextReply, TokenReply, WordReply,
};

// `search_product::product_search`: kind 0 nothing, 1 the atoms a and b, 2 the atom a and the pair b, the cheapest product. Refuses 2, 4, 5, 6, 7, 8.
#[unsafe(no_mangle)]
pub extern "C" fn simjaldek_product_search(
    w: u32,
    atom_count: usize,
    atom_lengths: &[u32],
    atom_ops: &[u8],
    atom_operands: &[u64],
    atom_rows: &[u64],
    pair_count: usize,
    pairs: &[u32],
    pair_rows: &[u64],
    order: &[u32],
    target: &[u64],
) -> Reply
    ensures { result ≡ product_reply (or_else (row_refusal w target.now) (product w atom_count atom_rows.now pair_count pair_rows.now order.now (row_in target.now) (forms atom_lengths.now atom_ops.now atom_operands.now pairs.now))) }
{
    replies::of_product(product_of(
        w,
        atom_count,
        atom_lengths,
        atom_ops,
        atom_operands,
        atom_rows,
        pair_count,
        pairs,
        pair_rows,
        order,
        target,
    ))
}

// The export's parameters: the C interface.
fn product_of(
    w: u32,
    atom_count: usize,
    atom_lengths: &[u32],
    atom_ops: &[u8],
    atom_operands: &[u64],
    atom_rows: &[u64],
    pair_count: usize,
    pairs: &[u32],
    pair_rows: &[u64],
    order: &[u32],
    target: &[u64],
) -> Result<Option<search_product_trial::inner::Found>, Refusal>
    ensures { says_by product_says result ≡ or_else (row_refusal w target.now) (product w atom_count atom_rows.now pair_count pair_rows.now order.now (row_in target.now) (forms atom_lengths.now atom_ops.now atom_operands.now pairs.now)) }
{
    let row = slices::row_of(w, target)?;
    let forms = LentForms {
        count: atom_count,
        lengths: atom_lengths,
        ops: atom_ops,
        operands: atom_operands,
        n: pair_count,
        pairs,
    };
    search_product::product_search(&Search {
        forms,
        atoms: atom_rows,
        listed: pair_rows,
        order,
        target: &row,
        w,
    })
}

// `search_residual::residual_search`: kind 0 nothing, 1 the atoms a and b, 2 the atom a and the pair b; `gate` is the outer gate's number, 2 Xor or 3 Add. Refuses 2, 4, 5, 7.
#[unsafe(no_mangle)]
pub extern "C" fn simjaldek_residual_search(
    w: u32,
    atom_count: usize,
    atom_rows: &[u64],
    pair_count: usize,
    pair_rows: &[u64],
    target: &[u64],
) -> ResidualReply
    ensures { result ≡ residual_reply (or_else (row_refusal w target.now) (completion w atom_count atom_rows.now pair_count pair_rows.now (row_in target.now))) }
{
    replies::of_residual(completion_of(w, atom_count, atom_rows, pair_count, pair_rows, target))
}

fn completion_of(
    w: u32,
    atom_count: usize,
    atom_rows: &[u64],
    pair_count: usize,
    pair_rows: &[u64],
    target: &[u64],
) -> Result<Option<search_residual_trial::inner::Found>, Refusal>
    ensures { says_by completion_says result ≡ or_else (row_refusal w target.now) (completion w atom_count atom_rows.now pair_count pair_rows.now (row_in target.now)) }
{
    search_residual::residual_search(
        w,
        atom_count,
        atom_rows,
        pair_count,
        pair_rows,
        slices::row_of(w, target)?,
    )
}

// `bank_lookup::find_row`: kind 1 the slot a, 0 none. Refuses 2, 4, 5, 7.
#[unsafe(no_mangle)]
pub extern "C" fn simjaldek_find_row(
    w: u32,
    atom_count: usize,
    atom_rows: &[u64],
    row: &[u64],
) -> Reply
    ensures { result ≡ option_reply (or_else (row_refusal w row.now) (found w atom_count atom_rows.now (row_in row.now))) }
{
    replies::of_slot(slot_of(w, atom_count, atom_rows, row))
}

fn slot_of(
    w: u32,
    atom_count: usize,
    atom_rows: &[u64],
    row: &[u64],
) -> Result<Option<AtomSlot>, Refusal>
    ensures { says_by slot_number result ≡ or_else (row_refusal w row.now) (found w atom_count atom_rows.now (row_in row.now)) }
{
    let asked = slices::row_of(w, row)?;
    bank_lookup::find_row(w, atom_count, atom_rows, asked)
}

// `index::build_index`: a pairs, and b 1 where the build was cut. Refuses 2, 3, 4, 7.
#[unsafe(no_mangle)]
pub extern "C" fn simjaldek_build_index(
    w: u32,
    atom_count: usize,
    atom_rows: &[u64],
    limit: usize,
    pairs: &mut [u32],
    pair_rows: &mut [u64],
    order: &mut [u32],
    work: &mut [u32],
) -> Reply
    ensures { Indexed w atom_count atom_rows.now limit (arrays_of pairs.old pair_rows.old order.old work.old) (arrays_of pairs.new pair_rows.new order.new work.new) result }
{
    let built = index::build_index(
        w, atom_count, atom_rows, limit, pairs, pair_rows, order, work,
    );
    replies::of_index(built)
}

// `search_candidates::collect_mul_probe0_candidates`: kind 1 with a candidates in the list, 0 "not used". Refuses 2, 4, 5, 7, 8.
#[unsafe(no_mangle)]
pub extern "C" fn simjaldek_collect_mul_probe0_candidates(
    w: u32,
    pair_count: usize,
    pair_rows: &[u64],
    order: &[u32],
    p: u64,
    t: u64,
    candidates: &mut [u32],
) -> Reply
    ensures { Listed w pair_count pair_rows.now order.now p t candidates.old candidates.new result }
{
    let collected = search_candidates::collect_mul_probe0_candidates(
        w, pair_count, pair_rows, order, p, t, candidates,
    );
    replies::of_candidates(collected)
}

// `bank::build_bank`, with sixteen points of six words each: a atoms. Refuses 1, 2, 4, 5.
#[unsafe(no_mangle)]
pub extern "C" fn simjaldek_build_bank(
    atom_lengths: &mut [u32],
    atom_ops: &mut [u8],
    atom_operands: &mut [u64],
    atom_costs: &mut [u32],
    atom_rows: &mut [u64],
    work: &mut [u32],
    nv: u32,
    w: u32,
    points: &[u64],
    target: &[u64],
) -> Reply
    ensures { BankReplied nv w points.now target.now (arrays atom_lengths.old atom_ops.old atom_operands.old atom_costs.old atom_rows.old) (arrays atom_lengths.new atom_ops.new atom_operands.new atom_costs.new atom_rows.new) work.old work.new result }
{
    if let Err(refusal) = slices::check_points_row(nv, w, points, target) {
        return replies::refused(u32::from(refusal));
    }
    let at = slices::points_of(points);
    let row = row_lent::inner::load_row(target, 0);
    let mut lent = LentBank {
        lengths: atom_lengths,
        ops: atom_ops,
        operands: atom_operands,
        costs: atom_costs,
        rows: atom_rows,
    };
    let setting = Setting { nv, w, points: at };
    let built = bank::build_bank(&mut lent, work, setting, row);
    replies::of_number(built)
}

// `expr::token_at`: the token's opcode, 255 for none, and its operand.
#[unsafe(no_mangle)]
pub extern "C" fn simjaldek_token_at(ops: &[u8], operands: &[u64], at: usize) -> TokenReply
    ensures { result ≡ token_reply (token_at ops.now operands.now at) }
{
    replies::of_token(expr::token_at(ops, operands, at))
}

// `expr::is_formula`: 1 where it is one, else 0.
#[unsafe(no_mangle)]
pub extern "C" fn simjaldek_is_formula(
    nv: u32,
    token_count: usize,
    ops: &[u8],
    operands: &[u64],
) -> u32
    ensures { result ≡ mark_of (is_formula nv (tokens token_count ops.now operands.now)) }
{
    replies::mark_of(expr::is_formula(nv, token_count, ops, operands))
}

// `expr_eval::eval`. Refuses 1, 2, 4, 6.
#[unsafe(no_mangle)]
pub extern "C" fn simjaldek_eval(
    nv: u32,
    w: u32,
    token_count: usize,
    ops: &[u8],
    operands: &[u64],
    words: &[u64],
) -> WordReply
    ensures { result ≡ word_reply (evaluated nv w token_count ops.now operands.now words.now) }
{
    replies::of_value(expr_eval::eval(nv, w, token_count, ops, operands, words))
}

// `expr_cost::compute_cost`. Refuses 1, 4, 6.
#[unsafe(no_mangle)]
pub extern "C" fn simjaldek_compute_cost(
    nv: u32,
    token_count: usize,
    ops: &[u8],
    operands: &[u64],
) -> CostReply
    ensures { result ≡ cost_reply (costed nv token_count ops.now operands.now) }
{
    replies::of_cost(expr_cost::compute_cost(nv, token_count, ops, operands))
}

// `load_draw::draw_formula`: the tokens drawn stand in the arrays. Refuses 1, 2, 4, and 6 for a limit that isn't 1 to 64.
#[unsafe(no_mangle)]
pub extern "C" fn simjaldek_draw_formula(
    ops: &mut [u8],
    operands: &mut [u64],
    state: u64,
    nv: u32,
    w: u32,
    limit: usize,
) -> FormulaReply
    ensures value { result ≡ formula_reply state (called state nv w limit ops.old operands.old).answer }
    ensures ops_after { ops.new ≡ (called state nv w limit ops.old operands.old).ops }
    ensures operands_after { operands.new ≡ (called state nv w limit ops.old operands.old).operands }
{
    let x = load_draw::draw_formula(ops, operands, state, nv, w, limit);
    replies::of_formula(x, state)
}

// `rule_run::run_rule`: the answers stand in the array. Refuses 1, 2, 4, 6, and 10 for a window that isn't 1 to 64 or an m that isn't 1 to the window.
#[unsafe(no_mangle)]
pub extern "C" fn simjaldek_run_rule(
    answers: &mut [u8],
    nv: u32,
    w: u32,
    token_count: usize,
    ops: &[u8],
    operands: &[u64],
    m: u32,
    window: u32,
    state: u64,
    n: usize,
    records: &[u64],
) -> RuleReply
    ensures value { result ≡ rule_reply (ran nv w token_count ops.now operands.now m window (record { past = state }) n records.now answers.old).reply }
    ensures answers_after { answers.new ≡ (ran nv w token_count ops.now operands.now m window (record { past = state }) n records.now answers.old).answers }
{
    let rule = LentRule {
        token_count,
        ops,
        operands,
        m,
        window,
    };
    let records = Records {
        nv,
        w,
        n,
        words: records,
    };
    let x = rule_run::run_rule(answers, &rule, RuleState { past: state }, &records);
    replies::of_rule(x, state)
}

// `log_run::open_log`: the log of a new sounding, without a close and with fresh windows.
#[unsafe(no_mangle)]
pub extern "C" fn simjaldek_open_log(log: LogState) -> LogState
    ensures { result ≡ log_state (opened (log_of log)) }
{
    replies::log_state(log_run::open_log(replies::log_of(log)))
}

// `log_run::run_log`: of rule i are the values at place i, and the opcodes and operands from place 64 i on. Refuses 1, 2, 4, 6 for a formula of any rule, 10 for a window that isn't 1 to 64 or
// an m that isn't 1 to the window, and 11 for no rule, more than eight, a rank that isn't 1 to 8 or two equal ranks.
#[unsafe(no_mangle)]
pub extern "C" fn simjaldek_run_log(
    log: LogState,
    rule_count: usize,
    ranks: &[u32],
    ms: &[u32],
    windows: &[u32],
    token_counts: &[u32],
    ops: &[u8],
    operands: &[u64],
    nv: u32,
    w: u32,
    n: usize,
    records: &[u64],
) -> LogReply
    ensures { result ≡ log_reply log (logged nv w (rules_in rule_count ranks.now ms.now windows.now token_counts.now ops.now operands.now) (log_of log) n records.now) }
{
    let rules = LentRules {
        count: rule_count,
        ranks,
        ms,
        windows,
        token_counts,
        ops,
        operands,
    };
    let records = Records {
        nv,
        w,
        n,
        words: records,
    };
    let shown = Shown {
        number: log.number,
        close: log.closed_at,
        later: log.later,
        rank: log.rank,
    };
    // `run_log` itself would copy the log twice more (B78)
    let mut seen = log.windows;
    let x = log_run::inner::take(&mut seen, log.open != 0, shown, &rules, &records);
    match x {
        Ok(shown) => LogReply {
            refusal: 0,
            log: LogState {
                open: replies::mark_of(log.open != 0),
                rank: shown.rank,
                number: shown.number,
                closed_at: shown.close,
                later: shown.later,
                windows: seen,
            },
        },
        Err(refusal) => LogReply {
            refusal: u32::from(refusal),
            log,
        },
    }
}

// `probe_points::make_probe_points`. Refuses 1, 2.
#[unsafe(no_mangle)]
pub extern "C" fn simjaldek_make_probe_points(nv: u32, w: u32) -> PointsReply
    ensures { result ≡ points_reply (made_points nv w) }
{
    let x = probe_points::make_probe_points(nv, w);
    let made = x.points;
    let points = replies::of_points(made);
    PointsReply {
        refusal: x.refusal,
        points,
    }
}

// `probe::probe`, with sixteen points of six words each. Refuses 1, 2, 4, 6.
#[unsafe(no_mangle)]
pub extern "C" fn simjaldek_probe(
    nv: u32,
    w: u32,
    points: &[u64],
    token_count: usize,
    ops: &[u8],
    operands: &[u64],
) -> RowReply
    ensures { result ≡ row_reply (or_else (points_refusal nv w points.now) (probed nv w (points_in points.now) token_count ops.now operands.now)) }
{
    replies::of_row(row_at(nv, w, points, token_count, ops, operands))
}

fn row_at(
    nv: u32,
    w: u32,
    points: &[u64],
    token_count: usize,
    ops: &[u8],
    operands: &[u64],
) -> Result<[u64; 16], Refusal>
    ensures { says result ≡ or_else (points_refusal nv w points.now) (probed nv w (points_in points.now) token_count ops.now operands.now) }
{
    slices::check_points(nv, w, points)?;
    probe::probe(nv, w, slices::points_of(points), token_count, ops, operands)
}

// `row_fingerprint::fingerprint`. Refuses 4.
#[unsafe(no_mangle)]
pub extern "C" fn simjaldek_fingerprint(row: &[u64]) -> WordReply
    ensures { result ≡ word_reply (outcome (refuse (short_row row.now) 4 0) (fingerprint_of (row_in row.now))) }
{
    replies::of_value(print_of(row))
}

// The fingerprint of a row, once its slice is long enough.
fn print_of(row: &[u64]) -> Result<u64, Refusal>
    ensures { says result ≡ outcome (refuse (short_row row.now) 4 0) (fingerprint_of (row_in row.now)) }
{
    if row.len() < row_gates::ROW_WORDS {
        return Err(Refusal::ShortArray);
    }
    Ok(row_fingerprint::fingerprint(row_lent::inner::load_row(row, 0)))
}

// `arith::bitmask`.
#[unsafe(no_mangle)]
pub extern "C" fn simjaldek_bitmask(w: u32) -> u64
    ensures { result ≡ modulus w - 1 }
{
    arith::bitmask(w)
}

// `arith::reduce`.
#[unsafe(no_mangle)]
pub extern "C" fn simjaldek_reduce(x: u64, w: u32) -> u64
    ensures { result ≡ x % modulus w }
{
    arith::reduce(x, w)
}

// `arith::wrapping_mul`.
#[unsafe(no_mangle)]
pub extern "C" fn simjaldek_wrapping_mul(a: u64, b: u64) -> u64
    ensures { result ≡ (a * b) % 2 ^ 64 }
{
    arith::wrapping_mul(a, b)
}

// `arith::mod_add`.
#[unsafe(no_mangle)]
pub extern "C" fn simjaldek_mod_add(a: u64, b: u64, w: u32) -> u64
    ensures { result ≡ (a + b) % modulus w }
{
    arith::mod_add(a, b, w)
}

// `arith::mod_sub`.
#[unsafe(no_mangle)]
pub extern "C" fn simjaldek_mod_sub(a: u64, b: u64, w: u32) -> u64
    ensures { result ≡ sub_of (modulus w) a b }
{
    arith::mod_sub(a, b, w)
}

// `arith::mod_mul`.
#[unsafe(no_mangle)]
pub extern "C" fn simjaldek_mod_mul(a: u64, b: u64, w: u32) -> u64
    ensures { result ≡ (a * b) % modulus w }
{
    arith::mod_mul(a, b, w)
}

// `arith::mod_not`.
#[unsafe(no_mangle)]
pub extern "C" fn simjaldek_mod_not(v: u64, w: u32) -> u64
    ensures { result ≡ not_of (modulus w) v }
{
    arith::mod_not(v, w)
}

// `arith::mod_neg`.
#[unsafe(no_mangle)]
pub extern "C" fn simjaldek_mod_neg(v: u64, w: u32) -> u64
    ensures { result ≡ neg_of (modulus w) v }
{
    arith::mod_neg(v, w)
}

// `arith::mod_inverse_odd`.
#[unsafe(no_mangle)]
pub extern "C" fn simjaldek_mod_inverse_odd(m: u64, k: u32) -> u64
    ensures { Inverse (modulus k) m result }
{
    arith::mod_inverse_odd(m, k)
}

// `probe_points::splitmix64`.
#[unsafe(no_mangle)]
pub extern "C" fn simjaldek_splitmix64(state: u64) -> DrawReply
    ensures { result ≡ draw_reply (drawn state) }
{
    let x = probe_points::splitmix64(state);
    DrawReply {
        state: x.state,
        word: x.word,
    }
}

// `Cost::is_better` of two costs by their numbers: 1 where the first is better, else 0.
#[unsafe(no_mangle)]
pub extern "C" fn simjaldek_is_better(
    size: u32,
    products: u32,
    depth: u32,
    size2: u32,
    products2: u32,
    depth2: u32,
) -> u32
    ensures { result ≡ mark_of (is_better (cost_from size products depth) (cost_from size2 products2 depth2)) }
{
    let cost = Cost {
        size,
        products,
        depth,
    };
    let other = Cost {
        size: size2,
        products: products2,
        depth: depth2,
    };
    replies::mark_of(cost.is_better(other))
}

// `row_gates::gate_apply`, with the gate's number. Refuses 2, 4, and 6 for a number above 4.
#[unsafe(no_mangle)]
pub extern "C" fn simjaldek_gate_apply(a: &[u64], b: &[u64], g: u32, w: u32) -> RowReply
    ensures { result ≡ row_reply (or_else (gate_refusal w (two_short a.now b.now) g) (applied (gate_at g) w (row_in a.now) (row_in b.now))) }
{
    replies::of_gate(false, a, b, g, w)
}

// `row_gates::gate_residual`, with the gate's number. Refuses 2, 4, and 6 for a number above 4.
#[unsafe(no_mangle)]
pub extern "C" fn simjaldek_gate_residual(target: &[u64], a: &[u64], g: u32, w: u32) -> RowReply
    ensures { result ≡ row_reply (or_else (gate_refusal w (two_short target.now a.now) g) (residual (gate_at g) w (row_in target.now) (row_in a.now))) }
{
    replies::of_gate(true, target, a, g, w)
}

// `row_gates::gate_matches`, with the gate's number: kind 1 the same, 0 different. Refuses 2, 4, and 6 for a number above 4.
#[unsafe(no_mangle)]
pub extern "C" fn simjaldek_gate_matches(
    a: &[u64],
    b: &[u64],
    target: &[u64],
    g: u32,
    w: u32,
) -> Reply
    ensures { result ≡ match_reply (or_else (gate_refusal w (three_short a.now b.now target.now) g) (matched (gate_at g) w (row_in a.now) (row_in b.now) (row_in target.now))) }
{
    replies::of_match(match_of(a, b, target, g, w))
}

fn match_of(a: &[u64], b: &[u64], target: &[u64], g: u32, w: u32) -> Result<bool, Refusal>
    ensures { says result ≡ or_else (gate_refusal w (three_short a.now b.now target.now) g) (matched (gate_at g) w (row_in a.now) (row_in b.now) (row_in target.now)) }
{
    let gate = slices::gate_in(w, slices::three_short(a, b, target), g)?;
    let left = row_lent::inner::load_row(a, 0);
    let right = row_lent::inner::load_row(b, 0);
    let whole = row_lent::inner::load_row(target, 0);
    row_gates::gate_matches(left, right, whole, gate, w)
}

// Where `bank_lookup::atom_row` begins: the place in words of the first of the slot's sixteen. Refuses 4, 7.
#[unsafe(no_mangle)]
pub extern "C" fn simjaldek_atom_row(atom_rows: &[u64], atom_count: usize, slot: u32) -> Reply
    ensures { result ≡ number_reply (outcome (hand_refusal atom_count atom_rows.now slot) (16 * slot)) }
{
    replies::of_number(place_of(atom_rows, atom_count, slot))
}

// Where the row of a slot begins in the lent rows.
fn place_of(atom_rows: &[u64], atom_count: usize, slot: u32) -> Result<u32, Refusal>
    ensures { says result ≡ outcome (hand_refusal atom_count atom_rows.now slot) (16 * slot) }
{
    if atom_rows.len() / row_gates::ROW_WORDS < atom_count {
        return Err(Refusal::ShortArray);
    }
    if limits::ATOMS_MAX < atom_count {
        return Err(Refusal::Claim);
    }
    if atom_count <= slot as usize {
        return Err(Refusal::Claim);
    }
    Ok(16 * slot)
}

// `listing::write_listing` of a whole text: the length of what the listing program writes, which stands in the buffer. Refuses 4.
#[unsafe(no_mangle)]
pub extern "C" fn simjaldek_write_listing(out: &mut [u8], text: &[u8]) -> TextReply
    ensures { Texted text.now out.old out.new result }
{
    let read = text_parse::feed(text_parse::begin(), text);
    match listing::write_listing(out, read) {
        Ok(length) => TextReply { refusal: 0, length },
        Err(refusal) => TextReply {
            refusal: u32::from(refusal),
            length: 0,
        },
    }
}
