// The comparing program: reads each data file that its arguments name, asks our own calls for each line's answer, and writes
// how many answers it compared and how many differ. A line that differs is named on standard error. After a line of kind 20 or
// 25 come the bytes of a case, which isn't made of lines.
#![tactic(auto)]

ghost use Rattle.std.specs.Prelude.{◌≤◌, length};

use compare_lines::inner::scan;
use compare_lines::inner::scan::Scan;
use compare_texts::{Case, Fed};
use std::fs;
use std::io::{self, Read};
use std::rt::{Env, Files};

const LINE_NUMBERS: usize = 512;

// No path is longer.
const PATH_MAX: usize = 4096;

#[derive(Clone, Copy, Default)]
struct Tally {
    lines: u64,
    compared: u64,
    different: u64,
}

#[derive(Clone, Copy)]
struct Progress {
    scan: Scan,
    // the one that is open
    case: Option<Case>,
    tally: Tally,
    reading: Reading,
}

#[derive(Clone, Copy, PartialEq, Eq)]
enum Reading {
    On,
    AtEnd,
    Failed,
}

fn one_more(n: u64) -> u64 {
    n.wrapping_add(1)
}

// Names a line, or a case by its first line, on standard error. Where that can't be written the count still stands.
fn tell(rt: &impl Eprint, line: u64) {
    let _ = eprintln!(rt; "differs: line {line}");
}

// One line of a data file against our own answer. The first number is the kind; the head of each data file tells what follows.
// A kind that is not known, or a line that is too short or too long for its kind, is not the same.
fn line_same(line: &[u64]) -> bool {
    if line.len() == 0 {
        return false;
    }
    let kind = line[0];
    match kind {
        1 => compare_words::splitmix64_same(line),
        2 => compare_words::points_same(line),
        3 => compare_words::fingerprint_same(line),
        4 => compare_words::gate_same(line),
        5 => compare_words::residual_same(line),
        6 => compare_words::matches_same(line),
        7 => compare_words::bitmask_same(line),
        8 => compare_words::inverse_same(line),
        9 => compare_formulas::formula_same(line),
        10 => compare_formulas::refusal_same(line),
        11 => compare_banks::bank_same(line),
        12 => compare_banks::bank_refusal_same(line),
        13 => compare_banks::index_same(line),
        14 => compare_indexes::index_refusal_same(line),
        15 => compare_candidates::candidates_same(line),
        16 => compare_products::product_same(line),
        17 => compare_products::product_refusal_same(line),
        18 => compare_candidates::candidates_refusal_same(line),
        20 => compare_texts::head_same(line),
        21 => compare_residuals::residual_same(line),
        22 => compare_residuals::residual_refusal_same(line),
        23 => compare_residuals::lent_residual_same(line),
        24 => compare_loads::draw_same(line),
        25 => compare_texts::head_same(line),
        26 => compare_rules::rule_same(line),
        27 => compare_logs::log_same(line),
        _ => false,
    }
}

// Whether a line holds numbers, and they are our own answer.
fn is_same(numbers: &[u64], s: Scan) -> bool
    requires { s.count ≤ length numbers.now }
{
    if s.bad {
        return false;
    }
    let count = s.count;
    line_same(&numbers[..count])
}

// A line at its end is compared, unless it is empty or a comment.
fn settle(rt: &impl Eprint, numbers: &[u64], s: Scan, mut t: Tally) -> Tally
    requires { s.count ≤ length numbers.now }
{
    t.lines = one_more(t.lines);
    if s.comment {
        return t;
    }
    if s.is_empty() {
        return t;
    }
    t.compared = one_more(t.compared);
    if is_same(numbers, s) {
        return t;
    }
    t.different = one_more(t.different);
    tell(rt, t.lines);
    t
}

// The case that a line opens, if it opens one. Its line is compared as a line, and counts for both.
fn case_of(numbers: &[u64], s: Scan, line: u64) -> Option<Case>
    requires { s.count ≤ length numbers.now }
{
    if s.bad {
        return None;
    }
    let count = s.count;
    compare_texts::begin(&numbers[..count], line)
}

// A case at its end that differs, or that the file's end cuts off.
fn different_case(rt: &impl Eprint, c: Case, mut t: Tally) -> Tally {
    t.different = one_more(t.different);
    tell(rt, c.line);
    t
}

// A further byte of an open case; line ends within it count.
fn feed_case(rt: &impl Eprint, out: &mut [u8], c: Case, mut t: Tally, byte: u8) -> Progress
    ensures { result.scan.count ≤ 0 }
{
    if byte == b'\n' {
        t.lines = one_more(t.lines);
    }
    let case = match compare_texts::feed(out, c, byte) {
        Fed::Open(case) => Some(case),
        Fed::Ended(same) => {
            if !same {
                t = different_case(rt, c, t);
            }
            None
        }
    };
    Progress {
        scan: Scan::new(),
        case,
        tally: t,
        reading: Reading::On,
    }
}

// A further byte of a line.
fn feed_line(rt: &impl Eprint, numbers: &mut [u64], p: Progress, byte: u8) -> Progress
    requires { p.scan.count ≤ length numbers.old }
    ensures { result.scan.count ≤ length numbers.new }
{
    let s = scan::feed(numbers, p.scan, byte);
    let tally = p.tally;
    if byte != b'\n' {
        let case = p.case;
        return Progress {
            scan: s,
            case,
            tally,
            reading: Reading::On,
        };
    }
    let t = settle(rt, numbers, s, tally);
    let case = case_of(numbers, s, t.lines);
    Progress {
        scan: Scan::new(),
        case,
        tally: t,
        reading: Reading::On,
    }
}

fn feed_byte(
    rt: &impl Eprint,
    numbers: &mut [u64],
    out: &mut [u8],
    p: Progress,
    byte: u8,
) -> Progress
    requires { p.scan.count ≤ length numbers.old }
    ensures { result.scan.count ≤ length numbers.new }
{
    match p.case {
        Some(case) => feed_case(rt, out, case, p.tally, byte),
        None => feed_line(rt, numbers, p, byte),
    }
}

// The bytes of one read.
fn feed_part(
    rt: &impl Eprint,
    numbers: &mut [u64],
    out: &mut [u8],
    part: &[u8],
    p: Progress,
) -> Progress
    requires { p.scan.count ≤ length numbers.old }
    ensures { result.scan.count ≤ length numbers.new }
{
    let mut q = p;
    for byte in part {
        q = feed_byte(rt, numbers, out, q, *byte);
    }
    q
}

// The reading where it ends.
fn ended(mut p: Progress, reading: Reading) -> Progress
    ensures { result.scan.count ≤ p.scan.count }
{
    p.reading = reading;
    p
}

fn read_some(
    rt: &impl Eprint,
    numbers: &mut [u64],
    out: &mut [u8],
    file: &mut impl Read,
    p: Progress,
) -> Progress
    requires { p.scan.count ≤ length numbers.old }
    ensures { result.scan.count ≤ length numbers.new }
{
    let mut buffer = [0u8; 65536];
    match file.read(&mut buffer) {
        Ok(0) => ended(p, Reading::AtEnd),
        Ok(n) => feed_part(rt, numbers, out, &buffer[..n], p),
        Err(_) => ended(p, Reading::Failed),
    }
}

// Read after read to the file's end, or to a read that fails.
fn read_all(
    rt: &impl Eprint,
    numbers: &mut [u64],
    out: &mut [u8],
    file: &mut impl Read,
    p: Progress,
) -> Progress
    requires { p.scan.count ≤ length numbers.old }
    ensures { result.scan.count ≤ length numbers.new }
{
    let mut q = p;
    for _ in 0..0x100_0000u64 {
        q = read_some(rt, numbers, out, file, q);
        if q.reading != Reading::On {
            return q;
        }
    }
    q
}

// The file is at its end: a last line without a line end, or a case that isn't whole.
fn end_file(rt: &impl Eprint, numbers: &mut [u64], out: &mut [u8], p: Progress) -> Tally
    requires { p.scan.count ≤ length numbers.old }
{
    if let Some(case) = p.case {
        return different_case(rt, case, p.tally);
    }
    let last = feed_part(rt, numbers, out, b"\n", p);
    if let Some(case) = last.case {
        return different_case(rt, case, last.tally);
    }
    last.tally
}

// A whole file, its lines counted anew; one that isn't read to its end counts as a difference.
fn compare_file(rt: &impl Eprint, file: &mut impl Read, mut t: Tally) -> Tally {
    t.lines = 0;
    let mut numbers = [0u64; LINE_NUMBERS];
    let mut out = [0u8; compare_texts::PRINTED_MAX];
    let p = Progress {
        scan: Scan::new(),
        case: None,
        tally: t,
        reading: Reading::On,
    };
    let q = read_all(rt, &mut numbers, &mut out, file, p);
    let reading = q.reading;
    let mut end = end_file(rt, &mut numbers, &mut out, q);
    if reading != Reading::AtEnd {
        end.different = one_more(end.different);
    }
    end
}

// The file at a path; one that can't be opened is named on standard error, and counts as a difference.
fn compare_path(rt: &(impl Files + Eprint), path: &str, mut t: Tally) -> Tally {
    match fs::open(rt, path) {
        Ok(mut file) => compare_file(rt, &mut file, t),
        Err(error) => {
            let _ = eprintln!(rt; "{path}: {error}");
            t.different = one_more(t.different);
            t
        }
    }
}

// The file that an argument names. A path is UTF-8, so a file of another name can't be opened.
fn compare_name(rt: &(impl Files + Eprint), name: &[u8], mut t: Tally) -> Tally {
    match str::from_utf8(name) {
        Ok(path) => compare_path(rt, path, t),
        Err(error) => {
            let _ = eprintln!(rt; "{}: {error}", name.escape_ascii());
            t.different = one_more(t.different);
            t
        }
    }
}

// The file that argument k names, if it is given. An argument longer than any path counts as not given.
fn compare_argument(rt: &(impl Env + Files + Eprint), k: usize, t: Tally) -> Option<Tally> {
    let mut name = [0u8; PATH_MAX];
    match rt.arg(k, &mut name) {
        Ok(length) => Some(compare_name(rt, &name[..length], t)),
        Err(_) => None,
    }
}

// All arguments, up to the first that is not given.
fn compare_all(rt: &(impl Env + Files + Eprint)) -> Tally {
    let mut t = Tally::default();
    for k in 1..1000 {
        let Some(more) = compare_argument(rt, k, t) else {
            return t;
        };
        t = more;
    }
    t
}

fn main(rt: HostRuntime) -> io::Result<()> {
    let t = compare_all(&rt);
    println!(rt; "{} comparisons, {} differences", t.compared, t.different)
}
