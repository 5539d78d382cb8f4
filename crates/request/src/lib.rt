// A job read from its text (document 01, "the job program"): key=value lines in one order. The first thing that is bad, from left to right, is 5 with its place; then a list of over 32 is 4.
#![tactic(auto)]

ghost use Rattle.std.specs.Prelude.{◌≡◌, ◌+◌, ◌≤◌, length, drop};
ghost use Rattle.request.specs.Ops.{begins, is_name, op_with_numbers, op_of_one, op_of, is_known, wants_of};
ghost use Rattle.request.specs.Lines.{stopped_at, standing_at, opened_at, closed_at, no_poly, poly_line_of, no_ratio, ratio_line_of, no_budget, budget_line_of, is_limited, limited_of, no_float, float_line_of};
ghost use Rattle.request.specs.Request.{op_line_of, keys_of, budget_of, interval_of, finished_at, longest, refused_for, made_of, request_of};
ghost use Rattle.request.specs.Promise.{Job};

use ops::Op;
use poly::Gate;
use ratio::{Ratio, Reason};
use terms::Poly;

// What a missing budget is.
const DEFAULT_BUDGET: u64 = 65536;

// The bytes of the longest job.
const LONGEST: usize = 4096;

// A job, or why there is none: then the rest is zero, but for the operation as far as it is known.
#[derive(Clone, Copy)]
pub struct Request {
    pub op: Op,
    pub outcome: Result<(), Reason>,
    pub a: Poly,
    pub b: Poly,
    pub x: Ratio,
    pub budget: u64,
    pub lo: f64,
    pub hi: f64,
    pub tol: f64,
}

// Where reading stands, or where something is bad; and whether a list was too long.
#[derive(Clone, Copy)]
struct Cursor {
    at: usize,
    bad: bool,
    long: bool,
}

// What a line holds, and where reading stands behind it.
#[derive(Clone, Copy)]
struct OpLine {
    op: Op,
    cursor: Cursor,
}

#[derive(Clone, Copy)]
struct PolyLine {
    cursor: Cursor,
    poly: Poly,
}

#[derive(Clone, Copy)]
struct RatioLine {
    cursor: Cursor,
    ratio: Ratio,
}

#[derive(Clone, Copy)]
struct BudgetLine {
    cursor: Cursor,
    budget: u64,
}

#[derive(Clone, Copy)]
struct FloatLine {
    cursor: Cursor,
    float: f64,
}

#[derive(Clone, Copy)]
struct Interval {
    cursor: Cursor,
    lo: f64,
    hi: f64,
    tol: f64,
}

// The keys that an operation has after a.
#[derive(Clone, Copy)]
struct Wants {
    b: bool,
    x: bool,
    budget: bool,
    ends: bool,
    tol: bool,
}

// ---- operations

// Whether the text begins with the key at a place.
fn starts(text: &[u8], at: usize, key: &[u8]) -> bool
    requires { at ≤ length text.now }
    ensures { result ≡ begins key.now (drop at text.now) }
{
    for i in 0..key.len() {
        if at + i == text.len() {
            return false;
        }
        if text[at + i] != key[i] {
            return false;
        }
    }
    true
}

fn is(word: &[u8], name: &[u8]) -> bool
    ensures { result ≡ is_name name.now word.now }
{
    if word.len() == name.len() {
        starts(word, 0, name)
    } else {
        false
    }
}

// The operation on a and numbers that a word names.
#[tactic(auto, unfolding(crate::specs::Ops::op_with_numbers, ops::specs::Op::name_of))]
fn op_with_numbers(word: &[u8]) -> Op
    ensures { result ≡ op_with_numbers word.now }
{
    if is(word, b"eval") {
        Op::Eval
    } else if is(word, b"count") {
        Op::Count
    } else if is(word, b"isolate") {
        Op::Isolate
    } else {
        Op::Unknown
    }
}

// The operation on a alone, or on a and numbers.
#[tactic(auto, unfolding(crate::specs::Ops::op_of_one, ops::specs::Op::name_of))]
fn op_of_one(word: &[u8]) -> Op
    ensures { result ≡ op_of_one word.now }
{
    if is(word, b"neg") {
        Op::Neg
    } else if is(word, b"diff") {
        Op::Diff
    } else if is(word, b"discriminant") {
        Op::Discriminant
    } else if is(word, b"roots") {
        Op::Roots
    } else if is(word, b"factor") {
        Op::Factor
    } else if is(word, b"rebuild") {
        Op::Rebuild
    } else {
        op_with_numbers(word)
    }
}

// The operation that a word names.
#[tactic(auto, unfolding(crate::specs::Ops::op_of, ops::specs::Op::name_of))]
fn op_of(word: &[u8]) -> Op
    ensures { result ≡ op_of word.now }
{
    if is(word, b"add") {
        Op::Add
    } else if is(word, b"sub") {
        Op::Sub
    } else if is(word, b"mul") {
        Op::Mul
    } else if is(word, b"divide") {
        Op::Divide
    } else if is(word, b"gcd") {
        Op::Gcd
    } else if is(word, b"resultant") {
        Op::Resultant
    } else {
        op_of_one(word)
    }
}

fn is_known(op: Op) -> bool
    ensures { result ≡ is_known op }
{
    match op {
        Op::Add => true,
        Op::Sub => true,
        Op::Mul => true,
        Op::Divide => true,
        Op::Gcd => true,
        Op::Resultant => true,
        Op::Neg => true,
        Op::Diff => true,
        Op::Discriminant => true,
        Op::Roots => true,
        Op::Factor => true,
        Op::Rebuild => true,
        Op::Eval => true,
        Op::Count => true,
        Op::Isolate => true,
        Op::Unknown => false,
    }
}

fn keys(b: bool, x: bool, budget: bool, ends: bool, tol: bool) -> Wants
    ensures { result ≡ record { b = b; x = x; budget = budget; ends = ends; tol = tol } }
{
    Wants {
        b,
        x,
        budget,
        ends,
        tol,
    }
}

fn wants_of(op: Op) -> Wants
    ensures { result ≡ wants_of op }
{
    match op {
        Op::Add => keys(true, false, false, false, false),
        Op::Sub => keys(true, false, false, false, false),
        Op::Mul => keys(true, false, false, false, false),
        Op::Divide => keys(true, false, false, false, false),
        Op::Gcd => keys(true, false, false, false, false),
        Op::Resultant => keys(true, false, false, false, false),
        Op::Neg => keys(false, false, false, false, false),
        Op::Diff => keys(false, false, false, false, false),
        Op::Discriminant => keys(false, false, false, false, false),
        Op::Roots => keys(false, false, true, false, false),
        Op::Factor => keys(false, false, true, false, false),
        Op::Rebuild => keys(false, false, true, false, false),
        Op::Eval => keys(false, true, false, false, false),
        Op::Count => keys(false, false, false, true, false),
        Op::Isolate => keys(false, false, false, true, true),
        Op::Unknown => keys(false, false, false, false, false),
    }
}

// ---- where reading stands

fn stopped(at: usize) -> Cursor
    ensures { result ≡ stopped_at at }
{
    Cursor {
        at,
        bad: true,
        long: false,
    }
}

fn standing(at: usize, long: bool) -> Cursor
    ensures { result ≡ standing_at at long }
{
    Cursor {
        at,
        bad: false,
        long,
    }
}

// Behind the key of the line that starts here.
#[tactic(auto, using(crate::proofs::Auto::open_steps))]
fn open(text: &[u8], c: Cursor, key: &[u8]) -> Cursor
    requires { c.at ≤ length text.now }
    ensures { result ≡ opened_at text.now key.now c }
{
    if c.bad {
        return c;
    }
    let at = c.at;
    if starts(text, at, key) {
        standing(at + key.len(), c.long)
    } else {
        stopped(at)
    }
}

// Behind the newline that a value ends at.
fn close(text: &[u8], end: usize, long: bool) -> Cursor
    ensures { result ≡ closed_at text.now end long }
{
    if end < text.len() {
        standing(end + 1, long)
    } else {
        stopped(end)
    }
}

// ---- lines

#[tactic(auto, using(crate::proofs::Auto::within_steps))]
fn op_line(text: &[u8]) -> OpLine
    ensures { result ≡ op_line_of text.now }
{
    let v = open(text, standing(0, false), b"op=");
    if v.bad {
        return OpLine {
            op: Op::Unknown,
            cursor: v,
        };
    }
    let at = v.at;
    let end = tokens::part_end(text, at, 10);
    let op = op_of(&text[at..end]);
    if is_known(op) {
        OpLine {
            op,
            cursor: close(text, end, false),
        }
    } else {
        OpLine {
            op: Op::Unknown,
            cursor: stopped(at),
        }
    }
}

fn no_poly(cursor: Cursor) -> PolyLine
    ensures { result ≡ no_poly cursor }
{
    PolyLine {
        cursor,
        poly: Poly::zero(),
    }
}

// Coefficients. Over 32 of them count only at the end, since what is bad comes first.
#[tactic(auto, using(crate::proofs::Auto::within_steps))]
fn poly_line(text: &[u8], c: Cursor, key: &[u8], wanted: bool) -> PolyLine
    requires { (c.at ≤ length text.now) × (length text.now ≤ longest) }
    ensures { result ≡ poly_line_of text.now c key.now wanted }
{
    if !wanted {
        return no_poly(c);
    }
    let v = open(text, c, key);
    if v.bad {
        return no_poly(v);
    }
    let at = v.at;
    let end = tokens::part_end(text, at, 10);
    let r = reading::read_poly(&text[at..end]);
    let o = r.outcome;
    let Err(why) = o else {
        let poly = r.poly;
        return PolyLine {
            cursor: close(text, end, v.long),
            poly,
        };
    };
    if let Reason::Malformed { at: k } = why {
        no_poly(stopped(at + k))
    } else {
        no_poly(close(text, end, true))
    }
}

fn no_ratio(cursor: Cursor) -> RatioLine
    ensures { result ≡ no_ratio cursor }
{
    RatioLine {
        cursor,
        ratio: Ratio { num: 0, den: 1 },
    }
}

#[tactic(auto, using(crate::proofs::Auto::within_steps))]
fn ratio_line(text: &[u8], c: Cursor, key: &[u8], wanted: bool) -> RatioLine
    requires { c.at ≤ length text.now }
    ensures { result ≡ ratio_line_of text.now c key.now wanted }
{
    if !wanted {
        return no_ratio(c);
    }
    let v = open(text, c, key);
    if v.bad {
        return no_ratio(v);
    }
    let at = v.at;
    let end = tokens::part_end(text, at, 10);
    match reading::read_ratio(&text[at..end]) {
        Ok(ratio) => RatioLine {
            cursor: close(text, end, v.long),
            ratio,
        },
        Err(_) => no_ratio(stopped(at)),
    }
}

fn no_budget(cursor: Cursor) -> BudgetLine
    ensures { result ≡ no_budget cursor }
{
    BudgetLine {
        cursor,
        budget: DEFAULT_BUDGET,
    }
}

#[tactic(auto, using(crate::proofs::Auto::within_steps))]
fn budget_line(text: &[u8], c: Cursor, key: &[u8], wanted: bool) -> BudgetLine
    requires { c.at ≤ length text.now }
    ensures { result ≡ budget_line_of text.now c key.now wanted }
{
    if !wanted {
        return no_budget(c);
    }
    if !starts(text, c.at, key) {
        return no_budget(c);
    }
    let v = open(text, c, key);
    if v.bad {
        return no_budget(v);
    }
    let at = v.at;
    let end = tokens::part_end(text, at, 10);
    match reading::read_budget(&text[at..end]) {
        Some(budget) => BudgetLine {
            cursor: close(text, end, v.long),
            budget,
        },
        None => no_budget(stopped(at)),
    }
}

// An end is within ±1e15, a tolerance is finite and above 0.
fn is_limited(tolerance: bool, x: f64) -> bool
    ensures { result ≡ is_limited tolerance x }
{
    if !tolerance {
        if let Gate::Open = sturm::ends(x, x) {
            true
        } else {
            false
        }
    } else if bridge::is_finite(x) {
        x > 0.0
    } else {
        false
    }
}

fn limited(tolerance: bool, r: Option<f64>) -> Option<f64>
    ensures { result ≡ limited_of tolerance r }
{
    match r {
        Some(x) => if is_limited(tolerance, x) { r } else { None },
        None => None,
    }
}

fn no_float(cursor: Cursor) -> FloatLine
    ensures { result ≡ no_float cursor }
{
    FloatLine { cursor, float: 0.0 }
}

#[tactic(auto, using(crate::proofs::Auto::within_steps))]
fn float_line(text: &[u8], c: Cursor, key: &[u8], wanted: bool, tolerance: bool) -> FloatLine
    requires { c.at ≤ length text.now }
    ensures { result ≡ float_line_of text.now c key.now wanted tolerance }
{
    if !wanted {
        return no_float(c);
    }
    let v = open(text, c, key);
    if v.bad {
        return no_float(v);
    }
    let at = v.at;
    let end = tokens::part_end(text, at, 10);
    match limited(tolerance, reading::read_float(&text[at..end])) {
        Some(float) => FloatLine {
            cursor: close(text, end, v.long),
            float,
        },
        None => no_float(stopped(at)),
    }
}

// ---- the job

// What is bad, or a line too many; then a list that is too long.
fn finish(text: &[u8], c: Cursor) -> Result<(), Reason>
    ensures { result ≡ finished_at text.now c }
{
    let at = c.at;
    if c.bad {
        Err(Reason::Malformed { at })
    } else if at < text.len() {
        Err(Reason::Malformed { at })
    } else if c.long {
        Err(Reason::TooLong)
    } else {
        Ok(())
    }
}

fn refused(op: Op, why: Reason) -> Request
    ensures { result ≡ refused_for op why }
{
    Request {
        op,
        outcome: Err(why),
        a: Poly::zero(),
        b: Poly::zero(),
        x: Ratio { num: 0, den: 1 },
        budget: 0,
        lo: 0.0,
        hi: 0.0,
        tol: 0.0,
    }
}

// The last lines.
fn interval_lines(text: &[u8], c: Cursor, ends: bool, tol: bool) -> Interval
    requires { (c ≡ (budget_of text.now).cursor) × (ends ≡ (keys_of text.now).ends) × (tol ≡ (keys_of text.now).tol) }
    ensures { result ≡ interval_of text.now }
{
    let lo = float_line(text, c, b"lo=", ends, false);
    let behind_lo = lo.cursor;
    let hi = float_line(text, behind_lo, b"hi=", ends, false);
    let behind_hi = hi.cursor;
    let last = float_line(text, behind_hi, b"tol=", tol, true);
    let cursor = last.cursor;
    Interval {
        cursor,
        lo: lo.float,
        hi: hi.float,
        tol: last.float,
    }
}

// The lines after the first one.
fn rest(text: &[u8], op: Op, start: Cursor) -> Request
    requires { (length text.now ≤ longest) × (op ≡ (op_line_of text.now).op) × (start ≡ (op_line_of text.now).cursor) }
    ensures { result ≡ made_of text.now }
{
    let wants = wants_of(op);
    let a = poly_line(text, start, b"a=", true);
    let behind_a = a.cursor;
    let b = poly_line(text, behind_a, b"b=", wants.b);
    let behind_b = b.cursor;
    let x = ratio_line(text, behind_b, b"x=", wants.x);
    let behind_x = x.cursor;
    let n = budget_line(text, behind_x, b"budget=", wants.budget);
    let behind_n = n.cursor;
    let i = interval_lines(text, behind_n, wants.ends, wants.tol);
    let last = i.cursor;
    let o = finish(text, last);
    if let Err(why) = o {
        return refused(op, why);
    }
    let pa = a.poly;
    let pb = b.poly;
    let rx = x.ratio;
    Request {
        op,
        outcome: Ok(()),
        a: pa,
        b: pb,
        x: rx,
        budget: n.budget,
        lo: i.lo,
        hi: i.hi,
        tol: i.tol,
    }
}

// The job of a text. One that is too long is not read past its first line.
pub fn read(text: &[u8]) -> Request
    ensures is { result ≡ request_of text.now }
    ensures promise { Job result }
{
    let first = op_line(text);
    let op = first.op;
    if text.len() > LONGEST {
        return refused(op, Reason::Malformed { at: LONGEST });
    }
    let start = first.cursor;
    rest(text, op, start)
}
