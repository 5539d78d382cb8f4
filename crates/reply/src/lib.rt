// The text of an answer (document 01, "the job program"): five lines, laid on a lent page.
#![tactic(auto)]

ghost use Rattle.std.specs.Prelude.{◌≡◌, ℕ, take};
ghost use Rattle.terms.specs.declared.Poly.{Poly};
ghost use Rattle.factor.specs.Factors.{factor_for};
ghost use Rattle.text.specs.Page.{laid, after};
ghost use Rattle.ops.specs.Op.{counted as counted_of};
ghost use Rattle.reply.specs.Reply.{steps_text, refused_text, refusal_text, begin_text, finish_text, end_text};
ghost use Rattle.reply.specs.Results.{answer_text, division_text, number_text, value_text, roots_text, piece_text, pieces_text, factors_text, count_text, isolation_text};
ghost use Rattle.reply.specs.Promise.{Fits};

use euclid::Whole;
use factor::Factorization;
use isolate::Isolation;
use ops::Op;
use ratio::{Ratio, Reason};
use remainders::Division;
use search::Roots;
use sturm::Count;
use terms::Answer;
use yun::Piece;

// ---- the five lines

// Up to the first result.
fn begin(op: Op, status: u64, out: &mut [u8], at: usize) -> usize
    ensures value { result ≡ after (begin_text op status) at out.old }
    ensures out_after { out.new ≡ laid (begin_text op status) at out.old }
{
    let a = text::write_bytes(b"op=", out, at);
    let b = ops::write_name(op, out, a);
    let c = text::write_bytes(b"\nstatus=", out, b);
    let d = text::write_decimal(status, out, c);
    text::write_bytes(b"\nout=", out, d)
}

// Whether an operation's steps are reported.
fn counted(op: Op) -> bool
    ensures { result ≡ counted_of op }
{
    match op {
        Op::Divide => true,
        Op::Gcd => true,
        Op::Resultant => true,
        Op::Discriminant => true,
        Op::Add => false,
        Op::Sub => false,
        Op::Mul => false,
        Op::Neg => false,
        Op::Diff => false,
        Op::Roots => false,
        Op::Factor => false,
        Op::Rebuild => false,
        Op::Eval => false,
        Op::Count => false,
        Op::Isolate => false,
        Op::Unknown => false,
    }
}

fn write_steps(op: Op, steps: u64, out: &mut [u8], at: usize) -> usize
    ensures value { result ≡ after (steps_text op steps) at out.old }
    ensures out_after { out.new ≡ laid (steps_text op steps) at out.old }
{
    if counted(op) {
        text::write_decimal(steps, out, at)
    } else {
        at
    }
}

// Behind the second result.
fn finish(op: Op, steps: u64, out: &mut [u8], at: usize) -> usize
    ensures value { result ≡ after (finish_text op steps) at out.old }
    ensures out_after { out.new ≡ laid (finish_text op steps) at out.old }
{
    let a = text::write_bytes(b"\nsteps=", out, at);
    let b = write_steps(op, steps, out, a);
    text::put(out, b, 10)
}

// Behind the first result, where there is no second.
fn end(op: Op, steps: u64, out: &mut [u8], at: usize) -> usize
    ensures value { result ≡ after (end_text op steps) at out.old }
    ensures out_after { out.new ≡ laid (end_text op steps) at out.old }
{
    let a = text::write_bytes(b"\nrest=", out, at);
    finish(op, steps, out, a)
}

// A refused job; the steps are those so far.
fn refuse(op: Op, why: Reason, steps: u64, out: &mut [u8], at: usize) -> usize
    ensures value { result ≡ after (refused_text op why steps) at out.old }
    ensures out_after { out.new ≡ laid (refused_text op why steps) at out.old }
{
    let a = begin(op, ratio::number(why), out, at);
    end(op, steps, out, a)
}

// ---- each kind of result

// A job that was refused before any work.
pub fn show_refusal(op: Op, why: Reason, out: &mut [u8], at: usize) -> usize
    ensures is { result ≡ after (refusal_text op why) at out.old }
    ensures page { out.new ≡ laid (refusal_text op why) at out.old }
    ensures fits { Fits (refusal_text op why) }
{
    refuse(op, why, 0, out, at)
}

// A polynomial.
pub fn show_answer(op: Op, a: Answer, out: &mut [u8], at: usize) -> usize
    ensures is { result ≡ after (answer_text op a) at out.old }
    ensures page { out.new ≡ laid (answer_text op a) at out.old }
    ensures fits { Fits (answer_text op a) }
{
    let o = a.outcome;
    match o {
        Ok(()) => {
            let first = begin(op, 0, out, at);
            let behind = text::write_poly(a.poly, out, first);
            end(op, a.steps, out, behind)
        }
        Err(why) => refuse(op, why, a.steps, out, at),
    }
}

// A quotient and a rest.
pub fn show_division(op: Op, d: Division, out: &mut [u8], at: usize) -> usize
    ensures is { result ≡ after (division_text op d) at out.old }
    ensures page { out.new ≡ laid (division_text op d) at out.old }
    ensures fits { Fits (division_text op d) }
{
    let o = d.outcome;
    match o {
        Ok(()) => {
            let first = begin(op, 0, out, at);
            let behind = text::write_poly(d.quotient, out, first);
            let second = text::write_bytes(b"\nrest=", out, behind);
            let last = text::write_poly(d.rest, out, second);
            finish(op, d.steps, out, last)
        }
        Err(why) => refuse(op, why, d.steps, out, at),
    }
}

// A resultant or a discriminant.
pub fn show_whole(op: Op, w: Whole, out: &mut [u8], at: usize) -> usize
    ensures is { result ≡ after (number_text op w) at out.old }
    ensures page { out.new ≡ laid (number_text op w) at out.old }
    ensures fits { Fits (number_text op w) }
{
    let o = w.outcome;
    match o {
        Ok(()) => {
            let first = begin(op, 0, out, at);
            let behind = text::write_whole(w.value, out, first);
            end(op, w.steps, out, behind)
        }
        Err(why) => refuse(op, why, w.steps, out, at),
    }
}

// A value at a point.
pub fn show_step(op: Op, s: Result<Ratio, Reason>, out: &mut [u8], at: usize) -> usize
    ensures is { result ≡ after (value_text op s) at out.old }
    ensures page { out.new ≡ laid (value_text op s) at out.old }
    ensures fits { Fits (value_text op s) }
{
    match s {
        Ok(v) => {
            let first = begin(op, 0, out, at);
            let behind = text::write_ratio(v, out, first);
            end(op, 0, out, behind)
        }
        Err(why) => refuse(op, why, 0, out, at),
    }
}

// Rational roots.
pub fn show_roots(op: Op, r: Roots, out: &mut [u8], at: usize) -> usize
    ensures is { result ≡ after (roots_text op r) at out.old }
    ensures page { out.new ≡ laid (roots_text op r) at out.old }
    ensures fits { Fits (roots_text op r) }
{
    let o = r.outcome;
    match o {
        Ok(()) => {
            let first = begin(op, 0, out, at);
            let values = r.values;
            let behind = text::write_ratios(values, r.len, out, first);
            end(op, 0, out, behind)
        }
        Err(why) => refuse(op, why, 0, out, at),
    }
}

// A factor and its multiplicity.
fn write_piece(p: Piece, out: &mut [u8], at: usize) -> usize
    ensures value { result ≡ after (piece_text p) at out.old }
    ensures out_after { out.new ≡ laid (piece_text p) at out.old }
{
    let a = text::write_bytes(b" ; ", out, at);
    let b = text::write_poly(p.poly, out, a);
    let c = text::write_bytes(b" ^ ", out, b);
    text::write_decimal(p.times, out, c)
}

fn write_pieces(pieces: [Piece; 32], len: usize, out: &mut [u8], at: usize) -> usize
    ensures value { result ≡ after (pieces_text (take len pieces)) at out.old }
    ensures out_after { out.new ≡ laid (pieces_text (take len pieces)) at out.old }
{
    let mut next = at;
    let mut i: usize = 0;
    while i < 32 {
        if i >= len {
            return next;
        }
        next = write_piece(pieces[i], out, next);
        i += 1;
    }
    next
}

// The content, then the factors.
pub fn show_factors(op: Op, f: Factorization, out: &mut [u8], at: usize) -> usize
    ensures is { result ≡ after (factors_text op f) at out.old }
    ensures page { out.new ≡ laid (factors_text op f) at out.old }
    ensures fits { (p : Poly) (budget : ℕ) → f ≡ factor_for p budget → Fits (factors_text op f) }
{
    let o = f.outcome;
    match o {
        Ok(()) => {
            let first = begin(op, 0, out, at);
            let behind = text::write_ratio(f.content, out, first);
            let pieces = f.pieces;
            let last = write_pieces(pieces, f.len, out, behind);
            end(op, 0, out, last)
        }
        Err(why) => refuse(op, why, 0, out, at),
    }
}

// A number of real roots.
pub fn show_count(op: Op, c: Count, out: &mut [u8], at: usize) -> usize
    ensures is { result ≡ after (count_text op c) at out.old }
    ensures page { out.new ≡ laid (count_text op c) at out.old }
    ensures fits { Fits (count_text op c) }
{
    let o = c.outcome;
    match o {
        Ok(()) => {
            let first = begin(op, 0, out, at);
            let behind = text::write_decimal(c.count as u64, out, first);
            end(op, 0, out, behind)
        }
        Err(why) => refuse(op, why, 0, out, at),
    }
}

// Real roots.
pub fn show_floats(op: Op, r: Isolation, out: &mut [u8], at: usize) -> usize
    ensures is { result ≡ after (isolation_text op r) at out.old }
    ensures page { out.new ≡ laid (isolation_text op r) at out.old }
    ensures fits { Fits (isolation_text op r) }
{
    let o = r.outcome;
    match o {
        Ok(()) => {
            let first = begin(op, 0, out, at);
            let roots = r.roots;
            let behind = text::write_floats(roots, r.len, out, first);
            end(op, 0, out, behind)
        }
        Err(why) => refuse(op, why, 0, out, at),
    }
}
