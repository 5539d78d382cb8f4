// Yun's square-free decomposition of any list of coefficients (document 01, module 5; the original's factor.rs).
// Nothing here tests whether a polynomial is canonical; the crate `factor` stands in front of this and makes the test once.
#![tactic(auto)]

ghost use Rattle.ratio.specs.Refusal.{no_refusal};
ghost use Rattle.std.specs.Prelude.{◌≡◌, true, false, [], length, Ok, Err};
ghost use Rattle.terms.specs.Poly.{terms_of, poly_of};
ghost use Rattle.yun.specs.Answer.{no_piece, refused_for, found_all, decomposition_of, over_with, Turns, piece_for, room_for};
ghost use Rattle.yun.specs.Round.{pushed, factor_of, ended, cut_by, turn_of};
ghost use Rattle.yun.specs.Yun.{rounds as rounds_of, split_by, split_of, found_or, square_frees};
ghost use Rattle.terms.specs.Answer.{answer_of};

use ratio::Reason;
use terms::{Answer, Poly};

// A factor and how often it occurs.
#[derive(Clone, Copy)]
pub struct Piece {
    pub poly: Poly,
    pub times: u64,
}

// The factors, or why there are none.
// A fixed array with a length beside it: the project allows no heap.
#[derive(Clone, Copy)]
pub struct Decomposition {
    pub outcome: Result<(), Reason>,
    pub pieces: [Piece; 32],
    pub len: usize,
}

// What a round of the loop comes to: a refusal, or that the polynomial stays whole, or the factor found (zero where none is),
// with b and c for the next round if there is more to do. The list of factors stays in the loop, so that no round copies it.
#[derive(Clone, Copy)]
struct Round {
    outcome: Result<(), Reason>,
    whole: bool,
    more: bool,
    factor: Poly,
    b: Poly,
    c: Poly,
}

fn no_piece() -> Piece
    ensures { result ≡ no_piece }
{
    Piece {
        poly: Poly::zero(),
        times: 0,
    }
}

pub fn refused(why: Reason) -> Decomposition
    ensures is { result ≡ refused_for why }
{
    Decomposition {
        outcome: Err(why),
        pieces: [no_piece(); 32],
        len: 0,
    }
}

pub fn nothing() -> Decomposition
    ensures is { result ≡ found_all [] }
{
    Decomposition {
        outcome: Ok(()),
        pieces: [no_piece(); 32],
        len: 0,
    }
}

// p found i times; of an empty p what an unused place holds.
fn piece_of(p: Poly, i: u64) -> Piece
    requires { p ≡ poly_of (terms_of p) }
    ensures { result ≡ piece_for (terms_of p) i }
{
    if p.length() == 0 {
        no_piece()
    } else {
        Piece { poly: p, times: i }
    }
}

// How many places p takes in the list.
fn room(p: Poly) -> usize
    ensures { result ≡ room_for (terms_of p) }
{
    if p.length() == 0 { 0 } else { 1 }
}

// f stays whole; of an empty f nothing.
fn whole(f: Poly) -> Decomposition
    requires { f ≡ poly_of (terms_of f) }
    ensures { result ≡ found_all (pushed (terms_of f) 1 []) }
{
    let mut out = nothing();
    let n = out.len;
    out.pieces[n] = piece_of(f, 1);
    out.len = n + room(f);
    out
}

// The loop ends.
fn over(outcome: Result<(), Reason>, whole: bool, factor: Poly) -> Round
    ensures { result ≡ over_with outcome whole factor }
{
    Round {
        outcome,
        whole,
        more: false,
        factor,
        b: Poly::zero(),
        c: Poly::zero(),
    }
}

fn stop(why: Reason) -> Round
    ensures { result ≡ over_with (Err why) false (poly_of []) }
{
    over(Err(why), false, Poly::zero())
}

fn stay_whole() -> Round
    ensures { result ≡ over_with no_refusal true (poly_of []) }
{
    over(Ok(()), true, Poly::zero())
}

// No difference is left: b, scaled, is the last factor.
fn end(b: Poly) -> Round
    ensures { Turns (λ i. ended i (terms_of b)) result }
{
    let m = remainders::monic(b);
    let o = m.outcome;
    if let Err(why) = o {
        return stop(why);
    }
    let p = m.poly;
    over(Ok(()), false, p)
}

// a, scaled, where its degree is at least 1; else nothing.
fn factor_of(a: Poly) -> Answer
    ensures { result ≡ answer_of (factor_of (terms_of a)) }
{
    if a.length() < 2 {
        return terms::done(Poly::zero(), 0);
    }
    remainders::monic(a)
}

// a is found, and b and d are divided by it; a rest leaves the polynomial whole.
fn cut(b: Poly, d: Poly, a: Poly) -> Round
    ensures { Turns (λ i found. cut_by i (terms_of b) (terms_of d) found (terms_of a)) result }
{
    let m = factor_of(a);
    let om = m.outcome;
    if let Err(why) = om {
        return stop(why);
    }
    let q = remainders::divide(b, a);
    let oq = q.outcome;
    if let Err(why) = oq {
        return stop(why);
    }
    let r = remainders::divide(d, a);
    let or = r.outcome;
    if let Err(why) = or {
        return stop(why);
    }
    let rest_b = q.rest;
    let rest_c = r.rest;
    if rest_b.length() > 0 {
        return stay_whole();
    }
    if rest_c.length() > 0 {
        return stay_whole();
    }
    let factor = m.poly;
    let next_b = q.quotient;
    let next_c = r.quotient;
    Round {
        outcome: Ok(()),
        whole: false,
        more: true,
        factor,
        b: next_b,
        c: next_c,
    }
}

// A round of the loop.
fn turn(b: Poly, c: Poly) -> Round
    ensures { Turns (λ i. turn_of i (terms_of b) (terms_of c)) result }
{
    if b.length() < 2 {
        return over(Ok(()), false, Poly::zero());
    }
    let db = b.differentiate();
    let ob = db.outcome;
    if let Err(why) = ob {
        return stop(why);
    }
    let slope = db.poly;
    let diff = c.zip(slope, true);
    let od = diff.outcome;
    if let Err(why) = od {
        return stop(why);
    }
    let d = diff.poly;
    if d.length() == 0 {
        return end(b);
    }
    let g = remainders::greatest(b, d);
    let og = g.outcome;
    if let Err(why) = og {
        return stop(why);
    }
    let a = g.poly;
    cut(b, d, a)
}

// The rounds from b and c on, at most as many as f has coefficients: the factor found in round i occurs i times. Where none is, f stays whole.
fn rounds(f: Poly, b: Poly, c: Poly) -> Decomposition
    requires { f ≡ poly_of (terms_of f) }
    ensures { result ≡ decomposition_of (found_or (terms_of f) (rounds_of (length (terms_of f)) 1 (terms_of b) (terms_of c) [])) }
{
    let n = f.length();
    let mut u = b;
    let mut v = c;
    let mut found = nothing();
    let mut i: usize = 0;
    while i < n {
        let t = turn(u, v);
        let o = t.outcome;
        if let Err(why) = o {
            return refused(why);
        }
        if t.whole {
            return whole(f);
        }
        let p = t.factor;
        let k = found.len;
        found.pieces[k] = piece_of(p, (i as u64) + 1);
        found.len = k + room(p);
        if !t.more {
            if found.len == 0 {
                return whole(f);
            }
            return found;
        }
        u = t.b;
        v = t.c;
        i += 1;
    }
    whole(f)
}

// f and its derivative over their gcd a, then the rounds.
fn split_by(f: Poly, df: Poly, a: Poly) -> Decomposition
    requires { f ≡ poly_of (terms_of f) }
    ensures { result ≡ decomposition_of (found_or (terms_of f) (split_by (terms_of f) (terms_of df) (terms_of a))) }
{
    let q = remainders::divide(f, a);
    let oq = q.outcome;
    if let Err(why) = oq {
        return refused(why);
    }
    let rest_b = q.rest;
    if rest_b.length() > 0 {
        return whole(f);
    }
    let r = remainders::divide(df, a);
    let or = r.outcome;
    if let Err(why) = or {
        return refused(why);
    }
    let rest_c = r.rest;
    if rest_c.length() > 0 {
        return whole(f);
    }
    let b = q.quotient;
    let c = r.quotient;
    rounds(f, b, c)
}

// The factors of a monic polynomial; what isn't split stays whole.
fn split(f: Poly) -> Decomposition
    requires { f ≡ poly_of (terms_of f) }
    ensures { result ≡ decomposition_of (found_or (terms_of f) (split_of (terms_of f))) }
{
    let d = f.differentiate();
    let od = d.outcome;
    if let Err(why) = od {
        return refused(why);
    }
    let df = d.poly;
    if df.length() == 0 {
        return whole(f);
    }
    let g = remainders::greatest(f, df);
    let og = g.outcome;
    if let Err(why) = og {
        return refused(why);
    }
    let a = g.poly;
    split_by(f, df, a)
}

// Yun's decomposition: monic factors with their multiplicities; of zero none.
pub fn decompose(f: Poly) -> Decomposition
    ensures is { result ≡ decomposition_of (square_frees (terms_of f)) }
{
    if f.length() == 0 {
        return nothing();
    }
    let m = remainders::monic(f);
    let om = m.outcome;
    if let Err(why) = om {
        return refused(why);
    }
    let p = m.poly;
    split(p)
}
