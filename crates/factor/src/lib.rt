// The square-free decomposition, the factors and their product at the door (document 01, module 5; the original's factor.rs).
#![tactic(auto)]

ghost use Rattle.std.specs.Prelude.{◌≡◌, List, [], ◌∷◌, length, take};
ghost use Rattle.terms.specs.Poly.{terms_of, poly_of, trim};
ghost use Rattle.yun.specs.declared.Piece.{Piece};
ghost use Rattle.splitting.specs.Pair.{Padded};
ghost use Rattle.poly.specs.Promise.{Gives};
ghost use Rattle.factor.specs.Factors.{decomposition_for, content_behind, factors_behind, content_with, factor_for};
ghost use Rattle.factor.specs.Promise.{FactorPromise, DecompositionPromise, rebuilt_as};
ghost use Rattle.factor.specs.Rebuild.{answer_from, refused_from, raised, factors_in, rebuilt, rebuild_for};

use poly::Gate;
use ratio::{Ratio, Reason};
use terms::{Answer, Poly};
use yun::{Decomposition, Piece};

// The content, and the factors with their multiplicities; or why there are none.
// A fixed array with a length beside it: the project allows no heap.
#[derive(Clone, Copy)]
pub struct Factorization {
    pub outcome: Result<(), Reason>,
    pub content: Ratio,
    pub pieces: [Piece; 32],
    pub len: usize,
}

// Yun's decomposition: monic factors with their multiplicities.
pub fn square_free_decomposition(f: Poly) -> Decomposition
    ensures is { result ≡ decomposition_for f }
    ensures promise { DecompositionPromise f result }
{
    let d = poly::door(f);
    if let Gate::Open = d {
        return yun::decompose(f);
    }
    yun::refused(poly::reason(d))
}

// The content, where the door is open; else why there are no factors.
fn content_behind(d: Gate, p: Poly) -> Result<Ratio, Reason>
    ensures { result ≡ content_behind d p }
{
    if let Gate::Open = d {
        let Ok(c) = roots::content(p) else {
            return Err(Reason::BadInput);
        };
        return Ok(c);
    }
    Err(poly::reason(d))
}

// The primitive part's decomposition, each factor split, where there is a content.
fn split_primitive(c: Result<Ratio, Reason>, p: Poly, budget: u64) -> Decomposition
    ensures { result ≡ factors_behind c p budget }
{
    if let Err(why) = c {
        return yun::refused(why);
    }
    let a = roots::primitive_part(p);
    let o = a.outcome;
    if let Err(why) = o {
        return yun::refused(why);
    }
    let q = a.poly;
    let d = yun::decompose(q);
    let od = d.outcome;
    if let Err(_) = od {
        return d;
    }
    splitting::split_all(d, budget)
}

// The content that goes with the factors: 0 where there are none.
fn content_with(o: Result<(), Reason>, c: Result<Ratio, Reason>) -> Ratio
    ensures { result ≡ content_with o c }
{
    if let Err(_) = o {
        return Ratio { num: 0, den: 1 };
    }
    let Ok(r) = c else {
        return Ratio { num: 0, den: 1 };
    };
    r
}

// The content and the factors of a polynomial. There is one way out, so that the list is copied once.
pub fn factor(p: Poly, budget: u64) -> Factorization
    ensures is { result ≡ factor_for p budget }
    ensures promise { FactorPromise p result }
{
    let d = poly::both(poly::door(p), roots::door_of_budget(budget));
    let c = content_behind(d, p);
    let s = split_primitive(c, p, budget);
    let outcome = s.outcome;
    let content = content_with(outcome, c);
    let pieces = s.pieces;
    Factorization {
        outcome,
        content,
        pieces,
        len: s.len,
    }
}

// ---- the product of the factors

fn refused(why: Reason) -> Answer
    ensures { result ≡ refused_from why }
{
    terms::refused(why, 0)
}

// acc times q, as often as `times` says.
fn raise(acc: Poly, q: Poly, times: u64) -> Answer
    requires { Padded acc }
    ensures { result ≡ answer_from (raised times (terms_of q) (terms_of acc)) }
{
    let mut now = acc;
    let mut i: u64 = 0;
    while i < times {
        let a = now.times(q);
        let o = a.outcome;
        if let Err(why) = o {
            return refused(why);
        }
        now = a.poly;
        i += 1;
    }
    terms::done(now, 0)
}

// How many factors an answer has that says n.
fn count(n: usize) -> usize
    ensures { (l : List Piece) → length l ≡ 32 → result ≡ length (take n l) }
{
    if n < 32 { n } else { 32 }
}

// The content times the factors in list order.
fn multiply(r: Factorization) -> Answer
    ensures { result ≡ answer_from (rebuilt (factors_in r) (trim (r.content ∷ []))) }
{
    let n = count(r.len);
    let mut now = constant(r.content);
    let mut i: usize = 0;
    while i < n {
        let piece = r.pieces[i];
        let q = piece.poly;
        let a = raise(now, q, piece.times);
        let o = a.outcome;
        if let Err(why) = o {
            return refused(why);
        }
        now = a.poly;
        i += 1;
    }
    terms::done(now, 0)
}

// The constant c; of 0 the zero polynomial.
fn constant(c: Ratio) -> Poly
    ensures { result ≡ poly_of (trim (c ∷ [])) }
{
    let mut p = Poly::zero();
    p.coeffs[0] = c;
    p.len = 1;
    p.normalise()
}

// Factors p, then multiplies the content by the factors, one at a time, each as often as its multiplicity.
pub fn rebuild(p: Poly, budget: u64) -> Answer
    ensures is { result ≡ rebuild_for p budget }
    ensures promise { Gives (rebuilt_as p budget) result }
{
    let r = factor(p, budget);
    let o = r.outcome;
    match o {
        Err(why) => refused(why),
        Ok(()) => multiply(r),
    }
}
