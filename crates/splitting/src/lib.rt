// Splitting by rational roots and by Kronecker's method, total on any value (document 01, module 5; `split_into_irreducibles` of the original's factor.rs).
// Nothing here tests whether a polynomial is canonical; the crate `factor` stands in front of this and makes the test once.
#![tactic(auto)]

ghost use Rattle.std.specs.Prelude.{◌≡◌, false, List, [], length, take};
ghost use Rattle.ratio.specs.declared.Ratio.{Ratio};
ghost use Rattle.terms.specs.Poly.{terms_of};
ghost use Rattle.yun.specs.declared.Piece.{Piece};
ghost use Rattle.yun.specs.Answer.{found_all, pieces_of, decomposition_of};
ghost use Rattle.splitting.specs.Peel.{added_unless, line_answer, roots_in, start, peeled, left_of, stopped_for, PeelsOff};
ghost use Rattle.splitting.specs.Pair.{Padded, PaddedPair, pair_of, paired_by, pair_from};
ghost use Rattle.splitting.specs.Split.{Kept, Splits, split_all};

use kronecker::Verdict;
use ratio::{Ratio, Reason};
use search::Roots;
use terms::{Answer, Poly};
use yun::{Decomposition, Piece};

// What was found so far, and what is left to split; a refusal stands in `found`.
#[derive(Clone, Copy)]
struct Left {
    found: Decomposition,
    rest: Poly,
}

// Two factors, where there are two.
#[derive(Clone, Copy)]
struct Pair {
    outcome: Result<(), Reason>,
    two: bool,
    factor: Poly,
    quotient: Poly,
}

// p found as often as `times` says, where there is a place left for it; of a constant nothing.
#[tactic(auto, using(crate::proofs::Auto::add_steps))]
fn add(found: Decomposition, p: Poly, times: u64) -> Decomposition
    requires { Kept found × Padded p }
    ensures { result ≡ found_all (added_unless (terms_of p) times (pieces_of found)) }
{
    if p.length() < 2 {
        return found;
    }
    let n = found.len;
    if n >= 32 {
        return found;
    }
    let mut out = found;
    out.pieces[n] = Piece { poly: p, times };
    out.len = n + 1;
    out
}

fn no_pair(outcome: Result<(), Reason>) -> Pair
    ensures { PaddedPair result × (result.outcome ≡ outcome) × (result.two ≡ false) }
{
    Pair {
        outcome,
        two: false,
        factor: Poly::zero(),
        quotient: Poly::zero(),
    }
}

// ---- rational roots

// x less r.
fn line(r: Ratio) -> Answer
    ensures { result ≡ line_answer r }
{
    let Ok(n) = ratio::checked_neg(r) else {
        return terms::refused(Reason::CoeffOverflow, 0);
    };
    let mut p = Poly::zero();
    p.coeffs[0] = n;
    p.coeffs[1] = Ratio { num: 1, den: 1 };
    p.len = 2;
    terms::done(p, 0)
}

fn stopped(why: Reason) -> Left
    ensures { result ≡ stopped_for why }
{
    Left {
        found: yun::refused(why),
        rest: Poly::zero(),
    }
}

// What dividing out x less r comes to: that line and the quotient, where no rest is left.
// The list of factors stays in the loop, so that no root copies it.
#[tactic(auto, using(crate::proofs::Auto::peel_one_steps))]
fn peel_one(f: Poly, r: Ratio) -> Pair
    ensures { PeelsOff r (terms_of f) result }
{
    let a = line(r);
    let oa = a.outcome;
    if let Err(why) = oa {
        return no_pair(Err(why));
    }
    let x = a.poly;
    let d = remainders::divide(f, x);
    let od = d.outcome;
    if let Err(why) = od {
        return no_pair(Err(why));
    }
    let rest = d.rest;
    if rest.length() > 0 {
        return no_pair(Ok(()));
    }
    let q = d.quotient;
    Pair {
        outcome: Ok(()),
        two: true,
        factor: x,
        quotient: q,
    }
}

// How many roots an answer has that says n.
fn count(n: usize) -> usize
    ensures { (l : List Ratio) → length l ≡ 32 → result ≡ length (take n l) }
{
    n.min(32)
}

#[tactic(auto, using(crate::proofs::Auto::peel_steps))]
fn peel(found: Decomposition, f: Poly, roots: Roots, times: u64) -> Left
    requires { Kept found × Padded f }
    ensures { result ≡ left_of (peeled times (roots_in roots) (start (pieces_of found) (terms_of f))) }
{
    let n = count(roots.len);
    let mut now = found;
    let mut rest = f;
    for i in 0..n {
        let r = roots.values[i];
        let p = peel_one(rest, r);
        let o = p.outcome;
        if let Err(why) = o {
            return stopped(why);
        }
        if !p.two {
            continue;
        }
        rest = p.quotient;
        let k = now.len;
        if k >= 32 {
            continue;
        }
        let x = p.factor;
        now.pieces[k] = Piece { poly: x, times };
        now.len = k + 1;
    }
    Left { found: now, rest }
}

// ---- Kronecker's method

// The factor g and what it leaves of f, where that is of degree 1 or more.
#[tactic(auto, using(crate::proofs::Auto::divide_by_steps))]
fn divide_by(f: Poly, g: Poly) -> Pair
    requires { Padded g }
    ensures { (pair_from result ≡ paired_by (terms_of f) (terms_of g)) × PaddedPair result }
{
    let d = remainders::divide(f, g);
    let o = d.outcome;
    if let Err(why) = o {
        return no_pair(Err(why));
    }
    let rest = d.rest;
    if rest.length() > 0 {
        return no_pair(Ok(()));
    }
    let q = d.quotient;
    if q.length() < 2 {
        return no_pair(Ok(()));
    }
    Pair {
        outcome: Ok(()),
        two: true,
        factor: g,
        quotient: q,
    }
}

// Kronecker's method, for degrees 3 to 6.
#[tactic(auto, using(crate::proofs::Auto::halve_steps))]
fn halve(f: Poly, budget: u64) -> Pair
    ensures { (pair_from result ≡ pair_of (terms_of f) budget) × PaddedPair result }
{
    let n = f.length();
    if n < 4 {
        return no_pair(Ok(()));
    }
    if n > 7 {
        return no_pair(Ok(()));
    }
    let s = kronecker::try_split(f, budget);
    let v = s.verdict;
    let g = s.factor;
    match v {
        Verdict::Found => divide_by(f, g),
        Verdict::Next => no_pair(Ok(())),
        Verdict::NoSplit => no_pair(Ok(())),
        Verdict::Refused(why) => no_pair(Err(why)),
    }
}

// ---- splitting

// f split into factors, found as often as `times` says; each call works on a lower degree.
// Where the roots are refused, nothing is left to split, so that one test serves for both.
fn split(found: Decomposition, f: Poly, times: u64, budget: u64) -> Decomposition
    requires { Kept found × Padded f }
    ensures { Splits (terms_of f) times budget (pieces_of found) result }
{
    let n = f.length();
    if n < 3 {
        return add(found, f, times);
    }
    let roots = search::roots_of(f, budget);
    let ro = roots.outcome;
    if let Err(why) = ro {
        return yun::refused(why);
    }
    if roots.len > 0 {
        let l = peel(found, f, roots, times);
        let m = l.rest.length();
        if m < 2 {
            return l.found;
        }
        if m < n {
            return split(l.found, l.rest, times, budget);
        }
        return add(l.found, l.rest, times);
    }
    let p = halve(f, budget);
    let po = p.outcome;
    if let Err(why) = po {
        return yun::refused(why);
    }
    if !p.two {
        return add(found, f, times);
    }
    let a = split(found, p.factor, times, budget);
    let ao = a.outcome;
    if let Err(_) = ao {
        return a;
    }
    split(a, p.quotient, times, budget)
}

// Every factor of a decomposition is split; the multiplicities are kept. A linear one is laid in place, so that the list isn't copied for it.
#[tactic(auto, using(crate::proofs::Auto::all_steps))]
pub fn split_all(d: Decomposition, budget: u64) -> Decomposition
    ensures is { result ≡ decomposition_of (split_all (pieces_of d) budget []) }
{
    let n = size(d.len);
    let mut found = yun::nothing();
    for i in 0..n {
        let piece = d.pieces[i];
        let q = piece.poly.normalise();
        if q.length() != 2 {
            let next = split(found, q, piece.times, budget);
            let o = next.outcome;
            if let Err(_) = o {
                return next;
            }
            found = next;
            continue;
        }
        let k = found.len;
        if k >= 32 {
            continue;
        }
        found.pieces[k] = Piece {
            poly: q,
            times: piece.times,
        };
        found.len = k + 1;
    }
    found
}

// How many factors a list has that says n.
fn size(n: usize) -> usize
    ensures { (l : List Piece) → length l ≡ 32 → result ≡ length (take n l) }
{
    n.min(32)
}
