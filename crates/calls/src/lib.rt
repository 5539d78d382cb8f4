// The engine for programs in other languages. A polynomial comes as a list of numerators and one of denominators, an operation by its number.
// The numbers are those of specs/Call.antt and not an enum, since a program in C may hand over any number.
// An answer is written to lent memory, 32 numerators and 32 denominators a polynomial; a refusal writes nothing.
#![tactic(auto)]

ghost use Rattle.std.specs.Prelude.{◌≡◌};
ghost use Rattle.poly.specs.declared.Gate.TheVariants.{Open};
ghost use Rattle.poly.specs.Door.{door_of};
ghost use Rattle.calls.specs.Call.{told_answer, constant_of, told_whole, told_step, told_roots, behind, told_factor, place_of, whole_factors, point_of, rooted_of, factored_of, gate_of, limits_of, one_of, two_of, called_of, nums_of, dens_of, number_told, lent_after, step_for, lent_step};
ghost use Rattle.ratio.specs.Refusal.{status_of};

use euclid::Whole;
use factor::Factorization;
use poly::Gate;
use ratio::{Ratio, Reason};
use remainders::Division;
use search::Roots;
use terms::{Answer, Poly};
use yun::Decomposition;

fn told(a: Answer) -> Division
    ensures { result ≡ told_answer a }
{
    let outcome = a.outcome;
    let quotient = a.poly;
    Division {
        outcome,
        quotient,
        rest: Poly::zero(),
        steps: a.steps,
    }
}

fn constant(c: Ratio) -> Poly
    ensures { result ≡ constant_of c }
{
    let mut p = Poly::zero();
    p.coeffs[0] = c;
    p.len = 1;
    p.normalise()
}

fn told_whole(w: Whole) -> Division
    ensures { result ≡ told_whole w }
{
    let outcome = w.outcome;
    let value = Ratio {
        num: w.value,
        den: 1,
    };
    Division {
        outcome,
        quotient: constant(value),
        rest: Poly::zero(),
        steps: w.steps,
    }
}

fn told_step(s: Result<Ratio, Reason>) -> Division
    ensures { result ≡ told_step s }
{
    match s {
        Ok(v) => Division {
            outcome: Ok(()),
            quotient: constant(v),
            rest: Poly::zero(),
            steps: 0,
        },
        Err(why) => remainders::no_division(why, 0),
    }
}

// The list of roots as the first, how many they are as the second.
fn told_roots(r: Roots) -> Division
    ensures { result ≡ told_roots r }
{
    let outcome = r.outcome;
    let coeffs = r.values;
    let len = r.len;
    let count = Ratio {
        num: (len % 64) as i64,
        den: 1,
    };
    Division {
        outcome,
        quotient: Poly { coeffs, len },
        rest: constant(count),
        steps: r.steps,
    }
}

// The content; the steps are the number of factors.
fn told_content(f: Factorization) -> Division
    ensures { result ≡ behind f }
{
    let outcome = f.outcome;
    Division {
        outcome,
        quotient: constant(f.content),
        rest: Poly::zero(),
        steps: f.len as u64,
    }
}

// The factor at a place as the first, its multiplicity as the second; behind the last one the content.
fn told_factor(f: Factorization, at: usize) -> Division
    ensures { result ≡ told_factor f at }
{
    let len = f.len;
    if at >= 32 {
        told_content(f)
    } else if at >= len {
        told_content(f)
    } else {
        let outcome = f.outcome;
        let piece = f.pieces[at];
        let quotient = piece.poly;
        let times = Ratio {
            num: (piece.times % 64) as i64,
            den: 1,
        };
        Division {
            outcome,
            quotient,
            rest: constant(times),
            steps: len as u64,
        }
    }
}

// A decomposition as factors with content 0.
fn as_factors(d: Decomposition) -> Factorization
    ensures { result ≡ whole_factors d }
{
    let outcome = d.outcome;
    let pieces = d.pieces;
    Factorization {
        outcome,
        content: Ratio { num: 0, den: 1 },
        pieces,
        len: d.len,
    }
}

// The constant term.
fn point(b: Poly) -> Ratio
    ensures { result ≡ point_of b }
{
    if b.length() == 0 {
        Ratio { num: 0, den: 1 }
    } else {
        b.coeffs[0]
    }
}

fn rooted(op: u64, a: Poly, n: usize) -> Division
    ensures { result ≡ rooted_of op a n }
{
    if op == 9 {
        told_roots(roots::rational_roots(a, n as u64))
    } else if op == 17 {
        told_step(roots::content(a))
    } else if op == 18 {
        told(roots::primitive_part(a))
    } else {
        remainders::no_division(Reason::BadInput, 0)
    }
}

// The place of a factor, handed over as a constant polynomial.
fn place(b: Poly) -> usize
    ensures { result ≡ place_of b }
{
    let x = point(b);
    ratio::magnitude(x.num) as usize
}

fn factored(op: u64, a: Poly, b: Poly, n: usize) -> Division
    ensures { result ≡ factored_of op a b n }
{
    if op == 10 {
        told_factor(factor::factor(a, n as u64), place(b))
    } else if op == 11 {
        told(factor::rebuild(a, n as u64))
    } else if op == 19 {
        told_factor(as_factors(factor::square_free_decomposition(a)), place(b))
    } else {
        one(op, a, n)
    }
}

fn one(op: u64, a: Poly, n: usize) -> Division
    ensures { result ≡ one_of op a n }
{
    if op == 6 {
        told(poly::neg(a))
    } else if op == 7 {
        told(poly::diff(a))
    } else if op == 8 {
        told_whole(euclid::discriminant(a))
    } else if op == 15 {
        told(poly::pow(a, n))
    } else if op == 16 {
        told(euclid::square_free(a))
    } else {
        rooted(op, a, n)
    }
}

// The inputs were tested when they were read, so that the work is called without a second test.
fn two(op: u64, a: Poly, b: Poly, n: usize) -> Division
    requires { (door_of a ≡ Open) × (door_of b ≡ Open) }
    ensures { result ≡ two_of op a b n }
{
    if op == 0 {
        told(a.zip(b, false))
    } else if op == 1 {
        told(a.zip(b, true))
    } else if op == 2 {
        told(a.times(b))
    } else if op == 3 {
        remainders::divide(a, b)
    } else if op == 4 {
        told(remainders::greatest(a, b))
    } else if op == 5 {
        told_whole(euclid::resultant(a, b))
    } else if op == 12 {
        told_step(a.value_at(point(b)))
    } else {
        factored(op, a, b, n)
    }
}

// How a list of an input came in.
pub fn gate(o: Result<(), Reason>) -> Gate
    ensures is { result ≡ gate_of o }
{
    match o {
        Ok(()) => Gate::Open,
        Err(why) => {
            if ratio::number(why) == 4 {
                Gate::Long
            } else {
                Gate::Bad
            }
        }
    }
}

// Document 01's limits of a budget, where the operation takes one.
fn limits(op: u64, n: usize) -> Gate
    ensures { result ≡ limits_of op n }
{
    if op < 9 {
        Gate::Open
    } else if op > 11 {
        Gate::Open
    } else if n == 0 {
        Gate::Bad
    } else if n > 65536 {
        Gate::Bad
    } else {
        Gate::Open
    }
}

fn called(op: u64, an: &[i64], ad: &[i64], bn: &[i64], bd: &[i64], n: usize) -> Division
    ensures { result ≡ called_of op an.now ad.now bn.now bd.now n }
{
    let a = poly::from_parts(an, ad);
    let b = poly::from_parts(bn, bd);
    let oa = a.outcome;
    let ob = b.outcome;
    let d = poly::both(poly::both(gate(oa), gate(ob)), limits(op, n));
    if let Gate::Open = d {
        two(op, a.poly, b.poly, n)
    } else {
        remainders::no_division(poly::reason(d), 0)
    }
}

// The 32 numerators of a polynomial.
pub fn nums(p: Poly) -> [i64; 32]
    ensures is { result ≡ nums_of p }
{
    let mut out = [0i64; 32];
    let mut i: usize = 0;
    while i < 32 {
        let c = p.coeffs[i];
        let v = c.num;
        out[i] = v;
        i += 1;
    }
    out
}

pub fn dens(p: Poly) -> [i64; 32]
    ensures is { result ≡ dens_of p }
{
    let mut out = [0i64; 32];
    let mut i: usize = 0;
    while i < 32 {
        let c = p.coeffs[i];
        let v = c.den;
        out[i] = v;
        i += 1;
    }
    out
}

// What is handed back: 16 times the steps, plus the status.
pub fn number(o: Result<(), Reason>, steps: u64) -> u64
    ensures is { result ≡ number_told o steps }
{
    let up = steps % 72057594037927936 * 16;
    match o {
        Ok(()) => up,
        Err(why) => up + ratio::number(why),
    }
}

pub fn kanrosuye_call(
    op: u64,
    an: &[i64],
    ad: &[i64],
    bn: &[i64],
    bd: &[i64],
    n: usize,
    qn: &mut [i64; 32],
    qd: &mut [i64; 32],
    rn: &mut [i64; 32],
    rd: &mut [i64; 32],
) -> u64
    ensures is { result ≡ number_told (called_of op an.now ad.now bn.now bd.now n).outcome (called_of op an.now ad.now bn.now bd.now n).steps }
    ensures first_nums { qn.new ≡ lent_after (called_of op an.now ad.now bn.now bd.now n).outcome qn.old (nums_of (called_of op an.now ad.now bn.now bd.now n).quotient) }
    ensures first_dens { qd.new ≡ lent_after (called_of op an.now ad.now bn.now bd.now n).outcome qd.old (dens_of (called_of op an.now ad.now bn.now bd.now n).quotient) }
    ensures second_nums { rn.new ≡ lent_after (called_of op an.now ad.now bn.now bd.now n).outcome rn.old (nums_of (called_of op an.now ad.now bn.now bd.now n).rest) }
    ensures second_dens { rd.new ≡ lent_after (called_of op an.now ad.now bn.now bd.now n).outcome rd.old (dens_of (called_of op an.now ad.now bn.now bd.now n).rest) }
{
    let t = called(op, an, ad, bn, bd, n);
    let o = t.outcome;
    match o {
        Ok(()) => {
            *qn = nums(t.quotient);
            *qd = dens(t.quotient);
            *rn = nums(t.rest);
            *rd = dens(t.rest);
            number(o, t.steps)
        }
        Err(why) => number(Err(why), t.steps),
    }
}

// ---- single steps

fn step(op: u64, a: Ratio, b: Ratio) -> Result<Ratio, Reason>
    ensures { result ≡ step_for op a b }
{
    if op == 0 {
        ratio::checked_add(a, b)
    } else if op == 1 {
        ratio::checked_sub(a, b)
    } else if op == 2 {
        ratio::checked_mul(a, b)
    } else if op == 3 {
        ratio::checked_neg(a)
    } else if op == 4 {
        ratio::inverse(a)
    } else if op == 5 {
        Ratio::new(a.num, a.den)
    } else {
        Err(Reason::BadInput)
    }
}

// One rational step on an / ad and bn / bd; the fraction is written as its numerator and its denominator. Handed back: the status.
pub fn kanrosuye_step(op: u64, an: i64, ad: i64, bn: i64, bd: i64, out: &mut [i64; 2]) -> u64
    ensures is { result ≡ status_of (step_for op (record { num = an; den = ad }) (record { num = bn; den = bd })) }
    ensures lent { out.new ≡ lent_step out.old (step_for op (record { num = an; den = ad }) (record { num = bn; den = bd })) }
{
    let s = step(op, Ratio { num: an, den: ad }, Ratio { num: bn, den: bd });
    match s {
        Ok(v) => {
            *out = [v.num, v.den];
            0
        }
        Err(why) => ratio::number(why),
    }
}
