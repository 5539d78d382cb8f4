// Rational roots, content and primitive part at the door (document 01, module 5; the original's univariate.rs).
#![tactic(auto)]

ghost use Rattle.std.specs.Prelude.{◌≡◌};
ghost use Rattle.ratio.specs.Step.{inv_of};
ghost use Rattle.terms.specs.Poly.{terms_of};
ghost use Rattle.poly.specs.declared.Gate.TheVariants.{Open};
ghost use Rattle.poly.specs.Door.{door_of};
ghost use Rattle.roots.specs.Answer.{budget_door, rational_roots_of};
ghost use Rattle.roots.specs.Promise.{RootsPromise, QuotesRoots};
ghost use Rattle.roots.specs.ContentPromise.{ContentPromise, PrimitivePromise};
ghost use Rattle.roots.specs.Content.{denominator_of, content_of, content_for, is_below, upright, over_content, primitive_of};
ghost use Rattle.roots.specs.Quote.{roots_quote};

use poly::Gate;
use ratio::{Ratio, Reason};
use search::Roots;
use terms::{Answer, Poly};

// Document 01's limits of a budget.
pub fn door_of_budget(budget: u64) -> Gate
    ensures is { result ≡ budget_door budget }
{
    if budget == 0 || budget > 65536 {
        Gate::Bad
    } else {
        Gate::Open
    }
}

// All rational roots, rising, each once.
pub fn rational_roots(p: Poly, budget: u64) -> Roots
    ensures is { result ≡ rational_roots_of p budget }
    ensures promise { RootsPromise p budget result }
{
    let d = poly::both(poly::door(p), door_of_budget(budget));
    if let Gate::Open = d {
        search::roots_of(p, budget)
    } else {
        search::no_roots(poly::reason(d))
    }
}

// The most that a search takes.
#[derive(Clone, Copy)]
pub struct Quote {
    pub trials: u64,
    pub candidates: u64,
    pub steps: u64,
}

// From the degree and the budget alone.
#[tactic(auto, using(crate::proofs::Auto::quoted))]
pub fn roots_price(degree: u64, budget: u64) -> Result<Quote, Reason>
    ensures is { result ≡ roots_quote degree budget }
    ensures promise { QuotesRoots degree budget result }
{
    if budget == 0 || budget > 65536 {
        Err(Reason::BadInput)
    } else if degree > 31 {
        Err(Reason::TooLong)
    } else {
        let candidates = 4 * budget * (4 * budget);
        Ok(Quote {
            trials: 2 * budget,
            candidates,
            steps: 3 * (degree + 1) * candidates,
        })
    }
}

// ---- content and primitive part

// The common multiple of two denominators; where that leaves the range the first one stays, as in the original.
fn denominator(d: Ratio, e: i64) -> Ratio
    ensures { result ≡ denominator_of d e }
{
    match search::widen(d, e) {
        Ok(m) => m,
        Err(_) => d,
    }
}

// The content of what came through the door.
fn content_terms(p: Poly) -> Ratio
    requires { door_of p ≡ Open }
    ensures { result ≡ content_of (terms_of p) }
{
    let n = p.length();
    let mut num: u64 = 0;
    let mut den = Ratio { num: 1, den: 1 };
    let mut i: usize = 0;
    while i < n {
        let c = p.coeffs[i];
        num = ratio::gcd_i64(num as i64, c.num);
        den = denominator(den, c.den);
        i += 1;
    }
    let Ok(r) = Ratio::new(num as i64, den.num) else {
        return Ratio { num: 0, den: 1 };
    };
    r
}

pub fn content(p: Poly) -> Result<Ratio, Reason>
    ensures is { result ≡ content_for p }
    ensures promise { ContentPromise p result }
{
    let d = poly::door(p);
    if let Gate::Open = d {
        Ok(content_terms(p))
    } else {
        Err(poly::reason(d))
    }
}

fn is_below(p: Poly) -> bool
    ensures { result ≡ is_below (terms_of p) }
{
    let n = p.length();
    if n == 0 {
        return false;
    }
    let c = p.coeffs[n - 1];
    c.num < 0
}

// Negated where the lead is below zero.
fn turned(a: Answer) -> Answer
    ensures { result ≡ upright a }
{
    let p = a.poly;
    if is_below(p) {
        let t = p.negate();
        let outcome = t.outcome;
        let poly = t.poly;
        Answer {
            outcome,
            poly,
            steps: a.steps,
        }
    } else {
        a
    }
}

fn primitive_terms(p: Poly) -> Answer
    requires { door_of p ≡ Open }
    ensures { result ≡ over_content p (inv_of (content_of (terms_of p))) }
{
    let Ok(c) = ratio::inverse(content_terms(p)) else {
        return terms::done(p, 0);
    };
    turned(p.scale(c))
}

// The polynomial over its content, its lead above zero.
pub fn primitive_part(p: Poly) -> Answer
    ensures is { result ≡ primitive_of p }
    ensures promise { PrimitivePromise p result }
{
    let d = poly::door(p);
    if let Gate::Open = d {
        primitive_terms(p)
    } else {
        terms::refused(poly::reason(d), 0)
    }
}
