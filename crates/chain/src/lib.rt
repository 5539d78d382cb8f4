// The chain of negated remainders of any list of coefficients (document 01, module 6; the original's sturm.rs).
// Nothing here tests whether a polynomial is canonical; the crate `sturm` stands in front of this and makes the test once.
#![tactic(auto)]

ghost use Rattle.std.specs.Prelude.{◌≡◌, [], ◌∷◌, ◌≤◌, ◌<◌, length};
ghost use Rattle.terms.specs.Poly.{terms_of, poly_of};
ghost use Rattle.chain.specs.Next.{next_of};
ghost use Rattle.chain.specs.Sequence.{behind, sequence_of};
ghost use Rattle.chain.specs.Answer.{Links, refused_for, holding, chain_of};

use ratio::Reason;
use terms::{Answer, Poly};

// The polynomials of the chain, or why there are none.
// A fixed array with a length beside it: the project allows no heap.
#[derive(Clone, Copy)]
pub struct Chain {
    pub outcome: Result<(), Reason>,
    pub polys: [Poly; 32],
    pub len: usize,
}

pub fn refused(why: Reason) -> Chain
    ensures is { result ≡ refused_for why }
{
    Chain {
        outcome: Err(why),
        polys: [Poly::zero(); 32],
        len: 0,
    }
}

fn empty() -> Chain
    ensures { result ≡ holding [] }
{
    Chain {
        outcome: Ok(()),
        polys: [Poly::zero(); 32],
        len: 0,
    }
}

// The negated remainder of a by b.
#[tactic(auto, using(crate::proofs::Auto::links))]
fn next(a: Poly, b: Poly) -> Answer
    ensures { Links (next_of (terms_of a) (terms_of b)) result }
{
    let d = remainders::divide(a, b);
    let o = d.outcome;
    if let Err(why) = o {
        return terms::refused(why, 0);
    }
    let rest = d.rest;
    rest.negate()
}

// p, d and the negated remainders behind them, until one is zero.
fn follow(p: Poly, d: Poly) -> Chain
    requires { (p ≡ poly_of (terms_of p)) × (d ≡ poly_of (terms_of d)) × (length (terms_of d) < 32) }
    ensures { result ≡ chain_of (behind (length (terms_of d)) (terms_of p) (terms_of d)) }
{
    // Entries are laid in place: a function that takes the chain would copy it.
    let mut out = empty();
    out.polys[0] = p;
    out.len = 1;
    let mut a = p;
    let mut b = d;
    while b.length() > 0 {
        let n = out.len;
        out.polys[n] = b;
        out.len = n + 1;
        let r = next(a, b);
        let o = r.outcome;
        if let Err(why) = o {
            return refused(why);
        }
        a = b;
        b = r.poly;
    }
    out
}

// The chain of p: p, its derivative, and then each entry the negated remainder of the two before it; of zero nothing.
#[tactic(auto, using(crate::proofs::Auto::starts))]
pub fn sequence(p: Poly) -> Chain
    ensures is { result ≡ chain_of (sequence_of (terms_of p)) }
{
    let f = p.normalise();
    if f.length() == 0 {
        return empty();
    }
    let d = f.differentiate();
    let o = d.outcome;
    if let Err(why) = o {
        return refused(why);
    }
    let df = d.poly;
    follow(f, df)
}
