// Values of a polynomial in floats, sign changes of the chain and the count of real roots (document 01, module 6; the original's sturm.rs).
#![tactic(auto)]

ghost use Rattle.std.specs.Prelude.{◌≡◌, List, ◌+◌, ◌-◌, ◌≤◌, Float, length, take, drop};
ghost use Rattle.std.proofs.Math.Seq.{paste};
ghost use Rattle.terms.specs.declared.Poly.{Poly};
ghost use Rattle.terms.specs.Poly.{terms_of};
ghost use Rattle.chain.specs.Answer.{entries_of};
ghost use Rattle.sturm.specs.Value.{floats_of, horner};
ghost use Rattle.sturm.specs.Sign.{sign_of};
ghost use Rattle.sturm.specs.Changes.{newer as newer_of, differ as differ_of, changes};
ghost use Rattle.sturm.specs.Along.{rows_of, signs_at};
ghost use Rattle.sturm.specs.Rows.{row_of, holding, rows_in};
ghost use Rattle.sturm.specs.Promise.{ChainPromise, CountPromise};
ghost use Rattle.sturm.specs.Count.{sequence_for, inside as inside_of, ends_of, no_count, count_of, count_from, count_for};

use chain::Chain;
use poly::Gate;
use ratio::Reason;
use terms::Poly;

// The sign of a float; a NaN has none of the others.
#[derive(Clone, Copy)]
pub enum Sign {
    Zero,
    Plus,
    Minus,
    Nan,
}

// A polynomial's coefficients as floats.
// A fixed array with a length beside it: the project allows no heap.
#[derive(Clone, Copy)]
pub struct Row {
    pub values: [f64; 32],
    pub len: usize,
}

// The rows of a chain, one behind the other, and how long each of them is.
#[derive(Clone, Copy)]
pub struct Rows {
    pub values: [f64; 1024],
    pub sizes: [usize; 32],
    pub len: usize,
}

// How many roots were counted, or why there is no number.
#[derive(Clone, Copy)]
pub struct Count {
    pub outcome: Result<(), Reason>,
    pub count: usize,
}

// ---- values

// The coefficients of p as floats, from place `at` on; the place behind them is handed back.
fn lay(p: Poly, out: &mut [f64], at: usize) -> usize
    requires { at + 32 ≤ length out.old }
    ensures value { (result ≡ at + length (floats_of (terms_of p))) × (length (floats_of (terms_of p)) ≤ 32) }
    ensures out_after { out.new ≡ paste out.old at (floats_of (terms_of p)) (length (floats_of (terms_of p))) }
{
    let n = p.top();
    for i in 0..n {
        let c = p.coeffs[i];
        out[at + i] = bridge::plain_to_f64(c);
    }
    at + n
}

// The coefficients of p as floats.
pub fn floats(p: Poly) -> Row
    ensures is { result ≡ row_of (floats_of (terms_of p)) }
{
    let mut values = [0.0; 32];
    let len = lay(p, &mut values, 0);
    Row { values, len }
}

// The coefficients of a chain as floats.
pub fn chain_floats(c: Chain) -> Rows
    ensures is { result ≡ holding (rows_of (entries_of c)) }
{
    let n = size(c.len);
    let mut values = [0.0; 1024];
    let mut sizes: [usize; 32] = [0; 32];
    let mut at: usize = 0;
    for i in 0..n {
        let p = c.polys[i];
        let next = lay(p, &mut values, at);
        sizes[i] = next - at;
        at = next;
    }
    Rows {
        values,
        sizes,
        len: n,
    }
}

// Horner from the top, two roundings a term; zero where there is no coefficient.
pub fn eval_f64(row: &[f64], x: f64) -> f64
    ensures is { result ≡ horner row.now x }
{
    let n = row.len();
    if n == 0 {
        return 0.0;
    }
    let mut acc = row[n - 1];
    for i in 1..n {
        acc = acc * x + row[n - i - 1];
    }
    acc
}

// ---- signs

pub fn sign_of(v: f64) -> Sign
    ensures is { result ≡ sign_of v }
{
    if v > 0.0 {
        Sign::Plus
    } else if v < 0.0 {
        Sign::Minus
    } else if v == 0.0 {
        Sign::Zero
    } else {
        Sign::Nan
    }
}

// The last sign that is not zero.
fn newer(last: Sign, s: Sign) -> Sign
    ensures { result ≡ newer_of last s }
{
    match s {
        Sign::Zero => last,
        Sign::Plus => Sign::Plus,
        Sign::Minus => Sign::Minus,
        Sign::Nan => Sign::Nan,
    }
}

// 1 where the sign changes; a zero changes nothing, and a NaN differs from each neighbour, also from a NaN.
fn differ(last: Sign, s: Sign) -> usize
    ensures { result ≡ differ_of last s }
{
    match last {
        Sign::Zero => 0,
        Sign::Plus => match s {
            Sign::Zero => 0,
            Sign::Plus => 0,
            Sign::Minus => 1,
            Sign::Nan => 1,
        },
        Sign::Minus => match s {
            Sign::Zero => 0,
            Sign::Plus => 1,
            Sign::Minus => 0,
            Sign::Nan => 1,
        },
        Sign::Nan => match s {
            Sign::Zero => 0,
            Sign::Plus => 1,
            Sign::Minus => 1,
            Sign::Nan => 1,
        },
    }
}

// How many polynomials a chain has that says n.
fn size(n: usize) -> usize
    ensures { (l : List Poly) → length l ≡ 32 → result ≡ length (take n l) }
{
    n.min(32)
}

// Where a row of n floats that begins at `at` ends, among all of them.
fn until(at: usize, n: usize, all: usize) -> usize
    requires { at ≤ all }
    ensures { (at ≤ result) × (result ≤ all) × ((l : List Float) → length l ≡ all → (take (result - at) (drop at l) ≡ take n (drop at l)) × (drop result l ≡ drop n (drop at l))) }
{
    if n < all - at { at + n } else { all }
}

// The sign changes of the rows' values at x.
pub fn sign_changes(values: &[f64], sizes: &[usize], x: f64) -> usize
    ensures is { result ≡ changes (signs_at (rows_in values.now sizes.now) x) }
{
    let mut last = Sign::Zero;
    let mut count: usize = 0;
    let mut at: usize = 0;
    for i in 0..sizes.len() {
        let to = until(at, sizes[i], values.len());
        let s = sign_of(eval_f64(&values[at..to], x));
        count += differ(last, s);
        last = newer(last, s);
        at = to;
    }
    count
}

// ---- the chain

// The chain of remainders of p: p, its derivative, and each entry behind them the negated remainder of the two before it.
pub fn sturm_sequence(p: Poly) -> Chain
    ensures is { result ≡ sequence_for p }
    ensures promise { ChainPromise p result }
{
    let d = poly::door(p);
    if let Gate::Open = d {
        chain::sequence(p)
    } else {
        chain::refused(poly::reason(d))
    }
}

// ---- the count

// Within ±1e15; what is not finite isn't.
fn inside(x: f64) -> bool
    ensures { result ≡ inside_of x }
{
    if x >= -1e15 { x <= 1e15 } else { false }
}

// Whether both ends are within ±1e15.
pub fn ends(lo: f64, hi: f64) -> Gate
    ensures is { result ≡ ends_of lo hi }
{
    if !inside(lo) {
        Gate::Bad
    } else if inside(hi) {
        Gate::Open
    } else {
        Gate::Bad
    }
}

fn no_count(why: Reason) -> Count
    ensures { result ≡ no_count why }
{
    Count {
        outcome: Err(why),
        count: 0,
    }
}

// The sign changes along the chain that are lost between the ends, at least 0.
fn lost(c: Chain, lo: f64, hi: f64) -> usize
    ensures { result ≡ changes (signs_at (rows_of (entries_of c)) lo) - changes (signs_at (rows_of (entries_of c)) hi) }
{
    let t = chain_floats(c);
    let values = t.values;
    let sizes = t.sizes;
    let n = t.len;
    let va = sign_changes(&values, &sizes[..n], lo);
    let vb = sign_changes(&values, &sizes[..n], hi);
    terms::less(va, vb)
}

// The count of a polynomial that came through the door: its square-free part, the chain, the changes at either end.
fn count_plain(p: Poly, lo: f64, hi: f64) -> Count
    ensures { result ≡ count_of (count_from (terms_of p) lo hi) }
{
    let f = remainders::free_part(p);
    let o = f.outcome;
    if let Err(why) = o {
        return no_count(why);
    }
    let sf = f.poly;
    let c = chain::sequence(sf);
    let oc = c.outcome;
    if let Err(why) = oc {
        return no_count(why);
    }
    Count {
        outcome: Ok(()),
        count: lost(c, lo, hi),
    }
}

// How many distinct real roots lie between the ends, as far as floats tell; falling ends are taken as they are.
pub fn count_real_roots(p: Poly, lo: f64, hi: f64) -> Count
    ensures is { result ≡ count_for p lo hi }
    ensures promise { CountPromise p lo hi result }
{
    let d = poly::both(ends(lo, hi), poly::door(p));
    if let Gate::Open = d {
        count_plain(p, lo, hi)
    } else {
        no_count(poly::reason(d))
    }
}
