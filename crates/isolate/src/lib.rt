// Isolation of real roots (document 01, module 6; `isolate_real_roots` of the original's sturm.rs).
#![tactic(auto)]

ghost use Rattle.std.specs.Prelude.{◌≡◌, [], ◌∷◌, ◌++◌, ◌<◌, length};
ghost use Rattle.terms.specs.Poly.{terms_of};
ghost use Rattle.sturm.specs.Value.{floats_of};
ghost use Rattle.bisect.specs.Bracket.{items_of};
ghost use Rattle.isolate.specs.Answer.{roots_in, holding, refused_for, isolation_of, Kept};
ghost use Rattle.isolate.specs.Sorted.{slide_of, inserted, placed, roots_onto};
ghost use Rattle.isolate.specs.Apart.{kept_list, apart_onto};
ghost use Rattle.isolate.specs.Isolate.{limits_of, isolate_from, isolate_for};
ghost use Rattle.isolate.specs.Promise.{IsolationPromise};
ghost use Rattle.isolate.specs.Price.{isolation_quote, QuotesIsolation};

use bisect::Brackets;
use poly::Gate;
use ratio::Reason;
use terms::Poly;

// The roots, rising, or why there are none.
// A fixed array with a length beside it: the project allows no heap.
#[derive(Clone, Copy)]
pub struct Isolation {
    pub outcome: Result<(), Reason>,
    pub roots: [f64; 64],
    pub len: usize,
}

// The most that an isolation takes: calls of the bisection, and values worked out in floats.
#[derive(Clone, Copy)]
pub struct Most {
    pub calls: u64,
    pub evaluations: u64,
}

// One place of the walk that makes room: what stays there, what is carried on, and whether the rest moves up.
#[derive(Clone, Copy)]
struct Slide {
    moving: bool,
    stays: f64,
    carried: f64,
}

// ---- roots in their array

fn refused(why: Reason) -> Isolation
    ensures { result ≡ refused_for why }
{
    Isolation {
        outcome: Err(why),
        roots: [0.0; 64],
        len: 0,
    }
}

fn nothing() -> Isolation
    ensures { result ≡ holding [] }
{
    Isolation {
        outcome: Ok(()),
        roots: [0.0; 64],
        len: 0,
    }
}

#[tactic(auto, using(crate::proofs::Auto::pushes))]
fn push(found: Isolation, x: f64) -> Isolation
    requires { Kept found × (length (roots_in found) < 64) }
    ensures { result ≡ holding (roots_in found ++ (x ∷ [])) }
{
    let mut out = found;
    let n = out.len;
    out.roots[n] = x;
    out.len = n + 1;
    out
}

// ---- sorting

// Behind the place of what is inserted everything moves up by one.
fn move_up(moving: bool, carried: f64, y: f64) -> Slide
    ensures { result ≡ slide_of moving carried y }
{
    if moving || carried < y {
        Slide {
            moving: true,
            stays: carried,
            carried: y,
        }
    } else {
        Slide {
            moving: false,
            stays: y,
            carried,
        }
    }
}

// x in front of the first that is greater, so that equal ones keep their order.
fn insert(found: Isolation, x: f64) -> Isolation
    requires { Kept found × (length (roots_in found) < 64) }
    ensures { result ≡ holding (inserted x (roots_in found)) }
{
    let n = found.len;
    let mut out = nothing();
    let mut moving = false;
    let mut carried = x;
    let mut i: usize = 0;
    while i < n {
        let y = found.roots[i];
        let s = move_up(moving, carried, y);
        out.roots[i] = s.stays;
        out.len = i + 1;
        moving = s.moving;
        carried = s.carried;
        i += 1;
    }
    push(out, carried)
}

fn place(found: Isolation, r: Option<f64>) -> Isolation
    requires { Kept found × (length (roots_in found) < 64) }
    ensures { result ≡ holding (placed r (roots_in found)) }
{
    match r {
        Some(x) => insert(found, x),
        None => found,
    }
}

// How many brackets there are.
fn count(b: Brackets) -> usize
    ensures { result ≡ length (items_of b) }
{
    let n = b.len;
    if n < 64 { n } else { 64 }
}

// The roots in the brackets, rising.
fn roots_along(row: &[f64], b: Brackets, tol: f64) -> Isolation
    ensures { result ≡ holding (roots_onto row.now tol (items_of b) []) }
{
    let n = count(b);
    let mut out = nothing();
    let mut i: usize = 0;
    while i < n {
        let x = b.items[i];
        out = place(out, refine::root_in(row, x, tol));
        i += 1;
    }
    out
}

// The same of a polynomial, whose floats are worked out once.
#[tactic(auto, using(crate::proofs::Auto::rows))]
fn gather(p: Poly, b: Brackets, tol: f64) -> Isolation
    ensures { result ≡ holding (roots_onto (floats_of (terms_of p)) tol (items_of b) []) }
{
    let row = sturm::floats(p);
    let values = row.values;
    roots_along(&values[..row.len], b, tol)
}

// ---- roots that are too close

// x behind the others, where it is not too close to the last one kept.
#[tactic(auto, using(crate::proofs::Auto::keeps))]
fn keep(found: Isolation, x: f64, tol: f64) -> Isolation
    requires { Kept found × (length (roots_in found) < 64) }
    ensures { result ≡ holding (kept_list tol x (roots_in found)) }
{
    let n = found.len;
    if n == 0 {
        return push(found, x);
    }
    let last = found.roots[n - 1];
    if refine::size(x - last) < tol {
        return found;
    }
    push(found, x)
}

fn dedup(found: Isolation, tol: f64) -> Isolation
    requires { Kept found }
    ensures { result ≡ holding (apart_onto tol (roots_in found) []) }
{
    let n = found.len;
    let mut out = nothing();
    let mut i: usize = 0;
    while i < n {
        let x = found.roots[i];
        out = keep(out, x, tol);
        i += 1;
    }
    out
}

// ---- isolation

// The isolation of a polynomial that came through the door. An empty chain has no bracket.
#[tactic(auto, using(crate::proofs::Auto::ways))]
fn isolate_plain(p: Poly, lo: f64, hi: f64, tol: f64) -> Isolation
    ensures { result ≡ isolation_of (isolate_from (terms_of p) lo hi tol) }
{
    let f = remainders::free_part(p);
    let o = f.outcome;
    if let Err(why) = o {
        return refused(why);
    }
    let sf = f.poly;
    let c = chain::sequence(sf);
    let oc = c.outcome;
    if let Err(why) = oc {
        return refused(why);
    }
    let b = bisect::bisect_isolate(c, lo, hi, tol);
    let ob = b.outcome;
    if let Err(why) = ob {
        return refused(why);
    }
    dedup(gather(sf, b, tol), tol)
}

// The tolerance is finite and above 0, the ends are within ±1e15.
pub fn limits(lo: f64, hi: f64, tol: f64) -> Gate
    ensures is { result ≡ limits_of lo hi tol }
{
    if bridge::is_finite(tol) && tol > 0.0 {
        sturm::ends(lo, hi)
    } else {
        Gate::Bad
    }
}

// The real roots from lo to hi, as far as floats tell; falling ends are taken as they are.
#[tactic(auto, using(crate::proofs::Auto::promises))]
pub fn isolate_real_roots(p: Poly, lo: f64, hi: f64, tol: f64) -> Isolation
    ensures is { result ≡ isolate_for p lo hi tol }
    ensures promise { IsolationPromise p lo hi tol result }
{
    let d = poly::both(limits(lo, hi, tol), poly::door(p));
    if let Gate::Open = d {
        isolate_plain(p, lo, hi, tol)
    } else {
        refused(poly::reason(d))
    }
}

// ---- the price

// The calls of the bisection and the values worked out in floats that no isolation passes, from the degree alone.
#[tactic(auto, using(crate::proofs::Auto::quotes))]
pub fn isolation_price(degree: u64) -> Result<Most, Reason>
    ensures is { result ≡ isolation_quote degree }
    ensures promise { QuotesIsolation degree result }
{
    if degree > 31 {
        Err(Reason::TooLong)
    } else {
        Ok(Most {
            calls: 6305,
            evaluations: 3187 * degree + 19237,
        })
    }
}
