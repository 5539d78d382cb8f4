// The brackets of real roots, found by halving (document 01, module 6; `bisect_isolate` of the original's sturm.rs).
// Nothing here tests the ends or the tolerance; the crate `isolate` stands in front of this and makes the tests once.
#![tactic(auto)]

ghost use Rattle.std.specs.Prelude.{◌≡◌, true, false, cond, List, [], ◌≤◌, eqb, Float, length, take};
ghost use Rattle.std.specs.Float.Ieee.{lt};
ghost use Rattle.chain.specs.Answer.{entries_of};
ghost use Rattle.sturm.specs.Along.{rows_of};
ghost use Rattle.sturm.specs.Rows.{rows_in};
ghost use Rattle.yun.specs.Got.{got, then_got};
ghost use Rattle.bisect.specs.Bracket.{found_in, refused_for, brackets_of, Kept, pushed, marked};
ghost use Rattle.bisect.specs.Cut.{end_of, root_at, hits_of, cut_of};
ghost use Rattle.bisect.specs.Bisect.{inner_of, inward as inward_of, bisect_of};
ghost use Rattle.bisect.specs.Price.{most_calls, PricePromise};

use chain::Chain;
use ratio::Reason;

// Two ends with a root between them, or a root twice.
#[derive(Clone, Copy)]
pub struct Bracket {
    pub left: f64,
    pub right: f64,
}

// The brackets in the order found, or why there are none.
// A fixed array with a length beside it: the project allows no heap.
#[derive(Clone, Copy)]
pub struct Brackets {
    pub outcome: Result<(), Reason>,
    pub items: [Bracket; 64],
    pub len: usize,
}

// A place and the sign changes of the chain there.
#[derive(Clone, Copy)]
struct End {
    at: f64,
    changes: usize,
}

// Where a stretch is split: the middle and whether it is a root, the inner ends of both parts, and which of them there are.
#[derive(Clone, Copy)]
struct Cut {
    exact: bool,
    mid: f64,
    lo: f64,
    hi: f64,
    left: bool,
    right: bool,
}

// ---- brackets in their array

pub fn refused(why: Reason) -> Brackets
    ensures is { result ≡ refused_for why }
{
    Brackets {
        outcome: Err(why),
        items: [Bracket {
            left: 0.0,
            right: 0.0,
        }; 64],
        len: 0,
    }
}

fn nothing() -> Brackets
    ensures { result ≡ brackets_of (got []) }
{
    Brackets {
        outcome: Ok(()),
        items: [Bracket {
            left: 0.0,
            right: 0.0,
        }; 64],
        len: 0,
    }
}

// One bracket more, where there is a place for it; an earlier refusal is handed on.
fn push(found: Brackets, a: f64, b: f64) -> Brackets
    requires { Kept found }
    ensures { result ≡ brackets_of (then_got (found_in found) (λ l. pushed a b l)) }
{
    let o = found.outcome;
    if let Err(_) = o {
        return found;
    }
    let n = found.len;
    if n >= 64 {
        return refused(Reason::TooLong);
    }
    let mut out = found;
    out.items[n] = Bracket { left: a, right: b };
    out.len = n + 1;
    out
}

// The bracket of an exact root.
fn mark(found: Brackets, exact: bool, x: f64) -> Brackets
    requires { Kept found }
    ensures { result ≡ brackets_of (then_got (found_in found) (λ l. marked exact x l)) }
{
    if exact { push(found, x, x) } else { found }
}

// ---- where to split

fn end_at(values: &[f64], sizes: &[usize], x: f64) -> End
    ensures { result ≡ end_of (rows_in values.now sizes.now) x }
{
    End {
        at: x,
        changes: sturm::sign_changes(values, sizes, x),
    }
}

// No more than there are.
fn within(n: usize, all: usize) -> usize
    ensures { (result ≤ all) × ((l : List Float) → length l ≡ all → take result l ≡ take n l) }
{
    n.min(all)
}

// Whether the first row is zero at x, in floats.
fn is_root(values: &[f64], sizes: &[usize], x: f64) -> bool
    ensures { result ≡ root_at (rows_in values.now sizes.now) x }
{
    if sizes.len() == 0 {
        return false;
    }
    let n = within(sizes[0], values.len());
    sturm::eval_f64(&values[..n], x) == 0.0
}

// An exact root in the middle counts where the stretch is wide enough.
fn hits(root: bool, width: f64, tol: f64) -> bool
    ensures { result ≡ hits_of root width tol }
{
    if root { width > 2.0 * tol } else { false }
}

fn split_at(values: &[f64], sizes: &[usize], a: f64, b: f64, tol: f64) -> Cut
    ensures { result ≡ cut_of (rows_in values.now sizes.now) a b tol }
{
    let mid = (a + b) / 2.0;
    if !hits(is_root(values, sizes, mid), b - a, tol) {
        return Cut {
            exact: false,
            mid,
            lo: mid,
            hi: mid,
            left: true,
            right: true,
        };
    }
    let eps = (b - a) * 1e-9;
    let lo = mid - eps;
    let hi = mid + eps;
    Cut {
        exact: true,
        mid,
        lo,
        hi,
        left: lo > a,
        right: hi < b,
    }
}

// The end at which the right part begins: the left part's own, unless an exact root stands between them.
fn beyond(values: &[f64], sizes: &[usize], s: Cut, lo: End) -> End
    requires { (s.exact ≡ false → s.hi ≡ s.lo) × (lo ≡ end_of (rows_in values.now sizes.now) s.lo) }
    ensures { result ≡ end_of (rows_in values.now sizes.now) s.hi }
{
    if s.exact {
        end_at(values, sizes, s.hi)
    } else {
        lo
    }
}

// ---- halving

// A stretch with one root, or narrower than the tolerance, is a bracket as it is.
fn stays(n: usize, width: f64, tol: f64) -> bool
    ensures { result ≡ cond (eqb n 1) true (lt width tol) }
{
    if n == 1 { true } else { width < tol }
}

// The brackets between a and b behind those found, the left part first; `depth` says how many more splits there may be.
fn bisect_isolate_inner(
    values: &[f64],
    sizes: &[usize],
    a: End,
    b: End,
    tol: f64,
    found: Brackets,
    depth: usize,
) -> Brackets
    requires { Kept found × (a ≡ end_of (rows_in values.now sizes.now) a.at) × (b ≡ end_of (rows_in values.now sizes.now) b.at) }
    ensures { result ≡ brackets_of (then_got (found_in found) (λ l. inner_of depth (rows_in values.now sizes.now) a.at b.at tol l)) }
{
    let o = found.outcome;
    if let Err(_) = o {
        return found;
    }
    let n = terms::less(a.changes, b.changes);
    if n == 0 {
        return found;
    }
    if stays(n, b.at - a.at, tol) {
        return push(found, a.at, b.at);
    }
    if depth == 0 {
        return refused(Reason::TooDeep);
    }
    let s = split_at(values, sizes, a.at, b.at, tol);
    let mut now = mark(found, s.exact, s.mid);
    let lo = end_at(values, sizes, s.lo);
    let hi = beyond(values, sizes, s, lo);
    if s.left {
        now = bisect_isolate_inner(values, sizes, a, lo, tol, now, depth - 1);
    }
    if s.right {
        now = bisect_isolate_inner(values, sizes, hi, b, tol, now, depth - 1);
    }
    now
}

// An end that is an exact root is left out of what is halved.
fn inward(exact: bool, x: f64, y: f64) -> f64
    ensures { result ≡ inward_of exact x y }
{
    if exact { y } else { x }
}

// The brackets from a to b: exact roots at the ends first, then what is between them.
fn between(values: &[f64], sizes: &[usize], a: f64, b: f64, tol: f64) -> Brackets
    ensures { result ≡ brackets_of (bisect_of (rows_in values.now sizes.now) a b tol) }
{
    let at_a = is_root(values, sizes, a);
    let at_b = is_root(values, sizes, b);
    let found = mark(mark(nothing(), at_a, a), at_b, b);
    let span = b - a;
    let a_eff = inward(at_a, a, a + span * 1e-12);
    let b_eff = inward(at_b, b, b - span * 1e-12);
    if a_eff >= b_eff {
        return found;
    }
    let left = end_at(values, sizes, a_eff);
    let right = end_at(values, sizes, b_eff);
    bisect_isolate_inner(values, sizes, left, right, tol, found, 48)
}

// The brackets along a chain, whose floats are worked out once.
pub fn bisect_isolate(c: Chain, a: f64, b: f64, tol: f64) -> Brackets
    ensures is { result ≡ brackets_of (bisect_of (rows_of (entries_of c)) a b tol) }
{
    let t = sturm::chain_floats(c);
    let values = t.values;
    let sizes = t.sizes;
    between(&values, &sizes[..t.len], a, b, tol)
}

// ---- the price

// The number of calls that no bisection passes, known before the work starts.
pub fn most_calls() -> usize
    ensures is { result ≡ most_calls }
    ensures promise { PricePromise result }
{
    6305
}
