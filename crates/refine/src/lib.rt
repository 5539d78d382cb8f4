// The root in a bracket, refined by halving (document 01, module 6; `bisect_refine` of the original's sturm.rs and the choice in front of it).
#![tactic(auto)]

ghost use Rattle.std.specs.Prelude.{◌≡◌};
ghost use Rattle.refine.specs.Refine.{size_of, middle_of, halved_of, refine_of, halvings};
ghost use Rattle.refine.specs.Root.{crosses_of, near_of, root_of};

use bisect::Bracket;

// Two ends and the value at the left one.
#[derive(Clone, Copy)]
struct Side {
    left: f64,
    right: f64,
    value: f64,
}

// `x.abs()`; -0.0 stays, since it is only compared.
pub fn size(x: f64) -> f64
    ensures is { result ≡ size_of x }
{
    if x < 0.0 { -x } else { x }
}

// ---- refinement

fn middle(s: Side) -> f64
    ensures { result ≡ middle_of s }
{
    (s.left + s.right) / 2.0
}

// The half whose ends differ in sign.
fn halved(s: Side, mid: f64, fm: f64) -> Side
    ensures { result ≡ halved_of s mid fm }
{
    if s.value * fm < 0.0 {
        Side {
            left: s.left,
            right: mid,
            value: s.value,
        }
    } else {
        Side {
            left: mid,
            right: s.right,
            value: fm,
        }
    }
}

// At most 200 halvings.
fn bisect_refine(row: &[f64], x: Bracket, fa: f64, tol: f64) -> f64
    ensures { result ≡ refine_of halvings row.now (record { left = x.left; right = x.right; value = fa }) tol }
{
    let mut now = Side {
        left: x.left,
        right: x.right,
        value: fa,
    };
    let mut more: usize = 200;
    while more > 0 {
        let mid = middle(now);
        if size(now.right - now.left) < tol {
            return mid;
        }
        let fm = sturm::eval_f64(row, mid);
        if fm == 0.0 {
            return mid;
        }
        now = halved(now, mid, fm);
        more -= 1;
    }
    middle(now)
}

// ---- the root of a bracket

fn crosses(fa: f64, fb: f64) -> bool
    ensures { result ≡ crosses_of fa fb }
{
    bridge::is_finite(fa) && bridge::is_finite(fb) && fa * fb < 0.0
}

fn near(v: f64, tol: f64) -> bool
    ensures { result ≡ near_of v tol }
{
    bridge::is_finite(v) && size(v) < tol
}

// The root of a polynomial in a bracket, where it has one, as the original chooses it; the polynomial is given by the floats of its coefficients.
#[tactic(auto, unfolding(crate::specs::Root::chosen))]
pub fn root_in(row: &[f64], x: Bracket, tol: f64) -> Option<f64>
    ensures is { result ≡ root_of row.now x tol }
{
    let fa = sturm::eval_f64(row, x.left);
    let fb = sturm::eval_f64(row, x.right);
    if size(x.right - x.left) < tol {
        if size(fa) <= size(fb) {
            return Some(x.left);
        }
        return Some(x.right);
    }
    if fa == 0.0 {
        return Some(x.left);
    }
    if fb == 0.0 {
        return Some(x.right);
    }
    if crosses(fa, fb) {
        return Some(bisect_refine(row, x, fa, tol));
    }
    if near(fa, tol) {
        return Some(x.left);
    }
    if near(fb, tol) {
        return Some(x.right);
    }
    None
}
