// Polynomials in one variable over fractions, and the plain work on them (document 01, module 3; the original's univariate.rs).
// Nothing here tests whether a polynomial is canonical: every function is total by its own model, on any value.
// The crate `poly` stands in front of this and makes the test once.
#![tactic(auto)]

ghost use Rattle.std.specs.Prelude.{◌≡◌, List, [], ℕ, ◌+◌, ◌-◌, ◌<◌, ◌≤◌, ℤ, pos, length, take, get_or};
ghost use Rattle.ratio.specs.Refusal.{zero_r};
ghost use Rattle.ratio.specs.Step.{mul_of, neg_of};
ghost use Rattle.ratio.specs.declared.Ratio.{Ratio};
ghost use Rattle.terms.specs.Poly.{terms_of, poly_of, trim};
ghost use Rattle.terms.specs.Pairs.{pairs};
ghost use Rattle.terms.specs.Machine.{plus, minus, plain, step_of, whole_r};
ghost use Rattle.terms.specs.Work.{zipped, scaled, derived, rowed};
ghost use Rattle.terms.specs.Made.{MadeBy};
ghost use Rattle.terms.specs.Answer.{done_with, refused_with, answer_of, op_if, negated_of, product_of, value_of, row_of, row_over, row_given};

use ratio::{Ratio, Reason};

#[derive(Clone, Copy)]
pub struct Poly {
    pub coeffs: [Ratio; 32],
    pub len: usize,
}

// A polynomial, or why there is none, with the steps that were made.
#[derive(Clone, Copy)]
pub struct Answer {
    pub outcome: Result<(), Reason>,
    pub poly: Poly,
    pub steps: u64,
}

fn nil() -> Ratio
    ensures { result ≡ zero_r }
{
    Ratio { num: 0, den: 1 }
}

pub fn refused(why: Reason, steps: u64) -> Answer
    ensures is { result ≡ refused_with why steps }
{
    Answer {
        outcome: Err(why),
        poly: Poly::zero(),
        steps,
    }
}

impl Poly {
    pub fn zero() -> Poly
        ensures is { result ≡ poly_of [] }
    {
        Poly {
            coeffs: [nil(); 32],
            len: 0,
        }
    }

    // How many coefficients are in use.
    pub fn length(self) -> usize
        ensures is { result ≡ length (terms_of self) }
    {
        self.len.min(32)
    }

    // Coefficient i where it is in use, 0/1 past the end.
    fn term(&self, i: usize) -> Ratio
        requires { i < 32 }
        ensures { result ≡ get_or (terms_of self.now) i zero_r }
    {
        if i < self.len { self.coeffs[i] } else { nil() }
    }

    // How many are left once the zeros at the top are dropped.
    pub fn top(self) -> usize
        ensures is { result ≡ length (trim (terms_of self)) }
    {
        let mut n = self.length();
        while n > 0 {
            let c = self.coeffs[n - 1];
            if c.num != 0 {
                return n;
            }
            n -= 1;
        }
        n
    }

    // Drops the zeros at the top; unused places become 0/1.
    pub fn normalise(mut self) -> Poly
        ensures is { result ≡ poly_of (trim (terms_of self)) }
    {
        let n = self.top();
        for i in n..32 {
            self.coeffs[i] = nil();
        }
        self.len = n;
        self
    }

    // Each coefficient times c.
    pub fn scale(self, c: Ratio) -> Answer
        ensures is { result ≡ answer_of (scaled plain (terms_of self) c 0) }
    {
        make(
            self.length(),
            |i: usize| -> Result<Ratio, Reason>
                requires { i < 32 }
                ensures { result ≡ mul_of (get_or (terms_of self) i zero_r) c }
            { ratio::checked_mul(self.term(i), c) },
        )
    }

    // Each coefficient's negative. A negation is no step.
    pub fn negate(self) -> Answer
        ensures is { result ≡ answer_of (negated_of (terms_of self)) }
    {
        let made = make(
            self.length(),
            |i: usize| -> Result<Ratio, Reason>
                requires { i < 32 }
                ensures { result ≡ neg_of (get_or (terms_of self) i zero_r) }
            { ratio::checked_neg(self.term(i)) },
        );
        Answer { steps: 0, ..made }
    }

    // The derivative: coefficient i + 1 times i + 1.
    pub fn differentiate(self) -> Answer
        ensures is { result ≡ answer_of (derived plain (terms_of self) 0) }
    {
        make(
            less_one(self.length()),
            |i: usize| -> Result<Ratio, Reason>
                requires { i + 1 < 32 }
                ensures { result ≡ mul_of (get_or (terms_of self) (i + 1) zero_r) (whole_r (pos (i + 1))) }
            { ratio::checked_mul(self.term(i + 1), index(i + 1)) },
        )
    }

    // The sum, or the difference, coefficient by coefficient.
    pub fn zip(self, other: Poly, subtract: bool) -> Answer
        ensures is { result ≡ answer_of (zipped plain (op_if subtract) (terms_of self) (terms_of other) 0) }
    {
        make(
            self.length().max(other.length()),
            |i: usize| -> Result<Ratio, Reason>
                requires { i < 32 }
                ensures { result ≡ step_of (op_if subtract) (get_or (terms_of self) i zero_r) (get_or (terms_of other) i zero_r) }
            { combine(subtract, self.term(i), other.term(i)) },
        )
    }

    // The product; zero where a factor is zero, refused where it has over 32 coefficients.
    pub fn times(self, other: Poly) -> Answer
        ensures is { result ≡ product_of (terms_of self) (terms_of other) }
    {
        let n = self.length();
        let m = other.length();
        if n == 0 {
            return done(Poly::zero(), 0);
        }
        if m == 0 {
            return done(Poly::zero(), 0);
        }
        if n + m > 33 {
            return refused(Reason::TooLong, 0);
        }
        self.rows(n, other, m)
    }

    // Row after row, as multiplied by hand: place j of row i is added at i + j.
    fn rows(self, n: usize, other: Poly, m: usize) -> Answer
        requires { (n ≡ length (terms_of self)) × (m ≡ length (terms_of other)) × (0 < n) × (0 < m) × (n + m ≤ 33) }
        ensures { result ≡ product_of (terms_of self) (terms_of other) }
    {
        let mut nums = [0i64; 32];
        let mut dens = [1i64; 32];
        let mut steps: u64 = 0;
        let mut i: usize = 0;
        let mut j: usize = 0;
        while i < n {
            if j == m {
                i += 1;
                j = 0;
                continue;
            }
            let x = self.coeffs[i];
            let y = other.coeffs[j];
            let Ok(t) = ratio::checked_mul(x, y) else {
                return refused(Reason::CoeffOverflow, steps + 1);
            };
            let at = i + j;
            let u = nums[at];
            let v = dens[at];
            let Ok(s) = ratio::checked_add(Ratio { num: u, den: v }, t) else {
                return refused(Reason::CoeffOverflow, steps + 2);
            };
            let num = s.num;
            let den = s.den;
            nums[at] = num;
            dens[at] = den;
            steps += 2;
            j += 1;
        }
        done(joined(&nums, &dens, n + m - 1), steps)
    }

    // The value at x; after the last coefficient one power more is taken, as in the original.
    // The sum sn/sd and the power pn/pd are kept as numbers: a fraction that a step has just written in two pieces is slow to copy in one.
    pub fn value_at(self, x: Ratio) -> Result<Ratio, Reason>
        ensures is { result ≡ value_of (terms_of self) x }
    {
        let n = self.length();
        let mut sn: i64 = 0;
        let mut sd: i64 = 1;
        let mut pn: i64 = 1;
        let mut pd: i64 = 1;
        for i in 0..n {
            let c = self.coeffs[i];
            let Ok(t) = ratio::checked_mul(c, Ratio { num: pn, den: pd }) else {
                return Err(Reason::CoeffOverflow);
            };
            let Ok(s) = ratio::checked_add(Ratio { num: sn, den: sd }, t) else {
                return Err(Reason::CoeffOverflow);
            };
            let Ok(p) = ratio::checked_mul(Ratio { num: pn, den: pd }, x) else {
                return Err(Reason::CoeffOverflow);
            };
            sn = s.num;
            sd = s.den;
            pn = p.num;
            pd = p.den;
        }
        Ok(Ratio { num: sn, den: sd })
    }
}

// n coefficients one after the other, each by one step.
fn make<F: Fn(usize) -> Result<Ratio, Reason>>(n: usize, step: F) -> Answer
    requires few { n ≤ 32 }
    requires callable { (i : ℕ) → i < n → F.pre step i }
    ensures { MadeBy (F.post step) n result }
{
    let mut nums = [0i64; 32];
    let mut dens = [1i64; 32];
    for i in 0..n {
        let Ok(y) = step(i) else {
            return refused(Reason::CoeffOverflow, (i as u64) + 1);
        };
        nums[i] = y.num;
        dens[i] = y.den;
    }
    done(joined(&nums, &dens, n), n as u64)
}

pub fn done(poly: Poly, steps: u64) -> Answer
    ensures is { result ≡ done_with poly steps }
{
    Answer {
        outcome: Ok(()),
        poly,
        steps,
    }
}

pub fn less_one(n: usize) -> usize
    ensures is { result ≡ n - 1 }
{
    n.saturating_sub(1)
}

// n less m, and 0 where that would fall below.
pub fn less(n: usize, m: usize) -> usize
    ensures is { result ≡ n - m }
{
    n.saturating_sub(m)
}

// How many of the first n are left once the zeros at the top are dropped, whatever the denominators are.
fn top_of(nums: &[i64], n: usize) -> usize
    requires { (length nums.now ≡ 32) × (n ≤ 32) }
    ensures { (ds : List ℤ) → length ds ≡ length nums.now → result ≡ length (trim (take n (pairs nums.now ds))) }
{
    let mut top = n;
    while top > 0 {
        let v = nums[top - 1];
        if v != 0 {
            return top;
        }
        top -= 1;
    }
    top
}

// The polynomial of the first n fractions. A loop that makes them keeps numerators and denominators apart: what a step has just written in two pieces is slow to copy in one.
fn joined(nums: &[i64], dens: &[i64], n: usize) -> Poly
    requires { (length nums.now ≡ 32) × (length dens.now ≡ 32) × (n ≤ 32) }
    ensures { result ≡ poly_of (trim (take n (pairs nums.now dens.now))) }
{
    let top = top_of(nums, n);
    let mut out = Poly::zero();
    let mut i: usize = 0;
    while i < top {
        let c = Ratio {
            num: nums[i],
            den: dens[i],
        };
        out.coeffs[i] = c;
        i += 1;
    }
    out.len = top;
    out
}

// The number i as a fraction.
fn index(i: usize) -> Ratio
    requires { i ≤ 32 }
    ensures { result ≡ whole_r (pos i) }
{
    Ratio {
        num: i as i64,
        den: 1,
    }
}

fn combine(subtract: bool, x: Ratio, y: Ratio) -> Result<Ratio, Reason>
    ensures { result ≡ step_of (op_if subtract) x y }
{
    if subtract {
        ratio::checked_sub(x, y)
    } else {
        ratio::checked_add(x, y)
    }
}

// The coefficients of a product under way.
#[derive(Clone, Copy)]
pub struct Row {
    pub fine: bool,
    pub acc: [Ratio; 32],
    pub steps: u64,
}

// acc with x times b added, from place k on.
fn add_row(acc: [Ratio; 32], k: usize, x: Ratio, b: Poly, steps: u64) -> Row
    requires { (k + length (terms_of b) ≤ 32) × (steps ≤ 65536) }
    ensures { result ≡ row_of (rowed plain plus acc k x (terms_of b) steps) }
{
    let m = b.length();
    let mut out = acc;
    let mut count = steps;
    let mut j: usize = 0;
    while j < m {
        let c = b.coeffs[j];
        let Ok(t) = ratio::checked_mul(x, c) else {
            return row_refused(count + 1);
        };
        let old = out[k + j];
        let Ok(s) = ratio::checked_add(old, t) else {
            return row_refused(count + 2);
        };
        out[k + j] = s;
        count += 2;
        j += 1;
    }
    Row {
        fine: true,
        acc: out,
        steps: count,
    }
}

// -x. The number -2^63 has none and stays, since no step takes it.
fn negative(x: Ratio) -> Ratio
    ensures { (acc b : List Ratio) (k n : ℕ) → rowed plain plus acc k result b n ≡ rowed plain minus acc k x b n }
{
    let n = x.num;
    if n == -9223372036854775808 {
        x
    } else {
        Ratio {
            num: -n,
            den: x.den,
        }
    }
}

// acc with x times b subtracted: the row of -x is added. It is a loop of its own, so that neither row is copied into a call.
fn sub_row(acc: [Ratio; 32], k: usize, x: Ratio, b: Poly, steps: u64) -> Row
    requires { (k + length (terms_of b) ≤ 32) × (steps ≤ 65536) }
    ensures { result ≡ row_of (rowed plain minus acc k x (terms_of b) steps) }
{
    let y = negative(x);
    let m = b.length();
    let mut out = acc;
    let mut made = steps;
    let mut j: usize = 0;
    while j < m {
        let c = b.coeffs[j];
        let Ok(t) = ratio::checked_mul(y, c) else {
            return row_refused(made + 1);
        };
        let old = out[k + j];
        let Ok(s) = ratio::checked_add(old, t) else {
            return row_refused(made + 2);
        };
        out[k + j] = s;
        made += 2;
        j += 1;
    }
    Row {
        fine: true,
        acc: out,
        steps: made,
    }
}

// The same for any caller: a row that doesn't fit 32 places, or comes after over 65,536 steps, is no row.
pub fn row_for(acc: [Ratio; 32], k: usize, x: Ratio, b: Poly, subtract: bool, steps: u64) -> Row
    ensures is { result ≡ row_given k acc x (terms_of b) subtract steps }
{
    let m = b.length();
    if k > 32 {
        row_refused(0)
    } else if k + m > 32 {
        row_refused(0)
    } else if steps > 65536 {
        row_refused(0)
    } else if subtract {
        sub_row(acc, k, x, b, steps)
    } else {
        add_row(acc, k, x, b, steps)
    }
}

fn row_refused(steps: u64) -> Row
    ensures { result ≡ row_over steps }
{
    Row {
        fine: false,
        acc: [nil(); 32],
        steps,
    }
}
