// Expressions to polynomials (document 01, module 7; `from_lowered` of the original's univariate.rs): postfix tokens and a stack of 16 polynomials.
#![tactic(auto)]

ghost use Rattle.std.specs.Prelude.{◌≡◌, [], ◌∷◌};
ghost use Rattle.terms.specs.Poly.{poly_of, trim};
ghost use Rattle.terms.specs.Answer.{refused_with};
ghost use Rattle.poly.specs.declared.Gate.TheVariants.{Open};
ghost use Rattle.poly.specs.Door.{door_of};
ghost use Rattle.lower.specs.Exponent.{exponent_of};
ghost use Rattle.lower.specs.Stack.{constant_from, variable_if, combined, changed};
ghost use Rattle.lower.specs.Work.{raising, work_of, takes_of};
ghost use Rattle.tokens.specs.Words.{words_of};
ghost use Rattle.lower.specs.Promise.{Lowers};
ghost use Rattle.lower.specs.Run.{unless_refused, lower_of};
ghost use Rattle.lower.specs.Room.{alone, bounded_from};

use ratio::{Ratio, Reason};
use terms::{Answer, Poly};
use tokens::Token;

#[derive(Clone, Copy)]
enum Binary {
    Add,
    Sub,
    Mul,
}

#[derive(Clone, Copy)]
enum Unary {
    Neg,
    Pow(usize),
}

// What a token asks for: a value of its own, the top value changed, the top two combined, or an end.
#[derive(Clone, Copy)]
enum Work {
    Constant(f64),
    Variable(u64),
    Change(Unary),
    Combine(Binary),
    Stop(Reason),
}

// ---- values

// The exponent that a float is, 0 to 200; -0.0 is 0, and nothing else equals any of them.
#[tactic(auto, unfolding(crate::specs::Exponent::exponent_of), using(crate::proofs::Auto::exponent_steps))]
fn exponent(x: f64) -> Option<usize>
    ensures { result ≡ exponent_of x }
{
    for n in 0..201 {
        if x == (n as f64) {
            return Some(n);
        }
    }
    None
}

// A constant as a polynomial; 0 has no coefficient.
#[tactic(auto, using(crate::proofs::Auto::level_steps))]
fn level(c: Ratio) -> Poly
    ensures { result ≡ poly_of (trim (c ∷ [])) }
{
    let mut p = Poly::zero();
    if c.num == 0 {
        return p;
    }
    p.coeffs[0] = c;
    p.len = 1;
    p
}

// What the bridge finds is in lowest terms, so that no door is passed here either.
fn constant(x: f64) -> Answer
    ensures { result ≡ constant_from x }
{
    match bridge::f64_to_ratio(x) {
        Ok(c) => terms::done(level(c), 0),
        Err(why) => terms::refused(why, 0),
    }
}

// A variable other than the wanted one is no polynomial.
fn variable(i: u64, wrt: u64) -> Answer
    ensures { result ≡ variable_if i wrt }
{
    if i == wrt {
        poly::monomial(1)
    } else {
        terms::refused(Reason::NotPolynomial, 0)
    }
}

// Values on the stack are canonical, so that the work is done without the door's tests.
fn combine(op: Binary, a: Poly, b: Poly) -> Answer
    requires { (door_of a ≡ Open) × (door_of b ≡ Open) }
    ensures { result ≡ combined op a b }
{
    match op {
        Binary::Add => a.zip(b, false),
        Binary::Sub => a.zip(b, true),
        Binary::Mul => a.times(b),
    }
}

// A power has a door of its own: one test for all its products.
fn change(op: Unary, a: Poly) -> Answer
    requires { door_of a ≡ Open }
    ensures { result ≡ changed op a }
{
    match op {
        Unary::Neg => a.negate(),
        Unary::Pow(n) => poly::pow(a, n),
    }
}

// ---- tokens

fn raise(e: Option<usize>) -> Work
    ensures { result ≡ raising e }
{
    match e {
        Some(n) => Work::Change(Unary::Pow(n)),
        None => Work::Stop(Reason::NotPolynomial),
    }
}

fn work_of(token: Token) -> Work
    ensures { result ≡ work_of token }
{
    match token {
        Token::Const(x) => Work::Constant(x),
        Token::Var(i) => Work::Variable(i),
        Token::Add => Work::Combine(Binary::Add),
        Token::Sub => Work::Combine(Binary::Sub),
        Token::Mul => Work::Combine(Binary::Mul),
        Token::Neg => Work::Change(Unary::Neg),
        Token::Pow(x) => raise(exponent(x)),
        Token::Other => Work::Stop(Reason::NotPolynomial),
        Token::Malformed => Work::Stop(Reason::BadInput),
    }
}

// How many values it takes off the stack.
fn takes(work: Work) -> usize
    ensures { result ≡ takes_of work }
{
    match work {
        Work::Constant(_) => 0,
        Work::Variable(_) => 0,
        Work::Change(_) => 1,
        Work::Combine(_) => 2,
        Work::Stop(_) => 0,
    }
}

// ---- the run

// A place of the stack that holds no value yet: zero bytes throughout, the quickest to write.
fn blank() -> Poly
    ensures { result.len ≡ 0 }
{
    Poly {
        coeffs: [Ratio { num: 0, den: 0 }; 32],
        len: 0,
    }
}

// Word after word, up to the first refusal; one value is left at the end. The values lie from `free` on, the top one first.
// The stack is 8 kB: it stays in this function, and a token's work gets the one or two values that it takes.
fn run(text: &[u8], wrt: u64) -> Answer
    ensures { result ≡ alone (bounded_from wrt (words_of text.now) []) }
{
    let mut values = [blank(); 16];
    let mut free: usize = 16;
    let mut at: usize = 0;
    while at <= text.len() {
        let end = tokens::word_end(text, at);
        let work = work_of(tokens::token_of(&text[at..end]));
        let left = free + takes(work);
        if left > 16 {
            return terms::refused(Reason::BadInput, 0);
        }
        let r = match work {
            Work::Constant(x) => constant(x),
            Work::Variable(i) => variable(i, wrt),
            Work::Change(op) => change(op, values[free]),
            Work::Combine(op) => combine(op, values[free + 1], values[free]),
            Work::Stop(why) => terms::refused(why, 0),
        };
        let o = r.outcome;
        if let Err(why) = o {
            return terms::refused(why, 0);
        }
        if left == 0 {
            return terms::refused(Reason::TooLong, 0);
        }
        free = left - 1;
        let p = r.poly;
        values[free] = p;
        at = end + 1;
    }
    if free == 15 {
        terms::done(values[free], 0)
    } else {
        terms::refused(Reason::BadInput, 0)
    }
}

// What the tokens show comes before a refusal on the way.
fn refusal(o: Result<(), Reason>, why: Reason) -> Answer
    ensures { result ≡ unless_refused o (refused_with why 0) }
{
    match o {
        Ok(()) => terms::refused(why, 0),
        Err(first) => terms::refused(first, 0),
    }
}

// The polynomial in the wanted variable that an expression is: 5, then 4 for over 16 values, then the first refusal in postfix order.
// A run that comes to one value has met nothing of these, so that an answered text is read once, and only a refused one is checked.
pub fn from_lowered(text: &[u8], wrt: u64) -> Answer
    ensures is { result ≡ lower_of wrt text.now }
    ensures promise { Lowers wrt text.now result }
{
    let r = run(text, wrt);
    let o = r.outcome;
    match o {
        Ok(()) => r,
        Err(why) => refusal(tokens::check(text), why),
    }
}
