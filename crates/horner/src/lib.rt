// Polynomials to expressions (document 01, module 7; `to_lowered` of the original's univariate.rs): Horner form, lowest coefficient outermost, as postfix tokens.
#![tactic(auto)]

ghost use Rattle.ratio.specs.Refusal.{status_of};
ghost use Rattle.std.specs.Prelude.{◌≡◌, ◌++◌, ◌≤◌, ◌<◌, leb, length, take, drop};
ghost use Rattle.terms.specs.Poly.{terms_of};
ghost use Rattle.poly.specs.Door.{open_if};
ghost use Rattle.text.specs.Ascii.{bytes};
ghost use Rattle.text.specs.Page.{laid, after};
ghost use Rattle.text.specs.Spell.{decimal_of};
ghost use Rattle.horner.specs.Text.{constant as constant_text, variable as variable_text, lowered_text};
ghost use Rattle.horner.specs.Written.{text_of, refused_for, done_after, written_of, page_of};
ghost use Rattle.horner.specs.Promise.{ReadsBack};

use poly::Gate;
use ratio::{Ratio, Reason};
use terms::Poly;

// How many bytes of the lent page were written, or why none; the page is the caller's, in C too.
#[derive(Clone, Copy)]
pub struct Written {
    pub outcome: Result<(), Reason>,
    pub len: usize,
}

fn refused(why: Reason) -> Written
    ensures { result ≡ refused_for why }
{
    Written {
        outcome: Err(why),
        len: 0,
    }
}

// ---- tokens

fn constant(c: Ratio, out: &mut [u8], at: usize) -> usize
    ensures is { result ≡ after (constant_text c) at out.old }
    ensures page { out.new ≡ laid (constant_text c) at out.old }
{
    let next = text::put(out, at, b'c');
    text::write_float(bridge::plain_to_f64(c), out, next)
}

// The variable between two spaces.
fn variable(wrt: u64, out: &mut [u8], at: usize) -> usize
    ensures is { result ≡ after (bytes " " ++ variable_text wrt ++ bytes " ") at out.old }
    ensures page { out.new ≡ laid (bytes " " ++ variable_text wrt ++ bytes " ") at out.old }
{
    let letter = text::write_bytes(b" v", out, at);
    let number = text::write_decimal(wrt, out, letter);
    text::put(out, number, b' ')
}

// ---- Horner form

// The coefficients from i on, nested as the original nests its tree: `c x rest * +`.
fn horner(p: Poly, i: usize, wrt: u64, out: &mut [u8], at: usize) -> usize
    requires { i < length (terms_of p) }
    ensures is { result ≡ after (lowered_text wrt (drop i (terms_of p))) at out.old }
    ensures page { out.new ≡ laid (lowered_text wrt (drop i (terms_of p))) at out.old }
{
    let c = p.coeffs[i];
    let lead = constant(c, out, at);
    if i + 1 == p.length() {
        lead
    } else {
        let x = variable(wrt, out, lead);
        let rest = horner(p, i + 1, wrt, out, x);
        text::write_bytes(b" * +", out, rest)
    }
}

// Zero is the constant 0.
fn write(p: Poly, wrt: u64, out: &mut [u8]) -> usize
    ensures is { result ≡ after (text_of p wrt) 0 out.old }
    ensures page { out.new ≡ laid (text_of p wrt) 0 out.old }
{
    if p.length() == 0 {
        constant(Ratio { num: 0, den: 1 }, out, 0)
    } else {
        horner(p, 0, wrt, out, 0)
    }
}

// How many digits a variable has.
fn digits(wrt: u64) -> usize
    requires { wrt ≤ 255 }
    ensures { result ≡ length (decimal_of wrt) }
{
    if wrt < 10 {
        1
    } else if wrt < 100 {
        2
    } else {
        3
    }
}

// How many bytes the text has.
fn size(p: Poly, wrt: u64) -> usize
    requires { wrt ≤ 255 }
    ensures { result ≡ length (text_of p wrt) }
{
    let n = p.length();
    if n == 0 {
        17
    } else {
        17 + (n - 1) * (24 + digits(wrt))
    }
}

fn index_door(wrt: u64) -> Gate
    ensures { result ≡ open_if (leb wrt 255) }
{
    if wrt <= 255 { Gate::Open } else { Gate::Bad }
}

// The polynomial as an expression in the variable `wrt`, in front of the page. A refusal writes nothing.
pub fn to_lowered(p: Poly, wrt: u64, out: &mut [u8]) -> Written
    ensures is { result ≡ written_of p wrt out.old }
    ensures page { out.new ≡ page_of p wrt out.old }
    ensures back { status_of result.outcome ≡ 0 → ReadsBack p wrt (take result.len out.new) }
{
    let d = poly::both(index_door(wrt), poly::door(p));
    if let Gate::Open = d {
        let len = size(p, wrt);
        if out.len() < len {
            return refused(Reason::NoRoom);
        }
        write(p, wrt, out);
        Written {
            outcome: Ok(()),
            len,
        }
    } else {
        refused(poly::reason(d))
    }
}
