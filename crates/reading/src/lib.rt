// Numbers and polynomials from text (document 01, "the job program"): fractions, coefficients parted by spaces, floats by their bits, a budget.
#![tactic(auto)]

ghost use Rattle.std.specs.Prelude.{◌≡◌, List, [], ◌∷◌, ◌++◌, ◌≤◌};
ghost use Rattle.ratio.specs.declared.Ratio.{Ratio};
ghost use Rattle.reading.specs.Numbers.{whole_of, numerator_of, denominator_of, whole_step, fraction_step, ratio_from, float_from, budget_from};
ghost use Rattle.reading.specs.Coefficients.{bad_at, top_of, read_poly};
ghost use Rattle.reading.specs.Promise.{ReadsRatio, ReadsPoly};
ghost use Rattle.reading.specs.Held.{Holds};

use ratio::{Ratio, Reason};
use terms::{Answer, Poly};

// ---- numbers

// A size with its sign; a zero has none.
fn signed(neg: bool, size: Option<u64>) -> Option<i64>
    ensures { result ≡ whole_of neg size }
{
    match size {
        Some(m) => if m > 9223372036854775807 {
            None
        } else if !neg {
            Some(m as i64)
        } else if m == 0 {
            None
        } else {
            Some(-(m as i64))
        },
        None => None,
    }
}

fn numerator(word: &[u8]) -> Option<i64>
    ensures { result ≡ numerator_of word.now }
{
    if word.len() == 0 {
        None
    } else if word[0] == 45 {
        signed(true, tokens::natural(&word[1..]))
    } else {
        signed(false, tokens::natural(word))
    }
}

fn denominator(word: &[u8]) -> Option<i64>
    ensures { result ≡ denominator_of word.now }
{
    signed(false, tokens::natural(word))
}

fn integer(n: Option<i64>) -> Result<Ratio, Reason>
    ensures { result ≡ whole_step n }
{
    match n {
        Some(num) => Ok(Ratio { num, den: 1 }),
        None => Err(Reason::BadInput),
    }
}

// Lowest terms, the denominator at least 2.
fn fraction(n: Option<i64>, d: Option<i64>) -> Result<Ratio, Reason>
    ensures { result ≡ fraction_step n d }
{
    let Some(num) = n else {
        return Err(Reason::BadInput);
    };
    let Some(den) = d else {
        return Err(Reason::BadInput);
    };
    if den < 2 {
        Err(Reason::BadInput)
    } else if ratio::gcd_i64(num, den) == 1 {
        Ok(Ratio { num, den })
    } else {
        Err(Reason::BadInput)
    }
}

// The fraction that a word spells: n or n/d.
pub fn read_ratio(word: &[u8]) -> Result<Ratio, Reason>
    ensures is { result ≡ ratio_from word.now }
    ensures promise { ReadsRatio word.now result }
{
    let end = tokens::part_end(word, 0, 47);
    if end < word.len() {
        fraction(numerator(&word[..end]), denominator(&word[end + 1..]))
    } else {
        integer(numerator(word))
    }
}

// The float whose bits 16 hex digits are.
#[tactic(auto, unfolding(crate::specs::Numbers::float_from))]
pub fn read_float(word: &[u8]) -> Option<f64>
    ensures is { result ≡ float_from word.now }
{
    match tokens::bits(word) {
        Some(n) => Some(tokens::float(n)),
        None => None,
    }
}

// 1 to 65,536.
#[tactic(auto, unfolding(crate::specs::Numbers::budget_from))]
pub fn read_budget(word: &[u8]) -> Option<u64>
    ensures is { result ≡ budget_from word.now }
{
    match tokens::natural(word) {
        Some(n) => if n == 0 {
            None
        } else if n > 65536 {
            None
        } else {
            Some(n)
        },
        None => None,
    }
}

// ---- coefficients

fn bad(at: usize) -> Answer
    ensures { result ≡ bad_at at }
{
    terms::refused(Reason::Malformed { at }, 0)
}

// One coefficient more; behind the 32nd they are only counted.
fn push(p: Poly, c: Ratio) -> Poly
    requires { p.len ≤ 9223372036854775807 }
    ensures { (l : List Ratio) → Holds l p → Holds (l ++ (c ∷ [])) result }
{
    let n = p.len;
    let mut out = p;
    out.len = n + 1;
    if n > 31 {
        return out;
    }
    out.coeffs[n] = c;
    out
}

// The last coefficient: a zero stands alone, and over 32 are too many.
fn top(p: Poly, c: Ratio, at: usize) -> Answer
    ensures { (l : List Ratio) → Holds l p → result ≡ top_of at l c }
{
    let n = p.len;
    if c.num == 0 {
        if n == 0 {
            terms::done(Poly::zero(), 0)
        } else {
            bad(at)
        }
    } else if n > 31 {
        terms::refused(Reason::TooLong, 0)
    } else {
        terms::done(push(p, c), 0)
    }
}

// The polynomial of a list of coefficients. Words past the 32nd are still read: a bad one is 5, before 4.
pub fn read_poly(text: &[u8]) -> Answer
    ensures is { result ≡ read_poly text.now }
    ensures promise { ReadsPoly text.now result }
{
    let mut p = Poly::zero();
    let mut at: usize = 0;
    while at <= text.len() {
        let end = tokens::word_end(text, at);
        let Ok(c) = read_ratio(&text[at..end]) else {
            return bad(at);
        };
        if end == text.len() {
            return top(p, c, at);
        }
        p = push(p, c);
        at = end + 1;
    }
    // Not reached: the last word ends where the text does.
    bad(at)
}
