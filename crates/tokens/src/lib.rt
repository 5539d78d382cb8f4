// Expressions as postfix tokens (document 01, module 7): how a token is spelled, and whether a text is an expression at all.
#![tactic(auto)]

ghost use Rattle.std.specs.Prelude.{◌≡◌, ◌+◌, ◌^◌, ◌≤◌, ◌<◌, length, drop};
ghost use Rattle.std.specs.Float.{binary64};
ghost use Rattle.std.specs.Float.Ieee.{of_bits};
ghost use Rattle.tokens.specs.Spelling.{digit_of, number_of, bits_of, index_of, mark_of, const_of, pow_of, natural_of, var_of, token_of};
ghost use Rattle.tokens.specs.Words.{length_to, word_length};
ghost use Rattle.tokens.specs.Heights.{takes as takes_of, is_other, is_malformed, is_bad, after as after_of, room_of, finish as finish_of, check_of};

use ratio::Reason;

// One token. Constants and exponents are floats, given by their bits.
#[derive(Clone, Copy)]
pub enum Token {
    Const(f64),
    Var(u64),
    Add,
    Sub,
    Mul,
    Neg,
    Pow(f64),
    Other,
    Malformed,
}

// How many values stand on the stack, whether over 16 ever did, and whether a `?` was passed.
#[derive(Clone, Copy)]
pub struct Height {
    pub values: usize,
    pub deep: bool,
    pub past: bool,
}

// ---- spelling

// The value of a digit, lower case; 16 for any other byte.
#[tactic(auto, unfolding(crate::specs::Spelling::digit_of))]
fn digit(b: u8) -> u64
    ensures { result ≡ digit_of b }
{
    if b < 48 {
        16
    } else if b <= 57 {
        (b - 48) as u64
    } else if b < 97 {
        16
    } else if b <= 102 {
        (b - 87) as u64
    } else {
        16
    }
}

// The number that digits spell, as many as always fit; none where one of them is no digit.
fn spelled(digits: &[u8], base: u64) -> Option<u64>
    requires { base ^ length digits.now ≤ 18446744073709551616 }
    ensures { result ≡ number_of base 0 digits.now }
{
    let mut n: u64 = 0;
    for i in 0..digits.len() {
        let d = digit(digits[i]);
        if d >= base {
            return None;
        }
        n = n * base + d;
    }
    Some(n)
}

// The bits that 16 digits spell.
#[tactic(auto, unfolding(crate::specs::Spelling::bits_of))]
pub fn bits(digits: &[u8]) -> Option<u64>
    ensures is { result ≡ bits_of digits.now }
{
    if digits.len() == 16 {
        spelled(digits, 16)
    } else {
        None
    }
}

// `f64::from_bits`; every pattern of a NaN is the NaN.
pub fn float(n: u64) -> f64
    ensures is { result ≡ of_bits binary64 n }
{
    if n % 0x8000_0000_0000_0000 > 0x7ff0_0000_0000_0000 {
        0.0 / 0.0
    } else {
        f64::from_bits(n)
    }
}

fn constant(digits: &[u8]) -> Token
    ensures { result ≡ const_of (bits_of digits.now) }
{
    match bits(digits) {
        Some(n) => Token::Const(float(n)),
        None => Token::Malformed,
    }
}

fn power(digits: &[u8]) -> Token
    ensures { result ≡ pow_of (bits_of digits.now) }
{
    match bits(digits) {
        Some(n) => Token::Pow(float(n)),
        None => Token::Malformed,
    }
}

// A number of at most 19 digits, which always fits, without leading zeros.
pub fn natural(digits: &[u8]) -> Option<u64>
    ensures is { result ≡ natural_of digits.now }
{
    if digits.len() > 19 {
        None
    } else if digits.len() == 0 {
        None
    } else if digits.len() == 1 {
        spelled(digits, 10)
    } else if digits[0] == 48 {
        None
    } else {
        spelled(digits, 10)
    }
}

// 0 to 255, without leading zeros.
#[tactic(auto, unfolding(crate::specs::Spelling::var_of))]
fn variable(digits: &[u8]) -> Token
    ensures { result ≡ var_of digits.now }
{
    index(natural(digits))
}

fn index(n: Option<u64>) -> Token
    ensures { result ≡ index_of n }
{
    match n {
        Some(i) => if i > 255 {
            Token::Malformed
        } else {
            Token::Var(i)
        },
        None => Token::Malformed,
    }
}

// A token of one byte.
#[tactic(auto, unfolding(crate::specs::Spelling::mark_of))]
fn mark(b: u8) -> Token
    ensures { result ≡ mark_of b }
{
    if b == 43 {
        Token::Add
    } else if b == 45 {
        Token::Sub
    } else if b == 42 {
        Token::Mul
    } else if b == 126 {
        Token::Neg
    } else if b == 63 {
        Token::Other
    } else {
        Token::Malformed
    }
}

// The token that a word spells.
pub fn token_of(word: &[u8]) -> Token
    ensures is { result ≡ token_of word.now }
{
    if word.len() == 0 {
        return Token::Malformed;
    }
    let b = word[0];
    if word.len() == 1 {
        mark(b)
    } else if b == 99 {
        constant(&word[1..])
    } else if b == 94 {
        power(&word[1..])
    } else if b == 118 {
        variable(&word[1..])
    } else {
        Token::Malformed
    }
}

// Where the part of a text that starts at a place ends: at the mark or at the text's end.
pub fn part_end(text: &[u8], at: usize, mark: u8) -> usize
    ensures is { result ≡ at + length_to mark (drop at text.now) }
{
    for end in at..text.len() {
        if text[end] == mark {
            return end;
        }
    }
    at.max(text.len())
}

// Where a word ends: at a space or at the text's end.
pub fn word_end(text: &[u8], at: usize) -> usize
    ensures is { result ≡ at + word_length (drop at text.now) }
{
    part_end(text, at, 32)
}

// ---- the form of a text

// How many values a token takes off the stack.
fn takes(token: Token) -> usize
    ensures { result ≡ takes_of token }
{
    match token {
        Token::Const(_) => 0,
        Token::Var(_) => 0,
        Token::Add => 2,
        Token::Sub => 2,
        Token::Mul => 2,
        Token::Neg => 1,
        Token::Pow(_) => 1,
        Token::Other => 0,
        Token::Malformed => 0,
    }
}

fn is_other(token: Token) -> bool
    ensures { result ≡ is_other token }
{
    match token {
        Token::Other => true,
        Token::Const(_) => false,
        Token::Var(_) => false,
        Token::Add => false,
        Token::Sub => false,
        Token::Mul => false,
        Token::Neg => false,
        Token::Pow(_) => false,
        Token::Malformed => false,
    }
}

fn is_malformed(token: Token) -> bool
    ensures { result ≡ is_malformed token }
{
    match token {
        Token::Malformed => true,
        Token::Const(_) => false,
        Token::Var(_) => false,
        Token::Add => false,
        Token::Sub => false,
        Token::Mul => false,
        Token::Neg => false,
        Token::Pow(_) => false,
        Token::Other => false,
    }
}

impl Height {
    // Whether a token is bad here. Past a `?` its spelling alone counts.
    fn is_bad(self, token: Token) -> bool
        ensures { result ≡ is_bad token self }
    {
        if is_malformed(token) {
            return true;
        }
        if self.past {
            return false;
        }
        self.values < takes(token)
    }

    fn after(self, token: Token) -> Height
        requires { self.values < 18446744073709551615 }
        ensures { result ≡ after_of token self }
    {
        if self.past {
            return self;
        }
        if is_other(token) {
            return Height {
                values: self.values,
                deep: self.deep,
                past: true,
            };
        }
        let values = terms::less(self.values, takes(token)) + 1;
        Height {
            values,
            deep: if self.deep { true } else { values > 16 },
            past: false,
        }
    }

    // At the text's end one value is left, or a token is missing.
    fn finish(self, end: usize) -> Result<(), Reason>
        ensures { result ≡ finish_of end self }
    {
        if self.past {
            self.room()
        } else if self.values == 1 {
            self.room()
        } else {
            Err(Reason::Malformed { at: end })
        }
    }

    fn room(self) -> Result<(), Reason>
        ensures { result ≡ room_of self }
    {
        if self.deep {
            Err(Reason::TooLong)
        } else {
            Ok(())
        }
    }
}

// Whether a text is an expression of at most 16 values: 5 with the first bad token's place, then 4.
pub fn check(text: &[u8]) -> Result<(), Reason>
    ensures is { result ≡ check_of text.now }
{
    let mut height = Height {
        values: 0,
        deep: false,
        past: false,
    };
    let mut at: usize = 0;
    while at <= text.len() {
        let end = word_end(text, at);
        let token = token_of(&text[at..end]);
        if height.is_bad(token) {
            return Err(Reason::Malformed { at });
        }
        height = height.after(token);
        if end == text.len() {
            return height.finish(end);
        }
        at = end + 1;
    }
    // Not reached: the last word ends where the text does.
    height.finish(at)
}
