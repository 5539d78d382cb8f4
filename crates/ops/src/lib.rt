// The operations of a job by their names (document 01, "the job program").
#![tactic(auto)]

ghost use Rattle.std.specs.Prelude.{◌≡◌};
ghost use Rattle.text.specs.Page.{laid, after};
ghost use Rattle.ops.specs.Op.{name_of};

// A job's operation; Unknown is written `?`.
#[derive(Clone, Copy)]
pub enum Op {
    Add,
    Sub,
    Mul,
    Divide,
    Gcd,
    Resultant,
    Neg,
    Diff,
    Discriminant,
    Roots,
    Factor,
    Rebuild,
    Eval,
    Count,
    Isolate,
    Unknown,
}

// The name; `?` for any other operation.
pub fn write_name(op: Op, out: &mut [u8], at: usize) -> usize
    ensures is { result ≡ after (name_of op) at out.old }
    ensures page { out.new ≡ laid (name_of op) at out.old }
{
    match op {
        Op::Add => text::write_bytes(b"add", out, at),
        Op::Sub => text::write_bytes(b"sub", out, at),
        Op::Mul => text::write_bytes(b"mul", out, at),
        Op::Divide => text::write_bytes(b"divide", out, at),
        Op::Gcd => text::write_bytes(b"gcd", out, at),
        Op::Resultant => text::write_bytes(b"resultant", out, at),
        Op::Neg => text::write_bytes(b"neg", out, at),
        Op::Diff => text::write_bytes(b"diff", out, at),
        Op::Discriminant => text::write_bytes(b"discriminant", out, at),
        Op::Roots => text::write_bytes(b"roots", out, at),
        Op::Factor => text::write_bytes(b"factor", out, at),
        Op::Rebuild => text::write_bytes(b"rebuild", out, at),
        Op::Eval => text::write_bytes(b"eval", out, at),
        Op::Count => text::write_bytes(b"count", out, at),
        Op::Isolate => text::write_bytes(b"isolate", out, at),
        Op::Unknown => text::write_bytes(b"?", out, at),
    }
}
