// The entries for C programs: numbers and byte buffers in, numbers out. The crate gateway_c exports them.

#![tactic(auto)]

ghost use Rattle.std.specs.Prelude.{◌≡◌, length, pos, neg_ℤ};
ghost use Rattle.gateway.specs.Codes.{check_code, length_code};
ghost use Rattle.composing.specs.Composed.{composed};
ghost use Rattle.composing.specs.Composing.{composing, afterwards};
ghost use Rattle.table_format.specs.Checked.{checked};
ghost use Rattle.table_format.specs.declared.kind.Kind.TheVariants.{Pattern, Scope};

use composing::compose::compose;
use table_format::check::check;
use table_format::kind::Kind;

// Minus a refusal's number: all that the outcomes of checking and of composing have in common.
fn refusal_code(number: u8) -> i32
    ensures { result ≡ neg_ℤ (pos number) }
{
    -i32::from(number)
}

// 0 for a lawful table of the kind, else minus the refusal's number.
fn check_code(kind: Kind, bytes: &[u8]) -> i32
    ensures { result ≡ check_code (checked kind bytes.now) }
{
    match check(kind, bytes) {
        Ok(()) => 0,
        Err(fault) => refusal_code(fault.number()),
    }
}

// One entry for each kind: C is promised these two names.
pub fn vontiqa_check_pattern_table(bytes: &[u8]) -> i32
    ensures { result ≡ check_code (checked Pattern bytes.now) }
{
    check_code(Kind::Pattern, bytes)
}

pub fn vontiqa_check_scope_table(bytes: &[u8]) -> i32
    ensures { result ≡ check_code (checked Scope bytes.now) }
{
    check_code(Kind::Scope, bytes)
}

// The length of the composed table, written at the front of `out`, or minus the refusal's number. The buffers are as
// C gives them. A length is at most 16,252, so `as` loses nothing.
pub fn vontiqa_compose<'a>(pattern: &'a [u8], scope: &'a [u8], out: &mut [u8]) -> i32
    ensures value { result ≡ length_code (composing pattern.now scope.now (length out.old)) }
    ensures bytes { out.new ≡ afterwards (composing pattern.now scope.now (length out.old)) (composed pattern.now scope.now) out.old }
{
    match compose(pattern, scope, out) {
        Ok(n) => n as i32,
        Err(fault) => refusal_code(fault.number()),
    }
}
