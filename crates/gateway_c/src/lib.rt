// What C programs call: each function is the gateway's of the same name.

#![tactic(auto)]

ghost use Rattle.std.specs.Prelude.{◌≡◌, length};
ghost use Rattle.gateway.specs.Codes.{check_code, length_code};
ghost use Rattle.composing.specs.Composed.{composed};
ghost use Rattle.composing.specs.Composing.{composing, afterwards};
ghost use Rattle.table_format.specs.Checked.{checked};
ghost use Rattle.table_format.specs.declared.kind.Kind.TheVariants.{Pattern, Scope};

// One entry for each kind: C is promised these two names.
#[unsafe(no_mangle)]
pub extern "C" fn vontiqa_check_pattern_table(bytes: &[u8]) -> i32
    ensures { result ≡ check_code (checked Pattern bytes.now) }
{
    gateway::vontiqa_check_pattern_table(bytes)
}

#[unsafe(no_mangle)]
pub extern "C" fn vontiqa_check_scope_table(bytes: &[u8]) -> i32
    ensures { result ≡ check_code (checked Scope bytes.now) }
{
    gateway::vontiqa_check_scope_table(bytes)
}

// The length of the composed table, written at the front of `out`, or minus the refusal's number. The buffers are as
// C gives them.
#[unsafe(no_mangle)]
pub extern "C" fn vontiqa_compose<'a>(pattern: &'a [u8], scope: &'a [u8], out: &mut [u8]) -> i32
    ensures value { result ≡ length_code (composing pattern.now scope.now (length out.old)) }
    ensures bytes { out.new ≡ afterwards (composing pattern.now scope.now (length out.old)) (composed pattern.now scope.now) out.old }
{
    gateway::vontiqa_compose(pattern, scope, out)
}
