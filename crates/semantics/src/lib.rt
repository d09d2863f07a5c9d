// The limits of RULES 2.2, 2.10, 4.6 and 7.2, for the code: each constant is the limit that the definitions name, and a function says so.
#![tactic(auto)]

mod refusals;

ghost use Rattle.std.specs.Prelude.{◌≡◌};
ghost use Rattle.semantics.specs.Limits.{sheet_limit, work_size, unify_output, name_limit, count_limit, variable_limit, bound_limit, signed_shift, depth_limit, type_limit, nesting_limit};

pub use refusals::{Refusal, Refused};

// Bytes of a sheet (cause 1).
pub const SHEET_LIMIT: usize = 65535;

pub fn sheet_limit() -> usize
    ensures { result ≡ sheet_limit }
{
    SHEET_LIMIT
}

// Bytes of the work area (cause 2).
pub const WORK_SIZE: usize = 65536;

pub fn work_size() -> usize
    ensures { result ≡ work_size }
{
    WORK_SIZE
}

// Bytes of output that `unify` asks for (cause 7).
pub const UNIFY_OUTPUT: usize = 2048;

pub fn unify_output() -> usize
    ensures { result ≡ unify_output }
{
    UNIFY_OUTPUT
}

// Bytes of a name (cause 4, in a type line 8).
pub const NAME_LIMIT: usize = 255;

pub fn name_limit() -> usize
    ensures { result ≡ name_limit }
{
    NAME_LIMIT
}

// A count (cause 4).
pub const COUNT_LIMIT: u64 = 9999;

pub fn count_limit() -> u64
    ensures { result ≡ count_limit }
{
    COUNT_LIMIT
}

// A variable (cause 4).
pub const VARIABLE_LIMIT: u64 = 4294967295;

pub fn variable_limit() -> u64
    ensures { result ≡ variable_limit }
{
    VARIABLE_LIMIT
}

// An unsigned bound (cause 4).
pub const BOUND_LIMIT: u64 = 18446744073709551615;

pub fn bound_limit() -> u64
    ensures { result ≡ bound_limit }
{
    BOUND_LIMIT
}

// How far below 0 a signed number may be; above 0 it is one less (cause 4).
pub const SIGNED_SHIFT: u64 = 9223372036854775808;

pub fn signed_shift() -> u64
    ensures { result ≡ signed_shift }
{
    SIGNED_SHIFT
}

// Depth of an expression (cause 5).
pub const DEPTH_LIMIT: usize = 24;

pub fn depth_limit() -> usize
    ensures { result ≡ depth_limit }
{
    DEPTH_LIMIT
}

// Bytes of a type line (cause 6).
pub const TYPE_LIMIT: usize = 1024;

pub fn type_limit() -> usize
    ensures { result ≡ type_limit }
{
    TYPE_LIMIT
}

// Nesting of a type (cause 6).
pub const NESTING_LIMIT: usize = 32;

pub fn nesting_limit() -> usize
    ensures { result ≡ nesting_limit }
{
    NESTING_LIMIT
}
