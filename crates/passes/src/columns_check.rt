// Columns of a message, parts of its bytes, read whole: alone, or with counts that must be equal. Each function is one call of
// `agree` or `count_values`; counts are agreed on from behind, so a loop would run backwards.
ghost use Rattle.std.specs.Prelude.{◌≡◌};
ghost use Rattle.fields.specs.Outcome.{onward};
ghost use Rattle.block.specs.Check.{passed, same_three, read_whole, check_tags, check_members, check_pairs};
ghost use Rattle.columns.specs.InStep.{ahead, start_of};

use columns::counts::{agree, count_values};
use columns::keys_vals::pass_pairs;
use columns::reader::start_column;
use fields::part::Part;
use protobuf::column::Column;
use protobuf::refusal::Refusal;

// A count that is compared with no other.
fn check_count(c: Result<usize, Refusal>) -> Result<(), Refusal>
    ensures { result ≡ onward c (λ n. passed) }
{
    c?;
    Ok(())
}

// A column on its own.
pub(crate) fn check_column(s: &[u8], part: Part) -> Result<(), Refusal>
    ensures { result ≡ read_whole (ahead s.now (start_of part)) }
{
    check_count(count_values(s, start_column(part)))
}

// Keys and vals, whose counts must be equal.
pub(crate) fn check_tags(s: &[u8], keys: Part, vals: Part) -> Result<(), Refusal>
    ensures { result ≡ check_tags (ahead s.now (start_of keys)) (ahead s.now (start_of vals)) }
{
    let k = count_values(s, start_column(keys));
    let v = count_values(s, start_column(vals));
    check_count(agree(k, v))
}

// How many values each of three columns has: all are read, one after the other, before 12 is given for different counts.
pub(crate) fn count_three(s: &[u8], a: Part, b: Part, c: Part) -> Result<usize, Refusal>
    ensures { result ≡ same_three (ahead s.now (start_of a)) (ahead s.now (start_of b)) (ahead s.now (start_of c)) }
{
    let l = count_values(s, start_column(a));
    let m = count_values(s, start_column(b));
    let n = count_values(s, start_column(c));
    agree(l, agree(m, n))
}

// Roles, memids and types, whose counts must be equal.
pub(crate) fn check_members(s: &[u8], roles: Part, memids: Part, types: Part) -> Result<(), Refusal>
    ensures { result ≡ check_members (ahead s.now (start_of roles)) (ahead s.now (start_of memids)) (ahead s.now (start_of types)) }
{
    check_count(count_three(s, roles, memids, types))
}

// keys_vals as walked for `n` nodes; what stands behind their pairs is not read.
pub(crate) fn check_pairs(s: &[u8], keyvals: Column, n: usize) -> Result<(), Refusal>
    ensures { result ≡ check_pairs n (ahead s.now keyvals) }
{
    let mut column = keyvals;
    for _ in 0..n {
        column = pass_pairs(s, column)?;
    }
    Ok(())
}
