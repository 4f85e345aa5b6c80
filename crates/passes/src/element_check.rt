// The check of one node, way or relation: its message, its Info, keys, vals and their counts, and then what is its own. The three are written
// out, since each is two or three calls, and a trait would name the parts of each message once more.
ghost use Rattle.std.specs.Prelude.{◌≡◌};
ghost use Rattle.block.specs.Check.{check_info, check_common, check_node, check_way, check_relation};
ghost use Rattle.columns.specs.InStep.{ahead, start_of};
ghost use Rattle.fields.specs.Part.{bytes_of};

use crate::columns_check::{check_column, check_members, check_tags};
use fields::part::{Part, bytes_of};
use protobuf::refusal::Refusal;
use views::info::WireInfo;
use views::node::WireNode;
use views::relation::WireRelation;
use views::view::View;
use views::way::WireWay;

// An Info.
fn check_info(s: &[u8]) -> Result<(), Refusal>
    ensures { result ≡ check_info s.now }
{
    WireInfo::parse(s, 0, s.len())?;
    Ok(())
}

// What every element has: its Info, keys and vals, parts of its message.
fn check_common(s: &[u8], info: Part, keys: Part, vals: Part) -> Result<(), Refusal>
    ensures { result ≡ check_common (bytes_of s.now info) (ahead s.now (start_of keys)) (ahead s.now (start_of vals)) }
{
    check_info(bytes_of(s, info))?;
    check_tags(s, keys, vals)
}

// The whole of `s` as a node: accepted, or the first refusal of the message, its Info, its keys, its vals, or 12 of their counts.
pub fn check_node(s: &[u8]) -> Result<(), Refusal>
    ensures { result ≡ check_node s.now }
{
    let v = WireNode::parse(s, 0, s.len())?;
    check_common(s, v.info, v.keys, v.vals)
}

// The same of a way, and then its refs.
pub fn check_way(s: &[u8]) -> Result<(), Refusal>
    ensures { result ≡ check_way s.now }
{
    let v = WireWay::parse(s, 0, s.len())?;
    check_common(s, v.info, v.keys, v.vals)?;
    check_column(s, v.refs)
}

// The same of a relation, and then its roles, memids and types, and 12 of their counts.
pub fn check_relation(s: &[u8]) -> Result<(), Refusal>
    ensures { result ≡ check_relation s.now }
{
    let v = WireRelation::parse(s, 0, s.len())?;
    check_common(s, v.info, v.keys, v.vals)?;
    check_members(s, v.roles, v.memids, v.types)
}
