// The check of a dense message: the message, DenseInfo, ids, lats, lons and their counts, keys_vals as walked, then the six info columns.
ghost use Rattle.std.specs.Prelude.{◌≡◌, [], ◌∷◌};
ghost use Rattle.block.specs.Check.{all, read_whole, check_rows, check_dense};
ghost use Rattle.columns.specs.InStep.{ahead, start_of};

use crate::columns_check::{check_column, check_pairs, count_three};
use columns::reader::start_column;
use fields::part::{Part, bytes_of};
use protobuf::refusal::Refusal;
use views::dense_info::WireDenseInfo;
use views::dense_nodes::WireDenseNodes;
use views::view::View;

// Columns, one after the other; their counts are not compared.
fn check_columns(s: &[u8], columns: &[Part]) -> Result<(), Refusal>
    ensures { result ≡ all (λ part. read_whole (ahead s.now (start_of part))) columns.now }
{
    for part in columns {
        check_column(s, *part)?;
    }
    Ok(())
}

// The six columns of a DenseInfo, parts of its bytes.
fn check_info_columns(s: &[u8], v: WireDenseInfo) -> Result<(), Refusal>
    ensures { result ≡ all read_whole (ahead s.now (start_of v.version) ∷ ahead s.now (start_of v.timestamp) ∷ ahead s.now (start_of v.changeset) ∷ ahead s.now (start_of v.uid) ∷ ahead s.now (start_of v.user) ∷ ahead s.now (start_of v.visible) ∷ []) }
{
    let columns = [
        v.version,
        v.timestamp,
        v.changeset,
        v.uid,
        v.user,
        v.visible,
    ];
    check_columns(s, &columns)
}

// Ids, lats, lons and keys_vals of a dense message, parts of its bytes.
fn check_rows(s: &[u8], v: WireDenseNodes) -> Result<(), Refusal>
    ensures { result ≡ check_rows (ahead s.now (start_of v.id)) (ahead s.now (start_of v.lat)) (ahead s.now (start_of v.lon)) (ahead s.now (start_of v.keyvals)) }
{
    let n = count_three(s, v.id, v.lat, v.lon)?;
    check_pairs(s, start_column(v.keyvals), n)
}

// The whole of `s` as a dense message: accepted, or the first refusal of the message, of DenseInfo, of its ids, lats and lons or 12 of their counts,
// of keys_vals as walked, of the six info columns.
pub fn check_dense(s: &[u8]) -> Result<(), Refusal>
    ensures { result ≡ check_dense s.now }
{
    let v = WireDenseNodes::parse(s, 0, s.len())?;
    let info = bytes_of(s, v.info);
    let columns = WireDenseInfo::parse(info, 0, info.len())?;
    check_rows(s, v)?;
    check_info_columns(info, columns)
}
