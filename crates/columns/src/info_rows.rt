// The info of dense nodes, node by node: present while version, timestamp, changeset, uid and user_sid all have a value.
ghost use Rattle.std.specs.Prelude.{◌≡◌, true};
ghost use Rattle.numbers.specs.Signed.{twos};
ghost use Rattle.block.specs.Infos.{visible_info, user_info, next_info};
ghost use Rattle.columns.specs.Inside.{infos_inside, info_inside};
ghost use Rattle.columns.specs.Zip.{infos_ahead, info_said};

use crate::sums::Sum;
use numbers::signed::Signed;
use protobuf::column::{Column, read_value};
use protobuf::refusal::Refusal;

// The six columns of a DenseInfo; `user` is user_sid.
#[derive(Clone, Copy)]
pub struct InfoColumns {
    pub version: Column,
    pub timestamp: Sum<i64>,
    pub changeset: Sum<i64>,
    pub uid: Sum<i32>,
    pub user: Sum<i32>,
    pub visible: Column,
}

// A node's version and visibility; its other values are the sums of the columns behind it.
#[derive(Clone, Copy)]
pub struct Row {
    pub version: i32,
    pub visible: bool,
}

// visible, where all else of a node is read, `version` as it is stored: true where its column has ended.
fn next_visible(
    s: &[u8],
    version: u64,
    columns: InfoColumns,
) -> Result<(Option<Row>, InfoColumns), Refusal>
    ensures says { info_said s.now result ≡ visible_info (twos 32 version) columns.timestamp.sum columns.changeset.sum columns.uid.sum columns.user.sum (infos_ahead s.now columns) }
    ensures inside { infos_inside s.now columns ≡ true → info_inside s.now result ≡ true }
{
    let version = i32::of_bits(version);
    let mut read = columns;
    let mut visible = true;
    if let Some((value, next)) = read_value(s, columns.visible)? {
        read.visible = next;
        visible = value != 0;
    }
    Ok((Some(Row { version, visible }), read))
}

// uid, user_sid and visible, where version, timestamp and changeset are read.
#[inline(always)]
fn next_user(
    s: &[u8],
    version: u64,
    columns: InfoColumns,
) -> Result<(Option<Row>, InfoColumns), Refusal>
    ensures says { info_said s.now result ≡ user_info (twos 32 version) columns.timestamp.sum columns.changeset.sum (infos_ahead s.now columns) }
    ensures inside { infos_inside s.now columns ≡ true → info_inside s.now result ≡ true }
{
    let mut read = columns;
    let Some(uid) = columns.uid.next(s)? else {
        return Ok((None, read));
    };
    read.uid = uid;
    let Some(user) = columns.user.next(s)? else {
        return Ok((None, read));
    };
    read.user = user;
    next_visible(s, version, read)
}

// The info of the next node, or none, with the columns behind it. Each column is read only while those before it had a value.
pub fn next_info(s: &[u8], columns: InfoColumns) -> Result<(Option<Row>, InfoColumns), Refusal>
    ensures says { info_said s.now result ≡ next_info (infos_ahead s.now columns) }
    ensures inside { infos_inside s.now columns ≡ true → info_inside s.now result ≡ true }
{
    let mut read = columns;
    let Some((version, next)) = read_value(s, columns.version)? else {
        return Ok((None, read));
    };
    read.version = next;
    let Some(timestamp) = columns.timestamp.next(s)? else {
        return Ok((None, read));
    };
    read.timestamp = timestamp;
    let Some(changeset) = columns.changeset.next(s)? else {
        return Ok((None, read));
    };
    read.changeset = changeset;
    next_user(s, version, read)
}
