// Whether a reader's state is inside the bytes that it is lent with: document 01's number 14, tested of all columns before any is read.
ghost use Rattle.std.specs.Prelude.{◌≡◌};
ghost use Rattle.columns.specs.Inside.{column_inside, tags_inside, members_inside, rows_inside, infos_inside};

use crate::info_rows::InfoColumns;
use crate::zip::{MemberColumns, RowColumns, TagColumns};
use protobuf::column::Column;

// Whether at ≤ end ≤ length.
pub fn is_column_inside(s: &[u8], column: Column) -> bool
    ensures { result ≡ column_inside s.now column }
{
    column.at <= column.end && column.end <= s.len()
}

// Whether keys and vals are inside. This and the three below name a struct's columns, in one expression each.
pub fn are_tags_inside(s: &[u8], columns: TagColumns) -> bool
    ensures { result ≡ tags_inside s.now columns }
{
    is_column_inside(s, columns.keys) && is_column_inside(s, columns.vals)
}

// Whether roles, memids and types are inside.
pub fn are_members_inside(s: &[u8], columns: MemberColumns) -> bool
    ensures { result ≡ members_inside s.now columns }
{
    is_column_inside(s, columns.roles)
        && is_column_inside(s, columns.memids.column)
        && is_column_inside(s, columns.types)
}

// Whether ids, lats and lons are inside.
pub fn are_rows_inside(s: &[u8], columns: RowColumns) -> bool
    ensures { result ≡ rows_inside s.now columns }
{
    is_column_inside(s, columns.ids.column)
        && is_column_inside(s, columns.lats.column)
        && is_column_inside(s, columns.lons.column)
}

// Whether all six columns are inside.
pub fn are_infos_inside(s: &[u8], columns: InfoColumns) -> bool
    ensures { result ≡ infos_inside s.now columns }
{
    is_column_inside(s, columns.version)
        && is_column_inside(s, columns.timestamp.column)
        && is_column_inside(s, columns.changeset.column)
        && is_column_inside(s, columns.uid.column)
        && is_column_inside(s, columns.user.column)
        && is_column_inside(s, columns.visible)
}
