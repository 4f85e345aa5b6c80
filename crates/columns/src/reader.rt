// One column: its reader at the start of a part. Its values are read one at a time by `read_value` of `protobuf`.
ghost use Rattle.std.specs.Prelude.{◌≡◌};
ghost use Rattle.columns.specs.InStep.{start_of};

use fields::part::Part;
use protobuf::column::Column;

// A reader of the column in a part: one that has ended where the part is not present, and one that is outside all bytes where the part's end
// passes every length.
pub fn start_column(part: Part) -> Column
    ensures { result ≡ start_of part }
{
    if part.present {
        if 0xFFFF_FFFF_FFFF_FFFF - part.start < part.len {
            Column { at: 1, end: 0 }
        } else {
            Column {
                at: part.start,
                end: part.start + part.len,
            }
        }
    } else {
        Column { at: 0, end: 0 }
    }
}
