// Whether a column has ended, where that can be seen without reading it.
ghost use Rattle.std.specs.Prelude.{true, ◌≡◌, length, leb, eqb};
ghost use Rattle.protobuf.specs.Stream.{end};
ghost use Rattle.protobuf.specs.Column.{ended};
ghost use Rattle.columns.specs.InStep.{ahead};
ghost use Rattle.columns.specs.Inside.{also};

use protobuf::column::Column;

// Where its reader stands at its end. One that is outside the bytes has not ended there: its step refuses.
pub fn is_at_end(s: &[u8], column: Column) -> bool
    ensures is { result ≡ also (leb column.end (length s.now)) (eqb column.at column.end) }
    ensures ended { result ≡ true → ahead s.now column ≡ end ended }
{
    if s.len() < column.end {
        return false;
    }
    column.at == column.end
}
