// Running sums: the values of a column of differences, each added to the sum of those before it. A message's columns start at 0.
ghost use Rattle.std.specs.Prelude.{◌≡◌, pos, true};
ghost use Rattle.columns.specs.InStep.{start_of};
ghost use Rattle.columns.specs.Inside.{column_inside, step_inside};
ghost use Rattle.columns.specs.Zip.{sums_ahead, sums_said};

use crate::reader::start_column;
use fields::part::Part;
use numbers::signed::Signed;
use protobuf::column::{Column, read_value};
use protobuf::refusal::Refusal;

// Where a reader of a column of differences stands, and the sum up to there: i64 of an sint64 column, i32 of an sint32 column.
#[derive(Clone, Copy)]
pub struct Sum<T> {
    pub column: Column,
    pub sum: T,
}

impl<T: Signed> Sum<T> {
    // The running sums of the column in a part, from 0.
    pub fn start(part: Part) -> Sum<T>
        ensures column { result.column ≡ start_of part }
        ensures sum { T.to_int result.sum ≡ pos 0 }
    {
        Sum {
            column: start_column(part),
            sum: T::of_bits(0),
        }
    }

    // The next sum, wrapping at the type's width, which is that of the state behind it.
    pub fn next(self, s: &[u8]) -> Result<Option<Sum<T>>, Refusal>
        ensures says { sums_said T.width T.to_int s.now result ≡ sums_ahead T.width T.to_int s.now self }
        ensures inside { step_inside (λ c. column_inside s.now c.column) result ≡ true }
    {
        let Some((value, column)) = read_value(s, self.column)? else {
            return Ok(None);
        };
        let sum = self.sum.plus(T::of_zigzag(value));
        Ok(Some(Sum { column, sum }))
    }
}
