// The columns by their numbers, from 0 TimestampNanosecond to 9 Date64.
ghost use Rattle.std.specs.Prelude.{◌≡◌};
ghost use Rattle.parse_column.specs.Numbers.{column_numbered};

use column::Column;

// The column that a number names, or none. No `TryFrom`, as with `unit_numbered`: its error would say no more than None.
pub fn column_numbered(number: u8) -> Option<Column>
    ensures { result ≡ column_numbered number }
{
    Some(match number {
        0 => Column::TimestampNanosecond,
        1 => Column::TimestampMicrosecond,
        2 => Column::TimestampMillisecond,
        3 => Column::TimestampSecond,
        4 => Column::Time64Nanosecond,
        5 => Column::Time64Microsecond,
        6 => Column::Time32Millisecond,
        7 => Column::Time32Second,
        8 => Column::Date32,
        9 => Column::Date64,
        _ => return None,
    })
}
