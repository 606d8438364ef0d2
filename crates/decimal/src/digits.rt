// The digits of a number.
ghost use Rattle.std.specs.Prelude.{◌≤◌, ◌^◌};
ghost use Rattle.buffer.specs.Buffer.{Put};
ghost use Rattle.decimal.specs.Decimal.{decimal};

use buffer::put;

// The size of a signed number, written as its quotient by ten and then its last digit: as many calls as it has digits, at most 19.
pub fn put_digits(n: u64, buffer: &mut [u8], at: usize) -> usize
    requires { n ≤ 2 ^ 63 }
    ensures { Put at (decimal n) buffer.old buffer.new result }
{
    let last = b'0' + (n % 10) as u8;
    if n < 10 {
        return put(&[last], buffer, at);
    }
    let end = put_digits(n / 10, buffer, at);
    put(&[last], buffer, end)
}
