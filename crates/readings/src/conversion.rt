// Records converted, by the delivered calls, into a buffer of a given length, which is shown whole: its length; then a bar and the records' bytes.
// What is in the buffer and in the index before is as in `printing`.
use crate::printing::{lent, told};
use crate::show;
use cullpethi::{cullpethi_day_time_to_month_day_nano, cullpethi_month_day_nano_to_day_time};
use lines::input::split_once;
use std::io;

// To day-time records, or from them.
pub fn records(out: &impl Print, to_day_time: bool, text: &[u8]) -> io::Result<()> {
    let Some((length, from)) = split_once(text, b'|') else {
        return show::bytes(out, b"no bar");
    };
    let mut space = [b'.'; 1024];
    let Some(to) = lent(&mut space, length) else {
        return show::bytes(out, b"no length of a buffer");
    };
    let mut index = usize::MAX;
    let status = if to_day_time {
        cullpethi_month_day_nano_to_day_time(from, to, &mut index)
    } else {
        cullpethi_day_time_to_month_day_nano(from, to)
    };
    told(out, status, usize::MAX, index)?;
    show::text(out, to)
}
