// Printing, by the delivered calls, into a buffer of a given length, which is shown whole. Before the call each of its bytes is a point, and what
// else the call may write is the greatest number, so that what it does not write shows.
use crate::show;
use cullpethi::{cullpethi_keypad_text, cullpethi_list_interval, cullpethi_write_interval};
use lines::input::split_once;
use number::parse::parse;
use std::io;

// The buffer's length; then a bar, and months, days and nanoseconds, parted by spaces.
pub fn write(out: &impl Print, text: &[u8]) -> io::Result<()> {
    let Some((length, numbers)) = split_once(text, b'|') else {
        return show::bytes(out, b"no bar");
    };
    let Some((months, days, nanos)) = numbers_in(numbers) else {
        return show::bytes(out, b"no three numbers");
    };
    let mut space = [b'.'; 1024];
    let Some(buffer) = lent(&mut space, length) else {
        return show::bytes(out, b"no length of a buffer");
    };
    let mut length = usize::MAX;
    let status = cullpethi_write_interval(months, days, nanos, buffer, &mut length);
    told(out, status, length, usize::MAX)?;
    show::text(out, buffer)
}

fn numbers_in(s: &[u8]) -> Option<(i32, i32, i64)> {
    let (months, rest) = split_once(s, b' ')?;
    let (days, nanos) = split_once(rest, b' ')?;
    Some((
        parse::<i32>(months)?,
        parse::<i32>(days)?,
        parse::<i64>(nanos)?,
    ))
}

// The default unit's number and the buffer's length, parted by a space; then a bar and the text.
pub fn list(out: &impl Print, text: &[u8]) -> io::Result<()> {
    let Some((numbers, text)) = split_once(text, b'|') else {
        return show::bytes(out, b"no bar");
    };
    let Some((unit, length)) = split_once(numbers, b' ') else {
        return show::bytes(out, b"no length of a buffer");
    };
    let mut space = [b'.'; 1024];
    let Some(buffer) = lent(&mut space, length) else {
        return show::bytes(out, b"no length of a buffer");
    };
    listed(out, text, unit, buffer)
}

fn listed(out: &impl Print, text: &[u8], unit: &[u8], buffer: &mut [u8]) -> io::Result<()> {
    let Some(unit) = parse::<u32>(unit).and_then(|z| u8::try_from(z).ok()) else {
        return show::bytes(out, b"no number of a unit");
    };
    let mut length = usize::MAX;
    let mut place = usize::MAX;
    let status = cullpethi_list_interval(text, unit, buffer, &mut length, &mut place);
    told(out, status, length, place)?;
    show::text(out, buffer)
}

// The buffer's length; then a bar and the number of a keypad text.
pub fn keypad(out: &impl Print, text: &[u8]) -> io::Result<()> {
    let Some((length, k)) = split_once(text, b'|') else {
        return show::bytes(out, b"no bar");
    };
    let Some(k) = whole(k) else {
        return show::bytes(out, b"no whole number");
    };
    let mut space = [b'.'; 1024];
    let Some(buffer) = lent(&mut space, length) else {
        return show::bytes(out, b"no length of a buffer");
    };
    let mut length = usize::MAX;
    let status = cullpethi_keypad_text(k, buffer, &mut length);
    told(out, status, length, usize::MAX)?;
    show::text(out, buffer)
}

fn whole(s: &[u8]) -> Option<u64> {
    str::from_utf8(s).ok()?.parse::<u64>().ok()
}

// The front of the room, as long as a number says.
pub fn lent<'a>(space: &'a mut [u8], length: &[u8]) -> Option<&'a mut [u8]> {
    space.get_mut(..parse::<u32>(length)? as usize)
}

// The status, and the length and the place where they were written.
pub fn told(out: &impl Print, status: u8, length: usize, place: usize) -> io::Result<()> {
    if status == 0 {
        show::bytes(out, b"accepted")?;
    } else {
        print!(out; "refused {status}")?;
    }
    if length != usize::MAX {
        print!(out; ", {length} bytes")?;
    }
    if place != usize::MAX {
        print!(out; " at {place}")?;
    }
    show::bytes(out, b": ")
}
