// The answer of each reader.
use crate::{columns, conversion, intervals, printing, show, whole};
use calendar::days_from_ymd;
use lines::input::split_once;
use number::parse::parse;
use site::site_stamp;
use std::io;

pub fn of(out: &impl Print, name: &[u8], text: &[u8]) -> io::Result<()> {
    if let Some(read) = columns::of(name, text) {
        return show::read(out, read);
    }
    if let Some(shown) = intervals::of(out, name, text) {
        return shown;
    }
    match name {
        b"site" => show::marked(out, site_stamp(text)),
        b"column" => whole::of(out, text),
        b"write" => printing::write(out, text),
        b"list" => printing::list(out, text),
        b"keypad" => printing::keypad(out, text),
        b"to_month_day_nano" => conversion::records(out, false, text),
        b"to_day_time" => conversion::records(out, true, text),
        _ => ground(out, name, text),
    }
}

// What the readers stand on.
fn ground(out: &impl Print, name: &[u8], text: &[u8]) -> io::Result<()> {
    match name {
        b"utf8" => show::yes_or_no(out, utf8::is_utf8(text)),
        b"white" => show::count(out, white::white_at(text, 0)),
        b"trim" => show::text(out, text::trim::trim_pre_and_post_whitespace(text)),
        b"i32" => show::maybe(out, parse::<i32>(text)),
        b"i64" => show::maybe(out, parse::<i64>(text)),
        b"u32" => show::maybe(out, parse::<u32>(text)),
        b"day" => day(out, text),
        _ => show::bytes(out, b"no such reader"),
    }
}

// The day number of a year, a month and a day, parted by spaces.
fn day(out: &impl Print, text: &[u8]) -> io::Result<()> {
    let Some((year, month_day)) = split_once(text, b' ') else {
        return show::bytes(out, b"no month");
    };
    let Some(year) = parse::<i32>(year) else {
        return show::bytes(out, b"no year");
    };
    let Some((month, day)) = split_once(month_day, b' ') else {
        return show::bytes(out, b"no day");
    };
    let Some(month) = parse::<u32>(month) else {
        return show::bytes(out, b"no month");
    };
    let Some(day) = parse::<u32>(day) else {
        return show::bytes(out, b"no day");
    };
    show::maybe(out, days_from_ymd(year, month, day))
}
