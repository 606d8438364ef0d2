// A whole column, by the delivered call: the column's number, how many cells there are, and the ends, parted by spaces; then a bar and the
// texts. Before the call each cell holds 7 and the index 99, so that what the
// call does not write shows.
use crate::show;
use arrayvec::ArrayVec;
use cullpethi::cullpethi_parse_column;
use lines::input::split_once;
use number::parse::parse;
use std::io;

pub fn of(out: &impl Print, text: &[u8]) -> io::Result<()> {
    let Some((numbers, texts)) = split_once(text, b'|') else {
        return show::bytes(out, b"no bar");
    };
    let numbers = numbers_in(numbers);
    let [column, count, ends @ ..] = numbers.as_slice() else {
        return show::bytes(out, b"no column or cells");
    };
    let Ok(column) = u8::try_from(*column) else {
        return show::bytes(out, b"no number of a column");
    };
    let mut cells = [7i64; 16];
    let Some(cells) = cells.get_mut(..*count as usize) else {
        return show::bytes(out, b"too many cells");
    };
    called(out, column, texts, ends, cells)
}

// The numbers in front, as far as there is room; what is no number counts as 0. A `while` over what is left: nothing is counted.
fn numbers_in(s: &[u8]) -> ArrayVec<u32, 16> {
    let mut numbers = ArrayVec::new();
    let mut rest = s;
    while !rest.is_empty() && !numbers.is_full() {
        let (number, behind) = match split_once(rest, b' ') {
            Some(parts) => parts,
            None => (rest, &rest[rest.len()..]),
        };
        numbers.push(parse::<u32>(number).unwrap_or(0));
        rest = behind;
    }
    numbers
}

fn called(
    out: &impl Print,
    column: u8,
    texts: &[u8],
    ends: &[u32],
    cells: &mut [i64],
) -> io::Result<()> {
    let mut index = 99;
    let status = cullpethi_parse_column(column, texts, ends, cells, &mut index);
    told(out, status, index)?;
    for cell in cells {
        show::bytes(out, b" ")?;
        show::number(out, *cell)?;
    }
    Ok(())
}

// The status, and the index where it was written.
fn told(out: &impl Print, status: u8, index: usize) -> io::Result<()> {
    if status == 0 {
        show::bytes(out, b"accepted")?;
    } else {
        print!(out; "refused {status}")?;
    }
    if index != 99 {
        print!(out; " at {index}")?;
    }
    show::bytes(out, b":")
}
