// How the test programs print answers: one line a case. Of an accepted text: `trees,` and the count, then the five numbers of
// each record, and `rest kept` where the cells past the last record are as they were. Of more than 24 records only the first and
// the last are printed, and the sum of all their cells. Of a refused text: `refused,number,place`, and `all zero` where every
// cell is. Otherwise `table wrong`. Of a respaced text: `bytes,` and the count, then its bytes, a line end as `~0A`. What the output
// holds besides is told as of a table. Of a parsed text: `syntax,` and the count, then the three numbers of each record; what the
// tables hold besides is told of both together.
#![tactic(auto)]

use std::io;
use tables::{Record, SyntaxRecord, TreeRecord};

const SHOWN: usize = 24;

pub fn accepted(rt: &impl Print, trees: &[u32], count: usize) -> io::Result<()> {
    print!(rt; "trees,")?;
    table::<TreeRecord, _>(rt, trees, count, |end| case_tables::kept(trees, end))
}

pub fn parsed(rt: &impl Print, trees: &[u32], syntax: &[u32], count: usize) -> io::Result<()> {
    print!(rt; "syntax,")?;
    table::<SyntaxRecord, _>(rt, syntax, count, |end| {
        case_tables::both_kept(trees, syntax, end)
    })
}

// The records of a table, and whether what is behind them is kept.
fn table<R: Record, F: FnOnce(usize) -> bool>(
    rt: &impl Print,
    cells: &[u32],
    count: usize,
    is_kept: F,
) -> io::Result<()>
    requires { F.IsAlwaysCallable is_kept }
{
    print!(rt; "{count}")?;
    if count > cells.len() / R::WIDTH {
        return verdict(rt, false, "rest kept");
    }
    let end = count * R::WIDTH;
    records::<R>(rt, &cells[..end])?;
    verdict(rt, is_kept(end), "rest kept")
}

pub fn respaced(rt: &impl Print, array: &[u8], count: usize) -> io::Result<()> {
    print!(rt; "bytes,{count} ")?;
    for b in array.iter().take(count) {
        byte(rt, *b)?;
    }
    verdict(rt, case_tables::kept(array, count), "rest kept")
}

fn byte(rt: &impl Print, b: u8) -> io::Result<()> {
    match b {
        b'\n' => rt.write_all(b"~0A"),
        _ => rt.write_all(&[b]),
    }
}

// A listing: `bytes,` and the count, `sum,` and a number that they determine, and the first line.
pub fn print_listing(rt: &impl Print, output: &[u8]) -> io::Result<()> {
    let count = output.len();
    let sum = case_tables::sum(output);
    print!(rt; "bytes,{count} sum,{sum} ")?;
    rt.write_all(&output[..cases::line_end(output, 0)])?;
    rt.write_all(b"\n")
}

pub fn refused(rt: &impl Print, number: u32, place: usize, zero: bool) -> io::Result<()> {
    print!(rt; "refused,{number},{place}")?;
    verdict(rt, zero, "all zero")
}

fn verdict(rt: &impl Print, right: bool, said: &str) -> io::Result<()> {
    let said = if right { said } else { "table wrong" };
    println!(rt; " {said}")
}

// The records that fill the cells.
fn records<R: Record>(rt: &impl Print, cells: &[u32]) -> io::Result<()> {
    let mut records = cells.chunks(R::WIDTH);
    if records.len() <= SHOWN {
        for r in records {
            record(rt, r)?;
        }
        return Ok(());
    }
    if let (Some(first), Some(last)) = (records.next(), records.next_back()) {
        print!(rt; " first")?;
        record(rt, first)?;
        print!(rt; " last")?;
        record(rt, last)?;
    }
    let sum = case_tables::sum(cells);
    print!(rt; " sum {sum}")
}

// A blank before the record, and commas in it.
fn record(rt: &impl Print, cells: &[u32]) -> io::Result<()> {
    for (place, cell) in cells.iter().enumerate() {
        let before = if place == 0 { ' ' } else { ',' };
        print!(rt; "{before}{cell}")?;
    }
    Ok(())
}
