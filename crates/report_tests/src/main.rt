//! Reads a table of texts and of the report that each is to give, and counts those that agree.
//! Byte 255 ends each text and each report.
#![tactic(auto)]

ghost use Rattle.std.specs.Prelude.{◌≡◌, ◌≤◌, ◌∷◌, ◌++◌, IsTrue, length, IfOk, IfSome};
ghost use Rattle.report.specs.Report.{bytes};
ghost use Rattle.report.specs.Reports.{Reports};

use report::report::{PAGE, report};
use std::alloc::Global;
use std::io;
use std::io::Read;

/// More bytes than the table has.
const TABLE: usize = 131072;

/// All of the input, as far as it fits: how many bytes of `buf` it fills.
fn read_input(input: &mut impl Read, buf: &mut [u8]) -> io::Result<usize>
    ensures { IfOk result (λ n. n ≤ length buf.old) }
{
    let room = buf.len();
    let mut rest = buf;
    io::copy(&mut input.take(room as u64), &mut rest)?;
    Ok(room.saturating_sub(rest.len()))
}

/// Whether a text gives the report that it is to give.
fn agrees(heap: Global, text: &[u8], expected: &[u8]) -> bool
    ensures { IsTrue result → Reports text.now (λ W lines. bytes lines ≡ expected.now) }
{
    let mut page = [0u8; PAGE];
    match report(heap, text, &mut page) {
        Ok(n) => &page[0..n] == expected,
        Err(_) => false,
    }
}

/// The part of a table before the first byte 255, and what follows that byte.
fn cut(table: &[u8]) -> Option<(&[u8], &[u8])>
    ensures { IfSome result (λ p. table.now ≡ p.0.now ++ 255 ∷ p.1.now) }
{
    let at = table.iter().position(|byte| *byte == 255)?;
    Some((&table[..at], &table[at + 1..]))
}

/// Counts the texts that agree and prints the number, from 0, of each that does not.
fn count_agreeing(rt: &impl Print, heap: Global, table: &[u8]) -> io::Result<usize>
    ensures { IfOk result (λ n. n ≤ length table.now) }
{
    let mut rest = table;
    let mut agreeing: usize = 0;
    for n in 0..4096usize {
        let Some((text, more)) = cut(rest) else {
            break;
        };
        // The last report may lack its byte 255.
        let (expected, more) = cut(more).unwrap_or((more, &[]));
        if agrees(heap, text, expected) {
            agreeing += 1;
        } else {
            println!(rt; "differs\t{n}")?;
        }
        rest = more;
    }
    Ok(agreeing)
}

fn main(rt: HostRuntime) -> anyhow::Result<()> {
    let mut table = [0u8; TABLE];
    let len = read_input(&mut rt.stdin(), &mut table)?;
    let agreeing = count_agreeing(&rt, rt.alloc(), &table[..len])?;
    println!(&rt; "texts\t{agreeing}")?;
    Ok(())
}
