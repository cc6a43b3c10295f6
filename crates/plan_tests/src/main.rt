//! Reads a table of texts and of what the reader has to say of each, and counts those that agree.
//! Byte 255 ends each text and each answer. A refusal is answered by its report line; a plan by a
//! line of its steps and some of its numbers, and a line for each of its labels.
#![tactic(auto)]

ghost use Rattle.std.specs.Prelude.{◌≡◌, ◌≤◌, ◌∷◌, ◌++◌, length, IfOk, IfSome};

use plan::keeps::Keeps;
use plan::plan::Plan;
use plan::reader::read_plan;
use plan::writer::{Full, Writer};
use std::io;
use std::io::Read;

/// More bytes than the table has.
const TABLE: usize = 65536;

/// All of the input, as far as it fits: how many bytes of `buf` it fills.
fn read_input(input: &mut impl Read, buf: &mut [u8]) -> io::Result<usize>
    ensures { IfOk result (λ n. n ≤ length buf.old) }
{
    let room = buf.len();
    let mut rest = buf;
    io::copy(&mut input.take(room as u64), &mut rest)?;
    Ok(room.saturating_sub(rest.len()))
}

/// The threshold of the last keep-out, or 0.
fn last_threshold(keeps: &Keeps) -> i64 {
    keeps
        .as_slice()
        .last()
        .map_or(0, |keep| keep.keep_out.threshold())
}

/// Puts what a plan holds.
fn put_plan(out: &mut Writer, text: &[u8], plan: &Plan) -> Result<(), Full> {
    let matrix = plan.model.matrix();
    let gains = plan.model.gains();
    let centres = plan.model.centres();
    let radii = plan.model.radii();
    let places = plan.start.centres();
    let widths = plan.start.radii();
    let numbers = [
        matrix[0][0],
        matrix[3][3],
        gains[0][0],
        centres[1],
        radii[0],
        places[0],
        widths[3],
        last_threshold(&plan.keeps),
    ];
    out.step(plan.steps.count(), numbers)?;
    put_labels(out, text, &plan.keeps)
}

/// Puts a line for each label.
fn put_labels(out: &mut Writer, text: &[u8], keeps: &Keeps) -> Result<(), Full> {
    for keep in keeps.as_slice() {
        out.clear(keep.label.part(text))?;
    }
    Ok(())
}

/// Puts what the reader says of a text.
fn put_answer(out: &mut Writer, text: &[u8]) -> Result<(), Full> {
    match read_plan(text) {
        Ok(plan) => put_plan(out, text, &plan),
        Err(refusal) => out.refused(refusal.told()),
    }
}

/// Whether the reader says of a text what it is to say.
fn agrees(text: &[u8], answer: &[u8]) -> bool {
    let mut page = [0u8; 1024];
    let mut out = Writer::over(&mut page);
    put_answer(&mut out, text).is_ok() && out.text() == answer
}

/// The part of a table before the first byte 255, and what follows that byte.
fn cut(table: &[u8]) -> Option<(&[u8], &[u8])>
    ensures { IfSome result (λ p. table.now ≡ p.0.now ++ 255 ∷ p.1.now) }
{
    let at = table.iter().position(|byte| *byte == 255)?;
    Some((&table[..at], &table[at + 1..]))
}

/// Counts the texts that agree and prints the number, from 0, of each that does not.
fn count_agreeing(rt: &impl Print, table: &[u8]) -> io::Result<usize> {
    let mut rest = table;
    let mut agreeing = 0usize;
    for n in 0..4096usize {
        let Some((text, more)) = cut(rest) else {
            break;
        };
        // The last answer may lack its byte 255.
        let (answer, more) = cut(more).unwrap_or((more, &[]));
        if agrees(text, answer) {
            agreeing = agreeing.saturating_add(1);
        } else {
            println!(rt; "differs\t{n}")?;
        }
        rest = more;
    }
    Ok(agreeing)
}

fn main(rt: HostRuntime) -> anyhow::Result<()> {
    let mut table = [0u8; TABLE];
    let len = read_input(&mut rt.stdin(), &mut table)?;
    let agreeing = count_agreeing(&rt, &table[..len])?;
    println!(&rt; "texts\t{agreeing}")?;
    Ok(())
}
