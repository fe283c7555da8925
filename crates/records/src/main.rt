// Prints the shelf, the file `shelf` of the current folder: a line for each record, or the number of a refusal alone.
#![tactic(auto)]

use refusal::Refusal;
use std::io;

// Prints a refusal's number and the line's end.
fn say(rt: &impl Print, refusal: Refusal) -> io::Result<()> {
    println!(rt; "{refusal}")
}

// The lines of the records.
fn print(rt: &impl Print, shelf: &[u8]) -> io::Result<()> {
    for record in shelf.chunks_exact(256) {
        let mut text = [0u8; 510];
        let length = shelf::line(record, &mut text).unwrap_or(0);
        rt.write_all(octets::part(&text, 0, length))?;
    }
    Ok(())
}

fn show(rt: &impl Print, shelf: &[u8]) -> io::Result<()> {
    match shelf::judge(shelf) {
        Ok(()) => print(rt, shelf),
        Err(refusal) => say(rt, refusal),
    }
}

// The bytes of 4,096 records.
const SHELF: usize = 1048576;

// What was read is a shelf only where the file ends behind it: a longer one, and one that can't be read to its end, is refused with 34.
fn main(rt: HostRuntime) -> io::Result<()> {
    let mut space = intake::room::<SHELF>();
    match intake::whole_file(&rt, "shelf", &mut space) {
        Some(n) => show(&rt, octets::part(&space, 0, n)),
        None => say(&rt, Refusal::Shelf),
    }
}
