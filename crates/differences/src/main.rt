// Prints what the files `left` and `right` of the current folder differ in, each a shelf: a line for each record that differs or that only one has, and
// their number; or, where one is refused, its number and the file's name alone.
#![tactic(auto)]

use std::io;
use std::rt::Files;

// The bytes of 4,096 records, and of a report.
const SHELF: usize = 1048576;

const REPORT: usize = 262144;

// Reads a file, and answers how many bytes it has: one, which is no shelf and so refused with 34 in its turn, where it is longer or can't be read to its end.
fn read(rt: &impl Files, name: &str, space: &mut [u8]) -> usize {
    intake::whole_file(rt, name, space).unwrap_or(1)
}

fn main(rt: HostRuntime) -> io::Result<()> {
    let mut left = intake::room::<SHELF>();
    let mut right = intake::room::<SHELF>();
    let n = read(&rt, "left", &mut left);
    let m = read(&rt, "right", &mut right);
    let mut text = intake::room::<REPORT>();
    let listed = compare::list(
        octets::part(&left, 0, n),
        octets::part(&right, 0, m),
        &mut text,
    );
    match listed {
        Ok(length) => rt.write_all(octets::part(&text, 0, length)),
        Err(refusal) => println!(&rt; "{refusal}"),
    }
}
