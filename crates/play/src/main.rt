// The playing program: a file in, a line for each of its hands out. Everything that matters is in crate `answers`.

#![tactic(auto)]

use std::io::Read;
use std::{env, fs, io};

const HELP: &str = "usage: play [FILE]

Reads a rule sheet, m, a plan of the house and hands from FILE, or from standard input where no file is named, and
prints for each hand what the house and the guest have at its end.

FILE   nine bytes of rule sheet; four bytes of m, low byte first; a weight of four bytes, low byte first, for each
       choice at each sight of the house; then hand after hand: a byte with the number of the guest's choices, the
       choices, a byte each, a byte with the number of words, the words, four bytes each, low byte first.

A file that is turned away prints `refused NUMBER at PLACE`, and so does a hand; docs/RULES.md lists the numbers.
";

// The bytes of the named file, or of standard input.
// Kept: three programs have this function, and two the same `main`: in a library they could promise nothing of what is read and printed.
fn input(rt: &HostRuntime, path: Option<String>) -> io::Result<Vec<u8>> {
    match path {
        Some(path) => fs::read(rt, path),
        None => {
            let mut bytes = Vec::new(rt.alloc());
            rt.stdin().read_to_end(&mut bytes)?;
            Ok(bytes)
        }
    }
}

fn main(rt: HostRuntime) -> io::Result<()> {
    let path = env::args(&rt)?.nth(1);
    if path.as_ref().is_some_and(|word| word.as_str() == "--help") {
        return rt.print(HELP);
    }
    let bytes = input(&rt, path)?;
    rt.print(answers::play(rt.alloc(), bytes.as_slice())?)
}
