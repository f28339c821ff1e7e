// The reckoning program: a file in, its answer out. Everything that matters is in crate `answers`.

#![tactic(auto)]

use std::io::Read;
use std::{env, fs, io};

const HELP: &str = "usage: reckon [FILE]

Reads a rule sheet, m and a plan from FILE, or from standard input where no file is named, and prints how large the
rule sheet's tree is and the worst of the plan: what the house has over all rows of words against the best opponent.

FILE   nine bytes of rule sheet; four bytes of m, low byte first; a weight of four bytes, low byte first, for each
       choice at each sight of the house; and, where it goes on, a plan for the turned tree in the same form.

A file that is turned away prints `refused NUMBER at PLACE`; docs/RULES.md lists the numbers.
";

// The bytes of the named file, or of standard input.
// Kept: three programs have this function, and two the same `main`: in a library they could promise nothing of what is read and printed.
fn input(rt: &HostRuntime, path: Option<String>) -> io::Result<Vec<u8>> {
    match path {
        Some(path) => fs::read(rt, path),
        None => {
            let mut bytes = Vec::new(rt.alloc());
            rt.stdin().read_to_end(&mut bytes)?;
            Ok(bytes)
        }
    }
}

fn main(rt: HostRuntime) -> io::Result<()> {
    let path = env::args(&rt)?.nth(1);
    if path.as_ref().is_some_and(|word| word.as_str() == "--help") {
        return rt.print(HELP);
    }
    let bytes = input(&rt, path)?;
    rt.print(answers::reckon(rt.alloc(), bytes.as_slice())?)
}
