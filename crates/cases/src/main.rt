// Prints what the reckoning and the playing program print for each case file: the files of data/, in reckon/ and play/, which the
// arguments name. The expected text, in the crate's stdout, comes from an independent implementation.

#![tactic(auto)]

use std::{env, fs, io};

fn main(rt: HostRuntime) -> io::Result<()> {
    let heap = rt.alloc();
    for path in env::args(&rt)?.skip(1) {
        let hands = path.as_str().starts_with("play/");
        println!(rt; "{path}")?;
        let input = fs::read(&rt, path)?;
        let text = if hands {
            answers::play(heap, input.as_slice())?
        } else {
            answers::reckon(heap, input.as_slice())?
        };
        rt.print(text)?;
    }
    Ok(())
}
