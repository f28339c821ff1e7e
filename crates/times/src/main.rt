// The program `times`: how long building a tree and reckoning a plan over it take.

#![tactic(auto)]

use answers::{Stage, Stages};
use anyhow::anyhow;
use std::time::Instant;
use std::{env, fmt, fs, iter};

const HELP: &str = "usage: times RUNS FILE...

Reckons each FILE RUNS times, as `reckon` does, but with memory for 65,536 places.
Standard output: the file's name, then what `reckon` prints.
Standard error: a line `NAME BUILD RECKON` for each file, the least nanoseconds of building its tree and of reckoning the
house's plan over it, or `-` where a file is refused.
";

// There is memory for every tree that can be built.
const ROOM: u32 = 65536;

// A time in nanoseconds, if there is one.
#[derive(Clone, Copy)]
struct Time(Option<u128>);

impl Time {
    // This one, or the time since a reading of the clock where that is less.
    fn or_less(self, rt: &HostRuntime, begun: Option<Instant>) -> Time {
        let (Some(begun), Ok(now)) = (begun, Instant::now(rt)) else {
            return self;
        };
        let nanos = now.duration_since(begun).as_nanos();
        Time(Some(self.0.map_or(nanos, |least| least.min(nanos))))
    }
}

impl fmt::Display for Time {
    fn fmt<W: fmt::Write>(&self, f: &mut fmt::Formatter<W>) -> fmt::Result {
        match self.0 {
            Some(nanos) => write!(f, "{nanos}"),
            None => f.write_str("-"),
        }
    }
}

// Takes the time of a building and of a reckoning, and keeps the least of each.
#[derive(Clone, Copy)]
struct Watch<'a> {
    rt: &'a HostRuntime,
    begun: Option<Instant>,
    build: Time,
    reckon: Time,
}

impl Stages for Watch<'_> {
    fn stage(&mut self, stage: Stage) {
        match stage {
            Stage::Built => self.build = self.build.or_less(self.rt, self.begun),
            Stage::Reckoned => self.reckon = self.reckon.or_less(self.rt, self.begun),
            Stage::Building | Stage::Reckoning => {}
        }
        self.begun = Instant::now(self.rt).ok();
    }
}

// Reckons a file so often, and prints what it comes to and how long it took.
fn run(rt: &HostRuntime, runs: u32, path: String) -> anyhow::Result<()> {
    let heap = rt.alloc();
    let name = path.clone()?;
    let Ok(input) = fs::read(rt, path) else {
        eprintln!(rt; "times: {name} cannot be read; see times --help")?;
        return Err(anyhow!("no file"));
    };
    let mut watch = Watch {
        rt,
        begun: None,
        build: Time(None),
        reckon: Time(None),
    };
    let mut text = String::new(heap);
    for _run in 0..runs {
        text = answers::reckon_in_stages(heap, &mut watch, ROOM, input.as_slice())?;
    }
    println!(rt; "{name}")?;
    rt.print(text)?;
    let Watch { build, reckon, .. } = watch;
    Ok(eprintln!(rt; "{name} {build} {reckon}")?)
}

fn main(rt: HostRuntime) -> anyhow::Result<()> {
    let mut args = env::args(&rt)?.skip(1);
    let Some(word) = args.next() else {
        rt.eprint(HELP)?;
        return Err(anyhow!("no number of runs"));
    };
    if word.as_str() == "--help" {
        return Ok(rt.print(HELP)?);
    }
    let (Ok(runs), Some(path)) = (word.as_str().parse::<u32>(), args.next()) else {
        rt.eprint(HELP)?;
        return Err(anyhow!("not understood"));
    };
    if runs == 0 {
        rt.eprint(HELP)?;
        return Err(anyhow!("no run"));
    }
    for path in iter::once(path).chain(args) {
        run(&rt, runs, path)?;
    }
    Ok(())
}
