// The program that proposes plans: a rule sheet and m in, the bytes of a plan out. What is proved of the plan is in crate `search`.

#![tactic(auto)]

ghost use Rattle.rules.specs.Sound.{Sound};

use answers::Fault;
use anyhow::anyhow;
use rules::{Player, Sheet};
use search::{Game, Progress};
use std::io::{Read, Write};
use std::str::FromStr;
use std::{env, fs, io};
use tree::{Node, Sight, Sizes};

const HELP: &str = "usage: propose house|guest|both ROUNDS [FILE]

Reads a rule sheet and m from FILE, or from standard input where no file is named, and writes a plan to standard output.
How far it is, it says on standard error.

house    a plan for the house.
guest    a plan for the guest, as the house of the turned tree.
both     the rule sheet, m and both plans: a file for `reckon`.
ROUNDS   how many rounds of learning there may be; 1000 is a good number.
FILE     nine bytes of rule sheet and four bytes of m, low byte first. What follows them is not looked at.

A file that is turned away prints `refused NUMBER at PLACE` to standard error; docs/RULES.md lists the numbers.
";

// There is memory for so many places, and for so many sights of each player.
const ROOM: usize = 65536;

// What is written: the plan of one player, or a file for `reckon` with both.
#[derive(Clone, Copy)]
enum Order {
    Plan(Player),
    File,
}

impl FromStr for Order {
    type Err = Unknown;

    fn from_str(word: &str) -> Result<Order, Unknown> {
        match word {
            "house" => Ok(Order::Plan(Player::House)),
            "guest" => Ok(Order::Plan(Player::Guest)),
            "both" => Ok(Order::File),
            _ => Err(Unknown),
        }
    }
}

// A word that is no order.
#[derive(Clone, Copy)]
struct Unknown;

// Progress as lines on standard error. One that cannot be written is left out.
#[derive(Clone, Copy)]
struct Lines<'a> {
    rt: &'a HostRuntime,
}

impl Progress for Lines<'_> {
    fn stage(&self, settled: usize, sights: usize) {
        let _ = eprintln!(self.rt; "{settled} of {sights} sights settled");
    }
}

// The number m after the rule sheet, checked.
// Kept: beside `open_chair` of crate `answers`, for the reason at `plan`.
fn base(sheet: Sheet, sizes: Sizes, chair: Player, bytes: &[u8]) -> Result<u32, Fault>
    requires { Sound sheet }
{
    let Some(m) = plans::read_base(bytes) else {
        return Err(plans::Refusal::Base.into());
    };
    let m = plans::check_base(sheet, m)?;
    plans::check_size(sizes.table, m, sizes.chair(chair).words)?;
    Ok(m)
}

// The bytes of a plan for the player in this chair.
// Kept: beside `answers::propose`, which refuses a plan of the guest also where a file with it would be refused with 6.
fn plan(rt: &HostRuntime, chair: Player, rounds: u32, bytes: &[u8]) -> Result<Vec<u8>, Fault> {
    let heap = rt.alloc();
    let (front, past) = bytes.split_at(bytes.len().min(9));
    let sheet = rules::read(front)?;
    let mut nodes = vec![in heap; Node::default(); ROOM]?;
    let mut house = vec![in heap; Sight::default(); ROOM]?;
    let mut guest = vec![in heap; Sight::default(); ROOM]?;
    let sizes = tree::build(
        sheet,
        nodes.as_mut_slice(),
        house.as_mut_slice(),
        guest.as_mut_slice(),
    )?;
    let m = base(sheet, sizes, chair, past)?;
    let house = &house[..house.len().min(sizes.house.sights as usize)];
    let guest = &guest[..guest.len().min(sizes.guest.sights as usize)];
    let (own, others) = match chair {
        Player::House => (house, guest),
        Player::Guest => (guest, house),
    };
    let game = Game {
        nodes: nodes.as_slice(),
        own,
        others,
        raises: sheet.raises,
        chair,
    };
    Ok(search::plan(heap, &Lines { rt }, game, m, rounds)?)
}

// The bytes that are asked for.
fn ordered(rt: &HostRuntime, order: Order, rounds: u32, bytes: &[u8]) -> Result<Vec<u8>, Fault> {
    match order {
        Order::Plan(chair) => plan(rt, chair, rounds, bytes),
        Order::File => {
            let house = plan(rt, Player::House, rounds, bytes)?;
            let guest = plan(rt, Player::Guest, rounds, bytes)?;
            let mut file = Vec::new(rt.alloc());
            // the rule sheet and m
            file.extend_from_slice(&bytes[..bytes.len().min(13)])?;
            file.extend_from_slice(house.as_slice())?;
            file.extend_from_slice(guest.as_slice())?;
            Ok(file)
        }
    }
}

// The bytes of the named file, or of standard input.
// Kept: three programs have this function: in a library it could promise nothing of what is read.
fn input(rt: &HostRuntime, path: Option<String>) -> io::Result<Vec<u8>> {
    match path {
        Some(path) => fs::read(rt, path),
        None => {
            let mut bytes = Vec::new(rt.alloc());
            rt.stdin().read_to_end(&mut bytes)?;
            Ok(bytes)
        }
    }
}

// Writes what is asked for, or says why it cannot be had.
fn answer(rt: &HostRuntime, order: Order, rounds: u32, path: Option<String>) -> anyhow::Result<()> {
    let Ok(bytes) = input(rt, path) else {
        eprintln!(rt; "the file cannot be read")?;
        return Err(anyhow!("no file"));
    };
    match ordered(rt, order, rounds, bytes.as_slice()) {
        Ok(out) => Ok(rt.stdout().write_all(out.as_slice())?),
        Err(Fault::Refused(e)) => {
            eprintln!(rt; "{e}")?;
            Err(anyhow!("refused"))
        }
        Err(Fault::Memory) => {
            eprintln!(rt; "no memory")?;
            Err(anyhow!("no memory"))
        }
    }
}

fn main(rt: HostRuntime) -> anyhow::Result<()> {
    let mut args = env::args(&rt)?.skip(1);
    let Some(first) = args.next() else {
        rt.eprint(HELP)?;
        return Err(anyhow!("no chair"));
    };
    if first.as_str() == "--help" {
        return Ok(rt.print(HELP)?);
    }
    if let (Ok(order), Some(Ok(rounds))) = (
        first.as_str().parse::<Order>(),
        args.next().map(|word| word.as_str().parse::<u32>()),
    ) {
        return answer(&rt, order, rounds, args.next());
    }
    rt.eprint(HELP)?;
    Err(anyhow!("not understood"))
}
