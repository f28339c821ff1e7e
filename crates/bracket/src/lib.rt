// Two plans, one at each chair, held against each other: the tree turned round, the two sides in halves of 64 bits, and the verdict.

#![tactic(auto)]

ghost use Rattle.std.specs.Prelude.{◌≡◌, ℕ, ◌+◌, ◌*◌, ◌^◌, ◌<◌, map, Some, ◌==◌};
ghost use Rattle.bracket.specs.Turned.{turned_place_as, turned_node, TurnedRows};
ghost use Rattle.bracket.specs.Halves.{value_of};
ghost use Rattle.bracket.specs.Verdicts.{verdict_of, printed};
ghost use Rattle.bracket.specs.Chairs.{BracketsStand};

use rules::Ends;
use std::fmt;
use std::fmt::Write;
use tree::{Node, Place};

// Two to the 32nd.
const HALF: u64 = 0x1_0000_0000;

// A number in two halves of 64 bits.
// Kept: halves and no u128, since the project asks that the bracket is worked out in halves.
#[derive(Clone, Copy, PartialEq, Eq)]
pub struct Wide {
    pub high: u64,
    pub low: u64,
}

impl Wide {
    // The product of two numbers, worked out in halves of 32 bits.
    pub fn product(a: u64, b: u64) -> Wide
        ensures { value_of result ≡ a * b }
    {
        let (ah, al) = ((a / HALF) as u32, (a % HALF) as u32);
        let (bh, bl) = ((b / HALF) as u32, (b % HALF) as u32);
        let first = product_and(al, bl, 0);
        let second = product_and(ah, bl, (first / HALF) as u32);
        let third = product_and(al, bh, (second % HALF) as u32);
        let carry = second / HALF + third / HALF;
        Wide {
            high: ah as u64 * bh as u64 + carry,
            low: third % HALF * HALF + first % HALF,
        }
    }

    // The sum of two halves: the high half is the carry.
    fn sum(a: u64, b: u64) -> Wide
        ensures { value_of result ≡ a + b }
    {
        let (low, carried) = a.overflowing_add(b);
        Wide {
            high: u64::from(carried),
            low,
        }
    }

    // The sum, where it fits.
    pub fn plus(self, other: Wide) -> Wide
        requires { value_of self + value_of other < 2 ^ 128 }
        ensures { value_of result ≡ value_of self + value_of other }
    {
        let low = Wide::sum(self.low, other.low);
        Wide {
            high: self.high + other.high + low.high,
            low: low.low,
        }
    }

    // Whether two numbers are equal: both halves are.
    // Kept beside the derived `==`, which says that the halves are equal; this says it of the values.
    pub fn same(self, other: Wide) -> bool
        ensures { result ≡ (value_of self == value_of other) }
    {
        self == other
    }
}

// A product of 32 bits by 32, and a carry of 32 bits more.
fn product_and(a: u32, b: u32, carry: u32) -> u64
    ensures { result ≡ a * b + carry }
{
    a as u64 * b as u64 + carry as u64
}

// The place as it is seen from the other chair.
fn turned_place(place: Place) -> Place
    ensures { result ≡ turned_place_as place }
{
    match place {
        Place::Over(e) => Place::Over(Ends {
            house: e.guest,
            guest: e.house,
        }),
        Place::Deal(n) => Place::Deal(n),
        Place::House(z, i) => Place::Guest(z, i),
        Place::Guest(z, i) => Place::House(z, i),
    }
}

// Turns a tree in memory: what the house has and does is the guest's, and the other way round.
pub fn turn(nodes: &mut [Node])
    ensures { nodes.new ≡ map turned_node nodes.old }
{
    for node in nodes.iter_mut() {
        node.place = turned_place(node.place);
    }
}

// A tree that lies in the nodes lies there turned, and turning twice gives the nodes again.
pub fn turned_rows_stand()
    ensures { TurnedRows }
{}

// Whether two plans, one at each chair, are the best there are, or more may be had.
#[derive(Clone, Copy)]
pub enum Verdict {
    Best,
    Open,
}

impl fmt::Display for Verdict {
    ghost output = { λ v. Some (printed v) };

    fn fmt<W: fmt::Write>(&self, f: &mut fmt::Formatter<W>) -> fmt::Result {
        match self {
            Verdict::Best => write!(f, "best"),
            Verdict::Open => write!(f, "open"),
        }
    }
}

// The verdict on a worst v of the house, with q rows of words, and a worst u of the guest, with p rows: best exactly when they share
// out all that is on the table.
pub fn bracket(v: u64, p: u64, u: u64, q: u64, table: u64) -> Verdict
    requires { (v < 2 ^ 62) × ((u < 2 ^ 62) × ((table * q < 2 ^ 62) × (p < 2 ^ 62))) }
    ensures { result ≡ verdict_of (v * p + u * q) (table * q * p) }
{
    let both = Wide::product(v, p).plus(Wide::product(u, q));
    let all = Wide::product(table * q, p);
    match both.same(all) {
        true => Verdict::Best,
        false => Verdict::Open,
    }
}

// For every sheet that can be dealt: two plans share out what is on the table, and where the verdict is best neither can be bettered.
pub fn bracket_stands()
    ensures { BracketsStand }
{}
