// The worst of a plan: the least that the guest can bring the house to, reckoned over the tree in memory.

#![tactic(auto)]

ghost use Rattle.std.specs.Prelude.{◌≡◌, ℕ, ◌+◌, ◌-◌, ◌*◌, ◌^◌, ◌<◌, ◌≤◌, List, length, replicate};
ghost use Rattle.cards.specs.Floor.{Item};
ghost use Rattle.cards.specs.Game.{Tree, many};
ghost use Rattle.cards.specs.Reckon.{places_all, least, last, worst as worst_of};
ghost use Rattle.plans.specs.Plan.{plan_of};
ghost use Rattle.tree.specs.Rep.{Rep, node_at};
ghost use Rattle.worst.specs.Items.{Told, Chance, blank as blank_entry, told_plan, firsts, parts, SomeNth, SomeTree, Powers, place_sight};
ghost use Rattle.worst.specs.Group.{Groupable, Grouped};
ghost use Rattle.worst.specs.Rows.{Rows, SomeRows, SomeKth, SomeGroup, Gathered};
ghost use Rattle.worst.specs.Whole.{Whole, SomeWhole};
ghost use Rattle.worst.specs.Worth.{worth, branch, AllAt, There};
ghost use Rattle.worst.specs.Spread.{Ready, SomeReady, Spread, Settles, settled, settled_row};
ghost use Rattle.worst.specs.declared.Refusal.TheVariants.{OfTree};
ghost use Rattle.worst.specs.Admit.{number_of, place_of, admitted};

use plans::Row;
use tree::{Kids, Node, Place, Sizes, at_most};

// A tree that counts so many times, with so many words left, and where it lies in the nodes.
#[derive(Clone, Copy, Default)]
pub struct Entry {
    times: u64,
    left: u32,
    at: u32,
}

impl Entry {
    // What a work row is lent with, and wiped with.
    // Kept beside the derived `Default`: its clause says the value.
    pub fn blank() -> Entry
        ensures { result ≡ blank_entry }
    {
        Entry::default()
    }
}

// The least sum over all ways of the guest.
#[derive(Clone, Copy)]
pub struct Reckoned {
    pub worst: u64,
}

// How many entries stand in the row now, and what is summed up.
// Kept: the row is lent, and a part of it is lent on, so how many of its entries count stands beside it.
#[derive(Clone, Copy)]
struct Grown {
    len: usize,
    sum: u64,
}

impl Grown {
    // What stands in the row after the next entry too, and what is summed up with it.
    fn then(self, next: Grown) -> Grown
        requires { self.sum + next.sum < 2 ^ 64 }
        ensures { result ≡ record { len = next.len; sum = self.sum + next.sum } }
    {
        Grown {
            len: next.len,
            sum: self.sum + next.sum,
        }
    }
}

// What is reckoned over: the tree, the plan, the number below which words of chance lie, and its powers.
// Kept: an array of powers and no Vec, since this crate uses no heap.
#[derive(Drop)]
struct Game<'a> {
    nodes: &'a [Node],
    rows: &'a [Row],
    m: u32,
    powers: [u64; 62],
}

// The powers of m: those of more words than a hand has stay 1.
fn powers_of(m: u32, words: u32) -> [u64; 62]
    requires { (2 ≤ m) × (m ^ words < 2 ^ 62) }
    ensures { Powers m words result }
{
    let mut powers = [1; 62];
    // Kept: each power is made of the one before, and the index says which; a chain would carry it in a variable beside.
    for i in 0..words as usize {
        powers[i + 1] = powers[i] * m as u64;
    }
    powers
}

// The number of the guest's sight at a place.
// Kept: 0 at any other place and no Option, since the row has only choices of the guest and nothing asks of others.
fn sight_of(place: Place) -> u32
    ensures { result ≡ place_sight place }
{
    match place {
        Place::Guest(_, sight) => sight,
        Place::Over(_) | Place::Deal(_) | Place::House(_, _) => 0,
    }
}

// Where the tree after `k` others lies, of those of the place at `at`.
fn child(nodes: &[Node], at: u32, k: u32) -> u32
    requires { SomeNth nodes.now at k }
    ensures { (table base : ℕ) (t : Tree) → Rep table base nodes.now at t → k < many (parts t) → result ≡ (at + 1) + places_all (firsts k (parts t)) }
{
    Kids::of(nodes, at as usize).nth(k as usize).unwrap() as u32
}

// How many trees the tree at `at` has.
fn count_of(nodes: &[Node], at: u32) -> u32
    requires { SomeTree nodes.now at }
    ensures { (table base : ℕ) (t : Tree) → Rep table base nodes.now at t → result ≡ many (parts t) }
{
    Kids::of(nodes, at as usize).count() as u32
}

// Puts the entries at a sight behind the others of the first `len`, and says how many others there are. Each keep their order: those at
// the sight are set aside behind the row, while the others move up.
fn group(nodes: &[Node], work: &mut [Entry], len: usize, sight: u32) -> usize
    requires { Groupable nodes.now sight len work.old }
    ensures { Grouped nodes.now sight len work.old work.new result }
{
    let mut front = 0;
    // Kept: the row that is gone over is also written, so no iterator can lend its entries.
    for i in 0..len {
        let e = work[i];
        if sight_of(nodes[e.at as usize].place) == sight {
            work[len + (i - front)] = e;
        } else {
            work[front] = e;
            front += 1;
        }
    }
    work.copy_within(len..len + (len - front), front);
    front
}

impl Game<'_> {
    // What an entry adds where the hand is over; at any other place it is written after the first `len`.
    fn settle(&self, work: &mut [Entry], len: usize, e: Entry) -> Grown
        requires { let g = self.now in Settles g.nodes.now g.powers (length work.old) len e }
        ensures answer { let g = self.now in result ≡ settled (node_at g.nodes.now e.at).place g.powers len e }
        ensures after { work.new ≡ settled_row (node_at self.now.nodes.now e.at).place len e work.old }
    {
        match self.nodes[e.at as usize].place {
            Place::Over(ends) => Grown {
                len,
                sum: e.times * (ends.house as u64 * self.powers[e.left as usize]),
            },
            Place::Guest(_, _) | Place::Deal(_) | Place::House(_, _) => {
                work[len] = e;
                Grown {
                    len: len + 1,
                    sum: 0,
                }
            }
        }
    }

    // Spreads out the trees of an entry at a deal or a choice of the house, each counted by its weight and with a word fewer.
    #[cycle(expand_spread)]
    fn spread(&self, work: &mut [Entry], len: usize, e: Entry) -> Grown
        requires ready { let g = self.now in SomeReady g.nodes.now g.rows.now g.m g.powers (length work.old) len e }
        requires chance { Chance (node_at self.now.nodes.now e.at).place }
        ensures { let g = self.now in (w : Told) (tree : Tree) → Ready w tree g.nodes.now g.rows.now g.m g.powers (length work.old) len e →
            Spread w tree g.nodes.now g.rows.now g.m len e work.old work.new result }
    {
        let root = self.nodes[e.at as usize].place;
        let mut grown = Grown { len, sum: 0 };
        for (k, at) in Kids::of(self.nodes, e.at as usize).enumerate() {
            let w = plans::weight(self.nodes, self.rows, self.m, root, at, k);
            let kid = Entry {
                times: e.times * w,
                left: e.left - 1,
                at: at as u32,
            };
            let next = self.expand(work, grown.len, kid);
            grown = grown.then(next);
        }
        grown
    }

    // Spreads an entry out: what is over is summed up, the choices of the guest are written after the first `len`. A call for each
    // tree would take a quarter more time, since most are ends.
    #[cycle(expand_spread)]
    #[inline(always)]
    fn expand(&self, work: &mut [Entry], len: usize, e: Entry) -> Grown
        requires { let g = self.now in SomeReady g.nodes.now g.rows.now g.m g.powers (length work.old) len e }
        ensures { let g = self.now in (w : Told) (tree : Tree) → Ready w tree g.nodes.now g.rows.now g.m g.powers (length work.old) len e →
            Spread w tree g.nodes.now g.rows.now g.m len e work.old work.new result }
    {
        match self.nodes[e.at as usize].place {
            Place::Deal(_) | Place::House(_, _) => self.spread(work, len, e),
            Place::Over(_) | Place::Guest(_, _) => self.settle(work, len, e),
        }
    }

    // Spreads out the trees after choice `k` of the first `len` entries, after them.
    fn gather(&self, work: &mut [Entry], len: usize, k: u32) -> Grown
        requires { let g = self.now in SomeKth g.nodes.now g.rows.now g.m g.powers len k work.old }
        ensures { let g = self.now in (w : Told) (xs : List Item) → Rows w xs g.nodes.now g.rows.now g.m g.powers len work.old → There w.choices k xs →
            Gathered w xs g.nodes.now g.rows.now g.m len k work.old work.new result }
    {
        let mut grown = Grown { len, sum: 0 };
        // Kept: the row that is gone over is also written behind, so no iterator can lend its entries.
        for j in 0..len {
            let e = work[j];
            let at = child(self.nodes, e.at, k);
            let kid = Entry { at, ..e };
            let next = self.expand(work, grown.len, kid);
            grown = grown.then(next);
        }
        grown
    }

    // The least over the choices of the first `len` entries, which are all at one sight.
    #[cycle(least_of_reckon)]
    fn least_of(&self, work: &mut [Entry], len: usize) -> u64
        requires { let g = self.now in SomeGroup g.nodes.now g.rows.now g.m g.powers len work.old }
        ensures { let g = self.now in (w : Told) (xs : List Item) (s : ℕ) → Rows w xs g.nodes.now g.rows.now g.m g.powers len work.old → AllAt s xs →
            result ≡ least (last (w.choices s)) (branch g.m (told_plan w g.rows.now) w.choices xs) }
    {
        let choices = count_of(self.nodes, work[0].at);
        let mut best = u64::MAX;
        for k in 0..choices {
            let grown = self.gather(work, len, k);
            let rest = self.reckon(&mut work[len..], grown.len - len);
            best = best.min(grown.sum + rest);
        }
        best
    }

    // The least that the guest can bring the first `len` entries to: sight by sight.
    #[cycle(least_of_reckon)]
    fn reckon(&self, work: &mut [Entry], len: usize) -> u64
        requires { let g = self.now in SomeRows g.nodes.now g.rows.now g.m g.powers len work.old }
        ensures { let g = self.now in (w : Told) (xs : List Item) → Rows w xs g.nodes.now g.rows.now g.m g.powers len work.old →
            result ≡ worth g.m (told_plan w g.rows.now) w.choices xs }
    {
        let mut total = 0;
        let mut left = len;
        while left > 0 {
            let sight = sight_of(self.nodes[work[0].at as usize].place);
            let front = group(self.nodes, work, left, sight);
            total += self.least_of(&mut work[front..], left - front);
            left = front;
        }
        total
    }
}

// The worst of the plan in `rows` over the tree in `nodes`. The work row is used, and wiped then.
pub fn worst(nodes: &[Node], rows: &[Row], m: u32, words: u32, work: &mut [Entry]) -> Reckoned
    requires { SomeWhole nodes.now rows.now m words (length work.old) }
    ensures value { (k : ℕ) (tree : Tree) (c choices : ℕ → ℕ) → Whole k tree c choices nodes.now rows.now m words (length work.old) →
        result.worst ≡ worst_of m (plan_of rows.now c) choices words tree }
    ensures after { work.new ≡ replicate (length work.old) blank_entry }
{
    let game = Game {
        nodes,
        rows,
        m,
        powers: powers_of(m, words),
    };
    let whole = Entry {
        times: 1,
        left: words,
        at: 0,
    };
    let grown = game.expand(work, 0, whole);
    let rest = game.reckon(work, grown.len);
    let sum = grown.sum + rest;
    let blank = Entry::blank();
    work.fill(blank);
    Reckoned { worst: sum }
}

// Why a tree is not reckoned: it is not written, or the work row is too short.
// Kept: `number` and `place` are what docs/RULES.md lists and is printed of a refusal.
#[derive(Clone, Copy)]
pub enum Refusal {
    OfTree(tree::Refusal),
    NoWork,
}

impl Refusal {
    // The number of the refusal in the list of refusals.
    pub fn number(self) -> u8
        ensures { result ≡ number_of self }
    {
        match self {
            Refusal::OfTree(e) => e.number(),
            Refusal::NoWork => 13,
        }
    }

    // The place that the list gives for it.
    pub fn place(self) -> usize
        ensures { result ≡ place_of self }
    {
        match self {
            Refusal::OfTree(e) => e.place(),
            Refusal::NoWork => 2,
        }
    }
}

impl From<tree::Refusal> for Refusal {
    ghost from_gives = { λ e r. r ≡ OfTree e };

    fn from(refusal: tree::Refusal) -> Refusal {
        Refusal::OfTree(refusal)
    }
}

// The sizes, where places and sights fit their memory, the work row is long enough and there are not too many places.
pub fn admit(
    sizes: Sizes,
    nodes: usize,
    house: usize,
    guest: usize,
    work: usize,
) -> Result<Sizes, Refusal>
    ensures { result ≡ admitted sizes nodes house guest work }
{
    let sizes = tree::fits(sizes, nodes, house, guest)?;
    let Some(_) = at_most(sizes.places, work) else {
        return Err(Refusal::NoWork);
    };
    Ok(tree::few(sizes)?)
}
