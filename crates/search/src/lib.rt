// Proposes a plan for either chair. Nothing rests on how good it is; what it proposes is always taken by the reader of plans.

#![tactic(auto)]

ghost use Rattle.std.specs.Prelude.{◌≡◌, ℕ, ◌+◌, ◌*◌, ◌^◌, ◌<◌, ◌≤◌, List, ◌++◌, length, IfOk, Ok, OnOk};
ghost use Rattle.std.specs.Iterator.{at_most};
ghost use Rattle.std.specs.List.{flat_map};
ghost use Rattle.plans.specs.Bytes.{plan_as};
ghost use Rattle.plans.specs.declared.Row.{Row as OneRow};
ghost use Rattle.search.specs.Taken.{Fair, weights_of, Taken};
ghost use Rattle.search.specs.Encoded.{four, encoded};

use plans::Row;
use rules::Player;
use std::alloc::{AllocError, Global};
use std::num::saturating_f64_to_u32;
use tree::{Node, Place, Sight};

// The sights are settled in so many parts, each after a share of the rounds.
const STAGES: u32 = 5;

// No way through a rule sheet's tree has more places. A walk through other memory ends there.
const DEPTH: u8 = 40;

// No place of a rule sheet's tree has more trees: a deal has one for each rank. A walk through other memory looks at so many.
const TREES: u8 = 13;

// The table has room for so many choices at each sight. Where there are two, a rule sheet's tree never looks at the third. A place of
// other memory may have more trees: the later ones count as choices of the sights that follow.
const CHOICES: usize = 3;

// Who is told how far the search is.
// Kept: a closure in its place asks each caller to show that it may be called, and a trait asks nothing.
pub trait Progress {
    // Weights are fixed at so many of the sights; the next share of the rounds begins.
    fn stage(&self, settled: usize, sights: usize);
}

// What a plan is for: a tree, the sights of the player in the chair, those of the other, how many raises there may be in a round,
// and who sits in the chair.
#[derive(Clone, Copy)]
pub struct Game<'a> {
    pub nodes: &'a [Node],
    pub own: &'a [Sight],
    pub others: &'a [Sight],
    pub raises: u8,
    pub chair: Player,
}

// A choice at a sight: how likely the present plan makes it, its regret, and how often it was made.
#[derive(Clone, Copy, Default)]
struct Choice {
    plan: f64,
    regret: f64,
    sum: f64,
}

impl Choice {
    // Adds the value of the choice to its regret, and its reach to the average strategy.
    fn note(&mut self, gain: f64, times: f64) {
        self.regret += gain;
        self.sum += times;
    }
}

// The next plan at a sight: the choices in proportion to their regrets above 0.
fn match_regrets(choices: &mut [Choice], offers: u8) {
    let mut all = 0.0;
    for choice in choices.iter_mut().take(offers as usize) {
        choice.regret = choice.regret.max(0.0);
        all += choice.regret;
    }
    for choice in choices.iter_mut().take(offers as usize) {
        choice.plan = if all > 0.0 {
            choice.regret / all
        } else {
            1.0 / offers as f64
        };
    }
}

// How often a choice was made, and 0 where there is none.
fn sum_of(choices: &[Choice], k: usize) -> f64 {
    choices.get(k).map_or(0.0, |choice| choice.sum)
}

// The weights of a sight, rounded from how often each choice was made.
fn rounded(choices: &[Choice], offers: u8, m: u32) -> Row
    ensures { Fair offers m result.weights }
{
    let a = sum_of(choices, 0);
    let b = sum_of(choices, 1);
    let c = if offers < 3 { 0.0 } else { sum_of(choices, 2) };
    if a + b + c > 0.0 {
        let (x, y) = nearest(a, b, c, m);
        return weighed(x, y, offers, m);
    }
    let part = if offers < 3 { m / 2 } else { m / 3 };
    weighed(part, part, offers, m)
}

// Holds a sight at its weights from now on.
fn settle(choices: &mut [Choice], row: Row, m: u32) {
    for (choice, weight) in choices.iter_mut().zip(row.weights) {
        choice.plan = weight as f64 / m as f64;
    }
}

// A tree: where its first place stands, and that place.
#[derive(Clone, Copy)]
struct Tree<'a> {
    at: usize,
    root: &'a Node,
}

// The trees that stand one after the other among these nodes.
// Kept: not `tree::Kids`, which asks that a tree lies there; a search goes over any memory.
#[derive(Clone, Copy)]
struct Trees<'a> {
    nodes: &'a [Node],
    at: usize,
    left: u8,
}

impl<'a> Iterator for Trees<'a> {
    type Item = Tree<'a>;

    ghost remaining = { λ s. at_most s.left };

    fn next(&mut self) -> Option<Tree<'a>> {
        let at = self.at;
        let root = self.nodes.get(at)?;
        self.left = self.left.checked_sub(1)?;
        self.at = at.saturating_add(root.size as usize);
        Some(Tree { at, root })
    }
}

// Where the choices of a sight begin in the table, where so many sights come before those of its player.
fn slot(before: usize, number: usize) -> usize
    ensures { (before + number) * 3 < 2 ^ 64 → result ≡ (before + number) * 3 }
{
    before.saturating_add(number).saturating_mul(CHOICES)
}

// How likely the learner's choices lead to a place, and how likely all else does.
#[derive(Clone, Copy)]
struct Reach {
    own: f64,
    rest: f64,
}

// A place as the learner has it where the game goes on: the parts of a deal, or where the choices at its or the other's sight
// begin.
#[derive(Clone, Copy)]
enum Seat {
    Deal(f64),
    Own(usize),
    Other(usize),
}

impl Seat {
    // How likely all is once a choice or card with this chance was taken here.
    fn reached(self, reach: Reach, chance: f64) -> Reach {
        match self {
            Seat::Own(_) => Reach {
                own: reach.own * chance,
                rest: reach.rest,
            },
            Seat::Deal(_) | Seat::Other(_) => Reach {
                own: reach.own,
                rest: reach.rest * chance,
            },
        }
    }
}

// One walk through the nodes of a game: who learns, how much it counts, and the choices at the sights of both players, those of the player
// in the chair first.
#[derive(Drop)]
struct Walk<'a, 'b> {
    game: Game<'b>,
    learner: Player,
    counts: f64,
    table: &'a mut [Choice],
}

impl Walk<'_, '_> {
    // A sight of the learner or of the other.
    fn chosen(&self, who: Player, number: u32) -> Seat {
        let before = if who == self.game.chair {
            0
        } else {
            self.game.own.len()
        };
        let first = slot(before, number as usize);
        if who == self.learner {
            Seat::Own(first)
        } else {
            Seat::Other(first)
        }
    }

    // How likely choice or card `k` is, and 0 past the end of the table.
    fn chance(&self, seat: Seat, share: u32, k: usize) -> f64 {
        match seat {
            Seat::Deal(parts) => share as f64 / parts,
            Seat::Own(first) | Seat::Other(first) => self
                .table
                .get(first.saturating_add(k))
                .map_or(0.0, |choice| choice.plan),
        }
    }

    // What is known of choice `k` at a sight of the learner.
    fn learnt(&mut self, seat: Seat, k: usize) -> Option<&mut Choice> {
        match seat {
            Seat::Own(first) => self.table.get_mut(first.saturating_add(k)),
            Seat::Deal(_) | Seat::Other(_) => None,
        }
    }

    // Subtracts the value of the present plan from the regret of each choice that was gone over.
    fn level(&mut self, seat: Seat, made: usize, gain: f64) {
        for k in 0..made {
            if let Some(choice) = self.learnt(seat, k) {
                choice.regret -= gain;
            }
        }
    }

    // What the learner has on average from a place on; its regrets and its choices are added up on the way. A place after so many steps
    // counts as nothing.
    fn value(&mut self, tree: Tree, reach: Reach, steps: u8) -> f64 {
        let Some(fewer) = steps.checked_sub(1) else {
            return 0.0;
        };
        let seat = match tree.root.place {
            Place::Over(ends) => {
                return match self.learner {
                    Player::House => ends.house as f64,
                    Player::Guest => ends.guest as f64,
                };
            }
            Place::Deal(parts) => Seat::Deal(parts as f64),
            Place::House(_, number) => self.chosen(Player::House, number),
            Place::Guest(_, number) => self.chosen(Player::Guest, number),
        };
        let nodes = self.game.nodes;
        let end = tree
            .at
            .saturating_add(tree.root.size as usize)
            .min(nodes.len());
        let trees = Trees {
            nodes: &nodes[..end],
            at: tree.at.saturating_add(1),
            left: TREES,
        };
        let mut value = 0.0;
        let mut made = 0;
        for (k, kid) in trees.enumerate() {
            let p = self.chance(seat, kid.root.share, k);
            let v = self.value(kid, seat.reached(reach, p), fewer);
            value += p * v;
            let times = self.counts * reach.own * p;
            if let Some(choice) = self.learnt(seat, k) {
                choice.note(reach.rest * v, times);
            }
            made = k + 1;
        }
        self.level(seat, made, reach.rest * value);
        value
    }
}

// The next plan at each sight but the first few, which are settled.
fn match_all(sights: &[Sight], raises: u8, settled: usize, table: &mut [Choice]) {
    for (sight, choices) in sights
        .iter()
        .zip(table.chunks_exact_mut(CHOICES))
        .skip(settled)
    {
        match_regrets(choices, sight.offers(raises));
    }
}

// So many rounds, in each of which either player learns once. The first few own sights are settled.
fn learn(game: Game, settled: usize, rounds: u32, table: &mut [Choice]) {
    let Some(root) = game.nodes.first() else {
        return;
    };
    let tree = Tree { at: 0, root };
    let reach = Reach {
        own: 1.0,
        rest: 1.0,
    };
    let ours = slot(0, game.own.len()).min(table.len());
    for choice in table.iter_mut() {
        choice.sum = 0.0;
    }
    match_all(game.own, game.raises, settled, &mut table[..ours]);
    match_all(game.others, game.raises, 0, &mut table[ours..]);
    for i in 0..rounds {
        // later rounds count more, by the square
        let counts = i as f64 * i as f64;
        Walk {
            game,
            learner: game.chair,
            counts,
            table,
        }
        .value(tree, reach, DEPTH);
        match_all(game.own, game.raises, settled, &mut table[..ours]);
        Walk {
            game,
            learner: game.chair.other(),
            counts,
            table,
        }
        .value(tree, reach, DEPTH);
        match_all(game.others, game.raises, 0, &mut table[ours..]);
    }
}

// Whether this rest is among the `left` largest.
fn is_among(rest: f64, next: f64, last: f64, left: u32) -> bool {
    u32::from(next > rest) + u32::from(last > rest) < left
}

// The whole part of a sum, where each is worth so much, and what is left of it.
fn parted(sum: f64, each: f64) -> (u32, f64) {
    // a little more, so that a whole number is not rounded down
    let whole = saturating_f64_to_u32(sum * each + 0.000000001);
    (whole, sum * each - whole as f64)
}

// Weights in proportion to three sums: whole parts of m, and what is left goes to the largest rests.
fn nearest(a: f64, b: f64, c: f64, m: u32) -> (u32, u32) {
    let each = m as f64 / (a + b + c);
    let (x, p) = parted(a, each);
    let (y, q) = parted(b, each);
    let (z, r) = parted(c, each);
    let left = m.saturating_sub(x).saturating_sub(y).saturating_sub(z);
    (
        x.saturating_add(u32::from(is_among(p, q, r, left))),
        y.saturating_add(u32::from(is_among(q, p, r, left))),
    )
}

// A row with these weights as far as m goes; the last choice has the rest.
fn weighed(first: u32, second: u32, offers: u8, m: u32) -> Row
    ensures value { result.weights ≡ weights_of first second offers m }
    ensures fair { Fair offers m result.weights }
{
    let a = first.min(m);
    if offers < 3 {
        return Row {
            weights: [a, m - a, 0],
        };
    }
    let b = second.min(m - a);
    Row {
        weights: [a, b, m - a - b],
    }
}

// A plan for the player in this chair, with weights of m, after at most so many rounds.
#[tactic(auto, using(crate::proofs::Steps::taken_more))]
pub fn propose<P: Progress>(
    heap: Global,
    progress: &P,
    game: Game,
    m: u32,
    rounds: u32,
) -> Result<Vec<Row>, AllocError>
    ensures { IfOk result (λ v. Taken game.entry.raises m game.entry.own.now v.items) }
{
    let slots = slot(game.own.len(), game.others.len());
    let mut table = vec![in heap; Choice::default(); slots]?;
    let table = table.as_mut_slice();
    let step = game.own.len() / STAGES as usize + 1;
    let mut rows = Vec::new(heap);
    for (i, sight) in game.own.iter().enumerate() {
        if i % step == 0 {
            progress.stage(i, game.own.len());
            learn(game, i, rounds / STAGES, table);
        }
        let first = slot(0, i).min(table.len());
        let choices = &mut table[first..];
        let row = rounded(choices, sight.offers(game.raises), m);
        settle(choices, row, m);
        rows.push(row)?;
    }
    Ok(rows)
}

// Appends weights, each as four bytes, the low byte first.
fn push_weights(bytes: &mut Vec<u8>, weights: &[u32]) -> Result<(), AllocError>
    ensures { OnOk result (bytes.new.items ≡ bytes.old.items ++ flat_map four weights.now) }
{
    for weight in weights {
        bytes.extend_from_slice(&weight.to_le_bytes())?;
    }
    Ok(())
}

// The bytes of a plan, row after row: the reader of plans takes them for these rows.
pub fn encode(
    heap: Global,
    raises: u8,
    sights: &[Sight],
    rows: &[Row],
) -> Result<Vec<u8>, AllocError>
    ensures bytes { IfOk result (λ v. v.items ≡ encoded raises sights.now rows.now) }
    ensures taken { IfOk result (λ v. (m : ℕ) → Taken raises m sights.now rows.now →
        plan_as raises sights.now m v.items ≡ Ok rows.now) }
{
    let mut bytes = Vec::new(heap);
    for (sight, row) in sights.iter().zip(rows) {
        let offers = sight.offers(raises) as usize;
        push_weights(&mut bytes, &row.weights[..offers])?;
    }
    Ok(bytes)
}

// The bytes of a plan for the player in this chair, which the reader of plans takes.
pub fn plan<P: Progress>(
    heap: Global,
    progress: &P,
    game: Game,
    m: u32,
    rounds: u32,
) -> Result<Vec<u8>, AllocError>
    ensures { IfOk result (λ v. (rows : List OneRow) × (plan_as game.entry.raises game.entry.own.now m v.items ≡ Ok rows)) }
{
    let rows = propose(heap, progress, game, m, rounds)?;
    encode(heap, game.raises, game.own, &rows)
}
