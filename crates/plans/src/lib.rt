// Plans of the house: the number m below which words of chance lie, and the weights at each sight, read from bytes or refused.

#![tactic(auto)]

ghost use Rattle.std.specs.Prelude.{◌≡◌, ◌+◌, ◌*◌, ◌^◌, ◌<◌, ◌≤◌, length, drop, IfOk, Some, None, Ok, MatchResult, ◌==◌, nat_lt, slice_index};
ghost use Rattle.cards.specs.Game.{pick, total};
ghost use Rattle.rules.specs.Sound.{Sound};
ghost use Rattle.plans.specs.declared.Fault.TheVariants.{Memory};
ghost use Rattle.plans.specs.Numbers.{numbers, front};
ghost use Rattle.plans.specs.Refusals.{number_of, place_of, Turned};
ghost use Rattle.plans.specs.Bases.{divides, base_of, Based, size_of};
ghost use Rattle.plans.specs.Bytes.{bytes_of, row_of, plan_as};
ghost use Rattle.plans.specs.Stands.{PlansStand};
ghost use Rattle.plans.specs.Weights.{weight_at, Weighable};

use rules::Sheet;
use std::alloc;
use std::alloc::{AllocError, Global};
use tree::{Node, Place, Sight};

// The weights of one sight of the house, one for each choice; unused ones are 0.
// Kept: three weights and no slice: a row has its numbers in one place, and the sight says how many there are.
#[derive(Clone, Copy)]
pub struct Row {
    pub weights: [u32; 3],
}

// Why there is no plan.
// Kept: `number` and `place` are what docs/RULES.md lists and is printed of a refusal.
#[derive(Clone, Copy)]
pub enum Refusal {
    // m is too small or too large
    Base,
    // m cannot be divided among the cards left at this deal, counted from 0
    Deal(u8),
    // what is on the table, over all rows of words, is not below 2^62
    Large,
    // the plan has so many bytes, and not as many as its sights ask for
    Length(usize),
    // the first sight whose weights do not sum to m
    Sum(usize),
}

impl Refusal {
    // The number of the refusal in the list of refusals.
    pub fn number(self) -> u8
        ensures { result ≡ number_of self }
    {
        match self {
            Refusal::Base => 4,
            Refusal::Deal(_) => 5,
            Refusal::Large => 6,
            Refusal::Length(_) => 7,
            Refusal::Sum(_) => 8,
        }
    }

    // The place that the list gives for it.
    pub fn place(self) -> usize
        ensures { result ≡ place_of self }
    {
        match self {
            Refusal::Base => 0,
            Refusal::Deal(i) => i as usize,
            Refusal::Large => 0,
            Refusal::Length(n) => n,
            Refusal::Sum(i) => i,
        }
    }
}

// A plan is refused, or there is no memory for it.
// Kept: the crate that reads files has the same of its own refusals, and its conversions must stand with a type of its own.
#[derive(Clone, Copy)]
pub enum Fault {
    Refused(Refusal),
    Memory,
}

impl From<AllocError> for Fault {
    ghost from_gives = { λ _ r. r ≡ Memory };

    fn from(_e: AllocError) -> Fault {
        Fault::Memory
    }
}

impl<T: Drop> From<alloc::AllocFailed<T>> for Fault {
    ghost from_gives = { λ _ r. r ≡ Memory };

    fn from(_e: alloc::AllocFailed<T>) -> Fault {
        Fault::Memory
    }
}

// The number that begins at a byte.
// Kept: four indices and no chunk, since the four bytes are there and no test is wanted.
fn number_at(bytes: &[u8], at: usize) -> u32
    requires { at + 4 ≤ length bytes.now }
    ensures { result ≡ slice_index (numbers (drop at bytes.now)) 0 }
{
    u32::from_le_bytes([bytes[at], bytes[at + 1], bytes[at + 2], bytes[at + 3]])
}

// The number m at the front, if there are four bytes.
pub fn read_base(bytes: &[u8]) -> Option<u32>
    ensures { result ≡ front (numbers bytes.now) }
{
    let word = bytes.first_chunk()?;
    Some(u32::from_le_bytes(*word))
}

// The value, where so many divide it.
fn divided(value: u32, by: u32) -> Option<u32>
    requires { 0 < by }
    ensures { result ≡ pick (divides by value) (Some value) None }
{
    (value % by == 0).then_some(value)
}

// The number m, where it is one for the words of this rule sheet.
pub fn check_base(sheet: Sheet, m: u32) -> Result<u32, Refusal>
    requires { Sound sheet }
    ensures value { result ≡ base_of sheet m }
    ensures based { IfOk result (Based sheet) }
{
    let cards = sheet.ranks as u32 * sheet.copies as u32;
    let Some(m) = (2..=1_000_000).contains(&m).then_some(m) else {
        return Err(Refusal::Base);
    };
    let Some(m) = divided(m, cards) else {
        return Err(Refusal::Deal(0));
    };
    let Some(m) = divided(m, cards - 1) else {
        return Err(Refusal::Deal(1));
    };
    if !sheet.public {
        return Ok(m);
    }
    let Some(m) = divided(m, cards - 2) else {
        return Err(Refusal::Deal(2));
    };
    Ok(m)
}

// The product, where it is below 2^62.
// Kept: a division and no checked product, since the project asks for the bound itself.
fn times(p: u64, m: u32) -> Option<u64>
    requires { 0 < m }
    ensures { result ≡ pick (nat_lt (p * m) (2 ^ 62)) (Some (p * m)) None }
{
    if p <= 0x3fff_ffff_ffff_ffff / m as u64 {
        Some(p * m as u64)
    } else {
        None
    }
}

// What is on the table over all rows of words, where it is below 2^62.
pub fn check_size(table: u32, m: u32, words: u32) -> Result<u64, Refusal>
    requires { 0 < m }
    ensures { result ≡ size_of table m words }
{
    let mut p = table as u64;
    for i in 0..words {
        let Some(more) = times(p, m) else {
            return Err(Refusal::Large);
        };
        p = more;
    }
    Ok(p)
}

// How many bytes a plan for these sights has.
pub fn plan_bytes(raises: u8, sights: &[Sight]) -> usize
    requires { length sights.now < 2 ^ 32 }
    ensures { result ≡ bytes_of raises sights.now }
{
    4 * sights
        .iter()
        .map(|sight| sight.offers(raises) as usize)
        .sum::<usize>()
}

// The row of a sight with two or three choices, whose numbers begin at the first byte.
fn first_row(bytes: &[u8], offers: u8) -> Row
    requires { (4 * offers ≤ length bytes.now) × ((2 ≤ offers) × (offers ≤ 3)) }
    ensures { result ≡ row_of offers (numbers bytes.now) }
{
    let first = number_at(bytes, 0);
    let second = number_at(bytes, 4);
    let third = if offers > 2 { number_at(bytes, 8) } else { 0 };
    Row {
        weights: [first, second, third],
    }
}

// The row, where its weights sum to m.
fn even(row: Row, m: u32) -> Option<Row>
    ensures { result ≡ pick (total row.weights == m) (Some row) None }
{
    let [a, b, c] = row.weights;
    (a as u64 + b as u64 + c as u64 == m as u64).then_some(row)
}

// Reads a plan for these sights: the weights at each sight sum to m.
pub fn read_plan(
    heap: Global,
    raises: u8,
    sights: &[Sight],
    m: u32,
    bytes: &[u8],
) -> Result<Vec<Row>, Fault>
    requires { length sights.now < 2 ^ 32 }
    ensures { MatchResult result (λ v. plan_as raises sights.now m bytes.now ≡ Ok v.items) (Turned (plan_as raises sights.now m bytes.now)) }
{
    if bytes.len() != plan_bytes(raises, sights) {
        return Err(Fault::Refused(Refusal::Length(bytes.len())));
    }
    let mut rows = Vec::new(heap);
    let mut rest = bytes;
    for (i, sight) in sights.iter().enumerate() {
        let offers = sight.offers(raises);
        let Some(row) = even(first_row(rest, offers), m) else {
            return Err(Fault::Refused(Refusal::Sum(i)));
        };
        rows.push(row)?;
        rest = &rest[4 * offers as usize..];
    }
    Ok(rows)
}

// The weight by which a deal or a choice of the house leads to its tree at `at`, the one after `k` others.
// Kept: nodes, rows and m are no struct here, since `worst` and `hands` hold them in structs of their own, with what each asks of them.
pub fn weight(nodes: &[Node], rows: &[Row], m: u32, place: Place, at: usize, k: usize) -> u64
    requires { Weighable nodes.now rows.now place at k }
    ensures { result ≡ weight_at nodes.now rows.now m place at k }
{
    match place {
        Place::Deal(parts) => m as u64 * nodes[at].share as u64 / parts as u64,
        Place::House(_, sight) => {
            let weights: &[u32] = &rows[sight as usize].weights;
            weights[k] as u64
        }
        Place::Over(_) | Place::Guest(_, _) => 0,
    }
}

// A plan that was read is a plan of the player whose sights it was read for.
pub fn plans_stand()
    ensures { PlansStand }
{}
