// From the bytes of a file to the text that a program prints.

#![tactic(auto)]

ghost use Rattle.std.specs.Prelude.{◌≡◌, ℕ, ◌*◌, ◌^◌, ◌<◌, List, [], ◌++◌, length, take, drop, IfOk, Some, Ok, Err, string_bytes, MatchResult, OnOk};
ghost use Rattle.answers.specs.Text.{number_of, place_of, refused, sized, kept as kept_as, shown as shown_as, line};
ghost use Rattle.answers.specs.Files.{opened_in, plan_length, plan_in, kept_by, sized_rival, with_opening, reckoned_in, reckoned};
ghost use Rattle.answers.specs.Proposed.{opened_for, Proposed, Unproposed};
ghost use Rattle.answers.specs.Ready.{ReadyIn, Begun};
ghost use Rattle.answers.specs.Steps.{Lies, SomePlan, SomeKept, Lines};
ghost use Rattle.answers.specs.Faults.{fault_of, Answered, Printed};
ghost use Rattle.answers.specs.declared.Refusal.TheVariants.{OfSheet, OfMemory, OfPlan, OfHand};
ghost use Rattle.worst.specs.declared.Refusal.TheVariants.{OfTree};
ghost use Rattle.answers.specs.declared.Fault.TheVariants.{Refused, Memory};
ghost use Rattle.answers.specs.Promised.{ReckonsIn, Reckons};
ghost use Rattle.answers.specs.Hands.{hand_line, play_opening, play_text_in, play_text, PlaysIn, Plays};
ghost use Rattle.rules.specs.declared.Player.TheVariants.{House, Guest};
ghost use Rattle.rules.specs.Play.{purse};
ghost use Rattle.rules.specs.Counts.{word_count};
ghost use Rattle.tree.specs.Compact.{game_as};
ghost use Rattle.tree.specs.Seen.{sights_of};
ghost use Rattle.plans.specs.declared.Row.{Row as OneRow};
ghost use Rattle.plans.specs.Refusals.{Turned};
ghost use Rattle.plans.specs.Bases.{size_of};

use bracket::Verdict;
use plans::Row;
use rules::{Ends, Player, Sheet};
use search::Progress;
use std::alloc::{AllocError, Global};
use std::fmt;
use std::fmt::Write;
use tree::{Node, Sight, Sizes};
use worst::Entry;

// The places that `reckon` and `play` have memory for.
pub const ROOM: u32 = 4096;

// Why a file or a hand is turned away.
// Kept: `number` and `place` are what docs/RULES.md lists and is printed of a refusal.
#[derive(Clone, Copy)]
pub enum Refusal {
    OfSheet(rules::Refusal),
    OfMemory(worst::Refusal),
    OfPlan(plans::Refusal),
    OfHand(hands::Refusal),
}

impl Refusal {
    // The number of the refusal in the list of refusals.
    pub fn number(self) -> u8
        ensures { result ≡ number_of self }
    {
        match self {
            Refusal::OfSheet(e) => e.number(),
            Refusal::OfMemory(e) => e.number(),
            Refusal::OfPlan(e) => e.number(),
            Refusal::OfHand(e) => e.number(),
        }
    }

    // The place that the list gives for it.
    pub fn place(self) -> usize
        ensures { result ≡ place_of self }
    {
        match self {
            Refusal::OfSheet(e) => e.place(),
            Refusal::OfMemory(e) => e.place(),
            Refusal::OfPlan(e) => e.place(),
            Refusal::OfHand(e) => e.place(),
        }
    }
}

impl From<rules::Refusal> for Refusal {
    ghost from_gives = { λ e r. r ≡ OfSheet e };

    fn from(e: rules::Refusal) -> Refusal {
        Refusal::OfSheet(e)
    }
}

impl From<worst::Refusal> for Refusal {
    ghost from_gives = { λ e r. r ≡ OfMemory e };

    fn from(e: worst::Refusal) -> Refusal {
        Refusal::OfMemory(e)
    }
}

impl From<plans::Refusal> for Refusal {
    ghost from_gives = { λ e r. r ≡ OfPlan e };

    fn from(e: plans::Refusal) -> Refusal {
        Refusal::OfPlan(e)
    }
}

impl From<hands::Refusal> for Refusal {
    ghost from_gives = { λ e r. r ≡ OfHand e };

    fn from(e: hands::Refusal) -> Refusal {
        Refusal::OfHand(e)
    }
}

impl fmt::Display for Refusal {
    ghost output = { λ e. Some (refused e) };

    fn fmt<W: fmt::Write>(&self, f: &mut fmt::Formatter<W>) -> fmt::Result {
        write!(f, "refused {} at {}", self.number(), self.place())
    }
}

// Why there is no answer: the file is refused, or memory is wanting.
// Kept: beside the `Fault` of plans, since the conversions of this crate's refusals must stand with a type of this crate.
#[derive(Clone, Copy)]
pub enum Fault {
    Refused(Refusal),
    Memory,
}

impl From<Refusal> for Fault {
    ghost from_gives = { λ e f. f ≡ Refused e };

    fn from(e: Refusal) -> Fault {
        Fault::Refused(e)
    }
}

impl From<rules::Refusal> for Fault {
    ghost from_gives = { λ e f. f ≡ Refused (OfSheet e) };

    fn from(e: rules::Refusal) -> Fault {
        Fault::Refused(Refusal::OfSheet(e))
    }
}

impl From<tree::Refusal> for Fault {
    ghost from_gives = { λ e f. f ≡ Refused (OfMemory (OfTree e)) };

    fn from(e: tree::Refusal) -> Fault {
        Fault::Refused(Refusal::OfMemory(worst::Refusal::OfTree(e)))
    }
}

impl From<plans::Refusal> for Fault {
    ghost from_gives = { λ e f. f ≡ Refused (OfPlan e) };

    fn from(e: plans::Refusal) -> Fault {
        Fault::Refused(Refusal::OfPlan(e))
    }
}

impl From<plans::Fault> for Fault {
    ghost from_gives = { λ e f. f ≡ fault_of e };

    fn from(e: plans::Fault) -> Fault {
        match e {
            plans::Fault::Refused(e) => Fault::Refused(Refusal::OfPlan(e)),
            plans::Fault::Memory => Fault::Memory,
        }
    }
}

impl From<AllocError> for Fault {
    ghost from_gives = { λ _ f. f ≡ Memory };

    fn from(_e: AllocError) -> Fault {
        Fault::Memory
    }
}

impl Fault {
    // The refusal; where memory is wanting there is none.
    fn refusal(self) -> Result<Refusal, AllocError>
        ensures { MatchResult result (λ e. self ≡ Refused e) (λ _. self ≡ Memory) }
    {
        match self {
            Fault::Refused(e) => Ok(e),
            Fault::Memory => Err(AllocError),
        }
    }
}

// Where the reckoning of a file stands.
#[derive(Clone, Copy)]
pub enum Stage {
    Building,
    Built,
    Reckoning,
    Reckoned,
}

// Is called when the building of the tree and the reckoning of the house's plan begin and end, for example to measure time.
// Kept: a closure in its place would need a `requires` that it may be called, in each function that passes it on.
pub trait Stages {
    fn stage(&mut self, stage: Stage);
}

// Does nothing.
#[derive(Clone, Copy)]
struct Silent;

impl Stages for Silent {
    fn stage(&mut self, _stage: Stage) {}
}

// How a file begins: a rule sheet, how large its tree is, and m.
#[derive(Clone, Copy)]
pub struct Opening {
    pub sheet: Sheet,
    pub sizes: Sizes,
    pub m: u32,
}

// What a plan keeps: its worst, in so many hands.
#[derive(Clone, Copy)]
pub struct Kept {
    pub worst: u64,
    pub hands: u64,
}

impl fmt::Display for Kept {
    ghost output = { λ k. Some (kept_as k) };

    fn fmt<W: fmt::Write>(&self, f: &mut fmt::Formatter<W>) -> fmt::Result {
        write!(f, "worst {} of {}", self.worst, self.hands)
    }
}

// What the reckoning program has to say of a file.
// Kept: a refusal is one of the answers of which the definitions of the text and of the promises speak (`reckoned`).
#[derive(Clone, Copy)]
pub enum Answer {
    Refused(Refusal),
    // a plan
    One(Sizes, Kept),
    // a plan for each chair
    Both(Sizes, Kept, Kept, Verdict),
}

// How large a tree is, as it is printed.
#[derive(Clone, Copy)]
struct Shown(Sizes);

impl fmt::Display for Shown {
    ghost output = { λ z. Some (sized z.0) };

    fn fmt<W: fmt::Write>(&self, f: &mut fmt::Formatter<W>) -> fmt::Result {
        let Sizes {
            places,
            house,
            guest,
            table,
        } = self.0;
        write!(
            f,
            "places {places} sights {} and {} words {} table {table}",
            house.sights, guest.sights, house.words
        )
    }
}

impl fmt::Display for Answer {
    ghost output = { λ a. Some (shown_as a) };

    fn fmt<W: fmt::Write>(&self, f: &mut fmt::Formatter<W>) -> fmt::Result {
        match self {
            Answer::Refused(e) => write!(f, "{e}\n"),
            Answer::One(z, k) => write!(f, "{}\n{k}\n", Shown(*z)),
            Answer::Both(z, k, r, v) => write!(f, "{}\n{k}\n{r}\n{v}\n", Shown(*z)),
        }
    }
}

// The first so many bytes, or all where there are fewer, and what follows them.
fn split(input: &[u8], n: usize) -> (&[u8], &[u8])
    ensures front { result.0.now ≡ take n input.now }
    ensures after { result.1.now ≡ drop n input.now }
{
    input.split_at(n.min(input.len()))
}

// How a file begins, and that its tree can be built and reckoned.
#[derive(Clone, Copy)]
struct Admitted {
    opening: Opening,
    ghost begun: { Begun opening },
}

// Reads the beginning of a file: the rule sheet, whose tree has to have at most `room` places, and m.
fn open_file(room: u32, input: &[u8]) -> Result<Admitted, Refusal>
    ensures value { MatchResult result (λ a. opened_in room input.now ≡ Ok a.opening) (λ e. opened_in room input.now ≡ Err e) }
    ensures ready { IfOk result (λ a. ReadyIn room a.opening) }
{
    let (front, rest) = split(input, 9);
    let sheet = rules::read(front)?;
    let room = room as usize;
    let sizes = worst::admit(tree::measure(sheet), room, room, room, room)?;
    let Some(number) = plans::read_base(rest) else {
        return Err(Refusal::OfPlan(plans::Refusal::Base));
    };
    let m = plans::check_base(sheet, number)?;
    plans::check_size(sizes.table, m, sizes.house.words)?;
    Ok(Admitted {
        opening: Opening { sheet, sizes, m },
    })
}

// Reads the beginning of a file for which a player is to have a plan.
fn open_chair(room: u32, chair: Player, input: &[u8]) -> Result<Admitted, Refusal>
    ensures { MatchResult result (λ a. opened_for room chair input.now ≡ Ok a.opening) (λ e. opened_for room chair input.now ≡ Err e) }
{
    let admitted = open_file(room, input)?;
    let o = admitted.opening;
    match chair {
        Player::House => Ok(admitted),
        Player::Guest => {
            plans::check_size(o.sizes.table, o.m, o.sizes.guest.words)?;
            Ok(admitted)
        }
    }
}

// A tree in memory as a player meets it, with numbers small enough to reckon.
#[derive(Clone, Copy)]
struct Seated<'a> {
    admitted: Admitted,
    who: Player,
    nodes: &'a [Node],
    ghost stands: { ∥ Lies admitted.opening who nodes.now ∥₁ },
    ghost places: { length nodes.now ≡ admitted.opening.sizes.places },
    ghost small: { let o = admitted.opening in 2 * purse o.sheet * o.m ^ word_count o.sheet who < 2 ^ 62 },
}

impl Seated<'_> {
    // How many words of chance a hand of the player has.
    fn words(&self) -> u32
        ensures { result ≡ word_count self.now.admitted.opening.sheet self.now.who }
    {
        self.admitted.opening.sizes.chair(self.who).words
    }

    // What a plan of the player keeps.
    fn keep(&self, rows: &[Row], work: &mut [Entry]) -> Kept
        requires plan { SomePlan self.now.admitted.opening self.now.who rows.now }
        requires room { length work.old ≡ self.now.admitted.opening.sizes.places }
        ensures { result ≡ kept_by self.now.admitted.opening self.now.who rows.now }
    {
        let m = self.admitted.opening.m;
        let words = self.words();
        let reckoned = worst::worst(self.nodes, rows, m, words, work);
        Kept {
            worst: reckoned.worst,
            hands: (m as u64).pow(words),
        }
    }
}

// The tree of a file's rule sheet in memory of its own size, and the sights of each player.
#[derive(Drop)]
struct Grown {
    admitted: Admitted,
    nodes: Vec<Node>,
    house: Vec<Sight>,
    guest: Vec<Sight>,
    ghost stands: { ∥ Lies admitted.opening House nodes.items ∥₁ },
    ghost places: { length nodes.items ≡ admitted.opening.sizes.places },
    ghost ours: { house.items ≡ sights_of House (game_as admitted.opening.sheet) },
    ghost theirs: { guest.items ≡ sights_of Guest (game_as admitted.opening.sheet) },
}

impl Grown {
    // Makes the memory, and writes the tree and its sights into it; `stages` is called before and after the writing.
    fn new<S: Stages>(heap: Global, stages: &mut S, admitted: Admitted) -> Result<Grown, AllocError>
        ensures { IfOk result (λ t. t.admitted ≡ admitted) }
    {
        let o = admitted.opening;
        let mut nodes = vec![in heap; Node::default(); o.sizes.places as usize]?;
        let mut house = vec![in heap; Sight::default(); o.sizes.house.sights as usize]?;
        let mut guest = vec![in heap; Sight::default(); o.sizes.guest.sights as usize]?;
        stages.stage(Stage::Building);
        // it cannot be refused, since the memory has the tree's size
        let _ = tree::build(o.sheet, &mut nodes, &mut house, &mut guest);
        stages.stage(Stage::Built);
        Ok(Grown {
            admitted,
            nodes,
            house,
            guest,
        })
    }

    // The sights of a player.
    fn sights(&self, who: Player) -> &[Sight]
        ensures { result.now ≡ sights_of who (game_as self.now.admitted.opening.sheet) }
    {
        match who {
            Player::House => &self.house,
            Player::Guest => &self.guest,
        }
    }

    // The bytes of the plan of the house at the front, and what follows them.
    fn cut<'a>(&self, rest: &'a [u8]) -> (&'a [u8], &'a [u8])
        ensures front { result.0.now ≡ take (plan_length self.now.admitted.opening House) rest.now }
        ensures after { result.1.now ≡ drop (plan_length self.now.admitted.opening House) rest.now }
    {
        let n = plans::plan_bytes(
            self.admitted.opening.sheet.raises,
            self.sights(Player::House),
        );
        split(rest, n)
    }

    // Reads a plan of a player.
    fn read_plan(&self, heap: Global, who: Player, bytes: &[u8]) -> Result<Vec<Row>, plans::Fault>
        ensures { let read = plan_in self.now.admitted.opening who bytes.now in MatchResult result (λ v. read ≡ Ok v.items) (Turned read) }
    {
        let o = self.admitted.opening;
        plans::read_plan(heap, o.sheet.raises, self.sights(who), o.m, bytes)
    }

    // The answer where the file goes on with a plan for the turned tree.
    fn rival(
        self,
        heap: Global,
        kept: Kept,
        plan: &[u8],
        work: &mut [Entry],
    ) -> Result<Answer, Fault>
        requires room { length work.old ≡ self.admitted.opening.sizes.places }
        requires kept { SomeKept self.admitted.opening kept }
        ensures { let o = self.admitted.opening in Answered (sized_rival o kept plan.now (size_of o.sizes.table o.m (word_count o.sheet Guest))) result }
    {
        let o = self.admitted.opening;
        plans::check_size(o.sizes.table, o.m, o.sizes.guest.words)?;
        let rows = self.read_plan(heap, Player::Guest, plan)?;
        let mut nodes = self.nodes;
        bracket::turn(&mut nodes);
        let turned = Seated {
            admitted: self.admitted,
            who: Player::Guest,
            nodes: &nodes,
        };
        let other = turned.keep(&rows, work);
        let verdict = bracket::bracket(
            kept.worst,
            other.hands,
            other.worst,
            kept.hands,
            o.sizes.table as u64,
        );
        Ok(Answer::Both(o.sizes, kept, other, verdict))
    }

    // The answer to a file, from its bytes after m on.
    fn answer<S: Stages>(self, heap: Global, stages: &mut S, rest: &[u8]) -> Result<Answer, Fault>
        ensures { Answered (with_opening rest.now (Ok self.admitted.opening)) result }
    {
        let o = self.admitted.opening;
        let (plan, more) = self.cut(rest);
        let rows = self.read_plan(heap, Player::House, plan)?;
        let mut work = vec![in heap; Entry::blank(); o.sizes.places as usize]?;
        stages.stage(Stage::Reckoning);
        let seated = Seated {
            admitted: self.admitted,
            who: Player::House,
            nodes: &self.nodes,
        };
        let kept = seated.keep(&rows, &mut work);
        stages.stage(Stage::Reckoned);
        if more.is_empty() {
            return Ok(Answer::One(o.sizes, kept));
        }
        self.rival(heap, kept, more, &mut work)
    }

    // The lines of the hands of a file, from its bytes after m on.
    fn play(&self, heap: Global, rest: &[u8]) -> Result<String, Fault>
        ensures { Printed (play_opening rest.now (Ok self.now.admitted.opening)) result }
    {
        let (plan, more) = self.cut(rest);
        let rows = self.read_plan(heap, Player::House, plan)?;
        let game = hands::Game {
            nodes: &self.nodes,
            rows: &rows,
            m: self.admitted.opening.m,
        };
        let mut out = String::new(heap);
        write_hands(&game, more, &mut out)?;
        Ok(out)
    }

    // The bytes of a plan for a player, after at most `rounds` rounds.
    fn propose<P: Progress>(
        &self,
        heap: Global,
        progress: &P,
        chair: Player,
        rounds: u32,
    ) -> Result<Vec<u8>, AllocError>
        ensures { IfOk result (λ v. (rows : List OneRow) × (plan_in self.now.admitted.opening chair v.items ≡ Ok rows)) }
    {
        let o = self.admitted.opening;
        let game = search::Game {
            nodes: &self.nodes,
            own: self.sights(chair),
            others: self.sights(chair.other()),
            raises: o.sheet.raises,
            chair,
        };
        search::plan(heap, progress, game, o.m, rounds)
    }
}

// The answer to a file that is not refused, with memory for `room` places.
fn answer_file<S: Stages>(
    heap: Global,
    stages: &mut S,
    room: u32,
    input: &[u8],
) -> Result<Answer, Fault>
    ensures { Answered (reckoned_in room input.now) result }
{
    let admitted = open_file(room, input)?;
    let grown = Grown::new(heap, stages, admitted)?;
    let (_, rest) = split(input, 13);
    grown.answer(heap, stages, rest)
}

// The answer to a file, with memory for `room` places: a refusal is one too.
fn judge<S: Stages>(
    heap: Global,
    stages: &mut S,
    room: u32,
    input: &[u8],
) -> Result<Answer, AllocError>
    ensures { IfOk result (λ a. a ≡ reckoned_in room input.now) }
{
    match answer_file(heap, stages, room, input) {
        Ok(answer) => Ok(answer),
        Err(fault) => Ok(Answer::Refused(fault.refusal()?)),
    }
}

// What the reckoning program would print for a file, with memory for `room` places; `stages` is called at each stage.
pub fn reckon_in_stages<S: Stages>(
    heap: Global,
    stages: &mut S,
    room: u32,
    input: &[u8],
) -> Result<String, AllocError>
    ensures text { IfOk result (λ s. string_bytes s ≡ shown_as (reckoned_in room input.now)) }
    ensures promised { ReckonsIn room input.now }
{
    let answer = judge(heap, stages, room, input)?;
    format!(in heap; "{answer}")
}

// What the reckoning program would print for a file, with memory for `room` places.
pub fn reckon_in(heap: Global, room: u32, input: &[u8]) -> Result<String, AllocError>
    ensures text { IfOk result (λ s. string_bytes s ≡ shown_as (reckoned_in room input.now)) }
    ensures promised { ReckonsIn room input.now }
{
    reckon_in_stages(heap, &mut Silent, room, input)
}

// What the reckoning program prints for a file.
pub fn reckon(heap: Global, input: &[u8]) -> Result<String, AllocError>
    ensures text { IfOk result (λ s. string_bytes s ≡ shown_as (reckoned input.now)) }
    ensures promised { Reckons input.now }
{
    reckon_in(heap, ROOM, input)
}

// A hand as it is printed.
#[derive(Clone, Copy)]
struct HandLine(Result<Ends, hands::Refusal>);

impl fmt::Display for HandLine {
    ghost output = { λ l. Some (hand_line l.0) };

    fn fmt<W: fmt::Write>(&self, f: &mut fmt::Formatter<W>) -> fmt::Result {
        match self.0 {
            Ok(ends) => write!(f, "house {} guest {}", ends.house, ends.guest),
            Err(e) => write!(f, "{}", Refusal::from(e)),
        }
    }
}

// Adds the line of a hand.
fn add_line(res: Result<Ends, hands::Refusal>, out: &mut String) -> Result<(), AllocError>
    ensures { OnOk result (string_bytes out.new ≡ string_bytes out.old ++ line (hand_line res) []) }
{
    write!(out, "{}\n", HandLine(res))
}

// Plays the hands of the bytes one after the other, and adds a line for each.
fn write_hands(game: &hands::Game<'_>, input: &[u8], out: &mut String) -> Result<(), AllocError>
    ensures { OnOk result (Lines game.now.nodes.now game.now.rows.now game.now.m (string_bytes out.old) input.now (string_bytes out.new) []) }
{
    let mut rest = input;
    while let Some(hand) = game.next_hand(rest) {
        add_line(hand.result, out)?;
        rest = hand.rest;
    }
    Ok(())
}

// The lines of the hands of a file that is not refused, with memory for `room` places.
fn play_file(heap: Global, room: u32, input: &[u8]) -> Result<String, Fault>
    ensures { Printed (play_text_in room input.now) result }
{
    let admitted = open_file(room, input)?;
    let grown = Grown::new(heap, &mut Silent, admitted)?;
    let (_, rest) = split(input, 13);
    grown.play(heap, rest)
}

// What the playing program would print for a file, with memory for `room` places.
pub fn play_in(heap: Global, room: u32, input: &[u8]) -> Result<String, AllocError>
    ensures text { IfOk result (λ s. string_bytes s ≡ play_text_in room input.now) }
    ensures promised { PlaysIn room input.now }
{
    match play_file(heap, room, input) {
        Ok(text) => Ok(text),
        Err(fault) => {
            let e = fault.refusal()?;
            format!(in heap; "{e}\n")
        }
    }
}

// What the playing program prints for a file.
pub fn play(heap: Global, input: &[u8]) -> Result<String, AllocError>
    ensures text { IfOk result (λ s. string_bytes s ≡ play_text input.now) }
    ensures promised { Plays input.now }
{
    play_in(heap, ROOM, input)
}

// The bytes of a plan for the player in this chair, for the rule sheet and m of a file, after at most `rounds` rounds. No program calls it yet.
// Kept: six parameters, each of which the caller has apart from the others.
pub fn propose<P: Progress>(
    heap: Global,
    progress: &P,
    room: u32,
    chair: Player,
    rounds: u32,
    input: &[u8],
) -> Result<Vec<u8>, Fault>
    ensures { MatchResult result (λ v. Proposed room chair input.now v.items) (λ e. Unproposed room chair input.now e) }
{
    let admitted = open_chair(room, chair, input)?;
    let grown = Grown::new(heap, &mut Silent, admitted)?;
    let plan = grown.propose(heap, progress, chair, rounds)?;
    Ok(plan)
}
