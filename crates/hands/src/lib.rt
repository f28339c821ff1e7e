// Hands by given choices and words, and matches as they lie in bytes.

#![tactic(auto)]

ghost use Rattle.std.specs.Prelude.{◌≡◌, ℕ, ◌+◌, ◌-◌, ◌*◌, ◌<◌, ◌≤◌, List, [], length, slice_index, MatchOption};
ghost use Rattle.cards.specs.Game.{pick, Tree, Trees, Plan};
ghost use Rattle.cards.specs.Promise.{Wells};
ghost use Rattle.cards.specs.Played.{played};
ghost use Rattle.cards.specs.Reckon.{places_all};
ghost use Rattle.tree.specs.Rep.{Weighed, Reps, node_at};
ghost use Rattle.tree.specs.Siblings.{SomeRoot};
ghost use Rattle.plans.specs.Plan.{plan_of};
ghost use Rattle.hands.specs.Refused.{number_of, place_of};
ghost use Rattle.hands.specs.Laid.{Laid, SomeLaid, Ended};
ghost use Rattle.hands.specs.Steps.{Falling, Fallen, SomeFall, Falls, Chooses};
ghost use Rattle.hands.specs.Source.{Taken, words_of, Drawn};
ghost use Rattle.hands.specs.Match.{held_of, rest_of, cut_of, lists, First};

use plans::Row;
use rules::Ends;
use tree::{Kids, Node, Place};

// Why a hand is turned away: a word is too high, or there are too few; a choice is not there, or there are too few. With the
// index of the word or choice, or their number.
// Kept: `number` and `place` are what docs/RULES.md lists and is printed of a refusal.
#[derive(Clone, Copy)]
pub enum Refusal {
    HighWord(usize),
    FewWords(usize),
    NoChoice(usize),
    FewChoices(usize),
}

impl Refusal {
    // The number of the refusal in the list of refusals.
    pub fn number(self) -> u8
        ensures { result ≡ number_of self }
    {
        match self {
            Refusal::HighWord(_) => 9,
            Refusal::FewWords(_) => 10,
            Refusal::NoChoice(_) => 11,
            Refusal::FewChoices(_) => 12,
        }
    }

    // The place that the list gives for it.
    pub fn place(self) -> usize
        ensures { result ≡ place_of self }
    {
        match self {
            Refusal::HighWord(at)
            | Refusal::FewWords(at)
            | Refusal::NoChoice(at)
            | Refusal::FewChoices(at) => at,
        }
    }
}

// A game in a row of nodes, with the plan of the house in a row of weights, and words below m.
#[derive(Clone, Copy)]
pub struct Game<'a> {
    pub nodes: &'a [Node],
    pub rows: &'a [Row],
    pub m: u32,
    pub ghost laid: { ∥ SomeLaid m rows.now nodes.now ∥₁ },
}

// Where the words of a hand come from.
// Kept: an Iterator's contract has steps and no list of what is left, so `play` would ask its callers for a proof of the list.
pub trait Words {
    // The words that are left
    ghost rest: { Self → List ℕ };

    // The next word, if there is one.
    fn next_word(&mut self) -> Option<u32>
        ensures { Taken (rest self.old) result (rest self.new) };
}

// Words in bytes: four bytes a word, low byte first. A word that is cut short is not there.
#[derive(Drop)]
pub struct WordBytes<'a> {
    pub bytes: &'a [u8],
}

impl<'a> Words for WordBytes<'a> {
    ghost rest = { λ s. words_of s.bytes.now };

    fn next_word(&mut self) -> Option<u32> {
        let (word, bytes) = self.bytes.split_first_chunk()?;
        self.bytes = bytes;
        Some(u32::from_le_bytes(*word))
    }
}

// The next word, where there is one and it is below m; so many were used before it.
fn draw<W: Words>(words: &mut W, m: u32, used: usize) -> Result<u32, Refusal>
    ensures { Drawn m used (W.rest words.old) result (W.rest words.new) }
{
    let Some(word) = words.next_word() else {
        return Err(Refusal::FewWords(used));
    };
    let Some(word) = (word < m).then_some(word) else {
        return Err(Refusal::HighWord(used));
    };
    Ok(word)
}

// Where the tree of the guest's next choice begins, where it is there; so many were made before it.
fn choose(nodes: &[Node], at: usize, choices: &[u8], made: usize) -> Result<usize, Refusal>
    requires { ∥ SomeRoot nodes.now at ∥₁ }
    ensures { (k m n : ℕ) (plan : Plan) (counts : ℕ → ℕ) (ts : Trees) → Reps k m nodes.now (at + 1) ts →
        (at + 1) + places_all ts ≡ at + (node_at nodes.now at).size → Wells m plan counts n ts →
        Chooses k m n plan counts nodes.now ts choices.now made result }
{
    let Some(choice) = choices.get(made) else {
        return Err(Refusal::FewChoices(made));
    };
    let Some(kid) = Kids::of(nodes, at).nth(*choice as usize) else {
        return Err(Refusal::NoChoice(made));
    };
    Ok(kid)
}

// A byte with a count, and then so many times `unit` bytes, as far as there are any; and what follows them. A count that is missing is 0.
fn part(input: &[u8], unit: usize) -> (&[u8], &[u8])
    requires { unit ≤ 4 }
    ensures held { result.0.now ≡ held_of unit input.now }
    ensures rest { result.1.now ≡ rest_of unit input.now }
{
    let Some((count, bytes)) = input.split_first() else {
        return (input, input);
    };
    bytes.split_at((*count as usize * unit).min(bytes.len()))
}

// The bytes of the first hand of a match: its choices, its words, and what follows the hand.
#[derive(Clone, Copy)]
pub struct Parts<'a> {
    pub choices: &'a [u8],
    pub words: &'a [u8],
    pub rest: &'a [u8],
}

// Cuts the first hand off, if there is one: a byte with the number of its choices, a byte each, and a byte with the number of its
// words, four bytes each. Bytes that end inside it leave it fewer.
pub fn cut(input: &[u8]) -> Option<Parts<'_>>
    ensures value { MatchOption result (cut_of input.now ≡ None) (λ p. cut_of input.now ≡ Some (lists p.choices.now p.words.now p.rest.now)) }
    ensures shorter { MatchOption result (length input.now ≡ 0) (λ p. length p.rest.now < length input.now) }
{
    if input.is_empty() {
        return None;
    }
    let (choices, rest) = part(input, 1);
    let (words, rest) = part(rest, 4);
    Some(Parts {
        choices,
        words,
        rest,
    })
}

// What the first hand of a match comes to, and what follows the hand.
#[derive(Clone, Copy)]
pub struct Settled<'a> {
    pub result: Result<Ends, Refusal>,
    pub rest: &'a [u8],
}

impl Game<'_> {
    // Where the tree begins to which a word falls, of the trees of the place at `at`.
    fn fall(&self, at: usize, word: u32) -> usize
        requires root { ∥ SomeRoot self.now.nodes.now at ∥₁ }
        requires falls { let g = self.now in let n = node_at g.nodes.now at in ∥ SomeFall g.m g.rows.now g.nodes.now n.place (at + 1) (at + n.size) word ∥₁ }
        ensures { let g = self.now in Falls g.m g.rows.now g.nodes.now (node_at g.nodes.now at).place (at + 1) word result }
    {
        let place = self.nodes[at].place;
        let mut left = word as u64;
        for (before, kid) in Kids::of(self.nodes, at).enumerate() {
            let weight = plans::weight(self.nodes, self.rows, self.m, place, kid, before);
            if left < weight {
                return kid;
            }
            left -= weight;
        }
        // The word is below the sum of the weights.
        unreachable!()
    }

    // One hand, by the plan of the house, these choices of the guest and these words; what is not needed is not looked at.
    pub fn play<W: Words + Drop>(&self, choices: &[u8], mut words: W) -> Result<Ends, Refusal>
        ensures { let g = self.now in
            (k n : ℕ) (c counts : ℕ → ℕ) (tree : Tree) → Laid k g.m n c counts g.rows.now g.nodes.now 0 tree →
            Ended k (played g.m (plan_of g.rows.now c) tree choices.now (W.rest words)) result }
    {
        // Kept: the loop goes by the tree, and the counts are for the refusals.
        let mut at = 0;
        let mut made = 0;
        let mut used = 0;
        loop {
            let place = self.nodes[at].place;
            match place {
                Place::Over(ends) => return Ok(ends),
                Place::Deal(_) | Place::House(_, _) => {
                    let word = draw(&mut words, self.m, used)?;
                    at = self.fall(at, word);
                    used += 1;
                }
                Place::Guest(_, _) => {
                    at = choose(self.nodes, at, choices, made)?;
                    made += 1;
                }
            }
        }
    }

    // Plays the first hand of a match, if there is one.
    pub fn next_hand<'b>(&self, input: &'b [u8]) -> Option<Settled<'b>>
        ensures value { let g = self.now in MatchOption result (input.now ≡ [])
            (λ s. (k n : ℕ) (c counts : ℕ → ℕ) (tree : Tree) → Laid k g.m n c counts g.rows.now g.nodes.now 0 tree →
            First k g.m (plan_of g.rows.now c) tree input.now s.result s.rest.now) }
        ensures shorter { MatchOption result (length input.now ≡ 0) (λ s. length s.rest.now < length input.now) }
    {
        let hand = cut(input)?;
        let words = WordBytes { bytes: hand.words };
        Some(Settled {
            result: self.play(hand.choices, words),
            rest: hand.rest,
        })
    }
}
