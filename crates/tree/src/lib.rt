// The tree of a rule sheet, laid out in lent memory.

#![tactic(auto)]

ghost use Rattle.std.specs.Prelude.{◌≡◌, ℕ, ◌+◌, ◌-◌, ◌*◌, ◌<◌, ◌≤◌, [], map, length, replicate, slice_index};
ghost use Rattle.rules.specs.Play.{game as game_of, count as count_of, purse as purse_of, without};
ghost use Rattle.rules.specs.Sound.{Sound};
ghost use Rattle.tree.specs.declared.Hand.{Hand};
ghost use Rattle.tree.specs.Compact.{Play, end, size, won_by_as, acted_as, due_of, answers_as, opens_as, round_as, deals_as, line_as, sight_of, settled_as, shows, shown_as, second_as, sits, first_as, game_as};
ghost use Rattle.tree.specs.Rep.{node_at};
ghost use Rattle.tree.specs.Cards.{cards_of, guest_deal};
ghost use Rattle.tree.specs.Writes.{HasRoom, Wrote};
ghost use Rattle.tree.specs.Flat.{Written, Fair, bet_size, first_size, seat, unnumbered, Noted};
ghost use Rattle.tree.specs.Seen.{sight_at, seen_in, noted, numbered_node, sights_of};
ghost use Rattle.tree.specs.Slots.{slot_of, Ranged, Tabled, tabled_place, tabled_node, Slotted, Ready};
ghost use Rattle.rules.specs.Sights.{sights};
ghost use Rattle.rules.specs.Counts.{count_of_sights, word_count};
ghost use Rattle.tree.specs.Told.{told, listed, ended, nth, offers_of};
ghost use Rattle.tree.specs.Built.{number_of, refused_at, at_most, fitted, limited, admitted, sizes_of, chair_in, Measured, Memory, Begins, nodes_of};
ghost use Rattle.rules.specs.declared.Player.TheVariants.{House, Guest};

mod deck;
mod writer;

use deck::Deck;
use rules::{Ends, Player, Sheet};
use writer::Writer;

mod kids;

pub use kids::Kids;

// The choices of a round so far: so many checks, then so many bets and raises. A call ends a round and is not counted.
#[derive(Clone, Copy, Default)]
pub struct Line {
    pub checks: u8,
    pub bets: u8,
}

// What was done and shown before both players: the first round, the public card, the second round.
#[derive(Clone, Copy, Default)]
pub struct History {
    pub first: Line,
    pub public: Option<u8>,
    pub second: Line,
}

// A sight: what the player to act sees.
#[derive(Clone, Copy, Default)]
pub struct Sight {
    pub own: u8,
    pub history: History,
}

impl Sight {
    // How many choices the player has who sees this, where so many raises may be made in a round.
    pub fn offers(self, raises: u8) -> u8
        ensures { result ≡ offers_of raises self }
    {
        let line = match self.history.public {
            None => self.history.first,
            Some(_) => self.history.second,
        };
        if 0 < line.bets && line.bets <= raises {
            3
        } else {
            2
        }
    }

    // The choice that was made so many choices before the last one.
    // Kept: a choice is its number among those offered, as in a file and in the order of the trees, and no enum.
    pub fn choice(self, back: usize) -> Option<u8>
        ensures { result ≡ nth (told self).choices back }
    {
        let first = self.history.first;
        match self.history.public {
            None => listed_at(first, back),
            Some(_) => {
                let second = self.history.second;
                let made = second.checks as usize + second.bets as usize;
                if back < made {
                    listed_at(second, back)
                } else {
                    ended_at(first, back - made)
                }
            }
        }
    }
}

// The choice so far back in a round that goes on.
// Kept: a number, as of `Sight::choice`.
fn listed_at(line: Line, back: usize) -> Option<u8>
    ensures { result ≡ nth (listed line.checks line.bets) back }
{
    let bets = line.bets as usize;
    if back < bets {
        return if back + 1 == bets { Some(1) } else { Some(2) };
    }
    if back - bets < line.checks as usize {
        Some(0)
    } else {
        None
    }
}

// The choice so far back in a round that is over without a fold.
// Kept: a number, as of `Sight::choice`.
fn ended_at(line: Line, back: usize) -> Option<u8>
    ensures { result ≡ nth (ended line.checks line.bets) back }
{
    if line.bets == 0 {
        return listed_at(line, back);
    }
    if back == 0 {
        Some(1)
    } else {
        listed_at(line, back - 1)
    }
}

// A place of the tree: over, with what each player has; a deal from so many parts (cards); a choice of a player at a sight, with
// the sight's number.
#[derive(Clone, Copy)]
pub enum Place {
    Over(Ends),
    Deal(u32),
    House(Sight, u32),
    Guest(Sight, u32),
}

// What stands in blank memory: over, and nobody has anything.
impl Default for Place {
    ghost use Rattle.tree.specs.declared.Place.TheVariants.{Over};

    ghost is_default = { λ p. p ≡ Over (record { house = 0; guest = 0 }) };

    fn default() -> Place {
        Place::Over(Ends { house: 0, guest: 0 })
    }
}

// Kept: the tree is a row of nodes in lent memory and no tree of boxes, since this crate uses no heap.
// A place, its share of the parts of the deal that leads to it (the copies left of the rank), and how many places its tree has.
#[derive(Clone, Copy, Default)]
pub struct Node {
    pub place: Place,
    pub share: u32,
    pub size: u32,
}

// What each player has put in.
#[derive(Clone, Copy)]
struct Paid {
    house: u32,
    guest: u32,
}

// A hand in play.
#[derive(Clone, Copy)]
struct Hand {
    house: u8,
    guest: u8,
    paid: Paid,
    history: History,
}

// What a player does and the game goes on.
#[derive(Clone, Copy)]
enum Act {
    Check,
    Bet,
    Call,
    Raise,
}

// What is played for in a round: what each player sat down with, and the bet.
#[derive(Clone, Copy)]
struct Stakes {
    purse: u32,
    bet: u32,
    ghost purse_small: { purse ≤ 1000 },
    ghost bet_small: { bet ≤ 10 },
}

impl Stakes {
    // What each player has where this one takes all.
    fn won_by(self, who: Player, hand: Hand) -> Ends
        requires { Fair 0 hand }
        ensures { result ≡ won_by_as self.purse who hand }
    {
        match who {
            Player::House => Ends {
                house: self.purse + hand.paid.guest,
                guest: self.purse.saturating_sub(hand.paid.guest),
            },
            Player::Guest => Ends {
                house: self.purse.saturating_sub(hand.paid.house),
                guest: self.purse + hand.paid.house,
            },
        }
    }
}

// A round's line with one choice more.
fn lengthened(a: Act, l: Line) -> Line
    requires checks { l.checks ≤ 240 }
    requires bets { l.bets ≤ 240 }
    ensures { result ≡ line_as a l }
{
    match a {
        Act::Check => Line {
            checks: l.checks + 1,
            bets: l.bets,
        },
        Act::Bet | Act::Raise => Line {
            checks: l.checks,
            bets: l.bets + 1,
        },
        Act::Call => l,
    }
}

impl Paid {
    // What a player has to put in to call.
    fn due(self, who: Player) -> u32
        ensures { result ≡ due_of who self }
    {
        match who {
            Player::House => self.guest.saturating_sub(self.house),
            Player::Guest => self.house.saturating_sub(self.guest),
        }
    }
}

impl Hand {
    // The hand as the betting begins.
    fn seated(ante: u8, house: u8, guest: u8) -> Hand
        requires { ante ≤ 10 }
        ensures value { result ≡ sits ante house guest }
        ensures fair { Fair 100 result }
    {
        Hand {
            house,
            guest,
            paid: Paid {
                house: ante as u32,
                guest: ante as u32,
            },
            history: History::default(),
        }
    }

    // The hand after a choice that puts in `k` tokens.
    fn acted(self, who: Player, a: Act, k: u32) -> Hand
        requires fair { Fair 0 self }
        requires small { k ≤ 1000 }
        ensures { result ≡ acted_as who a k self }
    {
        let p = self.paid;
        let paid = match who {
            Player::House => Paid {
                house: p.house + k,
                guest: p.guest,
            },
            Player::Guest => Paid {
                house: p.house,
                guest: p.guest + k,
            },
        };
        let h = self.history;
        let history = match h.public {
            None => History {
                first: lengthened(a, h.first),
                ..h
            },
            Some(_) => History {
                second: lengthened(a, h.second),
                ..h
            },
        };
        Hand {
            paid,
            history,
            ..self
        }
    }

    // The hand with the public card shown.
    fn show(self, rank: u8) -> Hand
        ensures { result ≡ shows rank self }
    {
        Hand {
            history: History {
                public: Some(rank),
                ..self.history
            },
            ..self
        }
    }

    // A place where a player is to choose, its sight not numbered yet.
    fn choice(self, who: Player) -> Place
        ensures { result ≡ seat unnumbered unnumbered who (sight_of who self) }
    {
        match who {
            Player::House => Place::House(
                Sight {
                    own: self.house,
                    history: self.history,
                },
                0,
            ),
            Player::Guest => Place::Guest(
                Sight {
                    own: self.guest,
                    history: self.history,
                },
                0,
            ),
        }
    }
}

// What follows a round of betting.
// Kept: a trait with a struct for each follower and no closure, since what follows is named in the clauses of the round.
trait Follow {
    // What is written after this hand
    ghost then: { Self → Hand → Play };

    // How much more has to fit each number of the hand
    ghost spare: { Self → ℕ };

    fn follow(self, out: &mut Writer<'_>, hand: Hand)
        requires room { HasRoom out.old (then self hand) }
        requires fair { Fair (spare self) hand }
        ensures { Wrote 0 (then self hand) out.old out.new };
}

// A round of betting: what is played for, how many raises may be made, and what follows.
#[derive(Clone, Copy)]
struct Betting<F> {
    next: F,
    stakes: Stakes,
    raises: u8,
}

impl<F: Follow + Copy> Betting<F> {
    // The choices after a bet.
    fn answers(self, out: &mut Writer<'_>, who: Player, hand: Hand)
        requires room { HasRoom out.old (answers_as self.stakes.purse self.stakes.bet (F.then self.next) self.raises who hand) }
        requires fair { Fair (10 * self.raises + F.spare self.next) hand }
        ensures { Wrote 0 (answers_as self.stakes.purse self.stakes.bet (F.then self.next) self.raises who hand) out.old out.new }
    {
        let at = out.skip();
        let owed = hand.paid.due(who);
        let ends = self.stakes.won_by(who.other(), hand);
        out.over(0, ends);
        self.next.follow(out, hand.acted(who, Act::Call, owed));
        if self.raises > 0 {
            let fewer = Betting {
                raises: self.raises - 1,
                ..self
            };
            let raised = hand.acted(who, Act::Raise, owed + self.stakes.bet);
            fewer.answers(out, who.other(), raised);
        }
        out.close(at, hand.choice(who), 0);
    }

    // The choices where there is nothing to call, with what follows a check.
    // Kept: six parameters, since no two of them belong together more than any others.
    fn opens<C: Follow + Copy>(
        self,
        checks: C,
        out: &mut Writer<'_>,
        share: u32,
        who: Player,
        hand: Hand,
    )
        requires room { HasRoom out.old (opens_as self.stakes.purse self.stakes.bet (F.then self.next) self.raises (C.then checks) who hand) }
        requires check { Fair (10 + C.spare checks) hand }
        requires bet { Fair (10 + (10 * self.raises + F.spare self.next)) hand }
        ensures { Wrote share (opens_as self.stakes.purse self.stakes.bet (F.then self.next) self.raises (C.then checks) who hand) out.old out.new }
    {
        let at = out.skip();
        checks.follow(out, hand.acted(who, Act::Check, 0));
        let bet = hand.acted(who, Act::Bet, self.stakes.bet);
        self.answers(out, who.other(), bet);
        out.close(at, hand.choice(who), share);
    }

    // The whole round.
    fn round(self, out: &mut Writer<'_>, share: u32, who: Player, hand: Hand)
        requires room { HasRoom out.old (round_as self.stakes.purse self.stakes.bet (F.then self.next) self.raises who hand) }
        requires fair { Fair (20 + (10 * self.raises + F.spare self.next)) hand }
        ensures { Wrote share (round_as self.stakes.purse self.stakes.bet (F.then self.next) self.raises who hand) out.old out.new }
    {
        let checks = Checked {
            betting: self,
            who: who.other(),
        };
        self.opens(checks, out, share, who, hand);
    }
}

// After a check: the choices of the other player, whose check ends the round.
#[derive(Clone, Copy)]
struct Checked<F> {
    betting: Betting<F>,
    who: Player,
}

impl<F: Follow + Copy> Follow for Checked<F> {
    ghost then = { λ s h. opens_as s.betting.stakes.purse s.betting.stakes.bet (F.then s.betting.next) s.betting.raises (F.then s.betting.next) s.who h };

    ghost spare = { λ s. 10 + (10 * s.betting.raises + F.spare s.betting.next) };

    fn follow(self, out: &mut Writer<'_>, hand: Hand) {
        let betting = self.betting;
        betting.opens(betting.next, out, 0, self.who, hand);
    }
}

// What a dealt card leads to.
// Kept: a trait and no closure, for the same reason.
trait Card {
    // What follows a card of this rank
    ghost after: { Self → ℕ → Play };

    // What has to hold of the rank
    ghost ready: { Self → ℕ → Type 0 };

    fn lead(self, out: &mut Writer<'_>, rank: u8, share: u32)
        requires ready { ready self rank }
        requires room { HasRoom out.old (after self rank) }
        ensures { Wrote share (after self rank) out.old out.new };
}

// A deal, with a tree for each rank that is left.
fn deal<C: Card + Copy>(card: C, out: &mut Writer<'_>, share: u32, deck: Deck)
    requires ready { (r : ℕ) → 0 < slice_index (cards_of deck) r → C.ready card r }
    requires room { HasRoom out.old (deals_as (cards_of deck) (C.after card)) }
    ensures { Wrote share (deals_as (cards_of deck) (C.after card)) out.old out.new }
{
    let at = out.skip();
    let mut cards: u32 = 0;
    for (rank, copies) in deck.cards().iter().enumerate() {
        let left = *copies as u32;
        if left > 0 {
            card.lead(out, rank as u8, left);
            cards += left;
        }
    }
    out.close(at, Place::Deal(cards), share);
}

// A showdown: the player who alone has the public card's rank wins, else the higher rank.
#[derive(Clone, Copy)]
struct Showdown {
    stakes: Stakes,
    public: Option<u8>,
}

impl Showdown {
    // What each player has after it.
    fn settled(self, hand: Hand) -> Ends
        requires { Fair 0 hand }
        ensures { result ≡ settled_as self.stakes.purse self.public hand }
    {
        let stakes = self.stakes;
        if let Some(rank) = self.public {
            if hand.house == rank && hand.guest != rank {
                return stakes.won_by(Player::House, hand);
            }
            if hand.guest == rank && hand.house != rank {
                return stakes.won_by(Player::Guest, hand);
            }
        }
        if hand.guest < hand.house {
            return stakes.won_by(Player::House, hand);
        }
        if hand.house < hand.guest {
            return stakes.won_by(Player::Guest, hand);
        }
        let purse = stakes.purse;
        Ends {
            house: purse,
            guest: purse,
        }
    }
}

impl Follow for Showdown {
    ghost then = { λ s h. end (settled_as s.stakes.purse s.public h) };

    ghost spare = { λ s. 0 };

    fn follow(self, out: &mut Writer<'_>, hand: Hand) {
        out.over(0, self.settled(hand));
    }
}

// The places of a round of betting, where so many follow each end without a fold.
fn round_places(raises: u8, follow: u32) -> u32
    requires raises { raises ≤ 3 }
    requires follow { follow ≤ 1000 }
    ensures value { result ≡ bet_size raises follow }
    ensures most { result ≤ 10 + 9 * follow + 8 }
{
    let answers = (raises as u32 + 1) * (2 + follow);
    2 + follow + 2 * answers
}

// The game of a rule sheet within its ranges.
#[derive(Clone, Copy)]
struct Game {
    sheet: Sheet,
    ghost sound: { Sound sheet },
}

impl Game {
    // T: the tokens that each player sits down with.
    fn purse(self) -> u32
        ensures value { result ≡ purse_of self.sheet }
        ensures most { result ≤ 1000 }
    {
        let sheet = self.sheet;
        let x = 1 + sheet.raises as u32;
        let first = sheet.bets.ante as u32 + sheet.bets.first as u32 * x;
        if sheet.public {
            first + sheet.bets.second as u32 * x
        } else {
            first
        }
    }

    // What is played for in a round with this bet.
    fn stakes(self, bet: u8) -> Stakes
        requires { bet ≤ 10 }
        ensures purse { result.purse ≡ purse_of self.sheet }
        ensures bet { result.bet ≡ bet }
    {
        Stakes {
            purse: self.purse(),
            bet: bet as u32,
        }
    }

    // The whole deck.
    fn deck(self) -> Deck
        ensures { cards_of result ≡ replicate self.sheet.ranks self.sheet.copies }
    {
        Deck::full(self.sheet.ranks, self.sheet.copies)
    }

    // The places from the first round on.
    fn count_first(self, deck: Deck) -> u32
        ensures value { result ≡ first_size self.sheet (cards_of deck) }
        ensures most { result ≤ 6000 }
    {
        let raises = self.sheet.raises;
        let last = round_places(raises, 1);
        if self.sheet.public {
            round_places(raises, 1 + deck.ranks_left() * last)
        } else {
            last
        }
    }

    // The places from the guest's card on.
    fn count_guest(self, deck: Deck) -> u32
        ensures value { (a : ℕ) → result ≡ size (guest_deal self.sheet (cards_of deck) a) }
        ensures most { result ≤ 80000 }
    {
        deck.places(
            |rank: u8| -> u32
                requires { 0 < slice_index (cards_of deck) rank }
                ensures value { result ≡ first_size self.sheet (without rank (cards_of deck)) }
                ensures most { result ≤ 6000 }
            { self.count_first(deck.without(rank)) },
        )
    }

    // The places of the whole tree.
    fn count(self) -> u32
        ensures { result ≡ size (game_as self.sheet) }
    {
        let deck = self.deck();
        deck.places(
            |rank: u8| -> u32
                requires { 0 < slice_index (cards_of deck) rank }
                ensures value { result ≡ size (guest_deal self.sheet (without rank (cards_of deck)) rank) }
                ensures most { result ≤ 80000 }
            { self.count_guest(deck.without(rank)) },
        )
    }

    // How many sights each player has.
    fn sight_count(self) -> u32
        ensures { result ≡ count_of_sights self.sheet }
    {
        let sheet = self.sheet;
        let ranks = sheet.ranks as u32;
        let raises = sheet.raises as u32;
        let shown = if sheet.copies == 1 { ranks - 1 } else { ranks };
        let second = if sheet.public {
            (2 * raises + 3) * shown
        } else {
            0
        };
        ranks * (raises + 2) * (1 + second)
    }

    // How many words a hand has that is played from this player's chair.
    fn word_count(self, who: Player) -> u32
        ensures { result ≡ word_count self.sheet who }
    {
        let sheet = self.sheet;
        let raises = sheet.raises as u32;
        let turns = if who == sheet.begins {
            (raises + 4) / 2
        } else {
            (raises + 3) / 2
        };
        2 + turns + if sheet.public { 1 + turns } else { 0 }
    }
}

// A card that is shown to both, with the round that follows.
#[derive(Clone, Copy)]
struct PublicCard {
    game: Game,
    hand: Hand,
    ghost fair: { Fair 50 hand },
}

impl Card for PublicCard {
    ghost after = { λ s r. shown_as s.game.sheet r s.hand };

    ghost ready = { λ s r. Unit {0} };

    fn lead(self, out: &mut Writer<'_>, rank: u8, share: u32) {
        let sheet = self.game.sheet;
        let begins = sheet.begins;
        let stakes = self.game.stakes(sheet.bets.second);
        let next = Showdown {
            stakes,
            public: Some(rank),
        };
        let betting = Betting {
            next,
            stakes,
            raises: sheet.raises,
        };
        betting.round(out, share, begins, self.hand.show(rank));
    }
}

// The deal of the public card.
#[derive(Clone, Copy)]
struct PublicDeal {
    game: Game,
    deck: Deck,
}

impl Follow for PublicDeal {
    ghost then = { λ s h. second_as s.game.sheet (cards_of s.deck) h };

    ghost spare = { λ s. 50 };

    fn follow(self, out: &mut Writer<'_>, hand: Hand) {
        let card = PublicCard {
            game: self.game,
            hand,
        };
        deal(card, out, 0, self.deck);
    }
}

// The card of the guest, after the house's.
#[derive(Clone, Copy)]
struct GuestCard {
    game: Game,
    house: u8,
    deck: Deck,
}

impl Card for GuestCard {
    ghost after = { λ s b. first_as s.game.sheet (without b (cards_of s.deck)) (sits s.game.sheet.bets.ante s.house b) };

    ghost ready = { λ s r. 0 < slice_index (cards_of s.deck) r };

    fn lead(self, out: &mut Writer<'_>, rank: u8, share: u32) {
        let game = self.game;
        let sheet = game.sheet;
        let deck = self.deck.without(rank);
        let hand = Hand::seated(sheet.bets.ante, self.house, rank);
        let stakes = game.stakes(sheet.bets.first);
        if sheet.public {
            let next = PublicDeal { game, deck };
            let betting = Betting {
                next,
                stakes,
                raises: sheet.raises,
            };
            betting.round(out, share, sheet.begins, hand);
        } else {
            let raises = sheet.raises;
            let next = Showdown {
                stakes,
                public: None,
            };
            let betting = Betting {
                next,
                stakes,
                raises,
            };
            betting.round(out, share, sheet.begins, hand);
        }
    }
}

// The card of the house.
#[derive(Clone, Copy)]
struct HouseCard {
    game: Game,
    deck: Deck,
}

impl Card for HouseCard {
    ghost after = { λ s a. guest_deal s.game.sheet (without a (cards_of s.deck)) a };

    ghost ready = { λ s r. 0 < slice_index (cards_of s.deck) r };

    fn lead(self, out: &mut Writer<'_>, rank: u8, share: u32) {
        let deck = self.deck.without(rank);
        let card = GuestCard {
            game: self.game,
            house: rank,
            deck,
        };
        deal(card, out, share, deck);
    }
}

// The whole tree, its sights not numbered yet.
fn written(game: Game, nodes: &mut [Node])
    requires room { size (game_as game.sheet) ≤ length nodes.old }
    requires small { length nodes.old ≤ 65536 }
    ensures { Written 0 (game_as game.sheet) 0 nodes.old nodes.new (size (game_as game.sheet)) }
{
    let deck = game.deck();
    let mut out = Writer::new(nodes);
    deal(HouseCard { game, deck }, &mut out, 0, deck);
}

// The sight of this player at a place.
fn seen_at(who: Player, place: Place) -> Option<Sight>
    ensures { result ≡ sight_at who place }
{
    match (who, place) {
        (Player::House, Place::House(z, _)) => Some(z),
        (Player::Guest, Place::Guest(z, _)) => Some(z),
        _ => None,
    }
}

// Kept: a table of slots on the stack and no map from sights to numbers, since this crate uses no heap.
// Where a sight stands in a table.
fn slot(z: Sight) -> usize
    ensures { result ≡ slot_of z }
{
    let public = match z.history.public {
        None => 0,
        Some(r) => r as usize + 1,
    };
    let first = z.history.first.checks as usize * 5 + z.history.first.bets as usize;
    let second = z.history.second.checks as usize * 5 + z.history.second.bets as usize;
    ((public * 15 + second) * 13 + z.own as usize) * 15 + first
}

// Kept: that there are at most 65,536 nodes stands in the clauses from here to `fill`, since each takes them lent, alone or with others.
// Notes each sight of this player once, in the order in which they are met. The table begins with zeros and then holds, for
// each sight met, its number and one more.
fn collect(nodes: &[Node], who: Player, sights: &mut [Sight], table: &mut [u32]) -> usize
    requires room { length (noted [] (seen_in who nodes.now)) ≤ length sights.old }
    requires few { length nodes.now ≤ 65536 }
    requires ranged { Ranged (length table.old) who nodes.now }
    requires zeros { (k : ℕ) → slice_index table.old k ≡ 0 }
    ensures sights { Noted (noted [] (seen_in who nodes.now)) sights.old sights.new result }
    ensures table { Tabled (length table.old) table.new (noted [] (seen_in who nodes.now)) }
{
    let mut n = 0;
    for node in nodes {
        if let Some(z) = seen_at(who, node.place) {
            let k = slot(z);
            if table[k] == 0 {
                sights[n] = z;
                n += 1;
                table[k] = n as u32;
            }
        }
    }
    n
}

// A place with the number of its sight, by the tables of the two players.
fn numbered(place: Place, house: &[u32], guest: &[u32]) -> Place
    requires { Slotted house.now guest.now place }
    ensures { result ≡ tabled_place house.now guest.now place }
{
    match place {
        Place::Over(ends) => Place::Over(ends),
        Place::Deal(parts) => Place::Deal(parts),
        Place::House(z, _) => Place::House(z, house[slot(z)].saturating_sub(1)),
        Place::Guest(z, _) => Place::Guest(z, guest[slot(z)].saturating_sub(1)),
    }
}

// Gives each place the number of its sight.
fn number(nodes: &mut [Node], house: &[u32], guest: &[u32])
    requires { (i : ℕ) → i < length nodes.old → Slotted house.now guest.now (node_at nodes.old i).place }
    ensures { nodes.new ≡ map (tabled_node house.now guest.now) nodes.old }
{
    for node in nodes.iter_mut() {
        node.place = numbered(node.place, house, guest);
    }
}

// Notes and numbers the sights of both players, by a table of N slots for each.
fn index<const N: usize>(nodes: &mut [Node], house: &mut [Sight], guest: &mut [Sight])
    requires few { length nodes.old ≤ 65536 }
    requires slots { N ≤ 40950 }
    requires ours { Ready nodes.old House (length house.old) (replicate N 0) }
    requires theirs { Ready nodes.old Guest (length guest.old) (replicate N 0) }
    ensures nodes { nodes.new ≡ map (numbered_node (noted [] (seen_in House nodes.old)) (noted [] (seen_in Guest nodes.old))) nodes.old }
    ensures house { Begins (noted [] (seen_in House nodes.old)) house.old house.new }
    ensures guest { Begins (noted [] (seen_in Guest nodes.old)) guest.old guest.new }
{
    let mut ours = [0u32; N];
    let mut theirs = [0u32; N];
    let _ = collect(nodes, Player::House, house, &mut ours);
    let _ = collect(nodes, Player::Guest, guest, &mut theirs);
    number(nodes, &ours, &theirs);
}

// The slots of all sights, of those of games with three ranks at the most, and of those of a first round.
const SLOTS: usize = 40950;

const FEW_SLOTS: usize = 11700;

const FIRST_SLOTS: usize = 195;

// Writes the tree and its sights into memory of its size.
fn fill(game: Game, nodes: &mut [Node], house: &mut [Sight], guest: &mut [Sight])
    requires exact { length nodes.old ≡ count_of (game_of game.sheet) }
    requires few { length nodes.old ≤ 65536 }
    requires house { length (sights House (game_of game.sheet)) ≤ length house.old }
    requires guest { length (sights Guest (game_of game.sheet)) ≤ length guest.old }
    ensures nodes { nodes.new ≡ nodes_of game.sheet }
    ensures house { Begins (sights_of House (game_as game.sheet)) house.old house.new }
    ensures guest { Begins (sights_of Guest (game_as game.sheet)) guest.old guest.new }
{
    written(game, nodes);
    if game.sheet.public {
        if game.sheet.ranks <= 3 {
            index::<FEW_SLOTS>(nodes, house, guest);
        } else {
            index::<SLOTS>(nodes, house, guest);
        }
    } else {
        index::<FIRST_SLOTS>(nodes, house, guest);
    }
}

// For a chair: the sights of its player, and the words of a hand that is played from it.
#[derive(Clone, Copy)]
pub struct Chair {
    pub sights: u32,
    pub words: u32,
}

// How large a tree is, and how many tokens are on the table.
#[derive(Clone, Copy)]
pub struct Sizes {
    pub places: u32,
    pub house: Chair,
    pub guest: Chair,
    pub table: u32,
}

impl Sizes {
    // The chair of a player.
    pub fn chair(self, who: Player) -> Chair
        ensures { result ≡ chair_in self who }
    {
        match who {
            Player::House => self.house,
            Player::Guest => self.guest,
        }
    }
}

// Why a tree is not written.
// Kept: `number` and `place` are what docs/RULES.md lists and is printed of a refusal.
#[derive(Clone, Copy)]
pub enum Refusal {
    // the memory for the tree is too short
    NoRoom,
    // the memory for the sights is too short
    NoSightRoom,
    // there are more than 65,536 places
    TooLarge,
}

impl Refusal {
    // The number of the refusal in the list of refusals.
    pub fn number(self) -> u8
        ensures { result ≡ number_of self }
    {
        match self {
            Refusal::NoRoom | Refusal::NoSightRoom => 13,
            Refusal::TooLarge => 3,
        }
    }

    // The place that the list gives for it.
    pub fn place(self) -> usize
        ensures { result ≡ refused_at self }
    {
        match self {
            Refusal::NoRoom | Refusal::TooLarge => 0,
            Refusal::NoSightRoom => 1,
        }
    }
}

// How large the tree of a rule sheet is.
pub fn measure(sheet: Sheet) -> Sizes
    requires { Sound sheet }
    ensures value { result ≡ sizes_of sheet }
    ensures tree { Measured sheet result }
{
    let game = Game { sheet };
    let sights = game.sight_count();
    let house = Chair {
        sights,
        words: game.word_count(Player::House),
    };
    let guest = Chair {
        sights,
        words: game.word_count(Player::Guest),
    };
    Sizes {
        places: game.count(),
        house,
        guest,
        table: 2 * game.purse(),
    }
}

// The number, where it is at most so much.
// Kept: an Option and no bool, for `let .. else`.
pub fn at_most(n: u32, most: usize) -> Option<u32>
    ensures { result ≡ at_most n most }
{
    (n as usize <= most).then_some(n)
}

// The sizes, where places and sights fit their memory.
pub fn fits(sizes: Sizes, nodes: usize, house: usize, guest: usize) -> Result<Sizes, Refusal>
    ensures { result ≡ fitted sizes nodes house guest }
{
    let Some(_) = at_most(sizes.places, nodes) else {
        return Err(Refusal::NoRoom);
    };
    let Some(_) = at_most(sizes.house.sights, house) else {
        return Err(Refusal::NoSightRoom);
    };
    let Some(_) = at_most(sizes.guest.sights, guest) else {
        return Err(Refusal::NoSightRoom);
    };
    Ok(sizes)
}

// The sizes, where there are not too many places.
pub fn few(sizes: Sizes) -> Result<Sizes, Refusal>
    ensures { result ≡ limited sizes }
{
    let Some(_) = at_most(sizes.places, 65536) else {
        return Err(Refusal::TooLarge);
    };
    Ok(sizes)
}

// The sizes, where places and sights fit the memory and there are not too many places.
pub fn admit(sizes: Sizes, nodes: usize, house: usize, guest: usize) -> Result<Sizes, Refusal>
    ensures { result ≡ admitted sizes nodes house guest }
{
    let fitting = fits(sizes, nodes, house, guest)?;
    few(fitting)
}

// Writes the tree of a rule sheet and the sights of each player, or refuses and touches nothing.
// Kept: the memory is lent and may be longer, so how much of it is written stands in the answer.
pub fn build(
    sheet: Sheet,
    nodes: &mut [Node],
    house: &mut [Sight],
    guest: &mut [Sight],
) -> Result<Sizes, Refusal>
    requires { Sound sheet }
    ensures answer { result ≡ admitted (sizes_of sheet) (length nodes.old) (length house.old) (length guest.old) }
    ensures memory { Memory sheet result nodes.old nodes.new house.old house.new guest.old guest.new }
    ensures tree { Measured sheet (sizes_of sheet) }
{
    let sizes = admit(measure(sheet), nodes.len(), house.len(), guest.len())?;
    fill(
        Game { sheet },
        &mut nodes[0..sizes.places as usize],
        house,
        guest,
    );
    Ok(sizes)
}
