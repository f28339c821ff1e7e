// Rule sheets: nine bytes, read or refused; and what holds of the game and the tree of every sheet, each as the contract of a function whose body only carries it.

#![tactic(auto)]

ghost use Rattle.std.specs.Prelude.{◌≡◌, true, false, MatchResult, IfOk};
ghost use Rattle.rules.specs.Read.{read as read_as, inside, player, ranged, number_of, place_of};
ghost use Rattle.rules.specs.Play.{other};
ghost use Rattle.rules.specs.Sound.{Sound};
ghost use Rattle.rules.specs.Statements.{SheetsStand, WeightsSum, EndsSum, SmallRows};
ghost use Rattle.rules.specs.Walk.{WalkNumbers};
ghost use Rattle.rules.specs.Counts.{WordsAre, SightsAre};

// The two players. The house is the table that plays by a plan.
#[derive(Clone, Copy, PartialEq, Eq)]
pub enum Player {
    House,
    Guest,
}

impl Player {
    // The player who sits opposite.
    pub fn other(self) -> Player
        ensures { result ≡ other self }
    {
        match self {
            Player::House => Player::Guest,
            Player::Guest => Player::House,
        }
    }
}

// A byte that names no player.
#[derive(Clone, Copy)]
pub struct NoPlayer;

impl TryFrom<u8> for Player {
    type Error = NoPlayer;

    ghost try_from_gives = { λ b r. MatchResult r (λ w. (inside 0 1 b ≡ true) × (w ≡ player b)) (λ _. inside 0 1 b ≡ false) };

    fn try_from(byte: u8) -> Result<Player, NoPlayer> {
        match byte {
            0 => Ok(Player::House),
            1 => Ok(Player::Guest),
            _ => Err(NoPlayer),
        }
    }
}

// Tokens: the ante, and the bet of each round.
#[derive(Clone, Copy)]
pub struct Bets {
    pub ante: u8,
    pub first: u8,
    pub second: u8,
}

// Kept: that a sheet is within its ranges (`Sound`) is no ghost field, since the theorems speak of every sheet.
// A rule sheet. `public` says whether a card is shown to both before a second round; `reserved` is 0 in every sheet so far.
#[derive(Clone, Copy)]
pub struct Sheet {
    pub ranks: u8,
    pub copies: u8,
    pub public: bool,
    pub bets: Bets,
    pub raises: u8,
    pub begins: Player,
    pub reserved: u8,
}

// What each player has at the end of a hand.
#[derive(Clone, Copy)]
pub struct Ends {
    pub house: u32,
    pub guest: u32,
}

// Why bytes are no rule sheet.
// Kept: `number` and `place` are what docs/RULES.md lists and is printed of a refusal; each crate has its own and no trait of them, since
// nothing is generic over refusals.
#[derive(Clone, Copy)]
pub enum Refusal {
    // there are so many bytes, and not nine
    Length(usize),
    // the first byte that is outside its range
    Range(u8),
    // the deck has too few cards
    Deck,
}

impl Refusal {
    // The number of the refusal in the list of refusals.
    pub fn number(self) -> u8
        ensures { result ≡ number_of self }
    {
        match self {
            Refusal::Length(_) => 1,
            Refusal::Range(_) => 2,
            Refusal::Deck => 2,
        }
    }

    // The place that the list gives for it.
    pub fn place(self) -> usize
        ensures { result ≡ place_of self }
    {
        match self {
            Refusal::Length(n) => n,
            Refusal::Range(i) => i as usize,
            Refusal::Deck => 9,
        }
    }
}

// The value, where it lies within low and high.
fn within(value: u8, low: u8, high: u8) -> Option<u8>
    ensures { result ≡ ranged low high value }
{
    (low..=high).contains(&value).then_some(value)
}

// Reads a rule sheet: each byte within its range, and enough cards.
pub fn read(bytes: &[u8]) -> Result<Sheet, Refusal>
    ensures value { result ≡ read_as bytes.now }
    ensures sound { IfOk result Sound }
{
    let [
        ranks,
        copies,
        public,
        ante,
        first,
        second,
        raises,
        begins,
        reserved,
    ] = bytes
    else {
        return Err(Refusal::Length(bytes.len()));
    };
    let Some(ranks) = within(*ranks, 2, 13) else {
        return Err(Refusal::Range(0));
    };
    let Some(copies) = within(*copies, 1, 4) else {
        return Err(Refusal::Range(1));
    };
    let Some(public) = within(*public, 0, 1) else {
        return Err(Refusal::Range(2));
    };
    let Some(ante) = within(*ante, 1, 10) else {
        return Err(Refusal::Range(3));
    };
    let Some(first) = within(*first, 1, 10) else {
        return Err(Refusal::Range(4));
    };
    let Some(second) = within(*second, 1, 10) else {
        return Err(Refusal::Range(5));
    };
    let Some(raises) = within(*raises, 0, 3) else {
        return Err(Refusal::Range(6));
    };
    let Ok(begins) = Player::try_from(*begins) else {
        return Err(Refusal::Range(7));
    };
    let Some(reserved) = within(*reserved, 0, 0) else {
        return Err(Refusal::Range(8));
    };
    let Some(_) = within(ranks * copies, 2 + public, 52) else {
        return Err(Refusal::Deck);
    };
    let bets = Bets {
        ante,
        first,
        second,
    };
    Ok(Sheet {
        ranks,
        copies,
        public: public == 1,
        bets,
        raises,
        begins,
        reserved,
    })
}

// The tree of every sheet that can be dealt fits its plans at both chairs, and what is reckoned is the worst.
pub fn sheets_stand()
    ensures { SheetsStand }
{}

// The words that the tree of a rule sheet needs at each chair.
pub fn words_are_stands()
    ensures { WordsAre }
{}

// The weights of a deal sum to m.
pub fn weights_sum_stands()
    ensures { WeightsSum }
{}

// At every end the players have together what they sat down with.
pub fn ends_sum_stands()
    ensures { EndsSum }
{}

// Three plans of the small game, and their worsts.
pub fn small_rows_stand()
    ensures { SmallRows }
{}

// Numbered while it is gone through, the game gives the tree.
pub fn walk_numbers_stands()
    ensures { WalkNumbers }
{}

// How many sights each player has.
pub fn sights_are_stands()
    ensures { SightsAre }
{}
