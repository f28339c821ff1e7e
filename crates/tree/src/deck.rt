// The deck of a rule sheet while the hidden cards are dealt.

#![tactic(auto)]

ghost use Rattle.std.specs.Prelude.{◌≤◌};

// The copies left of each rank. The ranks in play come first, the others are not looked at.
// Kept: an array with how many of it count and no Vec, since this crate uses no heap.
#[derive(Clone, Copy)]
pub struct Deck {
    copies: [u8; 13],
    ranks: u8,
    ghost in_range: { ranks ≤ 13 },
}

impl Deck {
    ghost use Rattle.std.specs.Prelude.{◌≡◌, ℕ, ◌+◌, ◌*◌, ◌<◌, length, slice_index, replicate};
    ghost use Rattle.rules.specs.Play.{left as left_of, without};
    ghost use Rattle.tree.specs.Compact.{Play, size, deals_as};
    ghost use Rattle.tree.specs.Cards.{cards_of};

    // So many copies of each rank.
    pub fn full(ranks: u8, copies: u8) -> Deck
        requires { ranks ≤ 13 }
        ensures { cards_of result ≡ replicate ranks copies }
    {
        Deck {
            copies: [copies; 13],
            ranks,
        }
    }

    // The copies left of the ranks in play.
    pub fn cards(&self) -> &[u8]
        ensures value { result.now ≡ cards_of self.now }
        ensures few { length result.now ≤ 13 }
    {
        &self.copies[..self.ranks as usize]
    }

    // How many ranks are left.
    pub fn ranks_left(&self) -> u32
        ensures value { result ≡ length (left_of (cards_of self.now)) }
        ensures most { result ≤ 13 }
    {
        self.cards().iter().filter(|copies| **copies > 0).count() as u32
    }

    // Without a card of this rank.
    pub fn without(self, rank: u8) -> Deck
        requires { 0 < slice_index (cards_of self) rank }
        ensures { cards_of result ≡ without rank (cards_of self) }
    {
        let mut left = self;
        left.copies[rank as usize] -= 1;
        left
    }

    // The places of a deal, where a card that is dealt leads to so many.
    pub fn places<F: Fn(u8) -> u32>(&self, of: F) -> u32
        requires callable { (r : ℕ) → 0 < slice_index (cards_of self.now) r → F.pre of r }
        requires small { (r n : ℕ) → 0 < slice_index (cards_of self.now) r → F.post of r n → n ≤ 80000 }
        ensures value { (then : ℕ → Play) →
            ((r n : ℕ) → 0 < slice_index (cards_of self.now) r → F.post of r n → n ≡ size (then r)) →
            result ≡ size (deals_as (cards_of self.now) then) }
        ensures most { (most : ℕ) →
            ((r n : ℕ) → 0 < slice_index (cards_of self.now) r → F.post of r n → n ≤ most) →
            result ≤ 1 + 13 * most }
    {
        let mut sum: u32 = 1;
        for (rank, left) in self.cards().iter().enumerate() {
            if *left > 0 {
                sum += of(rank as u8);
            }
        }
        sum
    }
}
