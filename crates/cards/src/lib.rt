// Games of two with chance and hidden cards, for any tree: the statements about them, each as the contract of a function
// whose body only carries it. The statements are in specs/, their proofs in proofs/.

#![tactic(auto)]

ghost use Rattle.cards.specs.Promise.{HouseHolds, FloorHolds, WordsFall, OneWorst, Bracket, TurnBack, OneWordMore, LegalWayExists};
ghost use Rattle.cards.specs.Rotating.{RotatingIsAFloor, RotatingFallsShort};
ghost use Rattle.cards.specs.Apart.{SightsLieApart};
ghost use Rattle.cards.specs.Table.{WaysArePlayed, PlayedIsAWay, RefusalsHaveGround, WordsSuffice, UnusedIsUnseen, UsedWordsAreWords, ReckonedIsTheWorst, ReckonedIsAFloor, WorstIsLeast, LeastIsWorst, HandHolds, MatchHolds, MatchIsMet, TableHolds, EachHandHolds, EndedHandsHold, WaysAreBlind, MindsAreBlind, BlindIsAWay, WorstIsMet};

// Whoever sits opposite, the house has on average at least the floor in each hand.
pub fn house_holds_stands()
    ensures { HouseHolds }
{}

// No way of the guest brings the house below a floor.
pub fn floor_holds_stands()
    ensures { FloorHolds }
{}

// Over all rows of words, the hands played come to the sum by weights.
pub fn words_fall_stands()
    ensures { WordsFall }
{}

// A plan has at most one worst.
pub fn one_worst_stands()
    ensures { OneWorst }
{}

// A floor at the other chair bars every plan of the house from more than the rest.
pub fn bracket_stands()
    ensures { Bracket }
{}

// Turning a game twice gives the game again.
pub fn turn_back_stands()
    ensures { TurnBack }
{}

// A word more than is needed multiplies every sum by m.
pub fn one_word_more_stands()
    ensures { OneWordMore }
{}

// Where each sight has a choice, there is a legal way.
pub fn legal_way_exists_stands()
    ensures { LegalWayExists }
{}

// Every floor by rotation is a floor.
pub fn rotating_is_a_floor_stands()
    ensures { RotatingIsAFloor }
{}

// A small game with recall has no worst by rotation, and has one by the floor of this crate.
pub fn rotating_falls_short_stands()
    ensures { RotatingFallsShort }
{}

// The trees of two sights have no later sight in common.
pub fn sights_lie_apart_stands()
    ensures { SightsLieApart }
{}

// A hand played with the choices of a way comes to the end of that way.
pub fn ways_are_played_stands()
    ensures { WaysArePlayed }
{}

// Each hand played to an end is a hand of some legal way.
pub fn played_is_a_way_stands()
    ensures { PlayedIsAWay }
{}

// A refusal of a hand tells its ground.
pub fn refusals_have_ground_stands()
    ensures { RefusalsHaveGround }
{}

// With n words below m only a choice can be at fault.
pub fn words_suffice_stands()
    ensures { WordsSuffice }
{}

// What is not needed is not looked at.
pub fn unused_is_unseen_stands()
    ensures { UnusedIsUnseen }
{}

// Each word that a hand needs is below m.
pub fn used_words_are_words_stands()
    ensures { UsedWordsAreWords }
{}

// What is reckoned is the worst where the guest recalls its moves.
pub fn reckoned_is_the_worst_stands()
    ensures { ReckonedIsTheWorst }
{}

// What is reckoned is a floor in every game.
pub fn reckoned_is_a_floor_stands()
    ensures { ReckonedIsAFloor }
{}

// The worst is the least sum over all ways.
pub fn worst_is_least_stands()
    ensures { WorstIsLeast }
{}

// The least sum over all ways is the worst, where the guest recalls its moves.
pub fn least_is_worst_stands()
    ensures { LeastIsWorst }
{}

// A floor holds in each hand against a guest that chooses move by move.
pub fn hand_holds_stands()
    ensures { HandHolds }
{}

// Over all words of k hands, every guest leaves the house on average at least what is reckoned in each.
pub fn match_holds_stands()
    ensures { MatchHolds }
{}

// Some guest leaves the house just that.
pub fn match_is_met_stands()
    ensures { MatchIsMet }
{}

// The same of any choices handed in that do not depend on what the guest cannot see.
pub fn table_holds_stands()
    ensures { TableHolds }
{}

// The same after any number of hands, of the next hand by itself.
pub fn each_hand_holds_stands()
    ensures { EachHandHolds }
{}

// Where each hand comes to an end, nothing counts but what the house has in it.
pub fn ended_hands_hold_stands()
    ensures { EndedHandsHold }
{}

// A guest that goes by a way in each hand does not depend on what it cannot see.
pub fn ways_are_blind_stands()
    ensures { WaysAreBlind }
{}

// Nor does one that chooses move by move, where its sights tell of its moves.
pub fn minds_are_blind_stands()
    ensures { MindsAreBlind }
{}

// A guest that does not depend on what it cannot see goes by one way in each hand.
pub fn blind_is_a_way_stands()
    ensures { BlindIsAWay }
{}

// Some guest leaves the house no more than the worst on average.
pub fn worst_is_met_stands()
    ensures { WorstIsMet }
{}
