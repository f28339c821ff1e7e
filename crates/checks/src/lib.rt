// Tests of library calls with chosen memory: a tree or its sights that do not fit, a work row that is too short, a tree that is too
// large; that a refusal touches nothing; and a search over a row of places that is no tree of a rule sheet.

#![tactic(auto)]

#[cfg(test)]
mod tests {
    use rules::{Ends, Player};
    use search::{Game, Progress};
    use std::alloc::{AllocError, Global};
    use std::test::Fail;
    use tree::{History, Line, Node, Place, Sight, Sizes};

    const SMALL: [u8; 9] = [3, 1, 0, 1, 1, 1, 0, 0, 0];

    const SIX: [u8; 9] = [3, 2, 1, 1, 2, 4, 1, 0, 0];

    const LARGEST: [u8; 9] = [13, 4, 1, 1, 1, 1, 3, 0, 0];

    fn sizes_of(bytes: &[u8]) -> Result<Sizes, Fail> {
        let sheet = rules::read(bytes).map_err(|_| Fail::new("no rule sheet"))?;
        Ok(tree::measure(sheet))
    }

    // The number and the place of a refusal, or 0 and 0.
    // Kept: a pair and no Option, since what these tests compare with is to stay.
    fn refusal(answer: Result<Sizes, worst::Refusal>) -> (u8, usize) {
        match answer {
            Ok(_) => (0, 0),
            Err(e) => (e.number(), e.place()),
        }
    }

    #[test]
    fn sizes(rt: HostRuntime) -> Result<(), Fail> {
        let z = sizes_of(&SMALL)?;
        assert_eq!(rt; (z.places, z.table), (58, 4));
        assert_eq!(rt; (z.house.sights, z.house.words), (6, 4));
        assert_eq!(rt; (z.guest.sights, z.guest.words), (6, 3));
        let z = sizes_of(&SIX)?;
        assert_eq!(rt; (z.places, z.table), (1939, 26));
        assert_eq!(rt; (z.house.sights, z.guest.sights), (144, 144));
        assert_eq!(rt; sizes_of(&LARGEST)?.places, 538448);
        Ok(())
    }

    #[test]
    fn memory(rt: HostRuntime) -> Result<(), Fail> {
        let z = sizes_of(&SMALL)?;
        assert_eq!(rt; refusal(worst::admit(z, 58, 6, 6, 58)), (0, 0));
        assert_eq!(rt; refusal(worst::admit(z, 57, 0, 0, 0)), (13, 0));
        assert_eq!(rt; refusal(worst::admit(z, 58, 5, 6, 0)), (13, 1));
        assert_eq!(rt; refusal(worst::admit(z, 58, 6, 5, 0)), (13, 1));
        assert_eq!(rt; refusal(worst::admit(z, 58, 6, 6, 57)), (13, 2));
        let z = sizes_of(&LARGEST)?;
        assert_eq!(rt; refusal(worst::admit(z, 538447, 9999, 9999, 0)), (13, 0));
        assert_eq!(rt;
            refusal(worst::admit(z, 538448, 9999, 9999, 538448)),
            (3, 0)
        );
        Ok(())
    }

    fn blank() -> (Node, Sight) {
        let line = Line { checks: 7, bets: 7 };
        let place = Place::Over(Ends { house: 7, guest: 7 });
        (
            Node {
                place,
                share: 7,
                size: 7,
            },
            Sight {
                own: 7,
                history: History {
                    first: line,
                    public: None,
                    second: line,
                },
            },
        )
    }

    // The size in the first node after an attempt with so much memory for the small game's tree, and whether it was written.
    // Kept: a pair, for the same reason.
    fn first_size(room: usize) -> (u32, bool) {
        let Ok(sheet) = rules::read(&SMALL) else {
            return (0, false);
        };
        let (node, sight) = blank();
        let mut nodes = [node; 64];
        let mut house = [sight; 8];
        let mut guest = [sight; 8];
        if room > 64 {
            return (0, false);
        }
        let built = tree::build(sheet, &mut nodes[0..room], &mut house, &mut guest).is_ok();
        (nodes[0].size, built)
    }

    #[test]
    fn untouched(rt: HostRuntime) {
        assert_eq!(rt; first_size(57), (7, false));
        assert_eq!(rt; first_size(58), (58, true));
    }

    // Takes no note of what it is told.
    #[derive(Clone, Copy)]
    struct Silent;

    impl Progress for Silent {
        fn stage(&self, _settled: usize, _sights: usize) {}
    }

    // How many rows a search proposes for one sight over a row of so many deals, each of which holds all that follow.
    fn rows_over_chain(heap: Global, places: u32) -> Result<usize, AllocError> {
        let mut nodes = Vec::new(heap);
        for i in 0..places {
            nodes.push(Node {
                place: Place::Deal(1),
                share: 1,
                size: places - i,
            })?;
        }
        let game = Game {
            nodes: nodes.as_slice(),
            own: &[Sight::default()],
            others: &[],
            raises: 0,
            chair: Player::House,
        };
        Ok(search::propose(heap, &Silent, game, 2, 5)?.len())
    }

    #[test]
    fn search_ends(rt: HostRuntime) -> Result<(), Fail> {
        let rows = rows_over_chain(rt.alloc(), 1_000_000).map_err(|_| Fail::new("no memory"))?;
        assert_eq!(rt; rows, 1);
        Ok(())
    }
}
