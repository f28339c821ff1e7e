// The trees of a place, one after the other.
ghost use Rattle.std.specs.Prelude.{◌≡◌, ◌+◌, ◌-◌, ◌<◌, ◌≤◌, MatchOption};
ghost use Rattle.std.specs.Iterator.{at_most};
ghost use Rattle.tree.specs.Rep.{node_at};
ghost use Rattle.tree.specs.Siblings.{SomeRoot, KidsLie, step};

use crate::Node;

// Gives where each tree of a place begins, in their order. Each ends where the next begins.
#[derive(Clone, Copy)]
pub struct Kids<'a> {
    nodes: &'a [Node],
    at: usize,
    end: usize,
}

impl<'a> Kids<'a> {
    // Over the trees of the place at `at`.
    // Kept: that a tree lies there is a clause, here and where it is called, since each caller knows it from a struct of its own.
    pub fn of(nodes: &'a [Node], at: usize) -> Kids<'a>
        requires { ∥ SomeRoot nodes.now at ∥₁ }
        ensures nodes { result.nodes.now ≡ nodes.now }
        ensures first { result.at ≡ at + 1 }
        ensures end { result.end ≡ at + (node_at nodes.now at).size }
    {
        Kids {
            nodes,
            at: at + 1,
            end: at + nodes[at].size as usize,
        }
    }
}

impl Iterator for Kids<'_> {
    type Item = usize;

    ghost can_next = { λ s. ∥ KidsLie s.nodes.now s.at s.end ∥₁ };

    ghost next_gives = { λ s r t. step s.nodes.now s.at s.end r t.nodes.now t.at t.end };

    ghost remaining = { λ s. at_most (s.end - s.at) };

    fn next(&mut self) -> Option<usize> {
        if self.end <= self.at {
            return None;
        }
        let at = self.at;
        self.at += self.nodes[at].size as usize;
        Some(at)
    }
}
