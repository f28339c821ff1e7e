// Writing places into lent memory, one after the other.

#![tactic(auto)]

ghost use Rattle.std.specs.Prelude.{◌≤◌, length};

use crate::{Node, Place};
use rules::Ends;

// Lent memory, of which so much is written.
#[derive(Drop)]
pub struct Writer<'a> {
    nodes: &'a mut [Node],
    at: usize,
    ghost small: { length nodes.now ≤ 65536 },
    ghost inside: { at ≤ length nodes.now },
}

impl<'a> Writer<'a> {
    ghost use Rattle.std.specs.Prelude.{◌≡◌, ◌+◌, ◌-◌, ◌<◌, slice_set};
    ghost use Rattle.tree.specs.Compact.{end};
    ghost use Rattle.tree.specs.Rep.{node};
    ghost use Rattle.tree.specs.Writes.{Wrote};

    // Nothing is written yet.
    pub fn new(nodes: &'a mut [Node]) -> Writer<'a>
        requires { length nodes.old ≤ 65536 }
        ensures same { result.nodes.ghost_name ≡ nodes.entry.ghost_name }
        ensures nodes { result.nodes.now ≡ nodes.old }
        ensures at { result.at ≡ 0 }
    {
        Writer { nodes, at: 0 }
    }

    // Leaves room for one place, whose trees are written first, and gives its index.
    pub fn skip(&mut self) -> usize
        requires { self.old.at < length self.old.nodes.now }
        ensures same { self.new.nodes.ghost_name ≡ self.old.nodes.ghost_name }
        ensures nodes { self.new.nodes.now ≡ self.old.nodes.now }
        ensures at { self.new.at ≡ self.old.at + 1 }
        ensures value { result ≡ self.old.at }
    {
        let at = self.at;
        self.at += 1;
        at
    }

    // Writes a place before its trees, which have been written.
    pub fn close(&mut self, at: usize, place: Place, share: u32)
        requires { at < self.old.at }
        ensures same { self.new.nodes.ghost_name ≡ self.old.nodes.ghost_name }
        ensures nodes { self.new.nodes.now ≡ slice_set self.old.nodes.now at (node place share (self.old.at - at)) }
        ensures at { self.new.at ≡ self.old.at }
    {
        self.nodes[at] = Node {
            place,
            share,
            size: (self.at - at) as u32,
        };
    }

    // Writes an end, with what each player has.
    pub fn over(&mut self, share: u32, ends: Ends)
        requires { self.old.at < length self.old.nodes.now }
        ensures { Wrote share (end ends) self.old self.new }
    {
        let at = self.skip();
        self.close(at, Place::Over(ends), share);
    }
}
