//! Borrowed occurrences.
ghost use Rattle.std.specs.Prelude.{◌≡◌, ◌<◌, List, length, get_or, Some};
ghost use Rattle.std.specs.List.{AllByRecursion};
ghost use Rattle.gw_er7.specs.Message.{SegmentValue};
ghost use Rattle.gw_profile.specs.Seen.{forest};
ghost use Rattle.gw_validate.specs.Viewing.{count_at, occurrence_at, numbered_or};
ghost use Rattle.gw_validate.specs.own.Lending.{row_tree, shown_number, shown_tree, IsOf};
ghost use Rattle.gw_validate.specs.own.Occurring.{IsOrdered};

use crate::occurrences::Found;
use gw_er7::{Message, Segment};
use gw_profile::Node;
use std::marker::Model;

/// An occurrence of a group, or of the whole profile: the numbers that are listed, its child nodes, and which of them occur.
#[derive(Clone, Copy, Drop)]
struct Row<'a> {
    listed: &'a [usize],
    nodes: &'a [Node],
    found: &'a Found,
}

/// A segment by its number, or a group's occurrence.
#[derive(Clone, Copy, Drop)]
enum Shown<'a> {
    Segment(usize),
    Group(Row<'a>),
}

// The number at this place.
#[inline(always)]
fn number_at(numbers: &[usize], k: usize) -> usize
    requires { k < length numbers.now }
    ensures { result ≡ get_or numbers.now k 0 }
{
    numbers[k]
}

// The occurrence of a group at this place.
#[inline(always)]
fn group_at<'a>(groups: &'a [Found], k: usize) -> &'a Found
    requires { k < length groups.now }
    ensures { result.now ≡ get_or groups.now k result.now }
{
    &groups[k]
}

impl<'a> Row<'a> {
    // How often the child of this number occurs.
    #[inline]
    fn count(&self, child: usize) -> usize
        requires child { child < length self.now.nodes.now }
        requires ordered { IsOrdered (forest self.now.nodes.now) self.now.found.now }
        ensures { result ≡ count_at (row_tree self.now) child }
    {
        match &self.nodes[child] {
            Node::Seg(_) => self.found.segments(self.listed, child).len(),
            Node::Group(_) => self.found.groups(child).len(),
        }
    }

    // The occurrence of this number of the child.
    #[inline]
    fn child(&self, child: usize, k: usize) -> Shown<'a>
        requires child { child < length self.now.nodes.now }
        requires k { k < count_at (row_tree self.now) child }
        requires ordered { IsOrdered (forest self.now.nodes.now) self.now.found.now }
        ensures shows { occurrence_at (row_tree self.now) child k ≡ Some (numbered_or (shown_number result) (shown_tree result)) }
        ensures lawful { (m : List SegmentValue) → AllByRecursion (λ i. i < length m) self.now.listed.now → IsOf m result }
    {
        let nodes: &'a [Node] = self.nodes;
        let found: &'a Found = self.found;
        match &nodes[child] {
            Node::Seg(_) => Shown::Segment(number_at(found.segments(self.listed, child), k)),
            Node::Group(group) => Shown::Group(Row {
                listed: self.listed,
                nodes: &group.nodes,
                found: group_at(found.groups(child), k),
            }),
        }
    }
}

/// One occurrence of a node in a message, borrowed from its tree: a segment, or a group with the occurrences of its children.
#[derive(Drop)]
pub struct Occ<'a> {
    message: &'a Message,
    shown: Shown<'a>,
}

impl<'a> Model for Occ<'a> {
    ghost use Rattle.std.specs.Coded.{codes};
    ghost use Rattle.gw_er7.specs.Message.{segment_code};
    ghost use Rattle.gw_validate.specs.Stored.{tree_code};
    ghost use Rattle.gw_validate.specs.Fitting.{OccValue};
    ghost use Rattle.gw_validate.specs.own.Lending.{shown_number, shown_tree, IsOf};

    ghost Value = { OccValue };

    ghost coded = { Prim.hlevel (codes, segment_code, tree_code) };

    ghost view = { λ o. record { message = o.message.now; number = shown_number o.shown; tree = shown_tree o.shown } };

    ghost invariant = { λ o. IsOf o.message.now o.shown };
}

impl<'a> Occ<'a> {
    ghost use Rattle.std.specs.Prelude.{◌≡◌, ◌<◌, Some, None};
    ghost use Rattle.gw_profile.specs.Seen.{forest};
    ghost use Rattle.gw_validate.specs.Viewing.{width, count_at, occurrence_at, occurrence_of};
    ghost use Rattle.gw_validate.specs.Fitting.{IsLent, segment_of};
    ghost use Rattle.gw_validate.specs.own.Judging.{IsKept};
    ghost use Rattle.gw_validate.specs.own.Occurring.{tree_of};

    /// The occurrence of the whole profile.
    pub(crate) fn of(
        message: &'a Message,
        listed: &'a [usize],
        nodes: &'a [Node],
        found: &'a Found,
    ) -> Occ<'a>
        requires { IsKept (forest nodes.now) message.now listed.now found.now }
        ensures { result ≡ record { message = message.now; number = None; tree = tree_of listed.now (forest nodes.now) found.now } }
    {
        Occ {
            message,
            shown: Shown::Group(Row {
                listed,
                nodes,
                found,
            }),
        }
    }

    /// The same occurrence, borrowed once more, without an allocation.
    #[inline(always)]
    pub fn reborrow(&self) -> Occ<'a>
        ensures { result ≡ self.now }
    {
        Occ {
            message: self.message,
            shown: self.shown,
        }
    }

    /// How many children it has: as many as its node has, none for a segment. It takes no memory.
    #[inline(always)]
    pub fn children(&self) -> usize
        ensures count { result ≡ width self.now.tree }
        ensures lent { IsLent self.now }
    {
        match &self.shown {
            Shown::Segment(_) => 0,
            Shown::Group(row) => row.nodes.len(),
        }
    }

    /// How often the child of this number, from 0, occurs. It takes no memory.
    #[inline]
    pub fn count(&self, child: usize) -> usize
        requires { child < width self.now.tree }
        ensures { result ≡ count_at self.now.tree child }
    {
        match &self.shown {
            Shown::Segment(_) => 0,
            Shown::Group(row) => row.count(child),
        }
    }

    /// The occurrence of this number, from 0, of the child. It takes no memory.
    #[inline]
    pub fn child(&self, child: usize, k: usize) -> Occ<'a>
        requires child { child < width self.now.tree }
        requires k { k < count_at self.now.tree child }
        ensures message { result.message ≡ self.now.message }
        ensures shows { occurrence_at self.now.tree child k ≡ Some (occurrence_of result) }
    {
        match &self.shown {
            Shown::Segment(_) => self.reborrow(),
            Shown::Group(row) => Occ {
                message: self.message,
                shown: row.child(child, k),
            },
        }
    }

    /// The segment, None for a group. It takes no memory.
    #[inline(always)]
    pub fn segment(&self) -> Option<Segment<'a>>
        ensures segment { result ≡ segment_of self.now }
        ensures lent { IsLent self.now }
    {
        match self.shown {
            Shown::Segment(number) => Some(self.message.segment(number)),
            Shown::Group(_) => None,
        }
    }
}
