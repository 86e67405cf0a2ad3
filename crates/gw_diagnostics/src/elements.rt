//! Elements of a profile in the field's words: their names, and how often they come.
use crate::words::say;
use gw_check::{comp_at, field_at, sub_at};
use gw_profile::{CompShape, Node, Profile, SubShape, Usage};
use gw_resolve::{CAP, Interval, nodes_within};
use std::fmt;
use std::fmt::{Display, Formatter};
use std::io::Write;

/// An element of a profile by its numbers: a node, or a node within that, or in it a field, a component, a subcomponent; 0 where the whole is meant.
#[derive(Clone, Copy)]
pub(crate) struct Named<'a> {
    pub(crate) profile: &'a Profile,
    pub(crate) at: &'a [usize],
    pub(crate) child: Option<usize>,
    pub(crate) field: u32,
    pub(crate) comp: u32,
    pub(crate) sub: u32,
}

/// The label of a node, its usage, and the nodes within it.
pub(crate) fn parts_of(node: &Node) -> (&[u8], Usage, &[Node]) {
    match node {
        Node::Seg(segment) => (&segment.label, segment.usage, &[]),
        Node::Group(group) => (&group.label, group.usage, &group.nodes),
    }
}

/// The node to which the numbers lead.
pub(crate) fn node_at<'a>(profile: &'a Profile, at: &[usize]) -> Option<&'a Node> {
    let (last, above) = at.split_last()?;
    above
        .iter()
        .fold(
            profile.nodes(),
            |level, number| nodes_within(level, *number),
        )
        .get(*last)
}

/// As a map names it: the first component and subcomponent aren't named.
impl Display for Named<'_> {
    fn fmt<W: fmt::Write>(&self, f: &mut Formatter<W>) -> fmt::Result {
        let Named {
            field,
            comp,
            sub,
            ..
        } = *self;
        let mut level = self.profile.nodes();
        for (depth, number) in self.at.iter().chain(self.child.iter()).enumerate() {
            let Some(node) = level.get(*number) else {
                break;
            };
            let (label, _, below) = parts_of(node);
            if depth > 0 {
                write!(f, "/")?;
            }
            write!(f, "{}", label.escape_ascii())?;
            level = below;
        }
        if field > 0 {
            write!(f, "-{field}")?;
        }
        if comp > 1 || sub > 1 {
            write!(f, ".{comp}")?;
        }
        if sub > 1 {
            write!(f, ".{sub}")?;
        }
        Ok(())
    }
}

impl<'a> Named<'a> {
    /// A node, or the field of this number of it.
    pub(crate) fn whole(profile: &'a Profile, at: &'a [usize], field: u32) -> Self {
        Named {
            profile,
            at,
            child: None,
            field,
            comp: 0,
            sub: 0,
        }
    }

    /// A part of the same field.
    pub(crate) fn part(self, comp: u32, sub: u32) -> Self {
        Named { comp, sub, ..self }
    }

    fn comp_shape(&self) -> Option<&'a CompShape> {
        comp_at(self.profile, self.at, self.field, self.comp)
    }

    pub(crate) fn sub_shape(&self) -> Option<&'a SubShape> {
        sub_at(self.profile, self.at, self.field, self.comp, self.sub)
    }

    /// The length that its profile lists, by the profile's count.
    pub(crate) fn len(&self) -> Option<u32> {
        self.sub_shape()?.len
    }

    /// The name of the table that its profile lists.
    pub(crate) fn table(&self) -> Option<&'a [u8]> {
        self.sub_shape()?.table.as_deref()
    }

    /// Whether a component is listed with this usage.
    pub(crate) fn is_comp_of(&self, usage: Usage) -> bool {
        self.comp_shape().is_some_and(|comp| comp.usage == usage)
    }

    /// Its usage and cardinality, where its profile lists it.
    fn listed(&self) -> Option<(Usage, Option<Interval>)> {
        if self.field == 0 {
            let node = node_at(self.profile, self.at)?;
            let (_, usage, _) = parts_of(node);
            Some((usage, Some(Interval::of(node.card()))))
        } else if self.comp == 0 {
            let field = field_at(self.profile, self.at, self.field)?;
            Some((field.usage, Some(Interval::of(field.card))))
        } else if self.sub == 0 {
            Some((self.comp_shape()?.usage, None))
        } else {
            Some((self.sub_shape()?.usage, None))
        }
    }

    /// Reports how it may come, by all of its numbers.
    pub(crate) fn print_usage<E: Write>(&self, errors: &mut E) {
        let _ = write!(errors, "{}", self.part(0, 0));
        for number in [self.comp, self.sub] {
            if number > 0 {
                let _ = write!(errors, ".{number}");
            }
        }
        match self.listed() {
            None => {
                say(errors, b" isn't listed");
            }
            Some((usage, count)) => {
                let _ = write!(errors, " is {usage:?}");
                if let Some(count) = count {
                    say(errors, b" ");
                    print_interval(errors, count);
                }
            }
        }
        let _ = write!(errors, " in {}", self.profile.name().escape_ascii());
    }
}

/// Reports how often something comes. At the cap no more is known.
pub(crate) fn print_interval<E: Write>(errors: &mut E, count: Interval) {
    let least = count.least;
    let _ = match count.greatest {
        _ if least >= CAP => write!(errors, "more than 4,294,967,295"),
        None => write!(errors, "{least}..*"),
        Some(most) if most < CAP => write!(errors, "{least}..{most}"),
        Some(_) => write!(errors, "{least} to more than 4,294,967,295"),
    };
}
