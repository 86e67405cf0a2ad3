//! What the refusal of a condition that can't hold speaks of, and that of an alternative that can't be reached.
use crate::advice::Refusal;
use crate::elements::{Named, node_at};
use crate::subjects::{Telling, is_condition, print_length, print_table, read_of};
use crate::words::say;
use gw_check::{ElementPath, Origin, Site, comp_at, field_at};
use gw_profile::{Profile, Usage, measure};
use gw_resolve::FailureSite;
use std::io::Write;

/// How many values of a table are said.
const SAID: usize = 10;

/// The condition of the item at this line, among what the lines make.
fn asked_at(sites: &[Site], line: u32) -> Option<&Site> {
    for site in sites {
        if site.line == line && is_condition(site) {
            return Some(site);
        }
    }
    None
}

/// What keeps an element of the source from ever being there: a node on the way to it, its field, or a part of that.
fn never_there<'a>(asked: Named<'a>, walked: usize) -> Option<Named<'a>> {
    let Named { profile, at, .. } = asked;
    for end in walked..at.len() {
        let node = &at[..=end];
        if node_at(profile, node).is_some_and(|node| node.card().max == Some(0)) {
            return Some(Named::whole(profile, node, 0));
        }
    }
    let field = field_at(profile, at, asked.field).map(|field| field.usage);
    let comp = comp_at(profile, at, asked.field, asked.comp).map(|comp| comp.usage);
    let sub = asked.sub_shape().map(|sub| sub.usage);
    if field == Some(Usage::X) {
        Some(asked.part(0, 0))
    } else if comp == Some(Usage::X) {
        Some(asked.part(asked.comp, 0))
    } else if sub == Some(Usage::X) {
        Some(asked)
    } else {
        None
    }
}

/// Whether the nodes on the way to what is read, and its field, are always there.
pub(crate) fn is_reached(source: &Profile, from: &ElementPath) -> bool {
    for end in from.walked..from.at.len() {
        if node_at(source, &from.at[..=end]).is_none_or(|node| node.card().min == 0) {
            return false;
        }
    }
    field_at(source, &from.at, from.field).is_some_and(|field| field.usage == Usage::R
        && field.card.min > 0)
}

/// Whether a part of a field is always there in a repetition that is present.
pub(crate) fn is_part_sure(named: Named<'_>) -> bool {
    named.is_comp_of(Usage::R) && named.sub_shape().is_some_and(|sub| sub.usage == Usage::R)
}

/// Whether a line repeats this field of the source, for the same field of the target.
fn is_repeated(sites: &[Site], made: &Site, from: &ElementPath) -> bool {
    for site in sites {
        if let Origin::Repeated(walked) = &site.origin
            && site.target.at.as_slice() == made.target.at.as_slice()
            && site.target.field == made.target.field
            && walked.at.as_slice() == from.at.as_slice()
            && walked.field == from.field
        {
            return true;
        }
    }
    false
}

/// Whether a leaf always gives a text.
pub(crate) fn always_gives(source: &Profile, sites: &[Site], site: &Site) -> bool {
    match &site.origin {
        Origin::Text(_) => true,
        Origin::Read(from) | Origin::LookedUp(_, from) => {
            let named = Named::whole(source, &from.at, from.field).part(from.comp, from.sub);
            is_part_sure(named) && (is_repeated(sites, site, from) || is_reached(source, from))
        }
        Origin::Unsaid | Origin::Repeated(_) | Origin::Dated(_, _) => false,
    }
}

/// Whether two lines are for one place of the target.
pub(crate) fn is_same_place(one: &Site, other: &Site) -> bool {
    one.target.at.as_slice() == other.target.at.as_slice()
        && (one.target.field, one.target.comp, one.target.sub)
            == (other.target.field, other.target.comp, other.target.sub)
}

/// The line above a leaf of a place that always gives a text.
fn sure_line(source: &Profile, sites: &[Site], made: &Site) -> Option<u32> {
    for site in sites {
        if site.line < made.line && is_same_place(site, made) && always_gives(source, sites, site) {
            return Some(site.line);
        }
    }
    None
}

impl<'a, E: Write> Telling<'a, '_, E> {
    /// Reports the first values of the table of an element, and how many more there are.
    fn print_listed(&mut self, asked: Named<'a>) {
        let Some(table) = asked.table().and_then(|name| asked.profile.table(name)) else {
            return;
        };
        let mut said = 0;
        for value in table.values() {
            let size = measure(asked.profile.count(), value);
            if asked.len().is_none_or(|most| size <= u64::from(most)) {
                if said < SAID {
                    say(self.errors, if said == 0 { b": " } else { b" " });
                    say(self.errors, value);
                }
                said = said.saturating_add(1);
            }
        }
        if said > SAID {
            let _ = write!(self.errors, " and {} more", said.saturating_sub(SAID));
        }
    }

    /// Reports what the source has for what a condition asks.
    fn print_asked(&mut self, asked: Named<'a>, walked: usize) {
        if let Some(never) = never_there(asked, walked) {
            never.print_usage(self.errors);
        } else if asked.table().is_some() {
            print_table(self.errors, asked);
            self.print_listed(asked);
            say(self.errors, b", and none of these is chosen");
        } else {
            print_length(self.errors, asked);
            say(self.errors, b", and each value here is longer");
        }
    }

    /// Reports why a condition can't hold, or which line always gives a text.
    pub(crate) fn print_unreached(&mut self, made: Option<&'a Site>, mark: FailureSite) {
        let Refusal {
            sides,
            refused,
            written,
        } = self.refusal;
        let sites = refused.used.sites.as_slice();
        if mark.comp > 0 {
            match made.and_then(|made| sure_line(&sides.source, sites, made)) {
                None => say(self.errors, b"a line above always gives a text"),
                Some(line) => {
                    let number = written.above.saturating_add(line);
                    let _ = write!(self.errors, "line {number} always gives a text");
                }
            }
            return;
        }
        let site = if mark.field == 0 {
            asked_at(sites, mark.line)
        } else {
            made
        };
        if let Some(site) = site
            && let Some(path) = read_of(site)
            && let Some(asked) = self.asked_by_where(site, mark)
        {
            self.print_asked(asked, path.walked);
        }
    }
}
