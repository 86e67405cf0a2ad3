//! What a failure of a map speaks of, in the field's words: the part of the target that fails, what the source has for it, and what prevents them.
use crate::advice::Refusal;
use crate::chosen::condition_at;
use crate::elements::{Named, node_at, print_interval};
use crate::judged::ProfilePair;
use crate::unreached::is_same_place;
use crate::words::say;
use gw_check::{ElementPath, Origin, Site, Taker, untaken};
use gw_maplang::Table as Rows;
use gw_profile::{Count, Profile, Usage, measure};
use gw_resolve::{Failure, FailureSite};
use std::collections::BTreeMap;
use std::io::Write;

/// What takes a text: a table of the target, rows of the map, or a length of the target, where it has one.
#[derive(Clone, Copy, PartialEq, Eq, PartialOrd, Ord)]
pub(crate) enum TakenBy<'a> {
    Table(Option<&'a [u8]>),
    Rows(&'a [u8]),
    Length(Option<u32>),
}

/// A search for a text that isn't taken: the source's table, the length up to which it is read, what takes it, and the table of the map in which it is looked up first.
pub(crate) type Search<'a> = (Option<&'a [u8]>, Option<u32>, TakenBy<'a>, Option<&'a [u8]>);

/// What such searches found.
pub(crate) type Searches<'a> = BTreeMap<Search<'a>, Option<&'a [u8]>>;

/// The refusal of a map, and where it is reported.
#[derive(Drop)]
pub(crate) struct Telling<'a, 'e, E> {
    pub(crate) refusal: Refusal<'a>,
    pub(crate) errors: &'e mut E,
    pub(crate) searches: Searches<'a>,
}

// ---- what a line reads

/// What a line reads, where it reads anything.
pub(crate) fn read_of(site: &Site) -> Option<&ElementPath> {
    match &site.origin {
        Origin::Unsaid | Origin::Text(_) => None,
        Origin::Read(from) | Origin::Repeated(from) => Some(from),
        Origin::LookedUp(_, from) => Some(from),
        Origin::Dated(_, from) => Some(from),
    }
}

/// Whether a line copies a field: then each of its parts is that of the same numbers.
fn is_copy(site: &Site) -> bool {
    matches!(&site.origin, Origin::Read(_)) && site.target.field > 0 && site.target.comp == 0
}

/// What the source has for a part of what a line makes.
fn source_of<'a>(source: &'a Profile, site: &'a Site, mark: FailureSite) -> Option<Named<'a>> {
    let from = read_of(site)?;
    let field = Named::whole(source, &from.at, from.field);
    if is_copy(site) {
        Some(field.part(mark.comp, mark.sub))
    } else {
        Some(field.part(from.comp, from.sub))
    }
}

/// The first node on the way to what is read that may be absent, among those that no item around the line walks.
fn absent_on_the_way<'a>(source: &Profile, from: &'a ElementPath) -> Option<&'a [usize]> {
    for end in from.walked..from.at.len() {
        let at = &from.at[..=end];
        if node_at(source, at).is_some_and(|node| node.card().min == 0) {
            return Some(at);
        }
    }
    None
}

/// Whether this is what the `where` of an item reads: an item reads no other field.
pub(crate) fn is_condition(site: &Site) -> bool {
    site.target.field == 0 && read_of(site).is_some_and(|from| from.field > 0)
}

/// Whether a segment or group that a line makes may be absent by what it reads, or by its `where`.
fn may_give_none(source: &Profile, site: &Site) -> bool {
    is_condition(site)
        || read_of(site).is_some_and(|from| absent_on_the_way(source, from).is_some())
}

/// Of all that makes the segment or group that a line makes, from that line on, the first that may be absent; the line itself where none may.
pub(crate) fn first_absent<'a>(source: &Profile, sites: &'a [Site], made: &'a Site) -> &'a Site {
    for site in sites {
        if site.line >= made.line
            && site.target.field == 0
            && site.target.at.as_slice() == made.target.at.as_slice()
            && may_give_none(source, site)
        {
            return site;
        }
    }
    made
}

// ---- how often, how long, and which values

/// The element, or of a forbidden component the whole.
fn or_forbidden(named: Named<'_>) -> Named<'_> {
    if named.is_comp_of(Usage::X) {
        named.part(named.comp, 0)
    } else {
        named
    }
}

/// What says whether an element is there: its field, or its component where that may be absent.
fn or_field(named: Named<'_>) -> Named<'_> {
    if named.is_comp_of(Usage::R) {
        named.part(0, 0)
    } else {
        named.part(named.comp, 0)
    }
}

/// Reports how long a text of an element may be, by the count of its profile.
pub(crate) fn print_length<E: Write>(errors: &mut E, named: Named<'_>) {
    let unit = match named.profile.count() {
        Count::Octets => "octets",
        Count::Characters => "characters",
    };
    let profile = named.profile.name().escape_ascii();
    let _ = match named.len() {
        None => write!(errors, "{named} has any number of {unit} in {profile}"),
        Some(most) => write!(errors, "{named} has at most {most} {unit} in {profile}"),
    };
}

/// Reports the table of an element.
pub(crate) fn print_table<E: Write>(errors: &mut E, named: Named<'_>) {
    let profile = named.profile.name().escape_ascii();
    let _ = match named.table() {
        None => write!(errors, "{named} has no table in {profile}"),
        Some(name) => {
            let name = name.escape_ascii();
            write!(errors, "{named} has the table {name} in {profile}")
        }
    };
}

// ---- texts that aren't taken

/// Whether a table of the target, or its length, takes a text.
fn takes(taker: Taker<'_>, text: &[u8]) -> bool {
    match taker {
        Taker::Table(table) => table.contains(text),
        Taker::Rows(rows) => rows.second(text).is_some(),
        Taker::Length(count, most) => {
            most.is_none_or(|most| measure(count, text) <= u64::from(most))
        }
    }
}

/// Whether the source may have a text at an element.
pub(crate) fn may_have(from: Named<'_>, text: &[u8]) -> bool {
    let is_short = from.len().is_none_or(|most| measure(from.profile.count(), text)
        <= u64::from(most));
    let is_listed = from
        .table()
        .and_then(|name| from.profile.table(name))
        .is_none_or(|table| table.contains(text));
    is_short && is_listed
}

/// The first text that rows give for what the source may have at an element, and that isn't taken.
fn ungiven<'a>(from: Named<'a>, rows: &'a Rows, taker: Taker<'_>) -> Option<&'a [u8]> {
    for (first, second) in rows.rows() {
        if may_have(from, first) && !takes(taker, second) {
            return Some(second);
        }
    }
    let other = rows.other()?;
    let has_no_row = from.sub_shape().is_none_or(|shape| {
        shape.table.is_none() || untaken(from.profile, shape, Taker::Rows(rows)).is_some()
    });
    if has_no_row && !takes(taker, other) {
        Some(other)
    } else {
        None
    }
}

impl<'a, E: Write> Telling<'a, '_, E> {
    /// What a `where` at the line asks for a value, where the whole of what it makes depends on that.
    pub(crate) fn asked_by_where(&self, site: &'a Site, part: FailureSite) -> Option<Named<'a>> {
        let Refusal { sides, refused, .. } = self.refusal;
        let path = read_of(site)?;
        let field = Named::whole(&sides.source, &path.at, path.field);
        if is_condition(site) {
            Some(field.part(path.comp, path.sub))
        } else if part.field > 0 && part.comp == 0 {
            let place = condition_at(refused.map.items(), site.line)?.place;
            Some(field.part(place.comp, place.sub))
        } else {
            None
        }
    }

    /// Whether another leaf stands for this one where it gives no text.
    fn has_others(&self, site: &Site) -> bool {
        let Refusal { refused, .. } = self.refusal;
        let sites = refused.used.sites.as_slice();
        sites.iter().any(|other| other.line > site.line
            && site.target.comp > 0
            && is_same_place(site, other))
    }

    /// Reports why what is read may be absent: by `where`, by `date`, by a node on the way to it, or by itself.
    fn print_absent(&mut self, site: &'a Site, mark: FailureSite, from: Named<'a>) {
        if let Some(asked) = self.asked_by_where(site, mark) {
            let source = from.profile.name().escape_ascii();
            let _ = write!(
                self.errors,
                "only some values of {asked} in {source} give it"
            );
        } else if let Origin::Dated(digits, _) = &site.origin {
            let least = digits.least;
            let _ = write!(self.errors, "only a text with {least} digits gives it");
        } else if let Some(path) = read_of(site)
            && let Some(at) = absent_on_the_way(from.profile, path)
        {
            Named::whole(from.profile, at, 0).print_usage(self.errors);
        } else {
            or_field(from).print_usage(self.errors);
        }
    }

    /// Reports how often the target asks for a part of what a line makes, and what gives it.
    fn print_often(
        &mut self,
        site: &'a Site,
        failure: Failure,
        to: Named<'a>,
        from: Option<Named<'a>>,
    ) {
        let Failure { rule, mark } = failure;
        or_forbidden(to).print_usage(self.errors);
        if let (4, Some(count)) = (rule, mark.count) {
            say(self.errors, b", and the map gives it ");
            print_interval(self.errors, count);
        } else if rule == 5 && (mark.comp > 0 && !is_copy(site) || self.has_others(site)) {
            say(self.errors, b", and no leaf is always there for it");
        } else if let Some(from) = from {
            say(self.errors, b", and ");
            if is_copy(site) && mark.comp > 0 {
                or_forbidden(from).print_usage(self.errors);
            } else if rule == 5 {
                self.print_absent(site, mark, from);
            } else {
                or_field(from).print_usage(self.errors);
            }
        }
    }

    /// The first text that the source lists for an element and that isn't taken; where it is looked up in a table of the map, the first that this gives.
    /// It is looked for once for all failures of the same tables.
    fn untaken(
        &mut self,
        from: Named<'a>,
        by: TakenBy<'a>,
        rows: Option<&'a [u8]>,
    ) -> Option<&'a [u8]> {
        let search = (from.table(), from.len(), by, rows);
        if let Some(found) = self.searches.get(&search) {
            return *found;
        }
        let Refusal { sides, refused, .. } = self.refusal;
        let taker = match by {
            TakenBy::Table(name) => Taker::Table(sides.target.table(name?)?),
            TakenBy::Rows(name) => Taker::Rows(refused.map.table(name)?),
            TakenBy::Length(most) => Taker::Length(sides.target.count(), most),
        };
        let found = match rows {
            None => untaken(&sides.source, from.sub_shape()?, taker),
            Some(name) => ungiven(from, refused.map.table(name)?, taker),
        };
        // (what can't be kept is looked for anew)
        let _ = self.searches.insert(search, found);
        found
    }

    /// Reports a text that isn't taken, where one is found.
    fn print_untaken(&mut self, from: Named<'a>, by: TakenBy<'a>, rows: Option<&'a [u8]>) {
        if let Some(text) = self.untaken(from, by, rows) {
            say(self.errors, b": ");
            say(self.errors, text);
            let why: &[u8] = match by {
                TakenBy::Table(_) => b" is unknown to the target",
                TakenBy::Rows(_) => b" has no row",
                TakenBy::Length(_) => b" is longer",
            };
            say(self.errors, why);
        }
    }

    /// Reports the length that the target takes, or its table, and that of the source, and a text that the target doesn't take.
    fn print_values(&mut self, site: &'a Site, rule: u8, to: Named<'a>, from: Named<'a>) {
        let by = if rule == 7 {
            print_length(self.errors, to);
            say(self.errors, b", and ");
            print_length(self.errors, from);
            TakenBy::Length(to.len())
        } else {
            print_table(self.errors, to);
            say(self.errors, b", and ");
            print_table(self.errors, from);
            TakenBy::Table(to.table())
        };
        match &site.origin {
            Origin::Dated(digits, _) => {
                say(self.errors, b", of which the map takes the first ");
                if digits.least < digits.most {
                    let _ = write!(self.errors, "{} to ", digits.least);
                }
                let _ = write!(self.errors, "{} digits", digits.most);
            }
            Origin::LookedUp(name, _) => {
                let _ = write!(self.errors, ", looked up in {}", name.escape_ascii());
                self.print_untaken(from, by, Some(name));
            }
            _ => self.print_untaken(from, by, None),
        }
    }

    /// Reports a constant, and what the target takes.
    fn print_constant(&mut self, text: &[u8], to: Named<'a>) {
        let size = measure(to.profile.count(), text);
        match to.len() {
            Some(most) if size > u64::from(most) => {
                print_length(self.errors, to);
                let _ = write!(self.errors, ", and this has {size}");
            }
            _ => print_table(self.errors, to),
        }
    }

    /// Reports what a failure speaks of, at a line that makes this.
    pub(crate) fn print_given(&mut self, site: &'a Site, failure: Failure) {
        let Failure { rule, mark } = failure;
        let ProfilePair { source, target } = self.refusal.sides;
        let to = Named::whole(target, &site.target.at, mark.field).part(mark.comp, mark.sub);
        match (rule, source_of(source, site, mark), &site.origin) {
            (6 | 7, Some(from), _) => self.print_values(site, rule, to, from),
            (10, Some(from), Origin::LookedUp(name, _)) => {
                print_table(self.errors, from);
                self.print_untaken(from, TakenBy::Rows(name), None);
            }
            (12, _, Origin::Text(text)) => self.print_constant(text, to),
            (6 | 7 | 10 | 12, _, _) => {}
            (_, from, _) => self.print_often(site, failure, to, from),
        }
    }
}
