//! What `check --hints` says of the conditions and the leaves of a map that the rules allow.
use crate::advice::Written;
use crate::chosen::{chosen_by, conditions_of, write_value};
use crate::elements::Named;
use crate::subjects::{may_have, read_of};
use crate::unreached::{always_gives, is_part_sure, is_reached, is_same_place};
use crate::words::say;
use gw_check::{CheckedMap, Origin, Site, field_at};
use gw_maplang::Condition;
use gw_profile::{Profile, Table};
use std::alloc::{AllocError, Global};
use std::io::Write;

/// How many values of a condition are named.
const NAMED: usize = 8;

/// The table that its profile lists for an element.
fn table_of<'a>(named: Named<'a>) -> Option<&'a Table> {
    named.profile.table(named.table()?)
}

/// Whether a condition names each value that can stand at an element.
fn names_all(named: Named<'_>, condition: &Condition) -> bool {
    let Some(table) = table_of(named) else {
        return false;
    };
    for value in table.values() {
        if may_have(named, value) && !condition.values.contains(value) {
            return false;
        }
    }
    true
}

// ---- conditions

/// A condition of a map, with the line that has it and what it reads.
#[derive(Clone, Copy)]
struct Asked<'a, 'c> {
    site: &'a Site,
    named: Named<'a>,
    condition: &'c Condition,
}

impl Asked<'_, '_> {
    /// Whether it is on a segment or group: then it asks the first repetition of the field.
    fn is_of_item(&self) -> bool {
        self.site.target.field == 0
    }

    /// Whether what it reads is always there.
    fn is_sure(&self) -> bool {
        let is_there = match read_of(self.site) {
            Some(path) if self.is_of_item() => is_reached(self.named.profile, path),
            _ => true,
        };
        is_there && is_part_sure(self.named)
    }

    /// Whether the field that it reads may come more than once.
    fn may_repeat(&self) -> bool {
        let Named {
            profile,
            at,
            field,
            ..
        } = self.named;
        field_at(profile, at, field).is_some_and(|field| field.card.max != Some(1))
    }

    /// Reports the file and the line.
    fn print_line<E: Write>(&self, path: &str, errors: &mut E) {
        let line = self.site.line;
        let _ = write!(errors, "{path}:{line}: hint: ");
    }

    /// Reports the values that can't come. False where each can.
    fn print_strange<E: Write>(&self, path: &str, errors: &mut E) -> bool {
        let Named { profile, .. } = self.named;
        let name = profile.name().escape_ascii();
        let named = self.named;
        let mut any = false;
        for value in self.condition.values.values() {
            if !may_have(named, value) {
                any = true;
                self.print_line(path, errors);
                let _ = write_value(errors, value);
                let _ = writeln!(errors, " is no value of {named} in {name}");
            }
        }
        any
    }

    /// Reports its values, or how many they are.
    fn print_values<E: Write>(&self, errors: &mut E) {
        let values = self.condition.values.values();
        if values.len() > NAMED {
            say(errors, b"one of these");
            return;
        }
        let mut left = values.len();
        for value in values {
            let before: &[u8] = if left == values.len() {
                b""
            } else if left == 1 {
                b" or "
            } else {
                b" "
            };
            say(errors, before);
            let _ = write_value(errors, value);
            left = left.saturating_sub(1);
        }
    }

    /// Reports that it names each value that can come.
    fn print_all<E: Write>(&self, path: &str, errors: &mut E) {
        let Named { profile, .. } = self.named;
        let named = self.named;
        self.print_line(path, errors);
        let _ = write!(
            errors,
            "each {named} in {} is ",
            profile.name().escape_ascii()
        );
        self.print_values(errors);
        let why: &[u8] = if self.is_sure() {
            b": this always holds\n"
        } else {
            b": this asks only whether it is there\n"
        };
        say(errors, why);
    }

    /// Reports what may not be meant by its values, or by the repetition that it asks.
    fn print_doubts<E: Write>(&self, path: &str, errors: &mut E) {
        if !self.print_strange(path, errors) && names_all(self.named, self.condition) {
            self.print_all(path, errors);
        }
        if self.is_of_item() && self.may_repeat() {
            let field = self.named.part(0, 0);
            self.print_line(path, errors);
            let _ = writeln!(
                errors,
                "{field} may repeat, and this asks its first repetition"
            );
        }
    }
}

/// Reports what may not be meant by the conditions of a map.
pub(crate) fn print_conditions<E: Write>(
    alloc: Global,
    written: &Written<'_>,
    map: &CheckedMap,
    sites: &[Site],
    errors: &mut E,
) -> Result<(), AllocError> {
    let conditions = conditions_of(alloc, map.map().items())?;
    for site in sites {
        if let Some(condition) = conditions.get(&site.line) {
            let condition: &Condition = condition;
            if let Some(named) = chosen_by(map.source(), site, condition) {
                let asked = Asked {
                    site,
                    named,
                    condition,
                };
                asked.print_doubts(written.path, errors);
            }
        }
    }
    Ok(())
}

// ---- leaves

/// Whether a text begins with this many digits.
fn has_digits(text: &[u8], digits: u32) -> bool {
    match text.get(..digits as usize) {
        None => false,
        Some(first) => first.iter().all(|byte| byte.is_ascii_digit()),
    }
}

/// Whether each text that the source lists there begins with this many digits.
fn are_dates(named: Named<'_>, digits: u32) -> bool {
    let Some(table) = table_of(named) else {
        return false;
    };
    table.values().iter().all(|text| has_digits(text, digits))
}

/// Reports that the last leaf of a place may give no date, and the line that takes a date with fewer digits too.
fn print_date<E: Write>(path: &str, source: &Profile, last: Option<&Site>, errors: &mut E) {
    let Some(site) = last else {
        return;
    };
    let Origin::Dated(digits, from) = &site.origin else {
        return;
    };
    let named = Named::whole(source, &from.at, from.field).part(from.comp, from.sub);
    if are_dates(named, digits.least) {
        return;
    }
    let line = site.line;
    let least = digits.least;
    let _ = write!(
        errors,
        "{path}:{line}: hint: gives nothing where {named} has fewer than {least} digits"
    );
    if least == digits.most && least > 4 {
        let _ = write!(errors, ": date {}..{least}", least - 2);
    }
    say(errors, b"\n");
}

/// Reports what may not be meant by the leaves of a map: dates that nothing stands for, and constants that are never used.
pub(crate) fn print_leaves<E: Write>(
    written: &Written<'_>,
    source: &Profile,
    sites: &[Site],
    errors: &mut E,
) {
    let path = written.path;
    let mut last: Option<&Site> = None;
    let mut sure: Option<u32> = None;
    for site in sites {
        if !last.is_some_and(|last| last.target.comp > 0 && is_same_place(last, site)) {
            print_date(path, source, last, errors);
            sure = None;
        }
        if let Some(above) = sure
            && matches!(&site.origin, Origin::Text(_))
        {
            let line = site.line;
            let _ = writeln!(
                errors,
                "{path}:{line}: hint: never used: line {above} always gives a text"
            );
        }
        if sure.is_none() && site.target.comp > 0 && always_gives(source, sites, site) {
            sure = Some(site.line);
        }
        last = Some(site);
    }
    print_date(path, source, last, errors);
}
