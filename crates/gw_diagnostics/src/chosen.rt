//! The `where` of a map's rules and items, by line.
use crate::elements::Named;
use crate::subjects::read_of;
use gw_check::Site;
use gw_lines::Word;
use gw_maplang::{Condition, Item, Rule, Walk, is_kept};
use gw_profile::Profile;
use std::alloc::{AllocError, Global};
use std::collections::BTreeMap;
use std::io;
use std::io::Write;

/// The condition of the rule at this line, among these.
fn condition_in(rules: &[Rule], line: u32) -> Option<&Condition> {
    for rule in rules {
        if rule.line() == line {
            return rule.condition();
        }
    }
    None
}

#[cycle(condition)]
fn condition_within(item: &Item, line: u32) -> Option<&Condition> {
    match item {
        Item::SegFrom(made) => condition_in(&made.rules, line),
        Item::SegAlways(made) => condition_in(&made.rules, line),
        Item::EachAs(made) => condition_at(&made.items, line),
        Item::EachFlat(made) => condition_at(&made.items, line),
    }
}

/// The condition of the rule at this line, if it has one.
#[cycle(condition)]
pub(crate) fn condition_at(items: &[Item], line: u32) -> Option<&Condition> {
    for item in items {
        let found = condition_within(item, line);
        if found.is_some() {
            return found;
        }
    }
    None
}

/// The conditions of a map, by line.
pub(crate) type Conditions<'a> = BTreeMap<u32, &'a Condition>;

/// Adds those of rules.
fn add_rules<'a>(conditions: &mut Conditions<'a>, rules: &'a [Rule]) -> Result<(), AllocError> {
    for rule in rules {
        if let Some(condition) = rule.condition() {
            conditions.insert(rule.line(), condition)?;
        }
    }
    Ok(())
}

/// Adds that of an item.
fn add_walk<'a>(
    conditions: &mut Conditions<'a>,
    line: u32,
    walk: &'a Walk,
) -> Result<(), AllocError> {
    if let Some(asked) = &walk.condition {
        conditions.insert(line, &asked.condition)?;
    }
    Ok(())
}

#[cycle(conditions)]
fn add_item<'a>(conditions: &mut Conditions<'a>, item: &'a Item) -> Result<(), AllocError> {
    match item {
        Item::SegFrom(made) => {
            add_walk(conditions, made.line, &made.walk)?;
            add_rules(conditions, &made.rules)
        }
        Item::SegAlways(made) => add_rules(conditions, &made.rules),
        Item::EachAs(made) => {
            add_walk(conditions, made.line, &made.walk)?;
            add_items(conditions, &made.items)
        }
        Item::EachFlat(made) => {
            add_walk(conditions, made.line, &made.walk)?;
            add_items(conditions, &made.items)
        }
    }
}

#[cycle(conditions)]
fn add_items<'a>(conditions: &mut Conditions<'a>, items: &'a [Item]) -> Result<(), AllocError> {
    for item in items {
        add_item(conditions, item)?;
    }
    Ok(())
}

/// The conditions of a map with these items.
pub(crate) fn conditions_of<'a>(
    alloc: Global,
    items: &'a [Item],
) -> Result<Conditions<'a>, AllocError> {
    let mut conditions = BTreeMap::new(alloc);
    add_items(&mut conditions, items)?;
    Ok(conditions)
}

/// What the condition of a line reads, where it is this that the line makes what it makes of.
pub(crate) fn chosen_by<'a>(
    source: &'a Profile,
    site: &'a Site,
    condition: &Condition,
) -> Option<Named<'a>> {
    let path = read_of(site)?;
    if path.field == 0 || site.target.comp > 0 {
        return None;
    }
    let field = Named::whole(source, &path.at, path.field);
    Some(field.part(condition.place.comp, condition.place.sub))
}

/// Writes values as a map says them.
pub(crate) fn write_values<W: Write>(out: &mut W, values: &[Vec<u8>]) -> io::Result<()> {
    let mut is_first = true;
    for value in values {
        if !is_first {
            out.write_all(b" ")?;
        }
        is_first = false;
        write_value(out, value)?;
    }
    Ok(())
}

/// Writes a value, in quotation marks where it has a blank or is a word of conditions.
pub(crate) fn write_value<W: Write>(out: &mut W, value: &[u8]) -> io::Result<()> {
    let has_blank = value.iter().any(|byte| *byte == b' ' || *byte == b'\t');
    let is_quoted = has_blank || is_kept(Word::Plain(value));
    let mark: &[u8] = if is_quoted { b"\"" } else { b"" };
    out.write_all(mark)?;
    out.write_all(value)?;
    out.write_all(mark)
}
