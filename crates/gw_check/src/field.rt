//! The rules on target fields.
ghost use Rattle.std.specs.Prelude.{◌≡◌, List, map, flat_map, OnOk};
ghost use Rattle.gw_profile.specs.Seen.{field as field_value};
ghost use Rattle.gw_maplang.specs.Shapes.{TableValue};
ghost use Rattle.gw_check.specs.Fields as spec;
ghost use Rattle.gw_resolve.specs.Seen.{Notes, mark as seen_mark};
ghost use Rattle.gw_leaves.specs.Components.{field_mark};
ghost use Rattle.gw_leaves.specs.Uses.{CountsRule, some_rule};
ghost use Rattle.gw_check.specs.own.Seen as seen;

use crate::often::{Asked, check_often};
use gw_leaves::{Sources, check_lookups, check_making, field_mark, rule_count, rule_of};
use gw_profile::FieldShape;
use gw_resolve::{Failure, Interval, Rule};
use std::alloc::AllocError;

// ---- what the field has in it

// The failures of what the rule gives, which comes so often.
fn check_content(
    found: &mut Vec<Failure>,
    sources: Sources<'_, '_, '_, '_, '_>,
    field: &FieldShape,
    rule: Option<&Rule>,
    count: Interval,
) -> Result<(), AllocError>
    ensures { CountsRule sources.entry rule.entry count →
        OnOk result (Notes found.old found.new (seen.content_failures sources.entry field.now rule.entry)) }
{
    let Some(rule) = rule else {
        return Ok(());
    };
    if count.is_never() {
        return Ok(());
    }
    let mark = field_mark(field.number, rule.line);
    check_making(found, sources, mark, &rule.making, field)
}

// ---- a field

// The line of the rule, or of the segment that should hold one.
fn line_of(holder: u32, rule: Option<&Rule>) -> u32
    ensures { (tables : List TableValue) → result ≡ spec.line_of_rule holder (some_rule tables rule.entry) }
{
    match rule {
        None => holder,
        Some(rule) => rule.line,
    }
}

// What the field asks of how often its rule gives it.
fn asked(holder: u32, rule: Option<&Rule>, field: &FieldShape) -> Asked
    ensures mark { (tables : List TableValue) →
        seen_mark result.mark ≡ field_mark field.now.number (spec.line_of_rule holder (some_rule tables rule.entry)) }
    ensures usage { result.usage ≡ (field_value field.now).usage }
    ensures card { result.card ≡ (field_value field.now).card }
    ensures is_missing { (tables : List TableValue) → result.is_missing ≡ spec.has_no_rule (some_rule tables rule.entry) }
{
    Asked {
        mark: field_mark(field.number, line_of(holder, rule)),
        usage: field.usage,
        card: field.card,
        is_missing: rule.is_none(),
    }
}

// The failures of a field by its rule.
fn check_by(
    found: &mut Vec<Failure>,
    sources: Sources<'_, '_, '_, '_, '_>,
    holder: u32,
    rule: Option<&Rule>,
    field: &FieldShape,
) -> Result<(), AllocError>
    ensures { OnOk result (Notes found.old found.new (seen.failures_by sources.entry holder field.now rule.entry)) }
{
    let count = rule_count(sources, rule);
    check_often(found, asked(holder, rule, field), count)?;
    check_content(found, sources, field, rule, count)
}

fn check_fields(
    found: &mut Vec<Failure>,
    sources: Sources<'_, '_, '_, '_, '_>,
    holder: u32,
    rules: &[Rule],
    fields: &[FieldShape],
) -> Result<(), AllocError>
    ensures { OnOk result (Notes found.old found.new (flat_map (seen.field_failures sources.entry holder rules.now) (map field_value fields.now))) }
{
    for field in fields {
        check_by(found, sources, holder, rule_of(rules, field.number), field)?;
    }
    Ok(())
}

/// The failures of the rules on the fields of a target segment, which an item at this line gives by these rules.
pub(crate) fn check_segment(
    found: &mut Vec<Failure>,
    sources: Sources<'_, '_, '_, '_, '_>,
    holder: u32,
    rules: &[Rule],
    fields: &[FieldShape],
) -> Result<(), AllocError>
    ensures { OnOk result (Notes found.old found.new (seen.segment_failures sources.entry holder rules.now (map field_value fields.now))) }
{
    check_fields(found, sources, holder, rules, fields)?;
    check_lookups(found, sources, rules)
}
