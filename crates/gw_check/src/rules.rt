//! The checker.
ghost use Rattle.std.specs.Prelude.{◌≡◌, [], IfOk, IfErr, OnOk};
ghost use Rattle.std.specs.Arc.{arc_value};
ghost use Rattle.gw_profile.specs.Seen.{profile_value};
ghost use Rattle.gw_profile.specs.WellFormed.{WellFormed};
ghost use Rattle.gw_maplang.specs.Seen.{map_value};
ghost use Rattle.gw_check.specs.Answers.{AreMade, UnlabelledIfAllowed, IsRefusal, IsTold};
ghost use Rattle.gw_check.specs.Checked.{all_failures};
ghost use Rattle.gw_check.specs.Collected.{fields_at};
ghost use Rattle.gw_check.specs.Seen.{all_sites};
ghost use Rattle.gw_check.specs.Sites.{sites};
ghost use Rattle.gw_resolve.specs.Seen.{Notes, failures as seen_failures, all_items};
ghost use Rattle.gw_check.specs.own.Seen as seen;
ghost use Rattle.gw_leaves.specs.Context as spec;
ghost use Rattle.gw_leaves.specs.own.Comparisons.{AreCompared};

use crate::between::Between;
use crate::checked::CheckedMap;
use crate::failure::least;
use crate::inside::check_items;
use crate::level::check_level;
use crate::overlooked::{SourceUse, passed_over};
use crate::reached::reach_items;
use gw_leaves::{Compared, MapContext};
use gw_maplang::Map;
use gw_profile::{Level, Profile};
use gw_resolve::{
    Failure, Item, LeftOut, ResolvedMap, Resolving, ScopeNode, at_line, note, resolve,
};
use std::alloc::{AllocError, Global};
use std::sync::Arc;

/// Why a map was refused. The map is returned.
#[derive(Drop)]
pub enum CheckFault {
    /// Allocation failure.
    Memory(Map),
    /// The least rule that fails, at the least line where it fails.
    Rule { rule: u8, line: u32, map: Map },
}

/// Why a map was refused, with every failure. The map is returned.
#[derive(Drop)]
pub enum Refusal {
    /// Allocation failure.
    Memory(Map),
    /// The least failure, all of them in the order of the definition, and what the map makes of its source.
    Rules {
        least: Failure,
        found: Vec<Failure>,
        used: SourceUse,
        map: Map,
    },
}

/// What the rules find in a map.
#[derive(Drop)]
struct Findings {
    /// The failures.
    found: Vec<Failure>,
    /// What the map makes of its source.
    used: SourceUse,
}

/// What the rules say of a map.
#[derive(Drop)]
struct Examined {
    findings: Findings,
    /// The items without labels, none where a rule on labels fails.
    items: Vec<Item>,
}

// Adds the failures of the rules from the fourth on; what the map makes of its source.
fn add_failures(
    alloc: Global,
    found: &mut Vec<Failure>,
    context: &MapContext<'_>,
    level: &Level<'_>,
    items: &[Item],
    drops: &[LeftOut],
) -> Result<SourceUse, AllocError>
    requires { level.now ≡ context.now.source.nodes }
    ensures source { WellFormed (profile_value context.now.source) }
    ensures target { WellFormed (profile_value context.now.target) }
    ensures found { OnOk result (Notes found.old found.new (seen.failures context.now items.now drops.now)) }
    ensures unread { IfOk result (λ used. fields_at used.unread.items ≡ seen.unread context.now items.now drops.now) }
    ensures made { IfOk result (λ used. all_sites context.now.map.tables used.sites.items ≡ sites (all_items context.now.map.tables items.now)) }
{
    let line = context.map().line();
    let whole = context.source().nodes();
    let nodes = context.target().nodes();
    let scope = [ScopeNode::Whole(Some(level))];
    check_level(alloc, found, &scope, line, nodes, items)?;
    check_items(alloc, found, context, &scope, items, nodes)?;
    let used = passed_over(alloc, whole, items, drops)?;
    note(found, 9, at_line(line), !used.unread.is_empty())?;
    reach_items(alloc, found, context, &scope, items)?;
    Ok(used)
}

// What the rules from the fourth on find in a map without labels.
fn find(
    compared: &mut Compared,
    source: &Profile,
    target: &Profile,
    map: &Map,
    level: &Level<'_>,
    named: &ResolvedMap,
) -> Result<Findings, AllocError>
    requires level { level.now ≡ source.now.nodes }
    requires compared { AreCompared source.now target.now compared.old }
    ensures compared { AreCompared source.now target.now compared.new }
    ensures source { IfOk result (λ f. WellFormed (profile_value source.now)) }
    ensures target { IfOk result (λ f. WellFormed (profile_value target.now)) }
    ensures found { IfOk result (λ f.
        seen_failures f.found.items ≡ seen.resolved_failures (spec.context_of source.now target.now map.now) named.now) }
    ensures unread { IfOk result (λ f.
        fields_at f.used.unread.items ≡ seen.resolved_unread (spec.context_of source.now target.now map.now) named.now) }
    ensures made { IfOk result (λ f. all_sites map.now.tables f.used.sites.items ≡ sites (all_items map.now.tables named.now.items.items)) }
{
    let alloc = compared.alloc();
    let context = MapContext::of(compared, source, target, map, level, &named.items)?;
    let mut found = Vec::new(alloc);
    let used = add_failures(
        alloc,
        &mut found,
        &context,
        level,
        &named.items,
        &named.drops,
    )?;
    Ok(Findings { found, used })
}

// What the rules say of a map; from the fourth on they are looked at only where 1 to 3 hold.
fn look(
    compared: &mut Compared,
    source: &Profile,
    target: &Profile,
    map: &Map,
) -> Result<Examined, AllocError>
    requires { AreCompared source.now target.now compared.old }
    ensures compared { AreCompared source.now target.now compared.new }
    ensures found { IfOk result (λ e. seen_failures e.findings.found.items ≡ seen.all_failures source.now target.now map.now) }
    ensures unread { IfOk result (λ e. fields_at e.findings.used.unread.items ≡ seen.all_unread source.now target.now map.now) }
    ensures made { IfOk result (λ e. AreMade (profile_value source.now) (profile_value target.now) (map_value map.now) e.findings.used.sites.items) }
    ensures items { IfOk result (UnlabelledIfAllowed (profile_value source.now) (profile_value target.now) (map_value map.now)) }
{
    let alloc = compared.alloc();
    let from = Level::of(alloc, source)?;
    let to = Level::of(alloc, target)?;
    match resolve(alloc, source, target, &from, &to, map)? {
        Resolving::Refused(found) => Ok(Examined {
            findings: Findings {
                found,
                used: SourceUse {
                    sites: Vec::new(alloc),
                    unread: Vec::new(alloc),
                },
            },
            items: Vec::new(alloc),
        }),
        Resolving::Resolved(named) => Ok(Examined {
            findings: find(compared, source, target, map, &from, &named)?,
            items: named.items,
        }),
    }
}

/// All failures of a map between two profiles, in the order of the definition; none where the map is allowed.
///
/// The rules from the fourth on are looked at only where 1 to 3 hold. It takes time by the sizes of the profiles and the map. The one error is allocation failure.
pub fn failures(
    alloc: Global,
    source: &Profile,
    target: &Profile,
    map: &Map,
) -> Result<Vec<Failure>, AllocError>
    ensures { IfOk result (λ found. seen_failures found.items ≡ all_failures (profile_value source.now) (profile_value target.now) (map_value map.now)) }
{
    let examined = look(&mut Compared::new(alloc), source, target, map)?;
    Ok(examined.findings.found)
}

// What `examine` answers, with what is found of the tables of these profiles.
pub(crate) fn examine_by(
    compared: &mut Compared,
    source: Arc<Profile>,
    target: Arc<Profile>,
    map: Map,
) -> Result<CheckedMap, Refusal>
    requires { AreCompared (arc_value source) (arc_value target) compared.old }
    ensures compared { AreCompared (arc_value source) (arc_value target) compared.new }
    ensures allowed { IfOk result (λ c. all_failures (profile_value (arc_value source)) (profile_value (arc_value target)) (map_value map) ≡ []) }
    ensures source { IfOk result (λ c. c.source ≡ arc_value source) }
    ensures target { IfOk result (λ c. c.target ≡ arc_value target) }
    ensures map { IfOk result (λ c. c.map ≡ map) }
    ensures refused { IfErr result (IsTold (profile_value (arc_value source)) (profile_value (arc_value target)) (map_value map) map) }
{
    let Ok(examined) = look(compared, &source, &target, &map) else {
        return Err(Refusal::Memory(map));
    };
    let Findings { found, used } = examined.findings;
    match least(&found) {
        None => Ok(CheckedMap::of(source, target, map, examined.items)),
        Some(least) => Err(Refusal::Rules {
            least,
            found,
            used,
            map,
        }),
    }
}

/// The map with its profiles, where no rule fails, and else all failures: what `check` and `failures` answer, by one look at the map, with what else was found.
pub fn examine(
    alloc: Global,
    source: Arc<Profile>,
    target: Arc<Profile>,
    map: Map,
) -> Result<CheckedMap, Refusal>
    ensures allowed { IfOk result (λ c. all_failures (profile_value (arc_value source)) (profile_value (arc_value target)) (map_value map) ≡ []) }
    ensures source { IfOk result (λ c. c.source ≡ arc_value source) }
    ensures target { IfOk result (λ c. c.target ≡ arc_value target) }
    ensures map { IfOk result (λ c. c.map ≡ map) }
    ensures refused { IfErr result (IsTold (profile_value (arc_value source)) (profile_value (arc_value target)) (map_value map) map) }
{
    examine_by(&mut Compared::new(alloc), source, target, map)
}

/// The map with its profiles, where no rule fails; else the map back, with the least rule that fails at its least line, or allocation failure.
/// What acceptance means is a law of `gw_interp`: each message that conforms to the source has one translation, and that conforms to the target.
pub fn check(
    alloc: Global,
    source: Arc<Profile>,
    target: Arc<Profile>,
    map: Map,
) -> Result<CheckedMap, CheckFault>
    ensures allowed { IfOk result (λ c. all_failures (profile_value (arc_value source)) (profile_value (arc_value target)) (map_value map) ≡ []) }
    ensures source { IfOk result (λ c. c.source ≡ arc_value source) }
    ensures target { IfOk result (λ c. c.target ≡ arc_value target) }
    ensures map { IfOk result (λ c. c.map ≡ map) }
    ensures refused { IfErr result (IsRefusal (profile_value (arc_value source)) (profile_value (arc_value target)) (map_value map) map) }
{
    Between::new(alloc, source, target).check(map)
}
