//! Two profiles between which several maps are checked.
use crate::checked::CheckedMap;
use crate::rules::{CheckFault, Refusal, examine_by};
use gw_leaves::Compared;
use gw_maplang::Map;
use gw_profile::Profile;
use std::alloc::Global;
use std::marker::Model;
use std::sync::Arc;

/// Two profiles, and what is found of their tables by the maps that were checked between them.
pub struct Between {
    source: Arc<Profile>,
    target: Arc<Profile>,
    compared: Compared,
}

// (by hand, so that no crate above proves again how its fields are dropped)
impl Drop for Between {
    fn drop(self) {
        let Between {
            source: _,
            target: _,
            compared: _,
        } = self;
    }
}

impl Model for Between {
    ghost use Rattle.std.specs.Coded.{codes};
    ghost use Rattle.std.specs.Arc.{arc_value};
    ghost use Rattle.gw_profile.specs.contracts.node.Node as node;
    ghost use Rattle.gw_leaves.specs.own.Comparisons.{AreCompared};
    ghost use Rattle.gw_check.specs.Kept.{BetweenValue};

    ghost Value = { BetweenValue };

    ghost coded = { Prim.hlevel (codes, node.the_row.coded) };

    ghost view = { λ b. record { source = arc_value b.source; target = arc_value b.target } };

    ghost invariant = { λ b. AreCompared (arc_value b.source) (arc_value b.target) b.compared };
}

impl Between {
    ghost use Rattle.std.specs.Prelude.{◌≡◌, [], IfOk, IfErr};
    ghost use Rattle.std.specs.Arc.{arc_value};
    ghost use Rattle.gw_profile.specs.Seen.{profile_value};
    ghost use Rattle.gw_maplang.specs.Seen.{map_value};
    ghost use Rattle.gw_check.specs.Answers.{IsRefusal};
    ghost use Rattle.gw_check.specs.Checked.{all_failures};

    /// Two profiles, before any map is checked between them.
    pub fn new(alloc: Global, source: Arc<Profile>, target: Arc<Profile>) -> Between
        ensures { result ≡ record { source = arc_value source; target = arc_value target } }
    {
        Between {
            source,
            target,
            compared: Compared::new(alloc),
        }
    }

    /// What `check` answers of a map between these profiles. Copies of texts that a map before compared aren't compared again.
    pub fn check(&mut self, map: Map) -> Result<CheckedMap, CheckFault>
        ensures kept { self.new ≡ self.old }
        ensures allowed { IfOk result (λ c. all_failures (profile_value self.old.source) (profile_value self.old.target) (map_value map) ≡ []) }
        ensures source { IfOk result (λ c. c.source ≡ self.old.source) }
        ensures target { IfOk result (λ c. c.target ≡ self.old.target) }
        ensures map { IfOk result (λ c. c.map ≡ map) }
        ensures refused { IfErr result (IsRefusal (profile_value self.old.source) (profile_value self.old.target) (map_value map) map) }
    {
        let Ok(source) = Arc::try_clone(&self.source) else {
            return Err(CheckFault::Memory(map));
        };
        let Ok(target) = Arc::try_clone(&self.target) else {
            return Err(CheckFault::Memory(map));
        };
        match examine_by(&mut self.compared, source, target, map) {
            Ok(checked) => Ok(checked),
            Err(Refusal::Memory(map)) => Err(CheckFault::Memory(map)),
            Err(Refusal::Rules { least, map, .. }) => Err(CheckFault::Rule {
                rule: least.rule,
                line: least.mark.line,
                map,
            }),
        }
    }
}
