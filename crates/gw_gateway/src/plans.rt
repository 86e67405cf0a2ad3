//! The plan in force, and the numbers of its receivers.
ghost use Rattle.std.specs.Prelude.{◌≡◌, length, IfOk};
ghost use Rattle.std.specs.Arc.{arc_value};

use gw_journal::{Front, Naming};
use gw_ledger::Look;
use gw_plan::Plan;
use std::alloc::AllocError;
use std::marker::Model;
use std::sync::Arc;

/// A plan, its place in the log, and the number of each of its receivers there.
pub struct InForce<J: Naming> {
    look: Look<J>,
    plan: Arc<Plan>,
    numbers: Arc<Vec<u32>>,
}

// (by hand, so that no crate above proves again how its fields are dropped)
impl<J: Naming> Drop for InForce<J> {
    fn drop(self) {
        let InForce {
            look: _,
            plan: _,
            numbers: _,
        } = self;
    }
}

impl<J: Naming> Model for InForce<J> {
    ghost use Rattle.std.specs.Coded.{codes};
    ghost use Rattle.std.specs.Arc.{arc_value};
    ghost use Rattle.gw_profile.specs.contracts.node.Node as node;
    ghost use Rattle.gw_maplang.specs.contracts.item.Item as raw_item;
    ghost use Rattle.gw_resolve.specs.contracts.resolved.Item as item;
    ghost use Rattle.gw_gateway.specs.Plans.{IsPlan, PlanState};

    ghost Value = { PlanState };

    ghost coded = { Prim.hlevel (codes, node.the_row.coded, raw_item.the_row.coded, item.the_row.coded) };

    ghost view = { λ p. record { place = p.look.place; history = p.look.history; plan = arc_value p.plan; numbers = (arc_value p.numbers).items } };

    ghost invariant = { λ p. IsPlan J.before (record {
      place = p.look.place;
      history = p.look.history;
      plan = arc_value p.plan;
      numbers = (arc_value p.numbers).items;
    }) };
}

impl<J: Naming> InForce<J> {
    ghost use Rattle.gw_gateway.specs.Plans.{IsPlan, look_of};

    // The plan that was looked up, of which it was seen that it stands there.
    pub(crate) fn new(look: Look<J>, plan: Arc<Plan>, numbers: Arc<Vec<u32>>) -> InForce<J>
        requires stands { IsPlan J.before (record {
          place = look.place;
          history = look.history;
          plan = arc_value plan;
          numbers = (arc_value numbers).items;
        }) }
        ensures { result ≡ record {
          place = look.place;
          history = look.history;
          plan = arc_value plan;
          numbers = (arc_value numbers).items;
        } }
    {
        InForce {
            look,
            plan,
            numbers,
        }
    }

    // The plan and the numbers once more. The clause `stands` says what the type keeps.
    pub(crate) fn shared(&self) -> Result<(Arc<Plan>, Arc<Vec<u32>>), AllocError>
        ensures plan { IfOk result (λ x. arc_value x.0 ≡ self.now.plan) }
        ensures numbers { IfOk result (λ x. (arc_value x.1).items ≡ self.now.numbers) }
        ensures stands { IsPlan J.before self.now }
    {
        let plan = Arc::try_clone(&self.plan)?;
        let numbers = Arc::try_clone(&self.numbers)?;
        Ok((plan, numbers))
    }

    /// The same once more.
    pub fn again(&self) -> Result<InForce<J>, AllocError>
        ensures { IfOk result (λ p. p ≡ self.now) }
    {
        let (plan, numbers) = self.shared()?;
        Ok(InForce::new(self.look.again(), plan, numbers))
    }

    /// What was seen of the journal, with its record.
    pub fn front(&self) -> &Front<J>
        ensures seen { result.now ≡ self.now.history }
        ensures stands { IsPlan J.before self.now }
    {
        self.look.front()
    }

    // The look by which it is known.
    pub(crate) fn look(&self) -> &Look<J>
        ensures seen { result.now ≡ look_of self.now }
        ensures stands { IsPlan J.before self.now }
    {
        &self.look
    }

    /// Its place in the log.
    pub fn place(&self) -> u64
        ensures { result ≡ self.now.place }
    {
        self.look.place()
    }

    /// The plan.
    pub fn plan(&self) -> &Arc<Plan>
        ensures { arc_value result.now ≡ self.now.plan }
    {
        &self.plan
    }

    /// The numbers of its receivers, in its order.
    pub fn numbers(&self) -> &[u32]
        ensures numbers { result.now ≡ self.now.numbers }
        ensures each { length self.now.numbers ≡ length self.now.plan.receivers }
    {
        &self.numbers
    }
}
