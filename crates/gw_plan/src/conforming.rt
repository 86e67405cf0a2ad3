//! Messages that a plan admits.
ghost use Rattle.std.specs.Prelude.{◌≡◌, ◌<◌, ◌↔◌, map, length, nat_eq, IsTrue, IfOk, IfErr, Ok};
ghost use Rattle.std.specs.List.{IsDistinct};
ghost use Rattle.std.specs.Arc.{arc_value};
ghost use Rattle.gw_er7.specs.Message.{IsMessage};
ghost use Rattle.gw_profile.specs.Seen.{profile_value};
ghost use Rattle.gw_profile.specs.WellFormed.{WellFormed};
ghost use Rattle.gw_validate.specs.Conforming.{Conforms};
ghost use Rattle.gw_plan.specs.Held.{plan_value, route_value};
ghost use Rattle.gw_plan.specs.Routing.{routed};
ghost use Rattle.gw_plan.specs.Seen.{receiver_value};
ghost use Rattle.gw_plan.specs.Whole.{spelled};
ghost use Rattle.gw_plan.specs.Within.{IsWithin};
ghost use Rattle.gw_plan.specs.Admitted.{IsConforming, IsAdmitted, IsRefused, IsSameSource, IsUnder, IsOf};
ghost use Rattle.gw_plan.specs.Translating.{Translates};

use crate::plan::{Plan, Receiver};
use crate::route::Route;
use gw_er7::Message;
use gw_interp::translate;
use gw_validate::{Breach, Tree, Verdict, validate};
use std::alloc::{AllocError, Global};
use std::marker::Model;
use std::sync::Arc;

/// A message that was admitted under a plan and its version: the plan has a route for it, and it conforms to the route's profile.
/// Only `admit` makes one.
pub struct Conforming {
    tree: Tree,
    number: usize,
    plan: Arc<Plan>,
    version: u64,
}

// Written out, so that no crate above proves again how its fields are dropped.
impl Drop for Conforming {
    fn drop(self) {
        let Conforming {
            tree: _,
            number: _,
            plan: _,
            version: _,
        } = self;
    }
}

impl Model for Conforming {
    ghost use Rattle.std.specs.Coded.{codes};
    ghost use Rattle.std.specs.Arc.{arc_value};
    ghost use Rattle.gw_er7.specs.Message.{segment_code};
    ghost use Rattle.gw_profile.specs.contracts.node.Node as node;
    ghost use Rattle.gw_validate.specs.Stored.{tree_code};
    ghost use Rattle.gw_maplang.specs.contracts.item.Item as raw_item;
    ghost use Rattle.gw_resolve.specs.contracts.resolved.Item as item;
    ghost use Rattle.gw_plan.specs.Admitted.{ConformingHeld, IsConforming};

    ghost Value = { ConformingHeld };

    ghost coded = { Prim.hlevel (codes, segment_code, node.the_row.coded, tree_code, raw_item.the_row.coded, item.the_row.coded) };

    ghost view = { λ c. record { tree = c.tree; number = c.number; plan = arc_value c.plan; version = c.version } };

    ghost invariant = { λ c. IsConforming (record { tree = c.tree; number = c.number; plan = arc_value c.plan; version = c.version }) };
}

/// Why a message isn't admitted. The message is returned.
#[derive(Drop)]
pub enum Refusal {
    /// An allocation failed.
    Memory(Message),
    /// The plan has no route for it. The number is the code of the condition (HL7 table 0357).
    Route(u16, Message),
    /// It breaks its route's profile, first here.
    Breaks(Breach, Message),
}

impl Conforming {
    /// The route, by the plan that the text spells. It goes to each receiver once. The message conforms to the route's profile, by its type.
    /// It takes no memory.
    pub fn route(&self) -> &Route
        ensures route { routed (plan_value self.now.plan) self.now.tree.message ≡ Ok (route_value result.now) }
        ensures profile { profile_value self.now.tree.profile ≡ profile_value result.now.profile }
        ensures plan { spelled self.now.plan.text ≡ Ok (plan_value self.now.plan) }
        ensures formed { WellFormed (profile_value result.now.profile) }
        ensures message { IsMessage self.now.tree.message }
        ensures conforms { Conforms (profile_value result.now.profile) self.now.tree.message }
        ensures once { IsDistinct nat_eq (map (λ l. l.0) result.now.legs) }
    {
        // Called for their clauses, which say what the message, the plan, the route and its profile keep.
        let _count = self.tree.message().segment_count();
        self.plan.is_spelled();
        let route = self.plan.route_at(self.number);
        route.goes_once();
        let _nodes = route.profile().nodes();
        route
    }

    /// The receivers of its plan. It takes no memory.
    pub fn receivers(&self) -> &[Receiver]
        ensures value { map receiver_value result.now ≡ self.now.plan.receivers }
        ensures within { IsWithin (plan_value self.now.plan) }
    {
        self.plan.receivers()
    }

    /// Whether its route goes to this receiver, which is then one of the plan's. It takes no memory.
    pub fn goes_to(&self, receiver: usize) -> bool
        ensures goes { IsTrue result ↔ IsOf self.now receiver }
        ensures stands { IsTrue result → receiver < length self.now.plan.receivers }
    {
        // Called for its clause: the route goes only to receivers of the plan.
        let _receivers = self.receivers();
        self.route().goes_to(receiver)
    }

    /// The message. It conforms to the profile of its route, as `route` says. It takes no memory.
    pub fn message(&self) -> &Message
        ensures { result.now ≡ self.now.tree.message }
    {
        self.tree.message()
    }

    /// Whether it was admitted under this version, and under a plan of the same text. It takes no memory.
    pub fn under(&self, version: u64, plan: &Plan) -> bool
        ensures { IsTrue result ↔ IsUnder self.now version plan.now }
    {
        self.version == version && self.plan.text() == plan.text()
    }

    /// Whether message, version and the plan's text are equal. It takes no memory.
    pub fn same(&self, other: &Conforming) -> bool
        ensures { IsTrue result ↔ IsSameSource self.now other.now }
    {
        if !other.under(self.version, &self.plan) {
            return false;
        }
        self.message().same(other.message())
    }
}

impl Conforming {
    // The message that was admitted.
    fn into_message(self) -> Message
        ensures { result ≡ self.tree.message }
    {
        let Conforming {
            tree,
            number: _,
            plan: _,
            version: _,
        } = self;
        tree.into_message()
    }

    // Its plan is the meaning of its text.
    pub(crate) fn is_spelled(&self)
        ensures { spelled self.now.plan.text ≡ Ok (plan_value self.now.plan) }
    {
        self.plan.is_spelled();
    }

    // The message as the route's map for a receiver translates it.
    pub(crate) fn translation(&self, alloc: Global, receiver: usize) -> Result<Message, AllocError>
        requires { IsOf self.now receiver }
        ensures { IfOk result (Translates self.now receiver) }
    {
        let tree = &self.tree;
        // Called for its clause: the tree is the message's.
        let _root = tree.root();
        match self.route().map_for(receiver) {
            // It can't happen, since the route goes to the receiver.
            None => Err(AllocError),
            Some(map) => match translate(alloc, map, tree) {
                Err(error) => Err(error),
                Ok(made) => {
                    // Called for its clause, which says what every message keeps.
                    let _count = made.segment_count();
                    Ok(made)
                }
            },
        }
    }
}

// The admitted message of this tree.
fn shared(
    alloc: Global,
    tree: Tree,
    number: usize,
    plan: Arc<Plan>,
    version: u64,
) -> Result<Arc<Conforming>, Message>
    requires { IsConforming (record { tree = tree; number = number; plan = arc_value plan; version = version }) }
    ensures made { IfOk result (λ c. arc_value c ≡ record { tree = tree; number = number; plan = arc_value plan; version = version }) }
    ensures back { IfErr result (λ m. m ≡ tree.message) }
{
    let conforming = Conforming {
        tree,
        number,
        plan,
        version,
    };
    match Arc::new(alloc, conforming) {
        Ok(shared) => Ok(shared),
        Err(failed) => Err(failed.value.into_message()),
    }
}

/// Admits a message under a plan and its version. It does so exactly if the plan has a route for it and it conforms to the route's profile.
pub fn admit(
    alloc: Global,
    plan: &Arc<Plan>,
    version: u64,
    message: Message,
) -> Result<Arc<Conforming>, Refusal>
    ensures admitted { IfOk result (λ c. IsAdmitted (arc_value plan.now) version message (arc_value c)) }
    ensures refused { IfErr result (IsRefused (arc_value plan.now) message) }
{
    let number = match plan.find(&message) {
        Err(code) => return Err(Refusal::Route(code, message)),
        Ok(number) => number,
    };
    let Ok(profile) = Arc::try_clone(plan.route_at(number).profile()) else {
        return Err(Refusal::Memory(message));
    };
    let Ok(kept) = Arc::try_clone(plan) else {
        return Err(Refusal::Memory(message));
    };
    match validate(alloc, profile, message) {
        Err(message) => Err(Refusal::Memory(message)),
        Ok(Verdict::Breaks(breach, message)) => Err(Refusal::Breaks(breach, message)),
        Ok(Verdict::Fits(tree)) => match shared(alloc, tree, number, kept, version) {
            Ok(shared) => Ok(shared),
            Err(message) => Err(Refusal::Memory(message)),
        },
    }
}
