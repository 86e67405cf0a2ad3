//! Translated messages: what receivers are sent.
ghost use Rattle.std.specs.Prelude.{◌≡◌, ◌↔◌, IsTrue, IfOk, Ok};
ghost use Rattle.std.specs.Arc.{arc_value};
ghost use Rattle.gw_plan.specs.Held.{plan_value};
ghost use Rattle.gw_plan.specs.Whole.{spelled};
ghost use Rattle.gw_plan.specs.Admitted.{IsOf, IsSameSource};
ghost use Rattle.gw_plan.specs.Translating.{IsSameTranslated, Translates};

use crate::conforming::Conforming;
use gw_er7::Message;
use std::alloc::{AllocError, Global};
use std::marker::Model;
use std::sync::Arc;

/// An admitted message, translated for a receiver. Only `translate_for` makes one.
pub struct Translated {
    source: Arc<Conforming>,
    receiver: usize,
    message: Message,
}

// Written out, so that no crate above proves again how its fields are dropped.
impl Drop for Translated {
    fn drop(self) {
        let Translated {
            source: _,
            receiver: _,
            message: _,
        } = self;
    }
}

impl Model for Translated {
    ghost use Rattle.std.specs.Coded.{codes};
    ghost use Rattle.std.specs.Arc.{arc_value};
    ghost use Rattle.gw_er7.specs.Message.{segment_code};
    ghost use Rattle.gw_profile.specs.contracts.node.Node as node;
    ghost use Rattle.gw_validate.specs.Stored.{tree_code};
    ghost use Rattle.gw_maplang.specs.contracts.item.Item as raw_item;
    ghost use Rattle.gw_resolve.specs.contracts.resolved.Item as item;
    ghost use Rattle.gw_plan.specs.Translating.{TranslatedHeld, Translates};

    ghost Value = { TranslatedHeld };

    ghost coded = { Prim.hlevel (codes, segment_code, node.the_row.coded, tree_code, raw_item.the_row.coded, item.the_row.coded) };

    ghost view = { λ t. record { source = arc_value t.source; receiver = t.receiver; message = t.message } };

    ghost invariant = { λ t. Translates (arc_value t.source) t.receiver t.message };
}

impl Translated {
    /// The number of the receiver. It takes no memory.
    pub fn receiver(&self) -> usize
        ensures { result ≡ self.now.receiver }
    {
        self.receiver
    }

    /// The message that the receiver is sent. It takes no memory.
    pub fn message(&self) -> &Message
        ensures message { result.now ≡ self.now.message }
        ensures translates { Translates self.now.source self.now.receiver self.now.message }
        ensures plan { spelled self.now.source.plan.text ≡ Ok (plan_value self.now.source.plan) }
    {
        self.source.is_spelled();
        &self.message
    }

    /// Whether it was made of this admitted message: an equal message under the same version and plan text. It takes no memory.
    pub fn same_source(&self, conforming: &Conforming) -> bool
        ensures { IsTrue result ↔ IsSameSource self.now.source conforming.now }
    {
        self.source.same(conforming)
    }

    /// Whether source, receiver and message are equal. It takes no memory.
    pub fn same(&self, other: &Translated) -> bool
        ensures { IsTrue result ↔ IsSameTranslated self.now other.now }
    {
        if self.receiver != other.receiver {
            return false;
        }
        if !self.same_source(&other.source) {
            return false;
        }
        self.message.same(&other.message)
    }
}

/// Translates an admitted message for a receiver to which its route goes. The one error is allocation failure.
pub fn translate_for(
    alloc: Global,
    conforming: &Arc<Conforming>,
    receiver: usize,
) -> Result<Arc<Translated>, AllocError>
    requires { IsOf (arc_value conforming.now) receiver }
    ensures source { IfOk result (λ t. (arc_value t).source ≡ arc_value conforming.now) }
    ensures receiver { IfOk result (λ t. (arc_value t).receiver ≡ receiver) }
    ensures translates { IfOk result (λ t. Translates (arc_value conforming.now) receiver (arc_value t).message) }
{
    let message = conforming.translation(alloc, receiver)?;
    let source = Arc::try_clone(conforming)?;
    let made = Arc::new(
        alloc,
        Translated {
            source,
            receiver,
            message,
        },
    )?;
    Ok(made)
}
