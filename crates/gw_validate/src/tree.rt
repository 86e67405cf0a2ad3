//! Messages that conform, each with the tree of its profile.
use crate::occ::Occ;
use crate::occurrences::Found;
use gw_er7::Message;
use gw_profile::Profile;
use std::marker::Model;
use std::sync::Arc;

/// A message that conforms to a profile, with the occurrences of the profile's nodes.
pub struct Tree {
    profile: Arc<Profile>,
    message: Message,
    listed: Vec<usize>,
    found: Found,
}

// (by hand, so that no crate above proves again how its fields are dropped)
impl Drop for Tree {
    fn drop(self) {
        let Tree {
            profile: _,
            message: _,
            listed: _,
            found: _,
        } = self;
    }
}

impl Model for Tree {
    ghost use Rattle.std.specs.Coded.{codes};
    ghost use Rattle.std.specs.Arc.{arc_value};
    ghost use Rattle.gw_er7.specs.Message.{segment_code};
    ghost use Rattle.gw_profile.specs.contracts.node.Node as node;
    ghost use Rattle.gw_validate.specs.Stored.{tree_code};
    ghost use Rattle.gw_profile.specs.Seen.{forest, profile_value};
    ghost use Rattle.gw_validate.specs.Fitting.{TreeValue};
    ghost use Rattle.gw_validate.specs.own.Judging.{HasKept};
    ghost use Rattle.gw_validate.specs.own.Occurring.{tree_of};

    ghost Value = { TreeValue };

    ghost coded = { Prim.hlevel (codes, segment_code, node.the_row.coded, tree_code) };

    ghost view = { λ t. record { profile = arc_value t.profile; message = t.message; tree = tree_of t.listed.items (forest (arc_value t.profile).nodes) t.found } };

    ghost invariant = { λ t. HasKept (profile_value (arc_value t.profile)) t.message t.listed.items t.found };
}

impl Tree {
    ghost use Rattle.std.specs.Prelude.{◌≡◌, None};
    ghost use Rattle.std.specs.Arc.{arc_value};
    ghost use Rattle.gw_profile.specs.Seen.{forest, profile_value};
    ghost use Rattle.gw_validate.specs.Conforming.{Conforms};
    ghost use Rattle.gw_validate.specs.Broken.{IsTreeOf};
    ghost use Rattle.gw_validate.specs.own.Judging.{HasKept};
    ghost use Rattle.gw_validate.specs.own.Occurring.{tree_of};

    /// The tree of a message that conforms.
    pub(crate) fn of(
        profile: Arc<Profile>,
        message: Message,
        listed: Vec<usize>,
        found: Found,
    ) -> Tree
        requires { HasKept (profile_value (arc_value profile)) message listed.items found }
        ensures { result ≡ record { profile = arc_value profile; message = message; tree = tree_of listed.items (forest (arc_value profile).nodes) found } }
    {
        Tree {
            profile,
            message,
            listed,
            found,
        }
    }

    /// The profile. It takes no memory.
    #[inline(always)]
    pub fn profile(&self) -> &Arc<Profile>
        ensures { arc_value result.now ≡ self.now.profile }
    {
        &self.profile
    }

    /// The message. It takes no memory.
    #[inline(always)]
    pub fn message(&self) -> &Message
        ensures message { result.now ≡ self.now.message }
        ensures conforms { Conforms (profile_value self.now.profile) self.now.message }
    {
        &self.message
    }

    /// The occurrence of the whole profile, whose children are the nodes at its top. It takes no memory.
    #[inline]
    pub fn root(&self) -> Occ<'_>
        ensures root { result ≡ record { message = self.now.message; number = None; tree = self.now.tree } }
        ensures tree { IsTreeOf (profile_value self.now.profile) self.now.message self.now.tree }
    {
        Occ::of(
            &self.message,
            &self.listed,
            self.profile.nodes(),
            &self.found,
        )
    }

    /// The message, moved out. It takes no memory.
    pub fn into_message(self) -> Message
        ensures { result ≡ self.message }
    {
        let Tree {
            profile: _,
            message,
            listed: _,
            found: _,
        } = self;
        message
    }
}
