//! The receivers of a plan as it is built.
ghost use Rattle.std.specs.Prelude.{◌≡◌, ◌++◌, ◌∷◌, [], map, position, is_none, true, IfOk, OnOk};
ghost use Rattle.gw_plan.specs.Draft.{is_receiver};
ghost use Rattle.gw_plan.specs.Seen.{receiver_value};

use crate::plan::Receiver;
use indexmap::IndexMap;
use std::alloc::{AllocError, Global};
use std::marker::Model;

/// Receivers in the order of their lines, each name once. A receiver is looked up by the hash of its name.
pub(crate) struct Receivers {
    addresses: IndexMap<Vec<u8>, Vec<u8>>,
}

// Written out, so that what holds one is dropped by a call.
impl Drop for Receivers {
    fn drop(self) {
        let Receivers { addresses: _ } = self;
    }
}

impl Model for Receivers {
    ghost use Rattle.std.specs.Prelude.{List, map};
    ghost use Rattle.gw_plan.specs.Shapes.{ReceiverValue};
    ghost use Rattle.gw_plan.specs.Seen.{receiver_entry};

    ghost Value = { List ReceiverValue };

    ghost view = { λ r. map receiver_entry r.addresses.entries };
}

impl Receivers {
    /// No receivers.
    pub(crate) fn new(alloc: Global) -> Receivers
        ensures { result ≡ [] }
    {
        Receivers {
            addresses: IndexMap::new(alloc),
        }
    }

    /// The number of the receiver of this name, from 0. It takes no memory.
    pub(crate) fn number(&self, name: &[u8]) -> Option<usize>
        ensures { result ≡ position (is_receiver name.now) self.now }
    {
        self.addresses.get_index_of(name)
    }

    /// Appends a receiver of a new name.
    pub(crate) fn put(
        &mut self,
        alloc: Global,
        name: &[u8],
        address: &[u8],
    ) -> Result<(), AllocError>
        requires { is_none (position (is_receiver name.now) self.old) ≡ true }
        ensures { OnOk result (self.new ≡ self.old ++ record { name = name.now; address = address.now } ∷ []) }
    {
        let name = Vec::from_slice(alloc, name)?;
        let address = Vec::from_slice(alloc, address)?;
        self.addresses.insert(name, address)?;
        Ok(())
    }

    /// All receivers, in order.
    pub(crate) fn into_all(self, alloc: Global) -> Result<Vec<Receiver>, AllocError>
        ensures { IfOk result (λ all. map receiver_value all.items ≡ self) }
    {
        let Receivers { addresses } = self;
        let mut all = Vec::new(alloc);
        for (name, address) in addresses {
            all.push(Receiver { name, address })?;
        }
        Ok(all)
    }
}
