//! The names of receivers.
use gw_due::{Event, ReadFault, State};
use gw_log::read_head;
use std::alloc::{AllocError, Global};
use std::collections::BTreeMap;

/// The names of receivers by their numbers, as a log's heads and records give them.
#[derive(Drop)]
pub struct Names {
    alloc: Global,
    all: BTreeMap<u32, Vec<u8>>,
}

impl Names {
    /// None is known.
    pub fn new(alloc: Global) -> Names {
        Names {
            alloc,
            all: BTreeMap::new(alloc),
        }
    }

    /// The name of a receiver, where it is known.
    pub(crate) fn of(&self, number: u32) -> Option<&[u8]> {
        match self.all.get(&number) {
            Some(name) => Some(name),
            None => None,
        }
    }

    fn add(&mut self, number: u32, name: &[u8]) -> Result<(), AllocError> {
        if self.all.contains_key(&number) {
            return Ok(());
        }
        let name = Vec::from_slice(self.alloc, name)?;
        self.all.insert(number, name)?;
        Ok(())
    }

    /// Those that the checkpoint of a file's first record has. It is `Unreadable` where it is none of a gateway's.
    pub fn add_head(&mut self, head: &[u8]) -> Result<(), ReadFault> {
        let Some(head) = read_head(head) else {
            return Err(ReadFault::Unreadable);
        };
        let state = State::read(self.alloc, head.checkpoint)?;
        for receiver in state.receivers() {
            self.add(receiver.number(), receiver.name())?;
        }
        Ok(())
    }

    /// The one that an event gives.
    pub(crate) fn add_event(&mut self, event: &Event<'_>) -> Result<(), AllocError> {
        match event {
            Event::Named { receiver, name, .. } => self.add(*receiver, name),
            _ => Ok(()),
        }
    }
}
