//! Routes by code, event and senders.
ghost use Rattle.std.specs.Prelude.{◌≡◌, [], List, IfOk, OnOk};
ghost use Rattle.std.specs.Option.{option_map};
ghost use Rattle.gw_plan.specs.Index.{Key, Indexes, IsAt, IsBeside, IsFirst, AddsAt, AddsAllAt, JoinsAt, Numbers, number_for, said};
ghost use Rattle.gw_plan.specs.Index as spec;

use crate::senders::{Header, HeaderField, SaidSenders};
use indexmap::{IndexMap, IndexSet};
use std::alloc::{AllocError, Global};

/// Of a code and an event, what is left by all other routes: a number that no field of MSH has here.
const REST: usize = 0;

/// The codes, events and words of all routes, each numbered, and the routes by these numbers.
pub(crate) struct Index {
    codes: IndexSet<Vec<u8>>,
    events: IndexSet<Vec<u8>>,
    words: IndexSet<Vec<u8>>,
    numbers: IndexMap<((usize, usize), (usize, usize)), usize>,
}

// Written out, so that what holds one is dropped by a call.
impl Drop for Index {
    fn drop(self) {
        let Index {
            codes: _,
            events: _,
            words: _,
            numbers: _,
        } = self;
    }
}

// The lesser of two numbers, where there is one.
fn sooner(one: Option<usize>, other: Option<usize>) -> Option<usize>
    ensures { result ≡ spec.sooner one other }
{
    let Some(first) = one else {
        return other;
    };
    let Some(second) = other else {
        return one;
    };
    if second < first { other } else { one }
}

impl Index {
    /// The index of no routes.
    pub(crate) fn new(alloc: Global) -> Index
        ensures { Indexes result [] }
    {
        Index {
            codes: IndexSet::new(alloc),
            events: IndexSet::new(alloc),
            words: IndexSet::new(alloc),
            numbers: IndexMap::new(alloc),
        }
    }

    // The number of the route that has this word of a field, by the numbers of its code and event.
    fn at(&self, pair: (usize, usize), field: usize, word: &[u8]) -> Option<usize>
        ensures { IsAt self.now pair field word.now result }
    {
        let word = self.words.get_index_of(word)?;
        self.numbers.get(&(pair, (field, word))).copied()
    }

    // The number of the first route that takes messages of this header, by the numbers of its code and event.
    fn first(&self, pair: (usize, usize), header: &Header<'_>) -> Option<usize>
        ensures { IsFirst self.now pair (spec.header header.now) result }
    {
        let rest = self.at(pair, REST, &[]);
        let one = self.at(
            pair,
            HeaderField::SendingApplication.number(),
            header.sending_application,
        );
        let two = self.at(
            pair,
            HeaderField::SendingFacility.number(),
            header.sending_facility,
        );
        let three = self.at(
            pair,
            HeaderField::ReceivingApplication.number(),
            header.receiving_application,
        );
        let four = self.at(
            pair,
            HeaderField::ReceivingFacility.number(),
            header.receiving_facility,
        );
        let five = self.at(
            pair,
            HeaderField::MessageProfile.number(),
            header.message_profile,
        );
        sooner(
            rest,
            sooner(one, sooner(two, sooner(three, sooner(four, five)))),
        )
    }

    /// The number of the route for a message of this code, event and header, or the code of the condition (HL7 table 0357). It takes no memory.
    pub(crate) fn find(&self, code: &[u8], event: &[u8], header: &Header<'_>) -> Result<usize, u16>
        ensures { (keys : List Key) → Indexes self.now keys → result ≡ number_for code.now event.now (spec.header header.now) keys }
    {
        let Some(code) = self.codes.get_index_of(code) else {
            return Err(200);
        };
        let Some(event) = self.events.get_index_of(event) else {
            return Err(201);
        };
        match self.first((code, event), header) {
            None => Err(201),
            Some(number) => Ok(number),
        }
    }

    // The numbers of a code and an event, which they get where they have none.
    fn pair(
        &mut self,
        alloc: Global,
        code: &[u8],
        event: &[u8],
    ) -> Result<(usize, usize), AllocError>
        ensures { IfOk result (λ pair. Numbers self.old self.new pair code.now event.now) }
    {
        let (code, _) = self.codes.insert_full(Vec::from_slice(alloc, code)?)?;
        let (event, _) = self.events.insert_full(Vec::from_slice(alloc, event)?)?;
        Ok((code, event))
    }

    // Adds a word of a field for the route of this number, by the numbers of its code and event. Returns false where a route has it.
    fn add(
        &mut self,
        alloc: Global,
        pair: (usize, usize),
        field: usize,
        word: &[u8],
        number: usize,
    ) -> Result<bool, AllocError>
        ensures adds { IfOk result (λ added. AddsAt self.old self.new pair field word.now number added) }
        ensures beside { IsBeside self.old self.new }
    {
        let (word, _) = self.words.insert_full(Vec::from_slice(alloc, word)?)?;
        let key = (pair, (field, word));
        if self.numbers.contains_key(&key) {
            return Ok(false);
        }
        self.numbers.insert(key, number)?;
        Ok(true)
    }

    // The same for several words.
    fn add_all(
        &mut self,
        alloc: Global,
        pair: (usize, usize),
        senders: &SaidSenders<'_>,
        number: usize,
    ) -> Result<bool, AllocError>
        ensures adds { IfOk result (λ added. AddsAllAt self.old self.new pair (said senders.now) number added) }
        ensures beside { OnOk result (IsBeside self.old self.new) }
    {
        let field = senders.field.number();
        for word in senders.words.as_slice() {
            if !self.add(alloc, pair, field, word, number)? {
                return Ok(false);
            }
        }
        Ok(true)
    }

    /// Adds the route of this number behind all others, unless no message reaches it or it has a word that one of them has, or has one twice.
    pub(crate) fn push(
        &mut self,
        alloc: Global,
        code: &[u8],
        event: &[u8],
        senders: &Option<SaidSenders<'_>>,
        number: usize,
    ) -> Result<bool, AllocError>
        ensures { IfOk result (λ added. JoinsAt self.old self.new (spec.key_for code.now event.now (option_map said senders.now)) number added) }
    {
        let pair = self.pair(alloc, code, event)?;
        match senders {
            None => self.add(alloc, pair, REST, &[], number),
            Some(senders) => {
                if self.at(pair, REST, &[]).is_some() {
                    return Ok(false);
                }
                self.add_all(alloc, pair, senders, number)
            }
        }
    }
}
