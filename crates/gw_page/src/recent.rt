//! The last answers that weren't AA, and how many there were of each condition code.
ghost use Rattle.std.specs.Prelude.{◌≡◌, [], map, decimal, bytes_eq, IfOk};
ghost use Rattle.gw_page.specs.Recent.{HasRoom, kept, counted, answered, texts};

use crate::{Refusal, Refused};
use itoa::Buffer;
use std::alloc::{AllocError, Global};

/// How many refusals are kept.
const LAST: usize = 20;

/// How many condition codes there are (HL7 table 0357).
const CODES: usize = 9;

/// The last refusals, the last of them first, and how often each code was answered.
pub struct Recent {
    last: Vec<Refusal>,
    codes: [Refused; CODES],
}

// (by hand, so that no crate above proves again how its fields are dropped)
impl Drop for Recent {
    fn drop(self) {
        let Recent { last: _, codes: _ } = self;
    }
}

/// A copy of what is kept: the refusals, the last of them first, how often each code was answered, and how many answers these are in all.
#[derive(Drop)]
pub struct Seen {
    pub refusals: Vec<Refusal>,
    pub codes: Vec<Refused>,
    pub refused: u64,
}

fn never(code: u64) -> Refused
    ensures code { result.code ≡ code }
    ensures count { result.count ≡ 0 }
{
    Refused { code, count: 0 }
}

fn is_of(refused: &Refused, code: &[u8]) -> bool
    ensures { result ≡ bytes_eq code.now (decimal refused.now.code) }
{
    let mut buffer = Buffer::new();
    code == buffer.format(refused.code).as_bytes()
}

#[tactic(auto, unfolding(crate::specs::Recent::counted))]
fn count(refused: &mut Refused, code: &[u8])
    ensures { refused.new ≡ counted code.now refused.old }
{
    if is_of(refused, code) {
        refused.count = refused.count.saturating_add(1);
    }
}

fn count_all(codes: &mut [Refused], code: &[u8])
    ensures { codes.new ≡ map (counted code.now) codes.old }
{
    for refused in codes.iter_mut() {
        count(refused, code);
    }
}

// How many answers these are in all.
fn sum_of(codes: &[Refused]) -> u64
    ensures { result ≡ answered codes.now }
{
    let mut sum: u64 = 0;
    for refused in codes {
        sum = sum.saturating_add(refused.count);
    }
    sum
}

#[tactic(auto, unfolding(crate::specs::Recent::texts))]
fn copy(alloc: Global, of: &Refusal) -> Result<Refusal, AllocError>
    ensures { IfOk result (λ r. texts r ≡ texts of.now) }
{
    Ok(Refusal {
        time: of.time,
        session: of.session,
        from: Vec::from_slice(alloc, &of.from)?,
        number: Vec::from_slice(alloc, &of.number)?,
        answer: Vec::from_slice(alloc, &of.answer)?,
        code: Vec::from_slice(alloc, &of.code)?,
        place: Vec::from_slice(alloc, &of.place)?,
    })
}

fn copies(alloc: Global, of: &[Refusal]) -> Result<Vec<Refusal>, AllocError>
    ensures { IfOk result (λ all. map texts all.items ≡ map texts of.now) }
{
    let mut all = Vec::with_capacity(alloc, LAST)?;
    for refusal in of {
        all.push(copy(alloc, refusal)?)?;
    }
    Ok(all)
}

impl Recent {
    /// None was refused yet. The one error is an allocation failure.
    pub fn new(alloc: Global) -> Result<Self, AllocError>
        ensures last { IfOk result (λ recent. recent.last.items ≡ []) }
        ensures room { IfOk result HasRoom }
    {
        Ok(Recent {
            last: Vec::with_capacity(alloc, LAST)?,
            codes: [
                never(100),
                never(101),
                never(102),
                never(103),
                never(200),
                never(201),
                never(202),
                never(203),
                never(207),
            ],
        })
    }

    /// A message was refused.
    pub fn note(&mut self, refusal: Refusal)
        ensures last { HasRoom self.old → self.new.last.items ≡ kept refusal self.old.last.items }
        ensures room { HasRoom self.old → HasRoom self.new }
        ensures codes { self.new.codes ≡ map (counted refusal.code.items) self.old.codes }
    {
        count_all(&mut self.codes, &refusal.code);
        self.last.truncate(LAST - 1);
        let _kept = self.last.insert(0, refusal);
    }

    /// What was refused. The one error is an allocation failure.
    pub fn seen(&self, alloc: Global) -> Result<Seen, AllocError>
        ensures refusals { IfOk result (λ seen. map texts seen.refusals.items ≡ map texts self.now.last.items) }
        ensures codes { IfOk result (λ seen. seen.codes.items ≡ self.now.codes) }
        ensures refused { IfOk result (λ seen. seen.refused ≡ answered self.now.codes) }
    {
        Ok(Seen {
            refusals: copies(alloc, &self.last)?,
            codes: Vec::from_slice(alloc, &self.codes)?,
            refused: sum_of(&self.codes),
        })
    }
}
