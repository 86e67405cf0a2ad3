//! What is written over a file that must not change.
ghost use Rattle.std.specs.Prelude.{◌≡◌, ◌-◌, ◌≤◌, List, ℕ, length, take, drop, IfOk, OnOk, OnErr};
ghost use Rattle.gw_folder.specs.Layers.{over};
ghost use Rattle.gw_log.specs.Disk.{IsWritten};

use std::alloc::{AllocError, Global};
use std::marker::Model;

/// Of a file this number of bytes is seen, and behind them these.
#[derive(Drop)]
pub(crate) struct Layer {
    keep: usize,
    tail: Vec<u8>,
}

impl Model for Layer {
    ghost use Rattle.gw_folder.specs.Layers.{LayerState};

    ghost Value = { LayerState };

    ghost view = { λ l. record { keep = l.keep; tail = l.tail.items } };
}

// Bytes with others written over them, and past their end.
fn written(alloc: Global, old: &[u8], at: usize, bytes: &[u8]) -> Result<Vec<u8>, AllocError>
    ensures { IfOk result (λ new. IsWritten at bytes.now old.now new.items) }
{
    let mut new = Vec::from_slice(alloc, &old[..at.min(old.len())])?;
    new.extend_from_slice(bytes)?;
    let end = at.saturating_add(bytes.len());
    if end < old.len() {
        new.extend_from_slice(&old[end..])?;
    }
    Ok(new)
}

// Of bytes those from here on: this number of them, or as many as there are.
#[tactic(auto, using(crate::proofs::Overs::part_capped))]
fn part(bytes: &[u8], at: usize, len: usize) -> &[u8]
    ensures { result.now ≡ take len (drop at bytes.now) }
{
    let (_, rest) = bytes.split_at(at.min(bytes.len()));
    let (part, _) = rest.split_at(len.min(rest.len()));
    part
}

impl Layer {
    /// All of a file of this length is seen.
    pub(crate) fn new(alloc: Global, len: usize) -> Layer
        ensures { (file : List ℕ) → length file ≡ len → over result file ≡ file }
    {
        Layer {
            keep: len,
            tail: Vec::new(alloc),
        }
    }

    /// How many bytes of the file are seen.
    pub(crate) fn keep(&self) -> usize
        ensures { result ≡ self.now.keep }
    {
        self.keep
    }

    /// What is seen behind them.
    pub(crate) fn tail(&self) -> &[u8]
        ensures { result.now ≡ self.now.tail }
    {
        &self.tail
    }

    /// How many bytes are seen.
    pub(crate) fn size(&self) -> usize {
        self.keep.saturating_add(self.tail.len())
    }

    /// Sees no byte from here on.
    pub(crate) fn cut(&mut self, len: usize)
        ensures { (file : List ℕ) → self.old.keep ≤ length file →
            over self.new file ≡ take len (over self.old file) }
    {
        if len <= self.keep {
            self.keep = len;
            self.tail.clear();
        } else {
            self.tail.truncate(len - self.keep);
        }
    }

    /// Sees fewer bytes of the file, and these in their place: those from here on.
    pub(crate) fn lift(&mut self, at: usize, between: Vec<u8>) -> Result<(), AllocError>
        requires { at ≤ self.old.keep }
        ensures ok { OnOk result ((file : List ℕ) → self.old.keep ≤ length file →
            between.items ≡ take (self.old.keep - at) (drop at file) → over self.new file ≡ over self.old file) }
        ensures keep { OnOk result (self.new.keep ≡ at) }
        ensures err { OnErr result (self.new ≡ self.old) }
    {
        let mut tail = between;
        tail.extend_from_slice(&self.tail)?;
        self.tail = tail;
        self.keep = at;
        Ok(())
    }

    /// Sees these bytes from here on, and then what was seen behind them.
    pub(crate) fn write(&mut self, alloc: Global, at: usize, bytes: &[u8]) -> Result<(), AllocError>
        requires { self.old.keep ≤ at }
        ensures ok { OnOk result ((file : List ℕ) → self.old.keep ≤ length file →
            IsWritten at bytes.now (over self.old file) (over self.new file)) }
        ensures err { OnErr result (self.new ≡ self.old) }
    {
        self.tail = written(alloc, &self.tail, at - self.keep, bytes)?;
        Ok(())
    }

    /// Of what is seen the bytes from here on: this number of them, or as many as there are. These are those of the file among them.
    pub(crate) fn read(
        &self,
        mut front: Vec<u8>,
        at: usize,
        len: usize,
    ) -> Result<Vec<u8>, AllocError>
        ensures { IfOk result (λ out. (file : List ℕ) → self.now.keep ≤ length file →
            front.items ≡ take len (drop at (take self.now.keep file)) →
            out.items ≡ take len (drop at (over self.now file))) }
    {
        let more = len.saturating_sub(front.len());
        front.extend_from_slice(part(&self.tail, at.saturating_sub(self.keep), more))?;
        Ok(front)
    }
}
