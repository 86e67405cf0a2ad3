//! Reads the records of a segment, from a place on.

use crate::disk::Disk;
use crate::fault::LogFault;
use crate::reading::record_at;
use crate::writing::BEFORE;
use std::alloc::Global;
use std::marker::Model;

/// Reads the records of one file, each of which is held against its digest. It needs no memory but for one record.
#[derive(Drop)]
pub struct Reader<D: Disk> {
    alloc: Global,
    disk: D,
    number: u64,
    at: usize,
    upto: usize,
    is_open: bool,
}

impl<D: Disk> Model for Reader<D> {
    ghost use Rattle.gw_log.specs.State.{ReaderState};

    ghost Value = { ReaderState D };

    ghost view = { λ r. record { disk = r.disk; number = r.number; at = r.at; upto = r.upto; is_open = r.is_open } };
}

impl<D: Disk> Reader<D> {
    ghost use Rattle.std.specs.Prelude.{◌≡◌, ◌≤◌, true, drop};
    ghost use Rattle.std.specs.Prelude.{IfOk, IfSome, IfNone, OnErr};
    ghost use Rattle.gw_log.specs.File.{HasRecordAt, HasNoRecord, OnDamaged};
    ghost use Rattle.gw_log.specs.State.{ReadsOn};

    /// Reads from this offset on, where a record begins, up to another, where one ends.
    pub fn at(alloc: Global, disk: D, number: u64, at: usize, upto: usize) -> Reader<D>
        ensures { result ≡ record { disk = disk; number = number; at = at; upto = upto; is_open = true } }
    {
        Reader {
            alloc,
            disk,
            number,
            at,
            upto,
            is_open: true,
        }
    }

    /// The next record. `None`: there is none before the end that was named.
    pub fn next(&mut self) -> Result<Option<Vec<u8>>, LogFault>
        ensures some { D.honest self.new.disk →
            IfOk result (λ found. IfSome found (λ r. ReadsOn D.seen self.old self.new r.items)) }
        ensures there { D.honest self.new.disk →
            IfOk result (λ found. IfSome found (λ r. HasRecordAt self.old.at r.items (D.seen self.old.disk self.old.number))) }
        ensures none { IfOk result (λ found. IfNone found (self.old.upto ≤ self.old.at)) }
        ensures damaged { D.honest self.new.disk →
            OnDamaged result (HasNoRecord (drop self.old.at (D.seen self.old.disk self.old.number))) }
        ensures err { OnErr result (self.new.at ≡ self.old.at) }
        ensures seen { D.seen self.new.disk ≡ D.seen self.old.disk }
        ensures number { self.new.number ≡ self.old.number }
        ensures upto { self.new.upto ≡ self.old.upto }
        ensures back { D.honest self.new.disk → D.honest self.old.disk }
    {
        if self.at >= self.upto {
            return Ok(None);
        }
        let (record, is_open) = record_at(self.alloc, &mut self.disk, self.number, self.at)?;
        self.at = self.at.saturating_add(BEFORE + record.len());
        self.is_open &= is_open;
        Ok(Some(record))
    }

    /// Goes on to a later end.
    pub fn go_on(&mut self, upto: usize)
        ensures { self.new ≡ record self.old { upto = upto } }
    {
        self.upto = upto;
    }

    /// Whether the gate of each record that was read was open. That of the last batch isn't, before another is put.
    pub fn is_open(&self) -> bool
        ensures { result ≡ self.now.is_open }
    {
        self.is_open
    }

    /// Where the next record begins.
    pub fn place(&self) -> usize
        ensures { result ≡ self.now.at }
    {
        self.at
    }

    /// Gives the disk back.
    pub fn into_disk(self) -> D
        ensures { result ≡ self.disk }
    {
        let Reader {
            alloc: _,
            disk,
            number: _,
            at: _,
            upto: _,
            is_open: _,
        } = self;
        disk
    }
}
