//! The records of a log's files, one by one.
ghost use Rattle.std.specs.Prelude.{◌≡◌, ◌+◌, ◌∷◌, [], length, drop, IfOk, OnOk, IsTrue};
ghost use Rattle.gw_log.specs.State.{IsRead};

use crate::fault::ListFault;
use gw_log::{Disk, LogFault, Reader, read_head};
use std::alloc::Global;
use std::marker::Model;

/// A file has fewer bytes.
const MOST: usize = 1 << 62;

/// Which log a walk goes over: its number, the number of its first file, how many records stood before it, and the number of its last file.
#[derive(Clone, Copy)]
struct Span {
    id: u64,
    first: u64,
    start: u64,
    last: u64,
}

/// Goes over the records of a log's files, from the first on. It needs memory for one record.
#[derive(Drop)]
pub struct Walk<D: Disk> {
    alloc: Global,
    reader: Reader<D>,
    upto: usize,
    span: Span,
    number: u64,
    place: u64,
    head: Vec<u8>,
    is_ended: bool,
}

impl<D: Disk> Model for Walk<D> {
    ghost use Rattle.gw_listing.specs.Walks.{WalkState};

    ghost Value = { WalkState D };

    ghost view = { λ w. record {
      reader = w.reader;
      upto = w.upto;
      id = w.span.id;
      first = w.span.first;
      start = w.span.start;
      number = w.number;
      last = w.span.last;
      place = w.place;
      head = w.head.items;
      ended = w.is_ended;
    } };
}

/// A fault in a file, from its first byte on.
pub(crate) fn damaged(segment: u64) -> LogFault {
    LogFault::Damaged { segment, at: 0 }
}

/// A reader of a file behind its first record, and this record. It reads up to the file's last byte, the gate at its end: this number of bytes.
pub(crate) fn begin_file<D: Disk>(
    alloc: Global,
    disk: D,
    number: u64,
) -> Result<(Reader<D>, Vec<u8>, usize), (LogFault, D)>
    ensures read { IfOk result (λ r. D.honest r.0.disk → IsRead D.seen r.0 (r.1.items ∷ [])) }
    ensures opened { IfOk result (λ r. IsTrue r.0.is_open) }
    ensures upto { IfOk result (λ r. D.honest r.0.disk → r.2 + 1 ≡ length (D.seen r.0.disk number)) }
    ensures number { IfOk result (λ r. r.0.number ≡ number) }
    ensures seen { IfOk result (λ r. D.seen r.0.disk ≡ D.seen disk) }
    ensures back { IfOk result (λ r. D.honest r.0.disk → D.honest disk) }
{
    let mut disk = disk;
    let size = match disk.size(number) {
        Ok(size) => size,
        Err(fault) => return Err((LogFault::from(fault), disk)),
    };
    if size == 0 || size >= MOST {
        return Err((damaged(number), disk));
    }
    let upto = size - 1;
    let mut reader = Reader::at(alloc, disk, number, 0, upto);
    match reader.next() {
        Ok(Some(head)) => {
            if !reader.is_open() {
                return Err((damaged(number), reader.into_disk()));
            }
            Ok((reader, head, upto))
        }
        Ok(None) => Err((damaged(number), reader.into_disk())),
        Err(fault) => Err((fault, reader.into_disk())),
    }
}

// The first record of a file that follows on this number of records, as `begin_file` gives it.
fn follow<D: Disk>(
    alloc: Global,
    disk: D,
    number: u64,
    place: u64,
) -> Result<(Reader<D>, Vec<u8>, usize), (ListFault, D)>
    ensures read { IfOk result (λ r. D.honest r.0.disk → IsRead D.seen r.0 (r.1.items ∷ [])) }
    ensures opened { IfOk result (λ r. IsTrue r.0.is_open) }
    ensures upto { IfOk result (λ r. D.honest r.0.disk → r.2 + 1 ≡ length (D.seen r.0.disk number)) }
    ensures number { IfOk result (λ r. r.0.number ≡ number) }
    ensures seen { IfOk result (λ r. D.seen r.0.disk ≡ D.seen disk) }
    ensures back { IfOk result (λ r. D.honest r.0.disk → D.honest disk) }
{
    let (reader, head, upto) = match begin_file(alloc, disk, number) {
        Ok(begun) => begun,
        Err((fault, disk)) => return Err((ListFault::Log(fault), disk)),
    };
    let follows = match read_head(&head) {
        Some(head) => head.first == place,
        None => false,
    };
    if !follows {
        return Err((ListFault::Displaced { segment: number }, reader.into_disk()));
    }
    Ok((reader, head, upto))
}

// Whether these bytes are a gate of 0 alone.
fn is_closed_gate(bytes: &[u8]) -> bool
    ensures { IsTrue result → bytes.now ≡ 0 ∷ [] }
{
    match bytes {
        [gate] => *gate == 0,
        _ => false,
    }
}

// Fails unless a gate of 0 stands at this byte of a file, and nothing behind it.
fn find_gate<D: Disk>(alloc: Global, disk: &mut D, number: u64, at: usize) -> Result<(), LogFault>
    ensures gate { D.honest disk.new → OnOk result (drop at (D.seen disk.old number) ≡ 0 ∷ []) }
    ensures seen { D.seen disk.new ≡ D.seen disk.old }
    ensures back { D.honest disk.new → D.honest disk.old }
{
    let bytes = disk.read(alloc, number, at, 2)?;
    if is_closed_gate(&bytes) {
        return Ok(());
    }
    Err(LogFault::Damaged {
        segment: number,
        at,
    })
}

// The disk of a reader behind the record that ends its file, which is of this number. Only a gate of 0 may stand there.
fn close<D: Disk>(alloc: Global, reader: Reader<D>, number: u64) -> Result<D, (LogFault, D)>
    ensures gate { IfOk result (λ d. D.honest d → drop reader.at (D.seen reader.disk number) ≡ 0 ∷ []) }
    ensures seen { IfOk result (λ d. D.seen d ≡ D.seen reader.disk) }
    ensures back { IfOk result (λ d. D.honest d → D.honest reader.disk) }
{
    let at = reader.place();
    let mut disk = reader.into_disk();
    match find_gate(alloc, &mut disk, number, at) {
        Ok(()) => Ok(disk),
        Err(fault) => Err((fault, disk)),
    }
}

impl<D: Disk> Walk<D> {
    ghost use Rattle.std.specs.Prelude.{◌≡◌, ◌+◌, ◌∷◌, ◌++◌, [], ℕ, List, length, leb};
    ghost use Rattle.std.specs.Prelude.{IfOk, IfSome, IfNone, IsTrue, ◌↔◌};
    ghost use Rattle.gw_listing.specs.Walks.{IsListed, IsAtEnd};

    /// Before the first record of the files from the first to the last.
    pub(crate) fn over(
        alloc: Global,
        disk: D,
        id: u64,
        first: u64,
        last: u64,
    ) -> Result<Walk<D>, (LogFault, D)>
        ensures listed { IfOk result (λ w. D.honest w.reader.disk → IsListed D.seen w []) }
        ensures id { IfOk result (λ w. w.id ≡ id) }
        ensures first { IfOk result (λ w. w.first ≡ first) }
        ensures last { IfOk result (λ w. w.last ≡ last) }
        ensures seen { IfOk result (λ w. D.seen w.reader.disk ≡ D.seen disk) }
        ensures back { IfOk result (λ w. D.honest w.reader.disk → D.honest disk) }
    {
        let (reader, head, upto) = begin_file(alloc, disk, first)?;
        let start = match read_head(&head) {
            Some(head) => head.first,
            None => return Err((damaged(first), reader.into_disk())),
        };
        Ok(Walk {
            alloc,
            reader,
            upto,
            span: Span {
                id,
                first,
                start,
                last,
            },
            number: first,
            place: start,
            head,
            is_ended: false,
        })
    }

    /// The first record of the file that is read.
    pub fn head(&self) -> &[u8]
        ensures { result.now ≡ self.now.head }
    {
        &self.head
    }

    /// The number of the file that is read.
    pub fn segment(&self) -> u64
        ensures { result ≡ self.now.number }
    {
        self.number
    }

    /// The byte of this file where the next record begins.
    pub fn at(&self) -> usize
        ensures { result ≡ self.now.reader.at }
    {
        self.reader.place()
    }

    /// The place of the log's first record.
    pub fn start(&self) -> u64
        ensures { result ≡ self.now.start }
    {
        self.span.start
    }

    // The fault that no record of the log stands where the next one begins.
    fn damage(&self) -> ListFault {
        ListFault::Log(LogFault::Damaged {
            segment: self.number,
            at: self.reader.place(),
        })
    }

    fn is_at_end(&self) -> bool
        ensures { IsTrue result ↔ IsAtEnd self.now }
    {
        self.upto <= self.reader.place()
    }

    /// The next record of the file that is read, with its place in the log. `None`: there is none.
    pub fn next(&mut self) -> Result<Option<(u64, Vec<u8>)>, ListFault>
        // All that was given so far, and this record, are the first records of the log, in order, each once.
        ensures some { D.honest self.new.reader.disk → (before : List (List ℕ)) → IsListed D.seen self.old before →
            IfOk result (λ found. IfSome found (λ r. IsListed D.seen self.new (before ++ r.1.items ∷ []))) }
        ensures place { (before : List (List ℕ)) → IsListed D.seen self.old before →
            IfOk result (λ found. IfSome found (λ r. r.0 ≡ self.old.start + length before)) }
        ensures none { D.honest self.new.reader.disk → (before : List (List ℕ)) → IsListed D.seen self.old before →
            IfOk result (λ found. IfNone found (IsListed D.seen self.new before)) }
        ensures end { IfOk result (λ found. IfNone found (IsAtEnd self.new)) }
        ensures seen { D.seen self.new.reader.disk ≡ D.seen self.old.reader.disk }
        ensures back { D.honest self.new.reader.disk → D.honest self.old.reader.disk }
    {
        if self.is_at_end() {
            return Ok(None);
        }
        if self.is_ended {
            return Err(self.damage());
        }
        let Some(record) = self.reader.next()? else {
            return Err(self.damage());
        };
        if !self.reader.is_open() {
            return Err(self.damage());
        }
        if record.is_empty() {
            // (it ends the file)
            self.is_ended = true;
            if self.is_at_end() {
                return Ok(None);
            }
            return Err(self.damage());
        }
        let place = self.place;
        let Some(next) = place.checked_add(1) else {
            return Err(ListFault::Log(LogFault::Full));
        };
        self.place = next;
        Ok(Some((place, record)))
    }

    /// Whether the file that is read is the last.
    pub fn is_last(&self) -> bool
        ensures { result ≡ leb self.now.last self.now.number }
    {
        self.span.last <= self.number
    }

    /// Goes on to the next file, whose head has to say how many records stand before it. The file that was read has to be ended: an empty record, a gate of 0, and nothing behind it.
    pub fn turn(self) -> Result<Walk<D>, (ListFault, D)>
        ensures listed { IfOk result (λ w. D.honest w.reader.disk → (before : List (List ℕ)) →
            IsListed D.seen self before → IsListed D.seen w before) }
        ensures same { IfOk result (λ w. (w.id ≡ self.id) × (w.first ≡ self.first) × (w.start ≡ self.start) × (w.last ≡ self.last)) }
        ensures number { IfOk result (λ w. w.number ≡ self.number + 1) }
        ensures seen { IfOk result (λ w. D.seen w.reader.disk ≡ D.seen self.reader.disk) }
        ensures back { IfOk result (λ w. D.honest w.reader.disk → D.honest self.reader.disk) }
    {
        let damage = self.damage();
        let Walk {
            alloc,
            reader,
            upto: _,
            span,
            number,
            place,
            head: _,
            is_ended,
        } = self;
        if !is_ended {
            return Err((damage, reader.into_disk()));
        }
        let disk = match close(alloc, reader, number) {
            Ok(disk) => disk,
            Err((fault, disk)) => return Err((ListFault::Log(fault), disk)),
        };
        let Some(number) = number.checked_add(1) else {
            return Err((ListFault::Log(LogFault::Full), disk));
        };
        let (reader, head, upto) = follow(alloc, disk, number, place)?;
        Ok(Walk {
            alloc,
            reader,
            upto,
            span,
            number,
            place,
            head,
            is_ended: false,
        })
    }

    /// Gives the disk back.
    pub fn into_disk(self) -> D
        ensures { result ≡ self.reader.disk }
    {
        let Walk {
            alloc: _,
            reader,
            upto: _,
            span: _,
            number: _,
            place: _,
            head: _,
            is_ended: _,
        } = self;
        reader.into_disk()
    }
}
