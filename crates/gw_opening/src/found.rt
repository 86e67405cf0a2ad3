//! What the folder of a gateway has when a gateway starts.
use gw_due::laws::Rules;
use gw_log::Start;
use std::marker::{Brand, PhantomData};

/// What a folder has when a gateway starts: a log that gateways wrote, or no file. A theorem holds for each.
pub trait Found<R: Rules> {
    ghost use Rattle.std.specs.Prelude.{ℕ, List};
    ghost use Rattle.gw_due.specs.Spelling.{Entry};
    ghost use Rattle.gw_log.specs.Disk.{Files};
    ghost use Rattle.gw_opening.specs.Folders.{IsFolder};

    ghost files: { Files };

    ghost id: { ℕ };

    ghost entries: { List Entry };

    ghost folder: { IsFolder R.routes id files entries };
}

/// A folder without a file.
impl<R: Rules> Found<R> for Brand {
    ghost use Rattle.std.specs.Prelude.{[]};
    ghost use Rattle.gw_opening.specs.own.Alike.{no_file};

    ghost files = { λ number. [] };

    ghost id = { 0 };

    ghost entries = { [] };

    ghost folder = { no_file R.routes };
}

/// The files that a folder had at the start.
pub struct Had<F: Found<R>, R: Rules> {
    found: PhantomData<F>,
    rules: PhantomData<R>,
}

impl<F: Found<R>, R: Rules> Start for Had<F, R> {
    ghost files = { F.files };
}
