//! Parses a profile, line by line.
ghost use Rattle.std.specs.Prelude.{◌≡◌, ◌∷◌, [], map, IfOk, OnOk};
ghost use Rattle.gw_lines.specs.Seen.{word};
ghost use Rattle.gw_lines.specs.Reading.{Gives, first_of, adding};
ghost use Rattle.gw_profile.specs.declared.fault.ProfileFault.TheVariants as fault;
ghost use Rattle.gw_profile.specs.Fault as spec;
ghost use Rattle.gw_lines.specs.Grammar.{Taken};
ghost use Rattle.gw_profile.specs.Seen.{line, made, kept, said, Agreed};
ghost use Rattle.gw_profile.specs.own.Building.{built_value};
ghost use Rattle.gw_profile.specs.declared.reader.Tested.{Tested};
ghost use Rattle.gw_profile.specs.Whole.{whole, is_unclosed};

use crate::build::Built;
use crate::context::{
    Levels, NO_PARENTS, Parents, has_label, knows, levels_below, made, parents_below, part_fault,
    tables_below,
};
use crate::fault::ProfileFault;
use crate::form::{Line, agrees, form, is_forbidden};
use crate::profile::Profile;
use crate::shape::{Card, Usage};
use crate::table::Table;
use crate::whole::ruled;
use gw_lines::{Form, Word};
use indexmap::{IndexMap, IndexSet};
use std::alloc::{AllocError, Global};
use std::marker::Model;

const MAX_NESTED: usize = 8;

/// The lines of a profile so far.
#[derive(Drop)]
pub(crate) struct Reader<'a> {
    state: ReaderState<'a>,
}

// The lines so far, with what they leave open.
#[derive(Drop)]
struct ReaderState<'a> {
    alloc: Global,
    lines: Vec<Line<'a>>,
    parents: Parents,
    tables: IndexMap<Vec<u8>, Table>,
    levels: Levels<'a>,
}

// A line that has no fault, with its table.
#[derive(Drop)]
struct Tested<'a> {
    whole: Line<'a>,
    found: Option<Table>,
}

impl<'a> Model for Reader<'a> {
    ghost use Rattle.std.specs.Prelude.{List};
    ghost use Rattle.gw_profile.specs.Line.{Line};
    ghost use Rattle.gw_profile.specs.Seen.{said, Agreed};

    ghost Value = { List Line };

    ghost view = { λ r. said r.state };

    ghost invariant = { λ r. Agreed r.state };
}

impl<'a> Reader<'a> {
    /// A reader with no line.
    pub(crate) fn new(alloc: Global) -> Reader<'a>
        ensures { result ≡ [] }
    {
        Reader {
            state: ReaderState {
                alloc,
                lines: Vec::new(alloc),
                parents: NO_PARENTS,
                tables: IndexMap::new(alloc),
                levels: Levels {
                    labels: IndexSet::new(alloc),
                    outer: Vec::new(alloc),
                },
            },
        }
    }
}

impl<'a> ReaderState<'a> {
    fn begins_fault(&self, at: u32) -> Option<ProfileFault>
        ensures { result ≡ first_of (spec.begins_tests (said self.now) at) }
    {
        if self.lines.is_empty() {
            None
        } else {
            Some(ProfileFault::Syntax(at))
        }
    }

    fn table_fault(&self, at: u32, name: &[u8], repeats: bool) -> Option<ProfileFault>
        requires { Agreed self.now }
        ensures { result ≡ first_of (spec.table_line_tests (said self.now) at name.now repeats) }
    {
        if self.lines.is_empty() {
            return Some(ProfileFault::Syntax(at));
        }
        if knows(&self.tables, name) || repeats {
            return Some(ProfileFault::Duplicate(at));
        }
        None
    }

    fn segment_fault(
        &self,
        at: u32,
        label: &[u8],
        usage: Option<Usage>,
        card: Card,
    ) -> Option<ProfileFault>
        requires { Agreed self.now }
        ensures { result ≡ first_of (spec.segment_tests (said self.now) at label.now usage card) }
    {
        if self.lines.is_empty() {
            return Some(ProfileFault::Syntax(at));
        }
        if !agrees(usage, card) {
            return Some(ProfileFault::Usage(at));
        }
        if has_label(&self.levels.labels, label) {
            return Some(ProfileFault::Duplicate(at));
        }
        None
    }

    fn group_fault(
        &self,
        at: u32,
        label: &[u8],
        usage: Option<Usage>,
        card: Card,
    ) -> Option<ProfileFault>
        requires { Agreed self.now }
        ensures { result ≡ first_of (spec.group_tests (said self.now) at label.now usage card) }
    {
        if self.lines.is_empty() {
            return Some(ProfileFault::Syntax(at));
        }
        if !agrees(usage, card) || is_forbidden(usage) {
            return Some(ProfileFault::Usage(at));
        }
        if has_label(&self.levels.labels, label) {
            return Some(ProfileFault::Duplicate(at));
        }
        if self.levels.outer.len() >= MAX_NESTED {
            return Some(ProfileFault::TooDeep(at));
        }
        None
    }

    fn end_fault(&self, at: u32) -> Option<ProfileFault>
        requires { Agreed self.now }
        ensures { result ≡ first_of (spec.end_tests (said self.now) at) }
    {
        if self.levels.outer.is_empty() {
            Some(ProfileFault::Syntax(at))
        } else {
            None
        }
    }

    fn counts_fault(&self, at: u32) -> Option<ProfileFault>
        ensures { result ≡ first_of (spec.counts_tests (said self.now) at) }
    {
        if self.lines.len() == 1 {
            None
        } else {
            Some(ProfileFault::Syntax(at))
        }
    }

    // The fault of the next line; `found` is its table.
    fn fault_of(&self, at: u32, whole: &Line<'a>, found: &Option<Table>) -> Option<ProfileFault>
        requires agreed { Agreed self.now }
        requires found { found.now ≡ made (line whole.now) }
        ensures { result ≡ first_of (spec.tests (said self.now) at (line whole.now)) }
    {
        match whole {
            Line::Begins(_) => self.begins_fault(at),
            Line::Table(name, _) => self.table_fault(at, name, found.is_none()),
            Line::Segment(_, label, _, usage, card) => {
                self.segment_fault(at, label, *usage, *card)
            }
            Line::Field(number, usage, card, leaf) => part_fault(
                at,
                *number,
                agrees(*usage, *card),
                *leaf,
                self.parents.segment,
                &self.tables,
            ),
            Line::Comp(number, usage, leaf) => part_fault(
                at,
                *number,
                usage.is_some(),
                *leaf,
                self.parents.field,
                &self.tables,
            ),
            Line::Sub(number, usage, leaf) => part_fault(
                at,
                *number,
                usage.is_some(),
                *leaf,
                self.parents.comp,
                &self.tables,
            ),
            Line::Group(_, label, usage, card) => self.group_fault(at, label, *usage, *card),
            Line::End => self.end_fault(at),
            Line::Counts => self.counts_fault(at),
        }
    }

    // The next line by its words, with its table, or its fault.
    fn tested(&self, at: u32, words: &[Word<'a>]) -> Result<Tested<'a>, ProfileFault>
        requires { Agreed self.now }
        ensures line { Gives fault.Memory (λ (t : Tested). line t.whole) result (spec.takes (said self.now) at (map word words.now)) }
        ensures found { IfOk result (λ (t : Tested). t.found ≡ made (line t.whole)) }
    {
        let Some(whole) = form(self.alloc, at, words)? else {
            return Err(ProfileFault::Syntax(at));
        };
        let found = made(self.alloc, &whole)?;
        match self.fault_of(at, &whole, &found) {
            Some(fault) => Err(fault),
            None => Ok(Tested { whole, found }),
        }
    }

    // Appends a line that has no fault.
    fn take_in(&mut self, tested: Tested<'a>) -> Result<(), AllocError>
        requires found { tested.found ≡ made (line tested.whole) }
        requires taken { Taken spec.grammar (said self.old) (line tested.whole) }
        requires agreed { Agreed self.old }
        ensures lines { OnOk result (said self.new ≡ line tested.entry.whole ∷ said self.old) }
        ensures agreed { OnOk result (Agreed self.new) }
    {
        let Tested { whole, found } = tested;
        tables_below(self.alloc, &mut self.tables, &whole, found)?;
        levels_below(self.alloc, &mut self.levels, &whole)?;
        self.parents = parents_below(self.parents, &whole);
        self.lines.push(whole)?;
        Ok(())
    }

    // Appends the line of these words.
    fn take(&mut self, at: u32, words: &[Word<'a>]) -> Result<(), ProfileFault>
        requires { Agreed self.old }
        ensures lines { Gives fault.Memory (λ _. said self.new) result (adding spec.takes (said self.old) at (map word words.now)) }
        ensures agreed { OnOk result (Agreed self.new) }
    {
        let tested = self.tested(at, words)?;
        self.take_in(tested)?;
        Ok(())
    }

    // Whether a group is open, or there was no line.
    fn is_unclosed(&self) -> bool
        requires { Agreed self.now }
        ensures { result ≡ is_unclosed (said self.now) }
    {
        self.lines.is_empty() || !self.levels.outer.is_empty()
    }

    // The profile that the lines spell; `at` is the number of the line after the last.
    fn ruled(&self, at: u32) -> Result<Built, ProfileFault>
        requires { Agreed self.now }
        ensures { Gives fault.Memory (λ b. built_value b (kept (said self.now))) result (whole (said self.now) at) }
    {
        if self.is_unclosed() {
            return Err(ProfileFault::Syntax(at));
        }
        ruled(self.alloc, &self.lines)
    }

    fn into_tables(self) -> IndexMap<Vec<u8>, Table>
        ensures { result.entries ≡ self.entry.tables.entries }
    {
        self.tables
    }
}

impl<'a> Form<'a> for Reader<'a> {
    ghost use Rattle.gw_lines.specs.Reading.{Gives, adding};
    ghost use Rattle.gw_profile.specs.declared.fault.ProfileFault.TheVariants as fault;
    ghost use Rattle.gw_profile.specs.Fault.{takes};
    ghost use Rattle.gw_profile.specs.Seen.{profile_value};
    ghost use Rattle.gw_profile.specs.Whole.{whole};

    type Value = Profile;

    type Fault = ProfileFault;

    ghost step = { adding takes };

    ghost gives = { λ above at result. Gives fault.Memory profile_value result (whole above at) };

    fn take(self, at: u32, words: &[Word<'a>]) -> Result<Reader<'a>, ProfileFault> {
        let Reader { mut state } = self;
        state.take(at, words)?;
        Ok(Reader { state })
    }

    fn finish(self, at: u32) -> Result<Profile, ProfileFault> {
        let Reader { state } = self;
        let Built {
            name,
            count,
            nodes,
            ..
        } = state.ruled(at)?;
        let alloc = state.alloc;
        let profile = Profile::of(alloc, name, count, state.into_tables(), nodes)?;
        Ok(profile)
    }
}
