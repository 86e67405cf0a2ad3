//! Where a table, a value of a table and a segment's name are looked for first: most names of tables differ in their last bytes, and
//! most values in their ends.
ghost use Rattle.std.specs.Prelude.{◌≡◌, ◌<◌, map, true, Some, IfSome, bytes_eq};
ghost use Rattle.std.specs.List.{list_any};
ghost use Rattle.gw_profile.specs.Fault.{is_among};
ghost use Rattle.gw_profile.specs.Seen.{table};
ghost use Rattle.gw_profile.specs.Value.{table_of};

use crate::table::Table;
use gw_er7::same::same_bytes;
use indexmap::IndexMap;

/// For the last bytes of a name, the number of a table that may have it. A number that is wrong costs time alone.
#[derive(Clone, Copy)]
pub(crate) struct NearTables {
    numbers: [u8; 256],
}

// The last three bytes of a name, in one.
#[inline(always)]
fn ending(name: &[u8]) -> u8 {
    let len = name.len();
    if len < 3 {
        return 0;
    }
    let spread = name[len - 3].wrapping_mul(107);
    let tens = name[len - 2].wrapping_mul(16);
    name[len - 1].wrapping_add(tens).wrapping_add(spread)
}

impl NearTables {
    /// Where these tables lie.
    pub(crate) fn of(tables: &IndexMap<Vec<u8>, Table>) -> NearTables {
        let mut numbers = [0u8; 256];
        for number in 0..256usize {
            let Some((name, _)) = tables.get_index(number) else {
                return NearTables { numbers };
            };
            numbers[ending(name) as usize] = number as u8;
        }
        NearTables { numbers }
    }

    /// The table of this name, where it lies where it is looked for first.
    #[inline(always)]
    pub(crate) fn find<'a>(
        &self,
        tables: &'a IndexMap<Vec<u8>, Table>,
        name: &[u8],
    ) -> Option<&'a Table>
        ensures { IfSome result (λ found. table_of name.now (map table tables.now.entries) ≡ Some found.now) }
    {
        let (other, found) = tables.get_index(self.numbers[ending(name) as usize] as usize)?;
        if !same_bytes(other, name) {
            return None;
        }
        Some(found)
    }
}

/// For the length of a value and its ends, the number of a value that may be the same. A number that is wrong costs time alone.
#[derive(Clone, Copy)]
pub(crate) struct NearValues {
    numbers: [u8; 64],
}

// The length of a value, its first byte and its last, in one.
#[inline(always)]
fn ends(value: &[u8]) -> usize
    ensures { result < 64 }
{
    let len = value.len();
    if len == 0 {
        return 0;
    }
    let first = value[0].wrapping_mul(3);
    let last = value[len - 1].wrapping_mul(2);
    let spread = (len % 16) as u8 * 16;
    (first.wrapping_add(last).wrapping_add(spread) % 64) as usize
}

impl NearValues {
    /// Where these values lie.
    pub(crate) fn of(values: &[Vec<u8>]) -> NearValues {
        let mut numbers = [0u8; 64];
        for number in 0..256usize {
            if number >= values.len() {
                return NearValues { numbers };
            }
            numbers[ends(&values[number])] = number as u8;
        }
        NearValues { numbers }
    }

    /// Whether this is the value that lies where it is looked for first.
    #[inline(always)]
    pub(crate) fn has(&self, values: &[Vec<u8>], value: &[u8]) -> bool
        ensures { result ≡ true → is_among value.now (map (λ v. v.items) values.now) ≡ true }
    {
        let number = self.numbers[ends(value)] as usize;
        if number >= values.len() {
            return false;
        }
        same_bytes(&values[number], value)
    }
}

/// For the bytes of a segment's name, the number of a name that may be the same. A number that is wrong costs time alone.
#[derive(Clone, Copy)]
pub(crate) struct NearNames {
    numbers: [u8; 256],
}

// The three bytes of a segment's name, in one. The usual names of HL7 differ in it.
#[inline(always)]
fn mixed(name: [u8; 3]) -> u8 {
    let first = name[0].wrapping_mul(91);
    let second = name[1].wrapping_mul(82);
    name[2].wrapping_add(second).wrapping_add(first)
}

impl NearNames {
    /// Where these names lie.
    pub(crate) fn of(names: &[[u8; 3]]) -> NearNames {
        let mut numbers = [0u8; 256];
        for number in 0..256usize {
            if number >= names.len() {
                return NearNames { numbers };
            }
            numbers[mixed(names[number]) as usize] = number as u8;
        }
        NearNames { numbers }
    }

    /// Whether this is the name that lies where it is looked for first.
    #[inline(always)]
    pub(crate) fn has(&self, names: &[[u8; 3]], name: [u8; 3]) -> bool
        ensures { result ≡ true → list_any (bytes_eq name) names.now ≡ true }
    {
        let number = self.numbers[mixed(name) as usize] as usize;
        if number >= names.len() {
            return false;
        }
        name == names[number]
    }
}
