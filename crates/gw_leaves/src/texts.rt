//! What a subcomponent asks of texts that are known one by one.
ghost use Rattle.std.specs.Prelude.{◌≡◌, ◌∷◌, [], not, nat_lt, option_copied, bytes_eq};
ghost use Rattle.gw_profile.specs.Lengths.{measure as measured};
ghost use Rattle.std.specs.List.{list_any};
ghost use Rattle.gw_leaves.specs.Leaves as spec;
ghost use Rattle.gw_leaves.specs.Texts.{some_items, values_value};

use crate::shape::Values;
use gw_profile::{Count, Table, measure};

// ---- one text

/// Whether the text is missing from the table.
pub(crate) fn is_missing(table: Option<&Table>, text: &[u8]) -> bool
    ensures { result ≡ spec.may_be_unlisted (spec.listed (text.now ∷ [])) (option_copied table.entry) }
{
    table.is_some_and(|table| !table.contains(text))
}

/// Whether the text is longer than this.
pub(crate) fn is_long(len: Option<u32>, text: &[u8], to: Count) -> bool
    ensures { result ≡ spec.may_be_long to (spec.listed (text.now ∷ [])) len }
{
    len.is_some_and(|most| u64::from(most) < measure(to, text))
}

// ---- those of a shape

fn is_one_of(text: &[u8], all: &[Vec<u8>]) -> bool
    ensures { result ≡ list_any (λ v. bytes_eq text.entry.now v.items) all.now }
{
    all.iter().any(|other| text == other.as_slice())
}

fn some_outside(texts: &[Vec<u8>], all: &[Vec<u8>]) -> bool
    ensures { result ≡ list_any (λ v. not (list_any (λ w. bytes_eq v.items w.items) all.now)) texts.now }
{
    texts.iter().any(|text| !is_one_of(text, all))
}

fn some_over(texts: &[Vec<u8>], most: u32, to: Count) -> bool
    ensures { result ≡ list_any (λ v. nat_lt most (measured to v.items)) texts.now }
{
    texts.iter().any(|text| u64::from(most) < measure(to, text))
}

/// Whether a text of a shape may be missing from these.
pub(crate) fn may_be_outside(values: &Values, table: Option<&[Vec<u8>]>) -> bool
    ensures { result ≡ spec.may_be_unlisted (values_value values.now) (some_items table.entry) }
{
    let Some(all) = table else {
        return false;
    };
    match values {
        Values::Any(_, _) => true,
        Values::Listed(texts) => some_outside(texts, all),
    }
}

/// Whether a text that isn't longer than the length by one count may be longer than the most by the other.
pub(crate) fn may_exceed(count: Count, len: u32, to: Count, most: u32) -> bool
    ensures { result ≡ spec.may_exceed count len to most }
{
    match count {
        Count::Octets => most < len,
        Count::Characters => match to {
            Count::Octets => true,
            Count::Characters => most < len,
        },
    }
}

/// Whether a text of a shape may be longer than this.
#[tactic(auto, using(crate::proofs::Inserted::any_map))]
pub(crate) fn may_be_long(values: &Values, len: Option<u32>, to: Count) -> bool
    ensures { result ≡ spec.may_be_long to (values_value values.now) len }
{
    let Some(most) = len else {
        return false;
    };
    match values {
        Values::Any(None, _) => true,
        Values::Any(Some(len), count) => may_exceed(*count, *len, to, most),
        Values::Listed(texts) => some_over(texts, most, to),
    }
}
