//! The least of failures.
ghost use Rattle.std.specs.Prelude.{◌≡◌, option_map};
ghost use Rattle.gw_check.specs.Checked.{is_before, lesser, least};
ghost use Rattle.gw_resolve.specs.Seen.{failure, failures};

use gw_resolve::Failure;

fn is_before(a: Failure, b: Failure) -> bool
    ensures { result ≡ is_before (failure a) (failure b) }
{
    a.rule < b.rule || (a.rule == b.rule && a.mark.line < b.mark.line)
}

// The lesser of the two.
fn lesser(a: Failure, least: Option<Failure>) -> Failure
    ensures { failure result ≡ lesser (failure a) (option_map failure least) }
{
    match least {
        Some(b) if is_before(b, a) => b,
        _ => a,
    }
}

/// The least rule that fails, at the least line where it does.
pub(crate) fn least(found: &[Failure]) -> Option<Failure>
    ensures { option_map failure result ≡ least (failures found.now) }
{
    let mut least = None;
    let mut left = found.len();
    while left > 0 {
        left -= 1;
        least = Some(lesser(found[left], least));
    }
    least
}
