//! Translates a message by a checked map.
ghost use Rattle.std.specs.Prelude.{◌≡◌, IfOk, None};
ghost use Rattle.gw_er7.specs.Message.{IsMessage};
ghost use Rattle.gw_profile.specs.Seen.{profile_value};
ghost use Rattle.gw_validate.specs.Conforming.{Conforms};
ghost use Rattle.gw_validate.specs.Broken.{IsTreeOf};
ghost use Rattle.gw_maplang.specs.Lawful.{Lawful};
ghost use Rattle.gw_maplang.specs.Seen.{map_value};
ghost use Rattle.gw_check.specs.Kept.{resolved_map};
ghost use Rattle.gw_interp.specs.Meaning.{Means};

use crate::items::put_items;
use gw_check::CheckedMap;
use gw_er7::{Builder, Message};
use gw_maplang::Map;
use gw_validate::{Occ, Tree};
use std::alloc::{AllocError, Global};

// The whole message as an occurrence, with what its tree's type says of it.
fn root_of(tree: &Tree) -> Occ<'_>
    ensures root { result ≡ record { message = tree.now.message; number = None; tree = tree.now.tree } }
    ensures tree { IsTreeOf (profile_value tree.now.profile) tree.now.message tree.now.tree }
    ensures conforms { Conforms (profile_value tree.now.profile) tree.now.message }
    ensures message { IsMessage tree.now.message }
{
    // Called for its clause, which says what every message keeps.
    let _segments = tree.message().segment_count();
    tree.root()
}

// The map, with what its type says of it.
fn rows_of(map: &CheckedMap) -> &Map
    ensures map { result.now ≡ map.now.map }
    ensures lawful { Lawful (map_value map.now.map) }
{
    let rows = map.map();
    // Called for its clause, which says what every map keeps.
    let _items = rows.items();
    rows
}

/// Translates a message. `tree` is its tree by the map's source. The result is the one message that the map makes of it, and it conforms to
/// the map's target. The one error is allocation failure.
///
/// The time grows with the occurrences that the map's items walk, with the rules made for each, and with the texts that these read and put.
/// The factor is the logarithm of the number of values in a segment. The size of the numbers of places doesn't matter.
/// An inner item may walk occurrences outside those of the item around it. Then it walks them once for each of the outer ones.
/// So the numbers multiply, and the result may be larger than the message and the map together.
pub fn translate(alloc: Global, map: &CheckedMap, tree: &Tree) -> Result<Message, AllocError>
    requires takes { profile_value tree.now.profile ≡ profile_value map.now.source }
    ensures means { IfOk result (λ made. Means (profile_value map.now.target) (resolved_map map.now) tree.now.message tree.now.tree made) }
    ensures conforms { IfOk result (λ made. Conforms (profile_value map.now.target) made) }
{
    let mut scope = Vec::new(alloc);
    scope.push(root_of(tree))?;
    let mut builder = Builder::new(alloc);
    let rows = rows_of(map);
    let nodes = map.target().nodes();
    put_items(rows, &mut scope, &mut builder, nodes, map.items())?;
    Ok(builder.finish())
}
