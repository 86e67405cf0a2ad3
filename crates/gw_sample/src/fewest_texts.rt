//! How many texts have to come in a message, counted before one is made up.
ghost use Rattle.std.specs.Prelude.{◌≡◌, ◌≤◌, ◌↔◌, map, min, IsTrue};
ghost use Rattle.std.specs.List.{sum_by};
ghost use Rattle.gw_profile.specs.Seen.{sub as seen_sub, comp as seen_comp, field as seen_field, segment_value, node_forest, forest};
ghost use Rattle.gw_profile.specs.Shapes.{nothing};
ghost use Rattle.gw_sample.specs.FewestTexts.{of_sub, of_comp, of_field, of_segment, fewest_texts};

use crate::least::is_required;
use gw_profile::{CompShape, FieldShape, Node, Profile, SegNode, SubShape};

/// How many texts have to come at most: with a separator each they fill the 1,048,576 bytes of a message (`gw_mllp`).
const MOST: u64 = 524_288;

// Each count below is one more than the most where it would be larger.

fn count_sub(sub: &SubShape) -> u64
    ensures { result ≡ min (of_sub (seen_sub sub.now)) 524289 }
{
    if is_required(sub.usage) {
        return 1;
    }
    0
}

fn count_subs(subs: &[SubShape]) -> u64
    ensures { result ≡ min (sum_by of_sub (map seen_sub subs.now)) 524289 }
{
    let mut count = 0;
    for sub in subs {
        count = (count + count_sub(sub)).min(MOST + 1);
    }
    count
}

fn count_comp(comp: &CompShape) -> u64
    ensures { result ≡ min (of_comp (seen_comp comp.now)) 524289 }
{
    if !is_required(comp.usage) {
        return 0;
    }
    count_subs(&comp.subs).max(1)
}

fn count_comps(comps: &[CompShape]) -> u64
    ensures { result ≡ min (sum_by of_comp (map seen_comp comps.now)) 524289 }
{
    let mut count = 0;
    for comp in comps {
        count = (count + count_comp(comp)).min(MOST + 1);
    }
    count
}

fn count_field(field: &FieldShape) -> u64
    ensures { result ≡ min (of_field (seen_field field.now)) 524289 }
{
    let each = count_comps(&field.comps).max(1);
    (u64::from(field.card.min) * each).min(MOST + 1)
}

fn count_fields(fields: &[FieldShape]) -> u64
    ensures { result ≡ min (sum_by of_field (map seen_field fields.now)) 524289 }
{
    let mut count = 0;
    for field in fields {
        count = (count + count_field(field)).min(MOST + 1);
    }
    count
}

fn count_segment(segment: &SegNode) -> u64
    ensures { result ≡ min (of_segment (segment_value segment.now)) 524289 }
{
    let each = count_fields(&segment.fields);
    (u64::from(segment.card.min) * each).min(MOST + 1)
}

#[cycle(fewest_texts)]
fn count_node(node: &Node) -> u64
    ensures { result ≡ min (fewest_texts (node_forest node.now nothing)) 524289 }
{
    match node {
        Node::Seg(segment) => count_segment(segment),
        Node::Group(group) => {
            let each = count_nodes(&group.nodes);
            (u64::from(group.card.min) * each).min(MOST + 1)
        }
    }
}

#[cycle(fewest_texts)]
fn count_nodes(nodes: &[Node]) -> u64
    ensures { result ≡ min (fewest_texts (forest nodes.now)) 524289 }
{
    let mut count = 0;
    for node in nodes {
        count = (count + count_node(node)).min(MOST + 1);
    }
    count
}

/// Whether the texts that have to come are few enough for a message.
pub(crate) fn are_few(profile: &Profile) -> bool
    ensures { IsTrue result ↔ (fewest_texts (forest profile.now.nodes) ≤ 524288) }
{
    count_nodes(profile.nodes()) <= MOST
}
