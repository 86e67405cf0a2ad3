//! The tree of a message that conforms.
use crate::worked::{ORU, profile, tree};
use gw_er7::read;
use gw_validate::Occ;
use std::test::Fail;

// The occurrence of this number of a child, if there is one.
fn at<'a>(occ: &Occ<'a>, child: usize, k: usize) -> Option<Occ<'a>> {
    if child >= occ.children() {
        return None;
    }
    if k >= occ.count(child) {
        return None;
    }
    Some(occ.child(child, k))
}

// Whether a tree has two results, of two orders and of one, and which segments of the first are the second order.
fn is_shaped(root: &Occ<'_>) -> Option<bool> {
    let first = at(root, 1, 0)?;
    let second = at(root, 1, 1)?;
    let order = at(&first, 1, 1)?;
    let segment = at(&order, 0, 0)?;
    let segment = segment.segment()?;
    let ends = at(root, 1, 2).is_none() && at(&first, 1, 2).is_none();
    Some(ends && at(&second, 1, 1).is_none() && segment.name() == *b"OBR")
}

#[test]
fn results(rt: HostRuntime) -> Result<(), Fail> {
    let alloc = rt.alloc();
    let content = b"MSH|^~\\&\rPID|1\rOBR|1\rOBR|2\rPID|2\rOBR|3\r";
    let tree = tree(alloc, profile(alloc, ORU)?, read(alloc, content)?)?;
    assert!(rt; is_shaped(&tree.root()) == Some(true) && tree.message().segment_count() == 6);
    assert!(rt; tree.profile().name() == b"ORU".as_slice());
    assert!(rt; tree.into_message().segment_count() == 6);
    Ok(())
}
