//! What no clause says: that the calls succeed where there is memory.

use hub_model::{Commits, Condition, Found, Tags};
use std::test::Fail;

#[test]
fn up_to_sixteen_commits_are_named(rt: HostRuntime) -> Result<(), Fail> {
    let alloc = rt.alloc();
    let mut tags = Commits::new(alloc);
    for commit in 1..20 {
        if !tags.is_full() {
            tags.push(commit)?;
        }
    }
    assert_eq!(rt; tags.len(), 16);
    let condition = Condition::Unchanged(Tags::Listed(tags)).clone()?;
    assert!(rt; condition.is_met(Found::At(16), 16));
    assert!(rt; !condition.is_met(Found::At(17), 17));
    Ok(())
}
