//! Runs of clients: the text of a run, whose digest comes from an independent model.
use hex::encode;
use sha2::{Digest, Sha256};
use std::alloc::Global;
use std::test::Fail;
use world_core::{Silent, world_text};

/// The digest of the text of a run, in lower-case hexadecimal.
fn digest_of(alloc: Global, seed: u64, steps: u32) -> Result<String, Fail> {
    let text = world_text(alloc, seed, steps, &mut Silent)?;
    Ok(encode(alloc, Sha256::digest(text.as_slice()))?)
}

#[test]
fn a_run_of_one_step_has_its_numbers(rt: HostRuntime) -> Result<(), Fail> {
    let text = world_text(rt.alloc(), 7, 1, &mut Silent)?;
    let wanted = b"steps 1\ncommits 2000\nreads 0\ncached 0\ndirect 0\nrecord 0\n";
    assert!(rt; text.as_slice() == wanted.as_slice());
    Ok(())
}

#[test]
fn a_run_has_the_text_of_the_model(rt: HostRuntime) -> Result<(), Fail> {
    let wanted = "359be66678586b906697c9449ebfe18e7826495b3ace6c7166c4b34de74c3e13";
    let digest = digest_of(rt.alloc(), 7, 300)?;
    assert!(rt; digest.as_str() == wanted);
    Ok(())
}
