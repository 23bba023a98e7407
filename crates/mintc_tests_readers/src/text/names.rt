//! Names: short ones, which stand in themselves, and long ones.
use mintc_text::Name;
use std::alloc::Global;
use std::test::Fail;

/// Whether a name of so many bytes keeps them, and so does its copy.
fn is_kept(alloc: Global, count: usize) -> Result<bool, Fail> {
    let mut bytes = Vec::new(alloc);
    for place in 0..count {
        bytes.push((place % 251) as u8)?;
    }
    let name = Name::new(alloc, &bytes)?;
    let copy = name.copy(alloc)?;
    Ok(name.bytes() == bytes.as_slice() && copy.bytes() == bytes.as_slice())
}

// A name keeps up to 22 bytes in itself.
#[test]
fn names_keep_few_and_many_bytes(rt: HostRuntime) -> Result<(), Fail> {
    for count in &[0, 1, 22, 23, 1_000] {
        assert!(rt; is_kept(rt.alloc(), *count)?, "of {count} bytes");
    }
    Ok(())
}
