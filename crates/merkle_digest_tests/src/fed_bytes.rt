use merkle_digest::{HashBytes, Sip24};
use std::process::Abort;
use std::test::Fail;

/// Asserts that a value feeds these bytes and no others.
fn expect_fed<T: HashBytes>(rt: &impl Abort, value: &T, bytes: &[u8]) {
    let mut fed = Sip24::new();
    value.feed(&mut fed);
    let mut written = Sip24::new();
    written.write(bytes);
    assert!(rt; fed.finish128() == written.finish128(), "{bytes:?}");
}

#[test]
fn bytes_that_are_fed(rt: HostRuntime) -> Result<(), Fail> {
    let text = [0x70, 0x6c, 0xc3, 0xa1, 0x74, 0x61, 0x6e, 0x6f, 0x73];
    expect_fed(&rt, &"plátanos", &text);
    expect_fed(&rt, &String::from_str(rt.alloc(), "plátanos")?, &text);
    expect_fed(&rt, &text, &text);
    expect_fed(&rt, &text.to_vec(rt.alloc())?, &text);
    expect_fed(&rt, &text.as_slice(), &text);
    expect_fed(&rt, &(), &[]);
    expect_fed(&rt, &true, &[1]);
    expect_fed(&rt, &false, &[0]);
    expect_fed(&rt, &(7u8, "ab"), &[7, 0x61, 0x62]);
    expect_fed(&rt, &("ab", (false, 258u16)), &[0x61, 0x62, 0, 2, 1]);
    expect_fed(&rt, &7u8, &[7]);
    expect_fed(&rt, &4660u16, &[0x34, 0x12]);
    expect_fed(&rt, &0x0403_0201u32, &[1, 2, 3, 4]);
    expect_fed(&rt, &42u64, &[0x2a, 0, 0, 0, 0, 0, 0, 0]);
    expect_fed(
        &rt,
        &1u128,
        &[1, 0, 0, 0, 0, 0, 0, 0, 0, 0, 0, 0, 0, 0, 0, 0],
    );
    Ok(())
}
