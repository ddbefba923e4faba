use merkle_digest::KeyBytes;
use std::process::Abort;
use std::test::Fail;

fn expect_bytes<K: KeyBytes>(rt: &impl Abort, key: &K, bytes: &[u8]) {
    assert!(rt; key.key_bytes() == bytes);
}

#[test]
fn bytes_of_keys(rt: HostRuntime) -> Result<(), Fail> {
    let text = [0x70, 0x6c, 0xc3, 0xa1, 0x74, 0x61, 0x6e, 0x6f, 0x73];
    expect_bytes(&rt, &"plátanos", &text);
    expect_bytes(&rt, &String::from_str(rt.alloc(), "plátanos")?, &text);
    expect_bytes(&rt, &text, &text);
    expect_bytes(&rt, &text.to_vec(rt.alloc())?, &text);
    Ok(())
}
