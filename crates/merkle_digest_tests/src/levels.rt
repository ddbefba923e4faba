use merkle_digest::{Digest, default_level_base, level};
use std::num::NonZeroU8;

#[test]
fn levels_in_base_16(rt: HostRuntime) {
    let base = default_level_base();
    let four_bytes = [
        ([0x00, 0x00, 0x00, 0x11], 6),
        ([0x00, 0x10, 0x00, 0x11], 3),
        ([0x11, 0x00, 0x00, 0x00], 0),
    ];
    for (bytes, want) in four_bytes {
        assert!(rt; level(&Digest::new(bytes), base) == want, "{bytes:?}");
    }
    for (bytes, want) in [([0x00, 0x10], 3), ([0x00, 0x11], 2)] {
        assert!(rt; level(&Digest::new(bytes), base) == want, "{bytes:?}");
    }
    for (first, second, want) in [
        (0x00, 0x00, 32),
        (0x01, 0x00, 0),
        (0x10, 0x00, 1),
        (0x00, 0x10, 3),
    ] {
        let mut bytes = [0; 16];
        bytes[0] = first;
        bytes[1] = second;
        assert!(rt; level(&Digest::new(bytes), base) == want, "{bytes:?}");
    }
    assert!(rt; level(&Digest::new([]), base) == 0);
}

#[test]
fn levels_of_one_byte_in_base_16(rt: HostRuntime) {
    assert!(rt; level(&Digest::new([0]), default_level_base()) == 2);
    for byte in 1..=255 {
        let want = if byte % 16 == 0 { 1 } else { 0 };
        assert!(rt;
            level(&Digest::new([byte]), default_level_base()) == want,
            "{byte}"
        );
    }
}

/// The level in base 16 of the digest of 200 bytes that are this many zeros, then this byte, then bytes `22`.
fn level_of_200_bytes(zeros: usize, byte: u8) -> u8 {
    let mut bytes = [0x22; 200];
    for (place, to) in bytes.iter_mut().enumerate() {
        if place < zeros {
            *to = 0;
        } else if place == zeros {
            *to = byte;
        }
    }
    level(&Digest::new(bytes), default_level_base())
}

#[test]
fn levels_of_200_bytes(rt: HostRuntime) {
    for (zeros, byte, want) in [
        (200, 0x11, 255),
        (128, 0x11, 255),
        (127, 0xf0, 255),
        (127, 0x11, 254),
    ] {
        assert!(rt;
            level_of_200_bytes(zeros, byte) == want,
            "{zeros} zeros and {byte}"
        );
    }
}

#[test]
fn levels_stop_at_255(rt: HostRuntime) {
    for (last, want) in [(0x00, 255), (0x10, 255), (0x11, 254)] {
        let mut bytes = [0; 128];
        bytes[127] = last;
        assert!(rt;
            level(&Digest::new(bytes), default_level_base()) == want,
            "{last}"
        );
    }
}

#[test]
fn levels_in_the_least_and_the_greatest_base(rt: HostRuntime) {
    let least = NonZeroU8::MIN;
    let greatest = NonZeroU8::MAX;
    assert!(rt; level(&Digest::new([0x00, 0x05, 0x00]), least) == 3);
    for (byte, base, want) in [
        (0xff, least, 1),
        (0x00, least, 2),
        (0xff, greatest, 1),
        (0xfe, greatest, 0),
        (0x10, greatest, 0),
    ] {
        assert!(rt; level(&Digest::new([byte]), base) == want, "{byte}");
    }
}
