//! Root hashes of many rows, against tables from outside.

use mst_pair::run::run;
use mst_pair::sink::ToWrite;
use mst_pair::source::FromRead;
use std::alloc::Global;
use std::fmt::Write;
use std::test::Fail;

/// Numbers of rows, and their root hash in format 1, which is that of the Rust crate merkle-search-tree 0.8.0: the keys are the texts
/// k0000, k0001 and so on, and each has the square of its number.
const ROOTS: [(u64, &str); 15] = [
    (0, "UEnXR4Cj4H1CAqtH1M7y9A=="),
    (1, "yHnxQb2UAvJQMlq9TWK/Cw=="),
    (2, "UcQ5h58fM5IX92I63UOgsg=="),
    (3, "pLZyCR/wNV0QBAMaJty16w=="),
    (5, "zAihizUd5O/Nd/cyN+jwGw=="),
    (10, "HVI1Mk1vJf+tDE1tYEwpJg=="),
    (16, "aI4QytrOks1BxM2/es04iA=="),
    (17, "boyKS+QoEkBW4fSMhdqTXQ=="),
    (50, "bmkSJ1ODSkrpVzq2osfpLA=="),
    (100, "+R+izyBIErciCldqlvg9XA=="),
    (256, "rDUqEnfVpt1fJvmN1DHrZw=="),
    (257, "cscU0iiFxD7TH8M0gdN/Dg=="),
    (500, "4PdVJBx9NcNCRN9bUI9aAA=="),
    (1000, "FuxO+wPeHVvuPBPmhAUZFg=="),
    (2000, "dANiWnICsGau1PiWojttvA=="),
];

/// The same in format 2, by a second program.
const ROOTS_OF_FORMAT_2: [(u64, &str); 5] = [
    (0, "9/FwCJ+cWkM577LEunsrHQ=="),
    (1, "KIFCoxJAxub0v94KVeZbYQ=="),
    (17, "ieBcg6uxMsPZXRhC8HJXvw=="),
    (100, "iswy42fCOg4qStLKIFV8KQ=="),
    (1000, "AOKYcKgCzGnwzaasl2I7fg=="),
];

/// What is written to a line that sets the format, to this many puts, and to a line that asks for the root hash.
fn root_of_rows(alloc: Global, format: u8, count: u64) -> Result<Vec<u8>, Fail> {
    let mut input = format!(in alloc; "format {format}\n")?;
    for number in (0..count).rev() {
        writeln!(input, "put a k{number:04} {}", number.wrapping_mul(number))?;
    }
    input.push_str("root a\n")?;
    let mut output = Vec::new(alloc);
    let mut reader = FromRead::new(input.as_bytes());
    let mut writer = ToWrite::new(&mut output);
    match run(alloc, &mut reader, &mut writer) {
        Ok(()) => Ok(output),
        Err(_) => Err(Fail::from("a fault")),
    }
}

/// Whether the last line that is written is this root hash.
fn shows_root(alloc: Global, format: u8, count: u64, root: &str) -> Result<bool, Fail> {
    let output = root_of_rows(alloc, format, count)?;
    let end = output.len().saturating_sub(1);
    let start = end.saturating_sub(root.len());
    Ok(&output[start..end] == root.as_bytes())
}

#[test]
fn shows_the_root_hashes_of_the_tables(rt: HostRuntime) -> Result<(), Fail> {
    for (count, root) in ROOTS {
        assert!(rt; shows_root(rt.alloc(), 1, count, root)?, "{count} rows");
    }
    for (count, root) in ROOTS_OF_FORMAT_2 {
        assert!(rt;
            shows_root(rt.alloc(), 2, count, root)?,
            "{count} rows in format 2"
        );
    }
    Ok(())
}
