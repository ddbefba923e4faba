use crate::rows::text;
use examples::register::{Register, Registers, Signed, Stamped, settle, sign, stamp, write};
use examples::store::{Store, open_rows};
use std::alloc::Global;
use std::test::Fail;

/// Writes to one register, in turn: the time, the writer and the value, and the value that the register then has.
const WRITES: [(u64, u64, u64, u64); 5] = [
    (2, 1, 70, 70),
    (1, 9, 80, 70),
    (2, 0, 90, 70),
    (2, 3, 60, 60),
    (4, 0, 50, 50),
];

#[test]
fn the_last_writer_wins(rt: HostRuntime) -> Result<(), Fail> {
    let alloc = rt.alloc();
    let mut registers: Registers = open_rows(alloc, Vec::new(alloc))?;
    for (time, writer, value, after) in WRITES {
        let register = Register {
            time,
            writer,
            value,
        };
        write(&mut registers, text(alloc, "door")?, register)?;
        match registers.rows() {
            [(_, held)] => assert_eq!(rt; held.value, after),
            _ => return Err(Fail::from("not one register")),
        }
    }
    Ok(())
}

#[test]
fn the_greater_pair_stays(rt: HostRuntime) -> Result<(), Fail> {
    let alloc = rt.alloc();
    let mut registers: Stamped = open_rows(alloc, Vec::new(alloc))?;
    for (time, value, after) in [
        (2, 70, 70),
        (1, 80, 70),
        (2, 60, 70),
        (2, 90, 90),
        (4, 50, 50),
    ] {
        stamp(&mut registers, text(alloc, "door")?, time, value)?;
        match registers.rows() {
            [(_, held)] => assert_eq!(rt; held.0.1, after),
            _ => return Err(Fail::from("not one register")),
        }
    }
    Ok(())
}

/// What two writers write, one into each store: the time, the writer and the value of each, and the value that both stores then hold.
const TWO_WRITERS: [((u64, u64, u64), (u64, u64, u64), u64); 4] = [
    ((2, 1, 70), (2, 3, 60), 60),
    ((3, 1, 70), (2, 3, 60), 70),
    ((2, 1, 70), (2, 1, 90), 90),
    ((2, 1, 70), (2, 1, 70), 70),
];

/// The store with what a writer writes: the time, the writer and the value.
fn signed(alloc: Global, write: (u64, u64, u64)) -> Result<Store<Signed>, Fail> {
    let mut store: Store<Signed> = open_rows(alloc, Vec::new(alloc))?;
    sign(&mut store, text(alloc, "door")?, write.0, write.1, write.2)?;
    Ok(store)
}

/// The values that two stores with these writes hold, once they settled.
fn settled(
    alloc: Global,
    write: (u64, u64, u64),
    other: (u64, u64, u64),
) -> Result<(u64, u64), Fail> {
    let mut a = signed(alloc, write)?;
    let mut b = signed(alloc, other)?;
    settle(&mut a, &mut b)?;
    match (a.rows(), b.rows()) {
        ([(_, here)], [(_, there)]) => Ok((here.0.1.1, there.0.1.1)),
        _ => Err(Fail::from("not one register each")),
    }
}

#[test]
fn two_writers_settle(rt: HostRuntime) -> Result<(), Fail> {
    for (write, other, after) in TWO_WRITERS {
        assert_eq!(rt; settled(rt.alloc(), write, other)?, (after, after));
    }
    Ok(())
}
