use crate::rows::text;
use examples::removable::{Removable, remove};
use examples::store::{Store, open_rows};
use std::test::Fail;

/// Values written under one name, in turn, and removals of it at a time: the time, the value or `None` for a removal, and what is then there,
/// likewise.
const WRITES: [(u64, Option<u64>, Option<u64>); 6] = [
    (2, Some(70), Some(70)),
    (1, None, Some(70)),
    (2, None, None),
    (2, Some(90), None),
    (3, Some(50), Some(50)),
    (4, None, None),
];

#[test]
fn the_later_of_writes_and_removals_stays(rt: HostRuntime) -> Result<(), Fail> {
    let alloc = rt.alloc();
    let mut store: Store<Removable> = open_rows(alloc, Vec::new(alloc))?;
    for (time, written, after) in WRITES {
        let name = text(alloc, "door")?;
        match written {
            Some(value) => store.put(
                name,
                Removable {
                    time,
                    removed: false,
                    value,
                },
            )?,
            None => remove(&mut store, name, time)?,
        }
        match store.rows() {
            [(_, held)] => {
                assert_eq!(rt; held.removed, after.is_none());
                assert_eq!(rt; held.value, after.unwrap_or(0));
            }
            _ => return Err(Fail::from("not one row")),
        }
    }
    Ok(())
}
