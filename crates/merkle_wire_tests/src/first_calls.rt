//! The lines that doc comments of messages show.
use crate::sessions::Numbers;
use merkle_replica::Replica;
use merkle_search_tree::builder::Builder;
use merkle_wire::{CatchingUp, Question, catch_up_by_messages, decode_question};
use std::test::Fail;

#[test]
fn a_replica_catches_up_by_messages(rt: HostRuntime) -> Result<(), Fail> {
    let alloc = rt.alloc();
    let mut office: Numbers<String> = Replica::new(alloc, Builder::default());
    let mut laptop: Numbers<String> = Replica::new(alloc, Builder::default());
    laptop.put(String::from_str(alloc, "bananas")?, 7)?;
    let joined = catch_up_by_messages(alloc, &mut office, &mut laptop)?;
    assert_eq!(rt; joined, 1);
    Ok(())
}

#[test]
fn a_first_message_asks_for_the_root(rt: HostRuntime) -> Result<(), Fail> {
    let alloc = rt.alloc();
    let laptop: Numbers<String> = Replica::new(alloc, Builder::default());
    let (_, message) = CatchingUp::begin(alloc, &laptop)?;
    match decode_question::<String>(alloc, &message)? {
        Question::Root(settings) => assert_eq!(rt; settings.level_base, 16),
        _ => return Err(Fail::new("another question")),
    }
    Ok(())
}
