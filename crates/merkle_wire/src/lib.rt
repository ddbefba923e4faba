//! Sync between two machines as bytes in and bytes out: a transport only carries messages.
#![tactic(auto)]

mod answering;
mod catching_up;
mod coming;
mod gaps;
mod kept_replica;
mod kept_rows;
mod kept_side;
mod kept_tree;
pub mod laws;
mod limits;
mod message;
mod nodes;
mod outlines;
mod pages;
mod part_teller;
mod question;
mod replies;
mod rounds;
mod rows_at;
mod rows_in;
mod session;
mod session_error;
mod settings;
mod sifting;
mod taking;
mod wanted;
mod within;
mod work;

pub use answering::{AnswerError, KeptError, MOST_BYTES, answer, answer_by, answer_within};
pub use catching_up::{CatchingUp, Next};
pub use gaps::OwnedGap;
pub use kept_replica::{AskingReplica, KeptReplica};
pub use kept_rows::KeptRows;
pub use kept_side::KeptSide;
pub use kept_tree::KeptTree;
pub use limits::{Limit, Limits};
pub use merkle_bytes as bytes;
pub use message::{Kind, refusal};
pub use outlines::{Telling, tell_outline};
pub use part_teller::PartTeller;
pub use question::{Question, decode_question};
pub use rows_in::tell_part;
pub use session::{
    BothMessagesError, MessagesError, catch_up_both_by_messages, catch_up_by_messages,
};
pub use session_error::{SessionError, TakeError};
pub use settings::{Settings, are_settings_of};
pub use sifting::is_digest;
pub use wanted::Wanted;
pub use within::rows_ascend;
