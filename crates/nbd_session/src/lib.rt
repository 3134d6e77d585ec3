//! Conversations with clients, over any reader and writer. `specs/Conversation.antt` says what is said to the bytes of a
//! client, and how the conversation ends.
#![tactic(auto)]

mod haggling;
mod laws;
mod option_input;
mod outcomes;
mod serving;
mod single_client;
mod transmission;

pub use haggling::haggle;
pub use laws::{
    asked_at_the_end, handshake_is_haggled, one_conversation, requests_are_plain,
    worked_conversations,
};
pub use outcomes::{End, Entry, TalkFault};
pub use single_client::{table_of, talk};
