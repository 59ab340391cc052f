// Document 01, 'Replies': the reply to a call, in digits, written to the front of a lent buffer.
#![tactic(auto)]

pub mod replies;
pub mod write;
