//! The packets of the host line, read and written.
#![tactic(auto)]

mod around;
mod behind;
mod checksum;
mod fields;
mod form;
mod head;
mod marked;
mod password;
mod request;
mod response;
mod write;

pub use around::{data_place, write_reply_around};
pub use behind::asks_with_data;
pub use form::Form;
pub use marked::marked_packets;
pub use password::{PASSWORD_LENGTH, password_sum};
pub use request::{Request, read_request, write_request};
pub use response::{Outcome, Reply, Response, read_response, write_replies, write_reply};
