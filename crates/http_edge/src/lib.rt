//! The texts of HTTP, both ways: heads of requests (RFC 9112), what a request asks for, refusals as replies, and replies.
#![tactic(auto)]

mod error_code;
mod head;
mod head_fields;
pub mod laws;
mod parameters;
mod reading;
mod refusal;
mod refusing;
mod replies;
mod reply_error;
mod reply_head;
mod reply_lines;
mod reply_values;
mod request;
mod route_values;
mod routing;
mod scanning;
mod status;
mod text_front;
pub mod text_laws;
mod writing;

pub use error_code::{Detail, ErrorCode};
pub use head::{has_more, read_request};
pub use parameters::{decoded, has_bad_percent};
pub use reading::read_reply;
pub use refusal::Refusal;
pub use refusing::refusal_reply;
pub use replies::{conflict_reply, next_cursor, page_reply};
pub use reply_error::ReplyError;
pub use reply_head::ReplyHead;
pub use request::{HeadError, Request};
pub use routing::route;
pub use writing::{has_text, write_reply};
