//! Statuses of replies.
ghost use Rattle.std.specs.Prelude.{◌≡◌, true};
ghost use Rattle.http_edge.specs.Status.{is_status, phrase};

use http::StatusCode;

/// Whether a reply may have this status.
#[tactic(auto, unfolding(crate::specs::Status::is_status))]
pub fn is_status(status: u16) -> bool
    ensures { result ≡ is_status status }
{
    status == 200
        || status == 400
        || status == 404
        || status == 405
        || status == 409
        || status == 413
        || status == 431
        || status == 500
        || status == 502
        || status == 503
}

/// The phrase of a status.
#[tactic(auto, unfolding(crate::specs::Status::phrase), using(crate::proofs::WritingLaws::status_is_code))]
pub fn phrase(status: u16) -> &'static str
    requires { is_status status ≡ true }
    ensures { result.now ≡ phrase status }
{
    match StatusCode::from_u16(status) {
        Ok(code) => code.canonical_reason().unwrap_or(""),
        Err(_) => "",
    }
}
