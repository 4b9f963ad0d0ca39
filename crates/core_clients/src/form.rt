//! Texts of a web form (URL Standard, section 5).
ghost use Rattle.std.specs.Prelude.{◌≡◌, ◌⊎◌, IfOk, IfErr};
ghost use Rattle.std.specs.Str.{IsUtf8};
ghost use Rattle.form_urlencoded.specs.Form.{decode};
ghost use Rattle.core_clients.specs.declared.query.QueryError.TheVariants as errors;

use super::query::QueryError;
use http_edge::decoded;
use shape_base::Text;
use std::alloc::Global;

/// The text that a name or a value stands for; `BadPayload` where it stands for none.
pub fn text_of(alloc: Global, raw: &[u8]) -> Result<Text, QueryError>
    ensures read { IfOk result (λ text. (text ≡ decode raw.now) × IsUtf8 (decode raw.now)) }
    ensures refused { IfErr result (λ e. (e ≡ errors.OutOfMemory) ⊎ ((e ≡ errors.BadPayload) × (IsUtf8 (decode raw.now) → ⊥))) }
{
    match Text::from_bytes(decoded(alloc, raw)?) {
        Ok(text) => Ok(text),
        Err(_) => Err(QueryError::BadPayload),
    }
}
