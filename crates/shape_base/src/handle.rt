//! Handles, which name the logs of shapes.
ghost use Rattle.std.specs.Prelude.{◌≡◌, IfOk, IsErrOf};
ghost use Rattle.std.specs.List.{list_all};
ghost use Rattle.shape_base.specs.Handle.{is_run_byte, is_run, IsHandle, handle_text};

use super::decimal::{read_decimal, split_at_first};
use super::memory::{Duplicate, OutOfMemory};
use super::text::Text;
use std::alloc::{AllocError, Global};

/// The name of one log: its number in a run of the server, from 1, and the name of that run.
#[derive(Drop)]
pub struct Handle {
    pub number: u64,
    pub run: Text,
}

/// Why a text was not read as a handle.
#[derive(Clone, Copy, Debug, PartialEq, Eq)]
pub enum HandleError {
    /// It is not a canonical decimal from 1, a hyphen, and 1 to 36 lower-case letters, digits and hyphens.
    BadHandle,
    OutOfMemory,
}

impl From<AllocError> for HandleError {
    ghost use Rattle.std.specs.Prelude.{◌≡◌};
    ghost use Rattle.shape_base.specs.declared.handle.HandleError.TheVariants as errors;

    ghost from_gives = { λ _ e. e ≡ errors.OutOfMemory };

    fn from(_error: AllocError) -> HandleError {
        HandleError::OutOfMemory
    }
}

impl Duplicate for Handle {
    fn copy(&self, alloc: Global) -> Result<Handle, OutOfMemory> {
        Ok(Handle {
            number: self.number,
            run: self.run.copy(alloc)?,
        })
    }
}

fn is_run_byte(byte: u8) -> bool
    ensures { result ≡ is_run_byte byte }
{
    byte.is_ascii_lowercase() || byte.is_ascii_digit() || byte == b'-'
}

fn are_run_bytes(bytes: &[u8]) -> bool
    ensures { result ≡ list_all is_run_byte bytes.now }
{
    bytes.iter().all(|byte| is_run_byte(*byte))
}

/// Whether the bytes name a run of the server: 1 to 36 lower-case letters, digits and hyphens.
pub fn is_run(bytes: &[u8]) -> bool
    ensures { result ≡ is_run bytes.now }
{
    let length = bytes.len();
    1 <= length && length <= 36 && are_run_bytes(bytes)
}

impl Handle {
    ghost use Rattle.shape_base.specs.declared.handle.Handle.{Handle};

    /// The handle with this text: its number in canonical decimal, from 1, a hyphen, and the name of its run.
    ///
    /// Any other text is `BadHandle`.
    pub fn read(alloc: Global, text: &[u8]) -> Result<Handle, HandleError>
        ensures read { IfOk result (λ handle. (text.now ≡ handle_text handle) × IsHandle handle) }
        ensures refused { IsErrOf result HandleError.BadHandle → (handle : Handle) → IsHandle handle → text.now ≡ handle_text handle → ⊥ }
    {
        let Some((number, run)) = split_at_first(text, b'-') else {
            return Err(HandleError::BadHandle);
        };
        let Some(number) = read_decimal(number) else {
            return Err(HandleError::BadHandle);
        };
        if number == 0 || !is_run(run) {
            return Err(HandleError::BadHandle);
        }
        let run = Text::of_bytes(Vec::from_slice(alloc, run)?);
        Ok(Handle { number, run })
    }

    /// The one text that reads as it.
    pub fn print(&self, alloc: Global) -> Result<Text, OutOfMemory>
        requires { IsHandle self.now }
        ensures { IfOk result (λ text. text ≡ handle_text self.now) }
    {
        let number = self.number;
        let run = self.run.as_str();
        Ok(Text::from_string(format!(in alloc; "{number}-{run}")?))
    }
}
