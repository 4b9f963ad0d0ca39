//! How a shape is registered for a request.
ghost use Rattle.std.specs.Prelude.{◌≡◌, ◌<◌, length, None, IfOk, IfErr, OnErr};
ghost use Rattle.shape_registry.specs.State.{live_as};
ghost use Rattle.http_edge.specs.declared.error_code.ErrorCode.TheVariants as codes;
ghost use Rattle.http_edge.specs.Lawful.{refusal_of_limit, refusal_to_register};
ghost use Rattle.core_law.specs.Situation as law;
ghost use Rattle.core_law.specs.Situation.{Options, known_of};
ghost use Rattle.core_server.specs.Standing.{Stands, IsSituated};
ghost use Rattle.core_server.specs.Registers.{IsDefinedFor, definition_refusal, IsRegistered, IsRegisterError, error_of, is_memory};

use crate::server::Server;
use http_edge::{Detail, ErrorCode};
use shape_base::{Ask, Duplicate, OutOfMemory};
use shape_def::{Def, DefError};
use shape_registry::RegisterError as NoNumber;
use shape_state::Shape;
use std::alloc::Global;

/// Why no shape is registered for a request.
#[derive(Drop)]
pub enum RegisterError {
    /// It is refused with this code.
    Refused { code: ErrorCode },
    OutOfMemory,
}

impl From<OutOfMemory> for RegisterError {
    ghost use Rattle.std.specs.Prelude.{◌≡◌};
    ghost use Rattle.core_server.specs.declared.registering.RegisterError.TheVariants as errors;

    ghost from_gives = { λ _ e. e ≡ errors.OutOfMemory };

    fn from(_error: OutOfMemory) -> RegisterError {
        RegisterError::OutOfMemory
    }
}

/// Why there is no definition, as an error of registering.
fn refusal_of_definition(error: DefError) -> RegisterError
    ensures { result ≡ error_of error }
{
    match error {
        DefError::OutOfMemory => RegisterError::OutOfMemory,
        DefError::KeyMissing => RegisterError::Refused {
            code: ErrorCode::SnapshotRefused {
                detail: Detail::KeyMissing,
            },
        },
        DefError::UnknownColumn { .. } => RegisterError::Refused {
            code: ErrorCode::UnknownColumn,
        },
        DefError::KeyNotSelected => RegisterError::Refused {
            code: ErrorCode::KeyNotSelected,
        },
        DefError::Syntax { place } => RegisterError::Refused {
            code: ErrorCode::WhereSyntax { place },
        },
        DefError::TooDeep { place } => RegisterError::Refused {
            code: ErrorCode::WhereSyntax { place },
        },
        DefError::TypeMismatch { atom } => RegisterError::Refused {
            code: ErrorCode::WhereType { atom },
        },
        DefError::BadLiteral { atom } => RegisterError::Refused {
            code: ErrorCode::WhereType { atom },
        },
    }
}

/// Whether memory was wanted for a number.
fn is_memory<K: Drop>(error: NoNumber<K>) -> bool
    ensures { result ≡ is_memory error }
{
    match error {
        NoNumber::OutOfMemory { .. } => true,
        NoNumber::Exists { .. } => false,
        NoNumber::TooMany { .. } => false,
        NoNumber::NumbersSpent { .. } => false,
    }
}

impl Server {
    /// The definition for a request, over the catalogue's definition of its table.
    fn define(&self, alloc: Global, ask: &Ask) -> Result<Def, RegisterError>
        requires situated { IsSituated self.now }
        requires served { ask.now.table < length self.now.tables }
        ensures ok { (o : Options) (v : law.Server) → Stands o v self.now → IfOk result (IsDefinedFor o v ask.now) }
        ensures refused { (o : Options) (v : law.Server) → Stands o v self.now → IfErr result (IsRegisterError (definition_refusal o v ask.now)) }
    {
        let definition = self.registry.catalog(ask.table);
        match Def::from_ask(alloc, ask, &self.tables, definition) {
            Ok(def) => Ok(def),
            Err(error) => Err(refusal_of_definition(error)),
        }
    }

    /// The code where no more shapes may be registered.
    fn too_many(&self) -> ErrorCode
        ensures { result ≡ codes.TooManyShapes self.now.limits.shapes (length self.now.registry.state.live) }
    {
        ErrorCode::TooManyShapes {
            limit: self.limits.shapes,
            live: self.registry.live(),
        }
    }

    /// Gives the next number to the identity of a request, and keeps a shape for it.
    fn put(&mut self, alloc: Global, ask: &Ask, def: Def) -> Result<u64, RegisterError>
        requires served { ask.now.table < length self.old.registry.state.catalog }
        requires free { live_as self.old.registry.state ask.now.identity ≡ None }
        ensures put { (o : Options) (v : law.Server) → Stands o v self.old → IsDefinedFor o v ask.now def → IfOk result (IsRegistered o v ask.now self.new) }
        ensures refused { (o : Options) (v : law.Server) → Stands o v self.old → IfErr result (IsRegisterError (refusal_of_limit (known_of o v) v.registry)) }
        ensures unchanged { OnErr result (self.new ≡ self.old) }
    {
        let identity = ask.identity.copy(alloc)?;
        let shape = Shape::begin(alloc, def, self.limits)?;
        match self.registry.register(alloc, identity, ask.table, shape) {
            Ok(number) => Ok(number),
            Err(error) => {
                if is_memory(error) {
                    Err(RegisterError::OutOfMemory)
                } else {
                    Err(RegisterError::Refused {
                        code: self.too_many(),
                    })
                }
            }
        }
    }

    /// Registers a shape for a request that names no handle, and whose identity is live under none. It has the next number, from 1 on, and waits for its snapshot.
    ///
    /// Refused exactly where its definition is refused over the catalogue's definition of its table, and else where as many shapes are live as may be or 2^64 - 1 was given. After a refusal the
    /// server is as it was.
    pub fn register(&mut self, alloc: Global, ask: &Ask) -> Result<u64, RegisterError>
        requires situated { IsSituated self.old }
        requires served { ask.now.table < length self.old.tables }
        requires free { live_as self.old.registry.state ask.now.identity ≡ None }
        ensures registered { (o : Options) (v : law.Server) → Stands o v self.old → IfOk result (IsRegistered o v ask.now self.new) }
        ensures refused { (o : Options) (v : law.Server) → Stands o v self.old → IfErr result (IsRegisterError (refusal_to_register (known_of o v) v.registry ask.now)) }
        ensures unchanged { OnErr result (self.new ≡ self.old) }
    {
        match self.define(alloc, ask) {
            Ok(def) => self.put(alloc, ask, def),
            Err(error) => Err(error),
        }
    }
}
