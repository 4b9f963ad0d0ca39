//! The folding client.
ghost use Rattle.std.specs.Prelude.{◌≡◌, Option, IfOk};
ghost use Rattle.std.specs.Option.{option_copied};
ghost use Rattle.shape_base.specs.Log.{fold_from};
ghost use Rattle.fold_client.specs.declared.body.Body.{Body as Read};
ghost use Rattle.fold_client.specs.Client as law;
ghost use Rattle.fold_client.specs.Client.{Says};
ghost use Rattle.fold_client.specs.Target.{left_alone, target_text};
ghost use Rattle.fold_client.specs.Taking.{held_by, Meets, Spares, IsLawfulTake};

use super::body::{Body, body_in};
use super::parts::{comes_back, is_bad, is_current, is_same_handle, next_handle};
use super::rows::FoldedRows;
use super::target::target_of;
use shape_base::{Duplicate, Handle, Offset, OutOfMemory, Reply, Text};
use std::alloc::Global;

/// What a client wants to follow: a table, chosen columns, and a clause, as the parameters of its requests have them.
#[derive(Drop)]
pub struct Query {
    /// The table's name, with its schema before a dot where that is not `public`.
    pub table: Text,
    /// Names joined by commas; all columns where it has none.
    pub columns: Option<Text>,
    pub clause: Option<Text>,
}

/// What a client made of a reply.
#[derive(Clone, Copy, Debug, PartialEq, Eq)]
pub enum Taken {
    /// Its rows are those of its shape.
    UpToDate,
    /// More pages follow.
    More,
    /// Its rows are gone, and it starts again.
    Refetch,
}

/// Why a reply was not taken.
#[derive(Drop)]
pub enum TakeError {
    /// The page is none, or does not fit what was asked.
    BadReply,
    /// The page is of another handle than the present one.
    ForeignHandle { asked: Handle, got: Handle },
    /// The entry at this offset inserts this key, which is there, or updates or deletes it, which is not.
    BadFold { offset: Offset, key: Text },
    /// The status is neither 200 nor 409.
    ServerRefused { status: u16 },
    OutOfMemory,
}

impl From<OutOfMemory> for TakeError {
    ghost use Rattle.std.specs.Prelude.{◌≡◌};
    ghost use Rattle.fold_client.specs.declared.client.TakeError.TheVariants as errors;

    ghost from_gives = { λ _ e. e ≡ errors.OutOfMemory };

    fn from(_error: OutOfMemory) -> TakeError {
        TakeError::OutOfMemory
    }
}

/// A client that folds the pages of one query's shape into rows.
#[derive(Drop)]
pub struct Client {
    alloc: Global,
    query: Query,
    handle: Option<Handle>,
    left: Option<Handle>,
    offset: Offset,
    cursor: Option<u64>,
    rows: FoldedRows,
}

impl Client {
    /// A client that has nothing yet.
    pub fn new(alloc: Global, query: Query) -> Client
        ensures held { held_by result ≡ law.nothing_held }
        ensures query { result.query ≡ query }
    {
        Client {
            alloc,
            query,
            handle: None,
            left: None,
            offset: Offset::Start,
            cursor: None,
            rows: FoldedRows::new(alloc),
        }
    }

    /// Its rows.
    pub fn rows(&self) -> &FoldedRows
        ensures { result.now ≡ (held_by self.now).rows }
    {
        &self.rows
    }

    /// Where its next page begins.
    pub fn offset(&self) -> Offset
        ensures { result ≡ (held_by self.now).offset }
    {
        self.offset
    }

    /// Its present handle.
    pub fn handle(&self) -> Option<&Handle>
        ensures { option_copied result ≡ (held_by self.now).handle }
    {
        self.handle.as_ref()
    }

    /// The cursor of its last reply, where that one was up to date.
    pub fn cursor(&self) -> Option<u64>
        ensures { result ≡ (held_by self.now).cursor }
    {
        self.cursor
    }

    /// The handle that was left, where there is no present one.
    fn left_alone(&self) -> Option<&Handle>
        ensures { option_copied result ≡ left_alone self.now.handle self.now.left }
    {
        match &self.handle {
            Some(_) => None,
            None => self.left.as_ref(),
        }
    }

    /// The target of its next request: the path, its query's parameters, its handle or else the one that it left, its offset, and after an up-to-date reply `live` and
    /// that reply's cursor.
    pub fn next_target(&self) -> Result<Text, OutOfMemory>
        ensures { IfOk result (λ text. text ≡ target_text self.now.query (held_by self.now)) }
    {
        let handle = self.handle.as_ref();
        let left = self.left_alone();
        target_of(
            self.alloc,
            &self.query,
            handle,
            left,
            self.offset,
            self.cursor,
        )
    }

    /// The handle that a conflict leaves.
    fn leaving(&self) -> Option<&Handle>
        ensures { option_copied result ≡ law.left_by self.now.handle self.now.left }
    {
        match &self.handle {
            Some(handle) => Some(handle),
            None => self.left.as_ref(),
        }
    }

    /// Starts again with a handle, or with none.
    fn begin(&mut self, next: Option<Handle>)
        ensures held { held_by self.new ≡ record (law.begun_anew (law.left_by self.old.handle self.old.left) Option.None) { handle = next } }
        ensures query { self.new.query ≡ self.old.query }
    {
        if let Some(handle) = self.handle.take() {
            self.left = Some(handle);
        }
        self.handle = next;
        self.offset = Offset::Start;
        self.cursor = None;
        self.rows = FoldedRows::new(self.alloc);
    }

    fn refetch(&mut self, named: Option<&Handle>) -> Result<Taken, TakeError>
        ensures meets { Meets (law.refetched (held_by self.old) (option_copied named.entry)) (held_by self.old) result (held_by self.new) }
        ensures query { self.new.query ≡ self.old.query }
    {
        let next = next_handle(self.alloc, self.leaving(), named)?;
        self.begin(next);
        Ok(Taken::Refetch)
    }

    fn fold_page(
        &mut self,
        handle: &Handle,
        end: Offset,
        cursor: Option<u64>,
        body: Body,
    ) -> Result<Taken, TakeError>
        ensures meets { Meets (law.with_rows (held_by self.old) handle.now end cursor body (fold_from body.entries self.old.rows)) (held_by self.old) result (held_by self.new) }
        ensures query { self.new.query ≡ self.old.query }
    {
        let handle = handle.copy(self.alloc)?;
        let Body { entries, control } = body;
        match self.rows.fold(entries.into_vec()) {
            Err(OutOfMemory) => {
                self.begin(None);
                Err(TakeError::OutOfMemory)
            }
            Ok(Some(fault)) => Err(TakeError::BadFold {
                offset: fault.offset,
                key: fault.key,
            }),
            Ok(None) => {
                self.handle = Some(handle);
                self.offset = end;
                if is_current(control) {
                    self.cursor = cursor;
                    Ok(Taken::UpToDate)
                } else {
                    self.cursor = None;
                    Ok(Taken::More)
                }
            }
        }
    }

    fn take_handle(
        &mut self,
        handle: &Handle,
        end: Offset,
        cursor: Option<u64>,
        body: Body,
    ) -> Result<Taken, TakeError>
        ensures meets { Meets (law.with_handle (held_by self.old) self.old.handle handle.now end cursor body) (held_by self.old) result (held_by self.new) }
        ensures query { self.new.query ≡ self.old.query }
    {
        if let Some(asked) = &self.handle {
            if !is_same_handle(asked, handle) {
                return Err(TakeError::ForeignHandle {
                    asked: asked.copy(self.alloc)?,
                    got: handle.copy(self.alloc)?,
                });
            }
        }
        self.fold_page(handle, end, cursor, body)
    }

    fn take_body(
        &mut self,
        handle: &Handle,
        end: Offset,
        cursor: Option<u64>,
        body: Body,
    ) -> Result<Taken, TakeError>
        ensures meets { Meets (law.with_parts (held_by self.old) cursor (Option.Some handle.now) (Option.Some end) (Option.Some body)) (held_by self.old) result (held_by self.new) }
        ensures query { self.new.query ≡ self.old.query }
    {
        if is_bad(self.offset, end, cursor, &body) {
            return Err(TakeError::BadReply);
        }
        self.take_handle(handle, end, cursor, body)
    }

    fn take_page(&mut self, reply: &Reply) -> Result<Taken, TakeError>
        ensures meets { (body : Option Read) → Says reply.now.body body → Meets (law.with_parts (held_by self.old) reply.now.cursor reply.now.handle reply.now.offset body) (held_by self.old) result (held_by self.new) }
        ensures query { self.new.query ≡ self.old.query }
    {
        let Some(handle) = &reply.handle else {
            return Err(TakeError::BadReply);
        };
        let Some(end) = reply.offset else {
            return Err(TakeError::BadReply);
        };
        let Some(body) = body_in(self.alloc, &reply.body)? else {
            return Err(TakeError::BadReply);
        };
        self.take_body(handle, end, reply.cursor, body)
    }

    fn take_by_status(&mut self, reply: &Reply) -> Result<Taken, TakeError>
        ensures meets { (body : Option Read) → Says reply.now.body body → Meets (law.take_reply (held_by self.old) reply.now body) (held_by self.old) result (held_by self.new) }
        ensures query { self.new.query ≡ self.old.query }
    {
        if reply.status == 409 {
            return self.refetch(reply.handle.as_ref());
        }
        if reply.status != 200 {
            return Err(TakeError::ServerRefused {
                status: reply.status,
            });
        }
        if comes_back(
            self.handle.as_ref(),
            self.left.as_ref(),
            reply.handle.as_ref(),
        ) {
            return self.refetch(None);
        }
        self.take_page(reply)
    }

    /// Takes a reply to its last request.
    ///
    /// A status other than 200 and 409 is `ServerRefused`. A 409 is `Refetch`: the rows are gone, and the client has the handle that it names, if that is above the one
    /// that was left. A 200 is taken as a 409 that names none where the client has no handle and it names the one that was left, or one before it. Any other 200 is
    /// `BadReply` where it lacks a handle, an offset or a body, says must-refetch, ends up to date without a cursor, or its offsets do not rise from the client's to its own;
    /// `ForeignHandle` where its handle is not the present one; `BadFold` at the first entry that the rows cannot take; and else `UpToDate` or `More`.
    ///
    /// A refusal leaves the client as it was. After want of memory it is as it was, or has started again without a handle.
    pub fn take(&mut self, reply: &Reply) -> Result<Taken, TakeError>
        ensures meets { (body : Option Read) → Says reply.now.body body → Meets (law.take_reply (held_by self.old) reply.now body) (held_by self.old) result (held_by self.new) }
        ensures lawful { IsLawfulTake (held_by self.old) reply.now result (held_by self.new) }
        ensures query { self.new.query ≡ self.old.query }
    {
        self.take_by_status(reply)
    }
}
