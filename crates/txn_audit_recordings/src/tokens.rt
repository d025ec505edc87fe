//! Tokens of recordings, renamed: so that those of different paths differ.
ghost use Rattle.std.specs.Prelude.{◌≡◌, Some, None, Ok, IfOk, OnOk, map};
ghost use Rattle.std.specs.List.{AllZip};
ghost use Rattle.std.specs.Option.{option_copied};
ghost use Rattle.txn_store.specs.declared.request.Reply.TheVariants as replies;
ghost use Rattle.txn_audit_recordings.specs.Tokens.{Renaming, RenamesToken, RenamesMode, RenamesKnown, RenamesRequest, RenamesMeta, RenamesReply, RenamesRow, RenamesRows, RenamesTokens, path_of, path_asked};
ghost use Rattle.txn_audit_recordings.specs.TokenTables.{renaming_in, Extends};

use crate::row::RecordedRow;
use crate::token_table::TokenTable;
use std::alloc::{AllocError, Global};
use txn_store::page::{Listing, Page};
use txn_store::path::Path;
use txn_store::request::{Reply, Request};
use txn_store::store::{ObjectMeta, PutMode, Token};

/// The path of the one file that a request is about. The only error is want of memory, here and below.
fn path_of(request: &Request) -> Result<Option<Path>, AllocError>
    ensures { IfOk result (λ path. path ≡ path_of request.now) }
{
    match request {
        Request::Put { path, .. } | Request::Get { path, .. } | Request::Delete { path } => {
            Ok(Some(path.try_clone()?))
        }
        Request::List { .. } => Ok(None),
    }
}

/// The path of the file that a row asks about, if it asks about one.
fn path_asked<T>(row: &RecordedRow<T>) -> Result<Option<Path>, AllocError>
    ensures { IfOk result (λ path. path ≡ path_asked row.now) }
{
    match row {
        RecordedRow::Ask(_, _, request) => path_of(request),
        _ => Ok(None),
    }
}

impl TokenTable {
    /// What a token becomes, where its path is known.
    fn token(&mut self, path: Option<&Path>, token: Token) -> Result<Token, AllocError>
        ensures kept { OnOk result (Extends (renaming_in self.old.becomes) (renaming_in self.new.becomes)) }
        ensures renamed { IfOk result (λ new. (becomes : Renaming) → Extends (renaming_in self.new.becomes) becomes → RenamesToken becomes (option_copied path.entry) token new) }
    {
        match path {
            Some(path) => self.rename(path, token),
            None => Ok(token),
        }
    }

    /// What a put asks of its path.
    fn mode(&mut self, path: &Path, mode: PutMode) -> Result<PutMode, AllocError>
        ensures kept { OnOk result (Extends (renaming_in self.old.becomes) (renaming_in self.new.becomes)) }
        ensures renamed { IfOk result (λ new. (becomes : Renaming) → Extends (renaming_in self.new.becomes) becomes → RenamesMode becomes path.now mode new) }
    {
        match mode {
            PutMode::Update(token) => Ok(PutMode::Update(self.rename(path, token)?)),
            other => Ok(other),
        }
    }

    /// The token that a get knows.
    fn known(&mut self, path: &Path, known: Option<Token>) -> Result<Option<Token>, AllocError>
        ensures kept { OnOk result (Extends (renaming_in self.old.becomes) (renaming_in self.new.becomes)) }
        ensures renamed { IfOk result (λ new. (becomes : Renaming) → Extends (renaming_in self.new.becomes) becomes → RenamesKnown becomes path.now known new) }
    {
        match known {
            Some(token) => Ok(Some(self.rename(path, token)?)),
            None => Ok(None),
        }
    }

    /// Renames the tokens of a request.
    fn rename_request(&mut self, request: &mut Request) -> Result<(), AllocError>
        ensures kept { OnOk result (Extends (renaming_in self.old.becomes) (renaming_in self.new.becomes)) }
        ensures renamed { OnOk result ((becomes : Renaming) → Extends (renaming_in self.new.becomes) becomes → RenamesRequest becomes request.old request.new) }
    {
        match request {
            Request::Put { path, mode, .. } => *mode = self.mode(path, *mode)?,
            Request::Get {
                path,
                if_none_match,
            } => *if_none_match = self.known(path, *if_none_match)?,
            _ => {}
        }
        Ok(())
    }

    /// A file of a listing, renamed.
    fn meta(&mut self, meta: &ObjectMeta) -> Result<ObjectMeta, AllocError>
        ensures kept { OnOk result (Extends (renaming_in self.old.becomes) (renaming_in self.new.becomes)) }
        ensures renamed { IfOk result (λ new. (becomes : Renaming) → Extends (renaming_in self.new.becomes) becomes → RenamesMeta becomes meta.now new) }
    {
        let token = self.rename(&meta.location, meta.token)?;
        let location = meta.location.try_clone()?;
        Ok(ObjectMeta {
            location,
            token,
            ..*meta
        })
    }

    /// The files of a listing.
    fn metas(&mut self, alloc: Global, metas: &[ObjectMeta]) -> Result<Vec<ObjectMeta>, AllocError>
        ensures kept { OnOk result (Extends (renaming_in self.old.becomes) (renaming_in self.new.becomes)) }
        ensures renamed { IfOk result (λ new. (becomes : Renaming) → Extends (renaming_in self.new.becomes) becomes → AllZip (RenamesMeta becomes) metas.now new.items) }
    {
        let mut renamed = Vec::with_capacity(alloc, metas.len())?;
        for meta in metas {
            renamed.push(self.meta(meta)?)?;
        }
        Ok(renamed)
    }

    /// Renames the tokens of a page of a listing.
    fn rename_page(&mut self, alloc: Global, page: &mut Page) -> Result<(), AllocError>
        ensures kept { OnOk result (Extends (renaming_in self.old.becomes) (renaming_in self.new.becomes)) }
        ensures renamed { OnOk result ((becomes : Renaming) → Extends (renaming_in self.new.becomes) becomes → AllZip (RenamesMeta becomes) page.old.metas page.new.metas) }
        ensures more { page.new.more ≡ page.old.more }
    {
        let metas = self.metas(alloc, page.metas.as_slice())?;
        page.metas = Listing::from_vec(metas);
        Ok(())
    }

    /// Renames the tokens of a reply, by the path of the file that was asked about.
    fn rename_reply(
        &mut self,
        alloc: Global,
        path: Option<&Path>,
        reply: &mut Reply,
    ) -> Result<(), AllocError>
        ensures kept { OnOk result (Extends (renaming_in self.old.becomes) (renaming_in self.new.becomes)) }
        ensures renamed { OnOk result ((becomes : Renaming) → Extends (renaming_in self.new.becomes) becomes → RenamesReply becomes (option_copied path.entry) reply.old reply.new) }
    {
        match reply {
            Reply::Put(Ok(token)) => *token = self.token(path, *token)?,
            Reply::Get(Ok(got)) => got.token = self.token(path, got.token)?,
            Reply::List(Ok(page)) => self.rename_page(alloc, page)?,
            _ => {}
        }
        Ok(())
    }

    /// Renames the tokens of a row, by the path of the file that the row before it asks about.
    fn rename_row<T>(
        &mut self,
        alloc: Global,
        path: Option<&Path>,
        row: &mut RecordedRow<T>,
    ) -> Result<(), AllocError>
        ensures kept { OnOk result (Extends (renaming_in self.old.becomes) (renaming_in self.new.becomes)) }
        ensures renamed { OnOk result ((becomes : Renaming) → Extends (renaming_in self.new.becomes) becomes → RenamesRow becomes (option_copied path.entry) row.old row.new) }
    {
        match row {
            RecordedRow::Ask(_, _, request) => self.rename_request(request),
            RecordedRow::Reply(_, _, reply) => self.rename_reply(alloc, path, reply),
            _ => Ok(()),
        }
    }

    /// Renames the tokens of the rows of one client.
    fn rename_rows<T>(
        &mut self,
        alloc: Global,
        rows: &mut Vec<RecordedRow<T>>,
    ) -> Result<(), AllocError>
        ensures kept { OnOk result (Extends (renaming_in self.old.becomes) (renaming_in self.new.becomes)) }
        ensures renamed { OnOk result ((becomes : Renaming) → Extends (renaming_in self.new.becomes) becomes → RenamesRows becomes None rows.old.items rows.new.items) }
    {
        let mut path = None;
        for row in rows.iter_mut() {
            let asked = path_asked(row)?;
            self.rename_row(alloc, path.as_ref(), row)?;
            path = asked;
        }
        Ok(())
    }
}

/// Renames the tokens of recordings: each becomes another, by the path of its file, wherever it stands.
///
/// # Errors
///
/// Want of memory alone. A front of the rows has new tokens then.
pub fn rename_tokens<T>(
    alloc: Global,
    recordings: &mut Vec<Vec<RecordedRow<T>>>,
) -> Result<(), AllocError>
    ensures { OnOk result (RenamesTokens (map (λ rows. rows.items) recordings.old.items) (map (λ rows. rows.items) recordings.new.items)) }
{
    let mut table = TokenTable::new(alloc);
    for rows in recordings.iter_mut() {
        table.rename_rows(alloc, rows)?;
    }
    Ok(())
}
