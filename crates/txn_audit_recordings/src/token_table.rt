//! What tokens become, each by the path that it is of.
ghost use Rattle.std.specs.Prelude.{◌≡◌, Some, None, IfOk, OnOk};
ghost use Rattle.txn_audit_recordings.specs.Tokens.{IsOneToOne};
ghost use Rattle.txn_audit_recordings.specs.TokenTables.{renaming_in, IsUpTo, Extends};

use std::alloc::{AllocError, Global};
use std::collections::BTreeMap;
use txn_store::path::Path;
use txn_store::store::Token;

/// What each token of each path becomes: numbers from 1, in the order in which the tokens are first met.
#[derive(Drop)]
pub(crate) struct TokenTable {
    /// By a token and its path.
    pub becomes: BTreeMap<(u64, Path), u64>,
    /// The last that one became, 0 where there is none.
    pub last: u64,
    ghost one_to_one: { IsOneToOne (renaming_in becomes) },
    ghost up_to: { IsUpTo last (renaming_in becomes) },
}

impl TokenTable {
    /// Before the first token.
    pub fn new(alloc: Global) -> TokenTable {
        TokenTable {
            becomes: BTreeMap::new(alloc),
            last: 0,
        }
    }

    /// What a token of a path becomes that was not met before. The only error is want of memory, here and below.
    fn add(&mut self, key: (u64, Path)) -> Result<u64, AllocError>
        requires new { renaming_in self.old.becomes key.1 key.0 ≡ None }
        ensures kept { OnOk result (Extends (renaming_in self.old.becomes) (renaming_in self.new.becomes)) }
        ensures becomes { IfOk result (λ new. renaming_in self.new.becomes key.1 key.0 ≡ Some new) }
    {
        let Some(next) = self.last.checked_add(1) else {
            drop(key);
            return Err(AllocError);
        };
        self.becomes.insert(key, next)?;
        self.last = next;
        Ok(next)
    }

    /// What a token of a path becomes. It compares as many tokens as the number of those met has binary digits.
    ///
    /// # Errors
    ///
    /// Want of memory alone, for a token that was not met before. It is not met then.
    pub fn rename(&mut self, path: &Path, token: Token) -> Result<Token, AllocError>
        ensures kept { OnOk result (Extends (renaming_in self.old.becomes) (renaming_in self.new.becomes)) }
        ensures becomes { IfOk result (λ new. renaming_in self.new.becomes path.now token ≡ Some new) }
    {
        let key = (token.number(), path.try_clone()?);
        if let Some(new) = self.becomes.get(&key).copied() {
            drop(key);
            return Ok(Token::new(new));
        }
        Ok(Token::new(self.add(key)?))
    }
}
