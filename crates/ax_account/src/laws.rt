//! What holds of the accounts at every moment. It is the contract of a function that does nothing, which a caller's proof may cite.
ghost use Rattle.ax_account.specs.Accounts.{AreSound};

use crate::accounting::Accounting;

/// Each idle key has no owner and a mark in front, and stands once among the idle keys. The accounts list just the keys that aren't free.
pub fn accounts_law(accounts: &Accounting)
    ensures { AreSound accounts.now }
{
    let _ = &accounts.alloc;
}
