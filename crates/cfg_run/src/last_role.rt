//! The last of some receipts that is for a role.
ghost use Rattle.std.specs.Prelude.{◌≡◌, ◌++◌, ◌∷◌, [], option_to_list};
ghost use Rattle.std.specs.Option.{option_copied};
ghost use Rattle.cfg_run.specs.Roles.{IsLastRole, signer_in, signer_of as signer_of_it};

use cfg_types::{Credentials, Request};
use cfg_world::{Question, Receipt};

/// The place of the last receipt for a role, and how many for roles are before it.
#[derive(Clone, Copy)]
pub(crate) struct LastRole {
    pub(crate) at: usize,
    pub(crate) number: usize,
}

/// The last one for a role, with this receipt behind the others.
pub(crate) fn last_role_with(
    receipts: &[Receipt],
    last: Option<LastRole>,
    receipt: &Option<Receipt>,
) -> Option<LastRole>
    requires { IsLastRole last receipts.now }
    ensures { IsLastRole result (receipts.now ++ option_to_list receipt.now) }
{
    match receipt {
        Some(receipt) => behind(receipts, last, receipt),
        None => last,
    }
}

fn behind(receipts: &[Receipt], last: Option<LastRole>, receipt: &Receipt) -> Option<LastRole>
    requires { IsLastRole last receipts.now }
    ensures { IsLastRole result (receipts.now ++ receipt.now ∷ []) }
{
    if signer_of(receipt).is_none() {
        return last;
    }
    let at = receipts.len();
    match last {
        None => Some(LastRole { at, number: 0 }),
        Some(last) => Some(LastRole {
            at,
            number: last.number + 1,
        }),
    }
}

/// Whose credentials sign the question of this receipt, where it is for a role.
pub(crate) fn signer_of(receipt: &Receipt) -> Option<&Credentials>
    ensures { option_copied result ≡ signer_in receipt.now.0 }
{
    match receipt.entry().question() {
        Question::Send(request) => signer_of_request(request.get()),
        _ => None,
    }
}

fn signer_of_request(request: &Request) -> Option<&Credentials>
    ensures { option_copied result ≡ signer_of_it request.now }
{
    match request {
        Request::AssumeRole(role) => Some(&role.signer),
        _ => None,
    }
}
