//! The suppressions of a result of an indexed log.
ghost use Rattle.std.specs.Prelude.{◌≡◌, Ok, Err, IfOk, map};
ghost use Rattle.sarif_model.specs.Members.{read_each};
ghost use Rattle.sarif_model.specs.Suppression.{check_suppression_kind, status_of};
ghost use Rattle.sarif_read.specs.Internal.Listed.{value_at};
ghost use Rattle.sarif_members.specs.OwnMembers.{own_statuses};
ghost use Rattle.sarif_model.specs.Internal.Refusal.{IfFault};

use crate::node_members::{member_at, text_if_there, text_of};
use crate::result_node::ResultNode;
use json_parts::Node;
use sarif_model::{Fault, Refusal, Sequence, Status};
use std::alloc::Global;

/// Returns `BadSuppression` if the `kind` of a suppression is not one of its two strings.
fn check_kind(suppression: &Node<'_, '_>) -> Result<(), Fault>
    ensures { result ≡ check_suppression_kind (value_at suppression.now) }
{
    match text_if_there(suppression, "kind") {
        Some("inSource" | "external") => Ok(()),
        _ => Err(Fault::BadSuppression),
    }
}

/// The status of a suppression; accepted if it is missing.
fn read_status(suppression: &Node<'_, '_>) -> Result<Status, Fault>
    ensures { result ≡ status_of (value_at suppression.now) }
{
    check_kind(suppression)?;
    match member_at(suppression, "status") {
        None => Ok(Status::Accepted),
        Some(member) => {
            let status = text_of(&member).and_then(Status::from_name);
            status.ok_or(Fault::BadSuppression)
        }
    }
}

/// The statuses of these suppressions, in order.
#[tactic(auto, using(sarif_model::proofs::ReadEach::read_steps))]
fn statuses_of(
    alloc: Global,
    suppressions: &[Node<'_, '_>],
) -> Result<Sequence<Status>, Refusal<Fault>>
    ensures ok { IfOk result
        (λ held. read_each status_of (map value_at suppressions.now) ≡ Ok held) }
    ensures err { IfFault result
        (λ fault. read_each status_of (map value_at suppressions.now) ≡ Err fault) }
{
    let mut held = Sequence::new(alloc);
    for suppression in suppressions {
        held.push(read_status(suppression)?)?;
    }
    Ok(held)
}

/// The statuses of the suppressions of a result, in order, or `BadSuppression` (SARIF 2.1.0,
/// result object, "suppressions property").
#[tactic(auto, unfolding(crate::specs::OwnMembers::own_statuses))]
pub(super) fn read_statuses(
    alloc: Global,
    found: &ResultNode<'_, '_, '_>,
) -> Result<Sequence<Status>, Refusal<Fault>>
    ensures ok { IfOk result (λ held. own_statuses (value_at found.now) ≡ Ok held) }
    ensures err { IfFault result (λ fault. own_statuses (value_at found.now) ≡ Err fault) }
{
    let suppressions = found.objects_at(alloc, "suppressions", Fault::BadSuppression)?;
    statuses_of(alloc, suppressions.as_slice())
}
