//! A result of an indexed log. A member is searched for only if a member has a name of that length: most of the members
//! that are read are missing in most results.
ghost use Rattle.std.specs.Prelude.{◌≡◌, ◌<◌, Ok, Err, IfOk, false, map, None, option_map};
ghost use Rattle.serde_json.specs.Find.{get, as_str};
ghost use Rattle.json_parts.specs.Indexed.{data_of};
ghost use Rattle.sarif_read.specs.Internal.Listed.{value_at};
ghost use Rattle.sarif_model.specs.Internal.Refusal.{IfFault};
ghost use Rattle.sarif_model.specs.Members as said;
ghost use Rattle.sarif_model.specs.Members.{◌>>=◌ as and_then, result_map};
ghost use Rattle.sarif_members.specs.Internal.Marked.{mark_of, AreMarked};

use crate::node_members::{
    first_object_in, index_in, kept_member, member_at, object_in, objects_in, text_in, text_of,
};
use crate::passing::{members_in, take_member};
use json_parts::Node;
use sarif_model::{Fault, Refusal};
use std::alloc::Global;
use std::marker::Model;

/// The number of the last mark. Names of at least this length share it.
const LAST_MARK: usize = 31;

/// A result of an indexed log. Contracts see its tokens.
#[derive(Drop)]
pub(crate) struct ResultNode<'r, 't: 'r, 'a: 't> {
    node: &'r Node<'t, 'a>,
    /// Whether a member has a name of that length.
    marks: [bool; LAST_MARK + 1],
}

impl<'r, 't: 'r, 'a: 't> Model for ResultNode<'r, 't, 'a> {
    ghost use Rattle.std.specs.Prelude.{List};
    ghost use Rattle.json.specs.Token.{Token, tokens_code};
    ghost use Rattle.json_parts.specs.Indexed.{data_of};
    ghost use Rattle.sarif_members.specs.Internal.Marked.{AreMarked};

    ghost Value = { List Token };

    ghost coded = { tokens_code };

    ghost view = { λ r. r.node.now };

    ghost invariant = { λ r. AreMarked r.marks (data_of r.node.now) };
}

/// The number of the mark of a name.
fn mark_of(name: &str) -> usize
    ensures value { result ≡ mark_of name.now }
    ensures within { result < 32 }
{
    let len = name.len();
    if len < LAST_MARK { len } else { LAST_MARK }
}

/// The marks of the names of the members; a value that is not an object has none.
fn marks_of(node: &Node<'_, '_>) -> [bool; LAST_MARK + 1]
    ensures { AreMarked result (data_of node.now) }
{
    let mut marks = [false; LAST_MARK + 1];
    let Some(mut members) = members_in(node) else {
        return marks;
    };
    'members: while let Some((name, _value)) = take_member(&mut members) {
        marks[mark_of(name)] = true;
    }
    marks
}

impl<'r, 't: 'r, 'a: 't> ResultNode<'r, 't, 'a> {
    /// The result of this node.
    pub(crate) fn new(node: &'r Node<'t, 'a>) -> ResultNode<'r, 't, 'a>
        ensures { result ≡ node.now }
    {
        let marks = marks_of(node);
        ResultNode { node, marks }
    }

    /// Whether a member may have this name.
    fn may_have(&self, name: &str) -> bool
        ensures { result ≡ false → get name.now (data_of self.now) ≡ None }
    {
        self.marks[mark_of(name)]
    }

    /// The member `name`, where stripping leaves it.
    #[tactic(auto, using(crate::proofs::Marked::unmarked_steps))]
    pub(crate) fn kept_member(&self, name: &str) -> Option<Node<'t, 'a>>
        ensures { option_map value_at result ≡ get name.now (value_at self.now) }
    {
        if self.may_have(name) {
            kept_member(self.node, name)
        } else {
            None
        }
    }

    /// The member `name`, where stripping leaves it and it is not null.
    #[tactic(auto, using(crate::proofs::Marked::unmarked_steps))]
    pub(crate) fn member_at(&self, name: &str) -> Option<Node<'t, 'a>>
        ensures { option_map value_at result ≡ said.member_at name.now (value_at self.now) }
    {
        if self.may_have(name) {
            member_at(self.node, name)
        } else {
            None
        }
    }

    /// The string `name`, where stripping leaves a member of that name and it is a string.
    pub(crate) fn kept_text(&self, name: &str) -> Option<&'a str>
        ensures { option_map (λ s. s.now) result ≡ said.text_in name.now (value_at self.now) }
    {
        text_of(&self.kept_member(name)?)
    }
    /// The string `name`; `None` if the member is missing or null. Returns `wrong` if it is not a string.
    pub(crate) fn text_at(&self, name: &str, wrong: Fault) -> Result<Option<&'a str>, Fault>
        ensures { result_map (option_map (λ s. s.now)) result
            ≡ said.text_at wrong name.now (value_at self.now) }
    {
        text_in(self.member_at(name), wrong)
    }

    /// The object `name`; `None` if the member is missing or null. Returns `wrong` if it is not an object.
    pub(crate) fn object_at(&self, name: &str, wrong: Fault) -> Result<Option<Node<'t, 'a>>, Fault>
        ensures { result_map (option_map value_at) result
            ≡ said.object_at wrong name.now (value_at self.now) }
    {
        object_in(self.member_at(name), wrong)
    }

    /// The index `name`: an integer from 0 to 2^32 - 1; `None` if the member is missing, null or -1. Returns `wrong` if it
    /// is anything else.
    pub(crate) fn index_at(&self, name: &str, wrong: Fault) -> Result<Option<u32>, Fault>
        ensures { result ≡ said.index_at wrong name.now (value_at self.now) }
    {
        index_in(self.member_at(name), wrong)
    }

    /// The elements of the array of objects `name`; none if the member is missing or null. Returns `wrong` if the member
    /// is not an array, or an element is not an object.
    pub(crate) fn objects_at(
        &self,
        alloc: Global,
        name: &str,
        wrong: Fault,
    ) -> Result<Vec<Node<'t, 'a>>, Refusal<Fault>>
        ensures ok { IfOk result (λ nodes. said.objects_at wrong name.now (value_at self.now)
            ≡ Ok (map value_at nodes.items)) }
        ensures err { IfFault result
            (λ fault. said.objects_at wrong name.now (value_at self.now) ≡ Err fault) }
    {
        objects_in(alloc, self.member_at(name), wrong)
    }

    /// The first element of the array `name`; `None` if the member is missing or null, or has no elements. Returns
    /// `wrong` if the member is not an array, or the element is not an object, even if it is null.
    pub(crate) fn first_object_at(
        &self,
        name: &str,
        wrong: Fault,
    ) -> Result<Option<Node<'t, 'a>>, Fault>
        ensures { result_map (option_map value_at) result
            ≡ and_then (said.elements_at wrong name.now (value_at self.now))
            (λ ds. said.if_object wrong (said.first_of ds)) }
    {
        first_object_in(self.member_at(name), wrong)
    }
}
