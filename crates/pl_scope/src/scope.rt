ghost use Rattle.std.specs.Prelude.{◌≡◌, ◌<◌, ◌≤◌, Some, length, slice_get};
ghost use Rattle.std.specs.List.{All};
ghost use Rattle.pl_scope.specs.Scope as spec;

use crate::{MAX_MEMBERS, Member};
use pl_object::Object;
use std::marker::Model;

/// The objects in which symbols are looked up, in the order of the search; for a program, the program itself comes first. There are at most `MAX_MEMBERS`, and each is one that `accept` gave. Contracts see it as the list of the members' names with their objects.
#[derive(Drop)]
pub struct Scope<'a> {
    members: Vec<Member<'a>>,
}

impl<'a> Model for Scope<'a> {
    ghost use Rattle.pl_scope.specs.Walk.{Walked};
    ghost use Rattle.pl_scope.specs.Scope.{walked, objects, IsScope};

    ghost Value = { Walked };

    ghost view = { λ s. walked s.members.items };

    ghost invariant = { λ s. IsScope (objects (walked s.members.items)) };
}

impl<'a> Scope<'a> {
    /// The scope of members in their order. It takes no memory.
    #[tactic(auto, using(crate::proofs::MemberLaws::scope_of))]
    pub fn new(members: Vec<Member<'a>>) -> Scope<'a>
        requires few { length members.items ≤ MAX_MEMBERS }
        requires accepted { All (λ m. spec.IsAccepted m.object.now) members.items }
        ensures { result ≡ spec.walked members.entry.items }
    {
        Scope { members }
    }

    /// The members, lent.
    pub fn members(&self) -> &[Member<'a>]
        ensures members { spec.walked result.now ≡ self.now }
        ensures scope { spec.IsScope (spec.objects self.now) }
    {
        self.members.as_slice()
    }

    /// How many members there are.
    #[tactic(auto, using(crate::proofs::MemberLaws::length_walked))]
    pub fn count(&self) -> u32
        ensures count { result ≡ length self.now }
        ensures few { result ≤ MAX_MEMBERS }
    {
        self.members.len() as u32
    }

    /// The object of a member.
    #[tactic(auto, using(crate::proofs::MemberLaws::object_at))]
    pub fn object(&self, member: u32) -> &'a Object
        requires { member < length self.now }
        ensures object { slice_get (spec.objects self.now) member ≡ Some result.now }
        ensures fit { spec.IsFit result.now }
    {
        self.members[member as usize].object
    }
}
