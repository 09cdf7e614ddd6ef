// Look-ups whose answers are kept.
ghost use Rattle.std.specs.Prelude.{◌≡◌, ◌<◌, length, map, IfOk, IfSome};
ghost use Rattle.pl_scope.specs.Scope.{objects, IsReference, IsSymbol};
ghost use Rattle.pl_scope.specs.Finds.{finds};
ghost use Rattle.pl_scope.specs.Kept as spec;

use crate::ahead::Ahead;
use crate::answers::Answer;
use crate::lookup::{Way, find_by};
use crate::scope_index::{ScopeIndex, index_of};
use crate::short_index::{ShortIndex, short_index_of};
use crate::{Found, Reference, Scope};
use pl_io::NoMemory;
use pl_object::Object;
use std::alloc::{AllocError, Global};
use std::marker::Model;

/// The definers of all members.
#[derive(Drop)]
pub enum KeptIndex<'a> {
    /// In one list, where few share a hash.
    Short(ShortIndex<'a>),

    /// In lists for each member.
    Lists(ScopeIndex<'a>),
}

/// The look-ups of a scope whose answers are kept: one place for each member and symbol, for the class of relocations (JUMP_SLOT, COPY, every other) that asked last. An index of the definers of all members, by the hashes of their names, or by keys where many share a hash, tells a first look-up which members to ask, and which of their symbols. Contracts see it as the scope.
#[derive(Drop)]
pub struct Kept<'s, 'a> {
    scope: &'s Scope<'a>,

    /// The definers of all members.
    index: KeptIndex<'a>,

    rows: Vec<Vec<Answer>>,
}

impl<'s, 'a> Model for Kept<'s, 'a> {
    ghost use Rattle.std.specs.Prelude.{map};
    ghost use Rattle.pl_scope.specs.Walk.{Walked};
    ghost use Rattle.pl_scope.specs.Scope.{objects};
    ghost use Rattle.pl_scope.specs.Kept.{IsKeeping};

    ghost Value = { Walked };

    ghost view = { λ k. k.scope.now };

    ghost invariant = { λ k. IsKeeping (objects k.scope.now) k.index (map (λ row. row.items) k.rows.items) };
}

/// The definers of all members, in one list where few share a hash.
fn kept_index<'a>(alloc: Global, scope: &Scope<'a>) -> Result<KeptIndex<'a>, AllocError>
    ensures { IfOk result (spec.IsKeptIndex (objects scope.now)) }
{
    match short_index_of(alloc, scope)? {
        None => Ok(KeptIndex::Lists(index_of(alloc, scope)?)),
        Some(short) => Ok(KeptIndex::Short(short)),
    }
}

/// The way to search the members by an index.
fn way_by<'i, 'a>(index: &'i KeptIndex<'a>) -> Way<'i, 'a>
    ensures { spec.IsWayBy index.now result }
{
    match index {
        KeptIndex::Short(short) => Way::Short(short),
        KeptIndex::Lists(lists) => Way::Indexed(lists),
    }
}

/// Finds where the searches for the names of a member's symbols begin in one list.
fn look_ahead_in(
    alloc: Global,
    index: &mut KeptIndex<'_>,
    scope: &Scope<'_>,
    member: u32,
) -> Result<(), AllocError>
    requires within { member < length scope.now }
    requires index { spec.IsKeptIndex (objects scope.now) index.old }
    ensures { spec.IsKeptIndex (objects scope.now) index.new }
{
    match index {
        KeptIndex::Short(short) => short.ahead = Ahead::of(alloc, scope, &short.definers, member)?,
        KeptIndex::Lists(_) => (),
    }
    Ok(())
}

fn unasked_row(alloc: Global, object: &Object) -> Result<Vec<Answer>, AllocError>
    ensures { IfOk result (λ row. row.items ≡ spec.unasked_row object.now) }
{
    Vec::from_elem(alloc, Answer::Unasked, object.symbols.len())
}

/// A place for each symbol of each member.
fn unasked_rows(alloc: Global, scope: &Scope<'_>) -> Result<Vec<Vec<Answer>>, AllocError>
    ensures { IfOk result (λ rows. map (λ row. row.items) rows.items
        ≡ map spec.unasked_row (objects scope.now)) }
{
    let mut rows = Vec::new(alloc);
    for member in 0..scope.count() {
        rows.push(unasked_row(alloc, scope.object(member))?)?;
    }
    Ok(rows)
}

/// Keeps what a reference finds.
fn keep(scope: &Scope<'_>, rows: &mut [Vec<Answer>], reference: Reference, found: Option<Found>)
    requires kept { spec.IsKept (objects scope.now) (map (λ row. row.items) rows.old) }
    requires reference { IsReference scope.now reference }
    requires found { found ≡ finds (objects scope.now) reference }
    ensures { spec.IsKept (objects scope.now) (map (λ row. row.items) rows.new) }
{
    let row = &mut rows[reference.member as usize];
    row[reference.symbol as usize] = Answer::new(reference.kind, found);
}

impl<'s, 'a> Kept<'s, 'a> {
    /// The look-ups of a scope, of which none was asked yet. The time grows as `n log n` with the members' symbols. It fails only for want of memory.
    pub fn new(alloc: Global, scope: &'s Scope<'a>) -> Result<Kept<'s, 'a>, NoMemory>
        ensures { IfOk result (λ kept. kept ≡ scope.now) }
    {
        let index = kept_index(alloc, scope)?;
        let rows = unasked_rows(alloc, scope)?;
        Ok(Kept { scope, index, rows })
    }

    /// Finds where the look-ups of a member's references begin, for all its undefined symbols at once: each reads memory at places far apart, and the processor waits for many of them together. It decides the time of `find` alone, and holds until it is called for another member. It fails only for want of memory.
    pub fn look_ahead(&mut self, alloc: Global, member: u32) -> Result<(), NoMemory>
        requires { member < length self.old }
        ensures { self.new ≡ self.old }
    {
        look_ahead_in(alloc, &mut self.index, self.scope, member)?;
        Ok(())
    }

    /// The scope.
    pub fn scope(&self) -> &'s Scope<'a>
        ensures { result.now ≡ self.now }
    {
        self.scope
    }

    /// The symbol that a reference finds in the scope, as `find` gives it: the answer that is kept for its symbol and class, else that of a look-up, which is kept. None exactly where there is no definer. No memory is taken.
    pub fn find(&mut self, reference: Reference) -> Option<Found>
        requires { IsReference self.old reference }
        ensures exact { result ≡ finds (objects self.old) reference }
        ensures within { IfSome result (λ found. IsSymbol (objects self.old) found.member
            found.symbol) }
        ensures same { self.new ≡ self.old }
    {
        let answer = self.rows[reference.member as usize][reference.symbol as usize];
        if let Some(found) = answer.of(reference.kind) {
            return found;
        }
        let found = find_by(self.scope, reference, way_by(&self.index));
        keep(self.scope, &mut self.rows, reference, found);
        found
    }
}
