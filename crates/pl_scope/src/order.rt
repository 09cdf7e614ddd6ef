ghost use Rattle.std.specs.Prelude.{◌≡◌, ◌≤◌, length, take, find, slice_get, None, Ok, Err, IsSome, IfOk, IfErr, IfNone, OnOk, OnErr};
ghost use Rattle.std.specs.List.{list_any};
ghost use Rattle.std.specs.Option.{option_map};
ghost use Rattle.std.specs.Str.{bytes_eq};
ghost use Rattle.pl_base.specs.Answers.{Answers};
ghost use Rattle.pl_base.specs.Each.{run};
ghost use Rattle.pl_scope.specs.Walking.{wants, IsWalking};
ghost use Rattle.pl_scope.specs.Walk as spec;

use crate::{MAX_MEMBERS, WalkFault};
use pl_base::Text;
use pl_io::NoMemory;
use pl_object::Object;
use std::alloc::Global;
use std::marker::Model;

/// A walk that is under way (gABI chapter 5, "Shared Object Dependencies"): it tells whose object it wants next, and is given one object after the other. Contracts see it as the names so far, how many of them were given their objects, and whether one of these objects is a program.
#[derive(Drop)]
pub struct Order {
    names: Vec<Text>,
    given: usize,
    program: bool,
}

impl Model for Order {
    ghost use Rattle.pl_scope.specs.Walking.{Walking, IsWalking};

    ghost Value = { Walking };

    ghost view = { λ o. record { names = o.names.items; given = o.given; program = o.program } };

    ghost invariant = { λ o. IsWalking (record { names = o.names.items; given = o.given; program = o.program }) };
}

fn is_same(name: &str, other: &str) -> bool
    ensures { result ≡ bytes_eq name.now other.now }
{
    name == other
}

fn is_among(names: &[Text], name: &str) -> bool
    ensures { result ≡ list_any (λ other. bytes_eq other name.now) names.now }
{
    names.iter().any(|other| is_same(other.as_str(), name))
}

fn first_of_name<'a>(names: &'a [Text], name: &str) -> Option<&'a Text>
    ensures { option_map (λ n. n.now) result ≡ find (λ n. bytes_eq n name.now) names.now }
{
    names.iter().find(|other| is_same(other.as_str(), name))
}

fn name_at(names: &[Text], index: usize) -> Option<&Text>
    ensures { option_map (λ n. n.now) result ≡ slice_get names.now index }
{
    names.get(index)
}

fn needed_program<'a>(program: Option<&str>, needed: &'a [Text]) -> Option<&'a Text>
    ensures { option_map (λ n. n.now) result ≡ spec.needed_program
        (option_map (λ n. n.now) program.entry) needed.now }
{
    match program {
        None => None,
        Some(program) => first_of_name(needed, program),
    }
}

/// Adds a name at the end, where it is new. After a fault the names are as before.
#[tactic(auto, unfolding(crate::specs::Walk::added))]
fn add(alloc: Global, names: &mut Vec<Text>, name: &Text) -> Result<(), WalkFault>
    ensures ok { OnOk result (spec.added names.old.items name.now ≡ Ok names.new.items) }
    ensures err { IfErr result (λ fault. Answers spec.is_memory (Err fault)
        (spec.added names.old.items name.now)) }
    ensures unchanged { OnErr result (names.new.items ≡ names.old.items) }
{
    if is_among(names, name.as_str()) {
        return Ok(());
    }
    let copy = Text::copy_of(alloc, name.as_str())?;
    if names.len() >= MAX_MEMBERS {
        return Err(WalkFault::TooMany(copy));
    }
    names.push(copy)?;
    Ok(())
}

/// Adds needed names at the end, each where it is new. After a fault some of them may stand there.
fn add_each(alloc: Global, names: &mut Vec<Text>, needed: &[Text]) -> Result<(), WalkFault>
    ensures ok { OnOk result (run spec.added names.old.items needed.now ≡ Ok names.new.items) }
    ensures err { IfErr result (λ fault. Answers spec.is_memory (Err fault)
        (run spec.added names.old.items needed.now)) }
    ensures front { take (length names.old.items) names.new.items ≡ names.old.items }
    ensures few { spec.StayFew names.old.items names.new.items }
{
    for name in needed {
        add(alloc, names, name)?;
    }
    Ok(())
}

/// Adds needed names at the end, each where it is new. After a fault the names are as before.
fn append(alloc: Global, names: &mut Vec<Text>, needed: &[Text]) -> Result<(), WalkFault>
    ensures ok { OnOk result (run spec.added names.old.items needed.now ≡ Ok names.new.items) }
    ensures err { IfErr result (λ fault. Answers spec.is_memory (Err fault)
        (run spec.added names.old.items needed.now)) }
    ensures unchanged { OnErr result (names.new.items ≡ names.old.items) }
    ensures more { length names.old.items ≤ length names.new.items }
    ensures few { spec.StayFew names.old.items names.new.items }
{
    let before = names.len();
    match add_each(alloc, names, needed) {
        Ok(()) => Ok(()),
        Err(fault) => {
            names.truncate(before);
            Err(fault)
        }
    }
}

impl Order {
    /// The walk of a name that was given no object yet. It fails only for want of memory.
    pub fn new(alloc: Global, name: &str) -> Result<Order, NoMemory>
        ensures begun { IfOk result (λ order. order ≡ spec.begun name.now) }
        // the walk of the name is still to come
        ensures begins { IfOk result (spec.BeginsEveryWalk name.now) }
    {
        let mut names = Vec::new(alloc);
        names.push(Text::copy_of(alloc, name)?)?;
        Ok(Order {
            names,
            given: 0,
            program: false,
        })
    }

    /// The name whose object comes next. None exactly where every name was given its object.
    pub fn wants(&self) -> Option<&str>
        ensures name { option_map (λ name. name.now) result ≡ wants self.now }
        ensures all { IfNone result (self.now.given ≡ length self.now.names) }
        ensures walking { IsWalking self.now }
        // what was walked so far is then the whole walk
        ensures ends { IfNone result (spec.EndsEveryWalk self.now) }
    {
        match name_at(self.names.as_slice(), self.given) {
            None => None,
            Some(name) => Some(name.as_str()),
        }
    }

    /// The first name, where it is a program's.
    fn program_name(&self) -> Option<&str>
        ensures { option_map (λ name. name.now) result ≡ spec.program_name self.now }
    {
        if !self.program {
            return None;
        }
        match name_at(self.names.as_slice(), 0) {
            None => None,
            Some(name) => Some(name.as_str()),
        }
    }

    /// Refuses the object of the wanted name, where it may not be needed or needs the program.
    #[tactic(auto, unfolding(crate::specs::Walk::checked))]
    fn check(&self, alloc: Global, name: &str, object: &Object) -> Result<(), WalkFault>
        ensures { Answers spec.is_memory result (spec.checked self.now name.now object.now) }
    {
        if self.given > 0 && !object.kind.is_library() {
            return Err(WalkFault::NeededIsProgram(Text::copy_of(alloc, name)?));
        }
        match needed_program(self.program_name(), object.needed.as_slice()) {
            None => Ok(()),
            Some(program) => Err(WalkFault::NeededIsProgram(Text::copy_of(
                alloc,
                program.as_str(),
            )?)),
        }
    }

    /// Gives the wanted name its object. After a fault the order is unchanged.
    #[tactic(auto, unfolding(crate::specs::Walk::entered))]
    fn enter(&mut self, alloc: Global, object: &Object) -> Result<(), WalkFault>
        requires wanted { IsSome (wants self.old) }
        ensures ok { OnOk result (spec.give self.old object.now ≡ Ok self.new) }
        ensures err { IfErr result (λ fault. Answers spec.is_memory (Err fault)
            (spec.give self.old object.now)) }
        ensures unchanged { OnErr result (self.new ≡ self.old) }
        ensures walking { IsWalking self.old }
    {
        let Some(name) = self.wants() else {
            return Ok(());
        };
        self.check(alloc, name, object)?;
        append(alloc, &mut self.names, object.needed.as_slice())?;
        self.given += 1;
        self.program = self.program || object.kind.is_program();
        Ok(())
    }

    /// Gives the wanted name its object. The names that the object needs are appended in their order, each where it is new.
    ///
    /// `NeededIsProgram` comes in two cases: the object is not the first and is no library (its own name), or it is not the first and needs the first, which is a program (the first's name). `TooMany` comes exactly where name number `MAX_MEMBERS` + 1 would be appended, with that name. `NotThere` does not come here. After a fault the order is unchanged.
    pub fn give(&mut self, alloc: Global, object: &Object) -> Result<(), WalkFault>
        requires wanted { IsSome (wants self.old) }
        ensures ok { OnOk result (spec.give self.old object.now ≡ Ok self.new) }
        ensures err { IfErr result (λ fault. Answers spec.is_memory (Err fault)
            (spec.give self.old object.now)) }
        ensures unchanged { OnErr result (self.new ≡ self.old) }
        // where the object is the file's of that name, the walk goes on with one member more
        ensures goes_on { OnOk result (spec.ContinuesEveryWalk self.old object.now self.new) }
    {
        self.enter(alloc, object)
    }
}
