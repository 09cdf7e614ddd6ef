// Where the searches for the names of a member's symbols begin, found for all of them at once.
ghost use Rattle.std.specs.Prelude.{◌<◌, length};

use crate::Scope;
use crate::definers::pair;
use crate::entries::Entry;
use crate::short_index::{member_of, mixed};
use crate::sorted::{Sorted, place_ahead};
use pl_hash::gnu_hash;
use pl_sym::Symbol;
use std::alloc::{AllocError, Global};

/// The search for the name of a symbol in one list of definers.
#[derive(Clone, Copy)]
struct Search {
    /// The mixed hash of the name; 0 where the symbol is defined.
    hash: u32,

    /// Where it goes on; none where the symbol is defined, or where a name of another size stands there: then it begins as any other does.
    place: Option<u32>,
}

/// Where the searches for the names of a member's undefined symbols begin in one list of definers. A search begun there finds the same as any other, so nothing is claimed of the places.
#[derive(Drop)]
pub struct Ahead {
    member: u32,

    /// One for each symbol, or none at all.
    searches: Vec<Search>,
}

/// The search for a symbol's name, begun where the table says.
fn search_for(definers: &Sorted, symbol: &Symbol) -> Search {
    if symbol.is_undefined() {
        let hash = mixed(gnu_hash(symbol.name.as_slice()));
        let place = Some(definers.starts.place_of(hash));
        Search { hash, place }
    } else {
        Search {
            hash: 0,
            place: None,
        }
    }
}

/// The searches for the names of symbols. Of the index the loop reads the table alone, so that the processor waits for many of its places at once.
fn searches_for(
    alloc: Global,
    definers: &Sorted,
    symbols: &[Symbol],
) -> Result<Vec<Search>, AllocError> {
    let mut searches = Vec::with_capacity(alloc, symbols.len())?;
    for symbol in symbols {
        searches.push(search_for(definers, symbol))?;
    }
    Ok(searches)
}

/// Takes the searches on to the first entries under their hashes. The loop reads the list alone.
fn advance(definers: &Sorted, searches: &mut [Search]) {
    for search in searches.iter_mut() {
        if let Some(place) = search.place {
            search.place = Some(place_ahead(definers, place, pair(search.hash, 0)));
        }
    }
}

/// The symbol of an entry, where the scope has it.
fn symbol_of<'a>(scope: &Scope<'a>, entry: &Entry) -> Option<&'a Symbol> {
    let member = member_of(entry);
    if member < scope.count() {
        let symbols = scope.object(member).symbols.as_slice();
        symbols.get(entry.value as usize)
    } else {
        None
    }
}

/// How many bytes the name of the symbol has to which a search has come, if it has come to one.
fn name_size(scope: &Scope<'_>, definers: &Sorted, search: Search) -> Option<usize> {
    let entry = definers.entries.as_slice().get(search.place? as usize)?;
    let symbol = symbol_of(scope, entry)?;
    Some(symbol.name.as_slice().len())
}

/// Gives up the places where names of another size stand. The loop reads the symbols of definers, which the look-ups then find in the processor's caches.
fn check_names(scope: &Scope<'_>, definers: &Sorted, symbols: &[Symbol], searches: &mut [Search]) {
    for (search, symbol) in searches.iter_mut().zip(symbols) {
        let same = name_size(scope, definers, *search) == Some(symbol.name.as_slice().len());
        search.place = if same { search.place } else { None };
    }
}

impl Ahead {
    /// No places.
    pub fn none(alloc: Global) -> Ahead {
        Ahead {
            member: 0,
            searches: Vec::new(alloc),
        }
    }

    /// The places where the searches for the names of a member's symbols begin. It fails only for want of memory.
    pub fn of(
        alloc: Global,
        scope: &Scope<'_>,
        definers: &Sorted,
        member: u32,
    ) -> Result<Ahead, AllocError>
        requires { member < length scope.now }
    {
        let symbols = scope.object(member).symbols.as_slice();
        let mut searches = searches_for(alloc, definers, symbols)?;
        advance(definers, &mut searches);
        check_names(scope, definers, symbols, &mut searches);
        Ok(Ahead { member, searches })
    }

    /// Where the search for the name of a member's symbol begins, if that was found.
    pub fn place_of(&self, member: u32, symbol: u32) -> Option<u32> {
        if member != self.member {
            return None;
        }
        self.searches.as_slice().get(symbol as usize)?.place
    }
}
