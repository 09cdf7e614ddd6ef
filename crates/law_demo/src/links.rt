ghost use Rattle.law_demo.specs.Links.{SettledScopesLink};

/// A law: each relocation of a scope has a value, wherever its members are, where each changes a word or copies an object that a later member defines, and each symbol, but symbol 0, is a definition in the memory of a PT_LOAD or a weak reference.
pub fn settled_scopes_link()
    ensures { SettledScopesLink }
{}
