//! The limit of a walk, and a version index of GNU symbol versioning.

/// The most members of a walk.
pub const MAX_MEMBERS: usize = 256;

/// Version index: the first version of an object that defines any. References without a version take it, where they find no symbol without one.
pub const FIRST_VERSION: u16 = 2;
