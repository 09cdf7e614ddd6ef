use pl_base::Text;

/// An object that has thread-local storage (Drepper, "ELF Handling for Thread-Local Storage", variant II).
#[derive(Drop)]
pub struct TlsModule {
    /// The module's number, from 1.
    pub number: u64,

    /// How many bytes its block begins below the thread pointer.
    pub offset: u64,

    /// The name of the object's file.
    pub name: Text,
}
