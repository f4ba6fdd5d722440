// The names that a file declares.
use sy_seq::Seq;
use sy_text_items::Name;

/// The name of a function to be found, and the names of its arguments.
#[derive(Drop)]
pub struct Title {
    pub name: Name,
    pub args: Seq<Name>,
}

/// The names of a file's functions, in order of declaration.
#[derive(Drop)]
pub struct Titles {
    /// The functions to be found.
    pub wanted: Seq<Title>,
    /// The definitions.
    pub defined: Seq<Name>,
}
