//! What a text includes.
use std::alloc::AllocError;

/// Want of memory, the only error of this crate.
pub type NoMemory = AllocError;

/// A header name ([lex.header]) that stands where an include directive or a query wants one: the bytes between its marks,
/// without the splices. The name may be empty.
#[derive(Debug, Drop)]
pub enum Include {
    /// `"NAME"`
    Quoted(Vec<u8>),
    /// `<NAME>`
    Angled(Vec<u8>),
}

/// What a text includes, in the order of the text. All branches of conditionals count.
#[derive(Debug, Drop)]
pub struct Directives {
    /// the names behind `include`, `include_next` and `import`, and in `__has_include` and `__has_include_next`
    pub list: Vec<Include>,
    /// whether the text may include what the list doesn't have, so that nobody may rely on the list
    pub hard: bool,
    /// whether the text has a raw literal, which C doesn't know
    pub raw: bool,
}
