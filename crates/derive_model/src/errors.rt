//! Why items make no module, and why values aren't read or judged.
use attr_parts::Diagnostic;
use locations::Location;

/// Why items make no module.
#[derive(Drop)]
pub enum ModuleError {
    /// Memory ran out.
    Memory,
    /// What is wrong with the items' attributes.
    Diagnostics(Vec<Diagnostic>),
    /// The first item that leaves the forms of the reader.
    Form { item: u32 },
}

/// Why there is no typed value.
#[derive(Debug, Drop)]
pub enum ReadError {
    /// Memory ran out.
    Memory,
    /// The judge of texts failed.
    Texts,
    /// The value isn't read: the place where reading stops, by its steps in the value.
    Refused { path: Location },
}

/// Why there is no verdict.
#[derive(Debug, Drop)]
pub enum JudgeError {
    /// Memory ran out.
    Memory,
    /// The judge of texts failed.
    Texts,
}
