//! The commands of the program, as its callers pass them in.

/// The arguments of a create.
#[derive(Debug, Drop)]
pub struct CreateArgs {
    /// The slice size in bytes.
    pub slice: u64,
    /// The number of recovery slices.
    pub count: u32,
    /// The exponent of the first recovery slice.
    pub first: u32,
    /// The name of the index file.
    pub base: String,
    /// The names of the files to protect.
    pub inputs: Vec<String>,
    /// Whether existing outputs are replaced.
    pub overwrite: bool,
}

/// A command that changes a folder or its history.
#[derive(Debug, Drop)]
pub enum Action {
    Create(CreateArgs),
    Repair {
        base: String,
        extras: Vec<String>,
        purge: bool,
    },
    Purge {
        base: String,
    },
    Undo,
    Redo,
}

/// The command of one run of the program. Definitions call it an action; their command is what `Do` holds.
#[derive(Debug, Drop)]
pub enum Command {
    Verify { base: String, extras: Vec<String> },
    Act(Action),
}
