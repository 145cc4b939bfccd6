use wh_base::statements::BadScript;

/// Why no script was read.
#[derive(Clone, Copy, Debug, PartialEq, Eq)]
pub enum ScriptFault {
    /// The bytes aren't a script: what is wrong first, and on which line.
    Bad(BadScript),
    /// Memory ran out.
    Memory,
}
